// Why a call is refused: the table of numbers as a type. The order in which a call's rows are taken is defined in specs/.
#![tactic(auto)]

ghost use Rattle.std.specs.Prelude.{◌≡◌, cond, Ok, Err};
ghost use Rattle.refusal.specs.Told.{number_of, told};

// A row of the table.
#[derive(Clone, Copy)]
pub enum Refusal {
    StoreSize = 1,
    Address = 2,
    BufferSize = 3,
    InUse = 4,
    NotInUse = 5,
    Ceiling = 6,
    Closed = 7,
    KeySize = 8,
    NoneFree = 9,
    Bound = 10,
    RecordSize = 11,
    SpareBit = 12,
    Lengths = 13,
    PastLength = 14,
    NoMember = 15,
}

impl Refusal {
    // Its number in the table.
    pub fn number(self) -> u8
        ensures { result ≡ number_of self }
    {
        self as u8
    }

    // A row of a call: it is refused where this holds.
    pub fn when(self, holds: bool) -> Result<(), Refusal>
        ensures { result ≡ cond holds (Err self) (Ok tt) }
    {
        if holds {
            return Err(self);
        }
        Ok(())
    }
}

// The number of an answer: 0 where the call is done.
pub fn told(answer: Result<(), Refusal>) -> u8
    ensures { result ≡ told answer }
{
    match answer {
        Ok(()) => 0,
        Err(refusal) => refusal.number(),
    }
}
