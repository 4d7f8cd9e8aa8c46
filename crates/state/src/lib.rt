// The trusted state: its type, its sizes and its constructor, and the answers of the calls that change it.
// What each call does is defined in specs/; the calls themselves are in the crate `store`.
#![tactic(auto)]

ghost use Rattle.std.specs.Prelude.{◌≡◌};
ghost use Rattle.refusal.specs.Told.{told};
ghost use Rattle.state.specs.Start.{started, start_of, fresh};

// Who calls the store names its refusals from here, and lists no crate for them.
pub use refusal::Refusal;

// The hash of a multiset: the exclusive-or of its tags, and how many elements it has, modulo 2^32.
#[derive(Clone, Copy)]
pub struct Hash {
    pub tag: [u8; State::TAG],
    pub number: u32,
}

// What keys a tag: all of the state that an entry's tag is made of.
#[derive(Clone, Copy)]
pub struct Seal {
    pub key: [u8; State::KEY],
}

#[derive(Clone, Copy)]
pub struct State {
    pub seal: Seal,
    pub put: Hash,
    pub take: Hash,
    pub clock: u16,
    pub fault: bool,
    // No Option of the address, and no type for each state of an open or closed one: what stands here where no fault is set, and in a closed state, is told too
    // (`Faulted`, `Rejected`), and C holds these numbers.
    // where fault is set: the address of the first take of the period whose stamp was ahead of the clock
    pub first: u16,
    pub closed: bool,
    pub marks: [u64; State::WORDS],
}

// What start gives. The state stands beside the answer, since a refused start gives one too: closed, and zeros everywhere else.
#[derive(Clone, Copy)]
pub struct Started {
    pub answer: Result<(), Refusal>,
    pub state: State,
}

// What a check says: it accepts; or it rejects, for a stamp that was ahead of the clock, first taken at this address, or else for its tags.
#[derive(Clone, Copy)]
pub enum Verdict {
    Accept,
    Stamp(u16),
    Tag,
}

// What a check that is not refused gives.
#[derive(Clone, Copy)]
pub struct Checked {
    pub verdict: Verdict,
    pub state: State,
}

impl State {
    pub const KEY: usize = 32;

    pub const TAG: usize = 32;

    pub const ADDRESSES: usize = 1024;

    pub const WORDS: usize = State::ADDRESSES / 64;

    pub const VALUE: usize = 28;

    pub const STAMP: usize = 2;

    pub const CELL: usize = State::VALUE + State::STAMP;

    pub const STORE: usize = State::CELL * State::ADDRESSES;

    pub const CEILING: u16 = 65535;

    // An open state under a key of 32 bytes; for any other key number 8, and a closed state of zeros.
    pub fn start(key: &[u8]) -> Started
        ensures { started (told result.answer) result.state ≡ start_of key.now }
    {
        match <[u8; State::KEY]>::try_from(key) {
            Ok(key) => Started {
                answer: Ok(()),
                state: empty(Seal { key }, false),
            },
            Err(_) => Started {
                answer: Err(Refusal::KeySize),
                state: empty(
                    Seal {
                        key: [0u8; State::KEY],
                    },
                    true,
                ),
            },
        }
    }
}

// The state with empty hashes, clock 0 and no mark.
fn empty(seal: Seal, closed: bool) -> State
    ensures { result ≡ fresh seal closed }
{
    let none = [0u8; State::TAG];
    State {
        seal,
        put: Hash {
            tag: none,
            number: 0,
        },
        take: Hash {
            tag: none,
            number: 0,
        },
        clock: 0,
        fault: false,
        first: 0,
        closed,
        marks: [0u64; State::WORDS],
    }
}
