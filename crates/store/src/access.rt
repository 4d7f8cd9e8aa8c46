// Take and put, and what each call does that is not refused.
ghost use Rattle.std.specs.Prelude.{◌≡◌, [], ◌<◌};
ghost use Rattle.std.proofs.Math.Option.{none};
ghost use Rattle.state.specs.Sizes.{width, ceiling};
ghost use Rattle.state.specs.Cells.{entry, entry_at, write_entry};
ghost use Rattle.state.specs.TakePut.{seen, next, take_entry, put_entry};
ghost use Rattle.state.specs.Access.{added, loaded, stored, removed};
ghost use Rattle.entries.specs.Tag.{tag};

use crate::address::Address;
use crate::cells::Store;
use state::State;

// Take: the entry that the store holds joins the take hash; a stamp above the clock marks the fault, and the first one its address.
pub fn take(s: State, store: &Store, a: Address) -> State
    ensures { result ≡ take_entry tag s (entry_at width store.now a.index) }
{
    let value = crate::cells::value_at(store, a);
    let stamp = crate::cells::stamp_at(store, a);
    let h = multiset::with_tag(s.take, entries::tag(s.seal, a.index as u16, value, stamp));
    let mut r = State { take: h, ..s };
    if s.clock < stamp {
        if !s.fault {
            r.fault = true;
            r.first = a.index as u16;
        }
    }
    r
}

// Put of an entry: it is written to its cell and joins the put hash; the clock becomes its stamp.
pub fn put_entry(
    mut s: State,
    store: &mut Store,
    a: Address,
    value: [u8; State::VALUE],
    stamp: u16,
) -> State
    ensures { (result ≡ put_entry tag s (entry a.index value stamp))
        × (store.new ≡ write_entry width store.old (entry a.index value stamp)) }
{
    crate::cells::write(store, a, value, stamp);
    let h = multiset::with_tag(s.put, entries::tag(s.seal, a.index as u16, value, stamp));
    // field by field: a struct update takes 144 bytes of stack more, and a check then more than docs/CALLING.md has
    s.put = h;
    s.clock = stamp;
    s
}

// Put: the clock is raised by 1, and is the entry's stamp. That it is below the ceiling stays a clause: a struct around the state for that would be opened for each
// take and made again for the put after it.
fn put(s: State, store: &mut Store, a: Address, value: [u8; State::VALUE]) -> State
    requires { s.clock < ceiling width }
    ensures { (result ≡ put_entry tag s (next s a.index value))
        × (store.new ≡ write_entry width store.old (next s a.index value)) }
{
    let clock = s.clock + 1;
    put_entry(s, store, a, value, clock)
}

// Add: a put, and the mark set.
pub fn added(s: State, store: &mut Store, a: Address, value: [u8; State::VALUE]) -> State
    requires { s.clock < ceiling width }
    ensures { seen 0 none result store.new [] ≡ (added width tag s store.old a.index value).seen }
{
    let r = put(s, store, a, value);
    let marks = marks::with_mark(s.marks, a.index);
    State { marks, ..r }
}

// Store: a take, and a put of another value.
pub fn stored(s: State, store: &mut Store, a: Address, value: [u8; State::VALUE]) -> State
    requires { s.clock < ceiling width }
    ensures { seen 0 none result store.new [] ≡ (stored width tag s store.old a.index value).seen }
{
    let t = take(s, store, a);
    put(t, store, a, value)
}

// Load: a store of the value read, which is handed out.
pub fn loaded(s: State, store: &mut Store, a: Address, out: &mut [u8; State::VALUE]) -> State
    requires { s.clock < ceiling width }
    ensures { seen 0 none result store.new out.new ≡ (loaded width tag s store.old a.index).seen }
{
    let v = crate::cells::value_at(store, a);
    *out = v;
    stored(s, store, a, v)
}

// Remove: a take, zeros in the cell, the mark cleared.
pub fn removed(s: State, store: &mut Store, a: Address) -> State
    ensures { seen 0 none result store.new [] ≡ (removed width tag s store.old a.index).seen }
{
    let r = take(s, store, a);
    crate::cells::write(store, a, [0u8; State::VALUE], 0);
    let marks = marks::without_mark(s.marks, a.index);
    State { marks, ..r }
}
