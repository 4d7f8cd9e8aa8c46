// An element of the multisets as bytes: its cell, written and read in a store, its message, and its tag.
// Address, value and stamp are no struct: an address is any usize at a store, and two bytes in a message.
#![tactic(auto)]

ghost use Rattle.std.specs.Prelude.{◌≡◌, cond, [], ◌+◌, ◌*◌};
ghost use Rattle.lent.specs.Lent.{lies};
ghost use Rattle.state.specs.Sizes.{width, cell_size};
ghost use Rattle.state.specs.Cells.{entry, value_at, stamp_at, cell_of, write_cell};
ghost use Rattle.state.specs.Multiset.{message};
ghost use Rattle.entries.specs.Place.{has_cell};
ghost use Rattle.entries.specs.Tag.{tag_of};

use state::{Seal, State};

// The bytes of a cell: the value, then the stamp, most significant byte first.
pub fn cell(value: [u8; State::VALUE], stamp: u16) -> [u8; State::CELL]
    ensures { result ≡ cell_of width value stamp }
{
    let mut c = [0u8; State::CELL];
    lent::copy(&mut c[State::VALUE..State::CELL], &octets::bytes_2(stamp));
    lent::copy(&mut c, &value);
    c
}

// Is this a store, with a cell of the address? The three functions below ask it, and answer for any store and any address; none could fail, and so none gives a
// Result or asks for a type.
#[tactic(auto, unfolding(crate::specs::Place::has_cell, state::specs::Sizes::addresses, state::specs::Sizes::value_size, state::specs::Sizes::cell_size, state::specs::Sizes::store_size))]
fn has_cell(store: &[u8], a: usize) -> bool
    ensures { result ≡ has_cell width store.now a }
{
    store.len() == State::STORE && a < State::ADDRESSES
}

// The part of a store that is an address's value; no bytes where it has no such cell.
pub fn value_part(store: &[u8], a: usize) -> &[u8]
    ensures { (result.now ≡ cond (has_cell width store.now a) (value_at width store.now a) [])
        × (result.ref_ptr ≡ lies store.entry (cond (has_cell width store.now a) (cell_size width * a) 0)) }
{
    if has_cell(store, a) {
        let at = State::CELL * a;
        let end = at + State::VALUE;
        return &store[at..end];
    }
    &store[0..0]
}

// The stamp that a store holds at an address; 0 where it has no such cell.
pub fn stamp_at(store: &[u8], a: usize) -> u16
    ensures { result ≡ cond (has_cell width store.now a) (stamp_at width store.now a) 0 }
{
    if has_cell(store, a) {
        let at = State::CELL * a + State::VALUE;
        return octets::number_2(store[at], store[at + 1]);
    }
    0
}

// Writes a value and a stamp to the cell of an address, where the store has it.
pub fn write(store: &mut [u8], a: usize, value: [u8; State::VALUE], stamp: u16)
    ensures { store.new
        ≡ cond (has_cell width store.old a) (write_cell width store.old a value stamp) store.old }
{
    if has_cell(store, a) {
        let at = State::CELL * a;
        let end = at + State::CELL;
        lent::copy(&mut store[at..end], &cell(value, stamp));
    }
}

// Where the cell's bytes stand in a message, and the message's size.
const AFTER: usize = 3;

const MESSAGE: usize = AFTER + State::CELL;

// An entry's message: 01, the address, the cell's bytes.
pub fn message(a: u16, value: [u8; State::VALUE], stamp: u16) -> [u8; MESSAGE]
    ensures { result ≡ message width (entry a value stamp) }
{
    let mut m = [0u8; MESSAGE];
    let b = octets::bytes_2(a);
    m[0] = 1;
    m[1] = b[0];
    m[2] = b[1];
    lent::copy(&mut m[AFTER..MESSAGE], &cell(value, stamp));
    m
}

// An entry's tag: the HMAC of its message under the seal's key.
pub fn tag(seal: Seal, a: u16, value: [u8; State::VALUE], stamp: u16) -> [u8; State::TAG]
    ensures { result ≡ tag_of width seal (entry a value stamp) }
{
    hmac::tag(seal.key, &message(a, value, stamp))
}
