// The cells of a store: what `entries` reads and writes there.
#![tactic(auto, using(entries::proofs::Cells::has_cell_true, state::proofs::Cells::value_length), unfolding(state::specs::Sizes::addresses, state::specs::Sizes::value_size, state::specs::Sizes::cell_size, state::specs::Sizes::store_size))]

ghost use Rattle.std.specs.Prelude.{◌≡◌, ◌*◌, length};
ghost use Rattle.lent.specs.Lent.{lies};
ghost use Rattle.state.specs.Sizes.{width, cell_size, store_size};
ghost use Rattle.state.specs.Cells.{value_at, stamp_at, write_cell};

use crate::address::Address;
use state::State;

// A store's bytes, which are as many as its cells have.
pub type Store = [u8; State::STORE];

// The part of the store that is an address's value. A look hands it out with its place, which an array would not tell: so the store is the slice that was lent.
pub fn value_part(store: &[u8], a: Address) -> &[u8]
    requires { length store.now ≡ store_size width }
    ensures { (result.now ≡ value_at width store.now a.index) × (result.ref_ptr ≡ lies store.entry (cell_size width * a.index)) }
{
    entries::value_part(store, a.index)
}

// The value that a store holds at an address.
pub fn value_at(store: &Store, a: Address) -> [u8; State::VALUE]
    ensures { result ≡ value_at width store.now a.index }
{
    <[u8; State::VALUE]>::try_from(value_part(store, a)).unwrap()
}

// The stamp that a store holds at an address.
pub fn stamp_at(store: &Store, a: Address) -> u16
    ensures { result ≡ stamp_at width store.now a.index }
{
    entries::stamp_at(store, a.index)
}

// Writes a value and a stamp to the cell of an address.
pub fn write(store: &mut Store, a: Address, value: [u8; State::VALUE], stamp: u16)
    ensures { store.new ≡ write_cell width store.old a.index value stamp }
{
    entries::write(store, a.index, value, stamp);
}
