// Why each call of the store is refused: the first of its rows of the table of numbers that holds, in the call's order. Where none holds the call is done.
#![tactic(auto, using(refusal::proofs::Rows::refused, refusal::proofs::Rows::passed, refusal::proofs::Rows::last), unfolding(state::specs::Access::add_rows, state::specs::Access::exchange_rows, state::specs::Access::remove_rows, state::specs::Access::look_rows, state::specs::Check::check_rows, state::specs::Sizes::addresses, state::specs::Sizes::value_size, state::specs::Sizes::cell_size, state::specs::Sizes::store_size, state::specs::Sizes::ceiling))]

ghost use Rattle.std.specs.Prelude.{◌≡◌, ◌∷◌, []};
ghost use Rattle.refusal.specs.Refusal.{first};
ghost use Rattle.refusal.specs.Told.{told};
ghost use Rattle.state.specs.Sizes.{width};
ghost use Rattle.state.specs.Access.{closed_row, store_row, address_row, add_rows, exchange_rows, remove_rows, look_rows};
ghost use Rattle.state.specs.Check.{check_rows};

use refusal::Refusal;
use state::State;

// What add, load, store and remove begin with.
fn addressed(s: State, store: &[u8], a: usize) -> Result<(), Refusal>
    ensures { told result ≡ first (closed_row s ∷ store_row width store.now ∷ address_row a ∷ []) }
{
    check(s, store)?;
    Refusal::Address.when(!(a < State::ADDRESSES))
}

// An add's. Beside an exchange it differs in one row: each reads as its rows do in the table.
pub fn add(s: State, store: &[u8], a: usize, value: &[u8]) -> Result<(), Refusal>
    ensures { told result ≡ first (add_rows width s store.now a value.now) }
{
    let used = marks::used(s.marks, a);
    addressed(s, store, a)?;
    Refusal::BufferSize.when(value.len() != State::VALUE)?;
    Refusal::InUse.when(used)?;
    Refusal::Ceiling.when(s.clock == State::CEILING)
}

// A load's or a store's, by its out buffer or its value.
pub fn exchange(s: State, store: &[u8], a: usize, buffer: &[u8]) -> Result<(), Refusal>
    ensures { told result ≡ first (exchange_rows width s store.now a buffer.now) }
{
    let used = marks::used(s.marks, a);
    addressed(s, store, a)?;
    Refusal::BufferSize.when(buffer.len() != State::VALUE)?;
    Refusal::NotInUse.when(!used)?;
    Refusal::Ceiling.when(s.clock == State::CEILING)
}

// A remove's.
pub fn remove(s: State, store: &[u8], a: usize) -> Result<(), Refusal>
    ensures { told result ≡ first (remove_rows width s store.now a) }
{
    addressed(s, store, a)?;
    Refusal::NotInUse.when(!marks::used(s.marks, a))
}

// A check's.
pub fn check(s: State, store: &[u8]) -> Result<(), Refusal>
    ensures { told result ≡ first (check_rows width s store.now) }
{
    Refusal::Closed.when(s.closed)?;
    Refusal::StoreSize.when(store.len() != State::STORE)
}

// A look's, which is not told: it gives no bytes instead.
pub fn look(store: &[u8], a: usize) -> Result<(), Refusal>
    ensures { told result ≡ first (look_rows width store.now a) }
{
    Refusal::StoreSize.when(store.len() != State::STORE)?;
    Refusal::Address.when(!(a < State::ADDRESSES))
}
