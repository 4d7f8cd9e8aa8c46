// The store: values in bytes that the caller lends and nobody trusts, beside a trusted state that the caller holds.
// A call that is done gives the state after it; a refused one gives why, and leaves the caller's state and every lent byte as they were.
#![tactic(auto, using(state::proofs::Ready::add_ready, state::proofs::Ready::exchange_ready, state::proofs::Ready::remove_ready, state::proofs::Ready::check_ready, state::proofs::Ready::look_ready), unfolding(state::specs::Sizes::addresses, state::specs::Sizes::value_size, state::specs::Sizes::cell_size, state::specs::Sizes::store_size, state::specs::Sizes::ceiling))]

mod access;
mod address;
mod cells;
mod checks;

ghost use Rattle.std.specs.Prelude.{◌≡◌, []};
ghost use Rattle.lent.specs.Lent.{lies};
ghost use Rattle.state.specs.Sizes.{width};
ghost use Rattle.state.specs.Marks.{count_of};
ghost use Rattle.state.specs.TakePut.{moved, checked};
ghost use Rattle.state.specs.Access.{add_of, load_of, store_of, remove_of, look_of, look_from, lowest_of};
ghost use Rattle.state.specs.Check.{check_of};
ghost use Rattle.entries.specs.Tag.{tag};

use address::Address;
use refusal::Refusal;
use state::{Checked, State, Verdict};

// Puts a value at an address that is not in use, and marks it in use.
pub fn add(s: State, store: &mut [u8], a: usize, value: &[u8]) -> Result<State, Refusal>
    ensures { moved result s store.new [] ≡ (add_of width tag s store.old a value.now).seen }
{
    numbers::add(s, store, a, value)?;
    let store = store.as_mut_array().unwrap();
    let value = <[u8; State::VALUE]>::try_from(value).unwrap();
    Ok(access::added(s, store, Address { index: a }, value))
}

// Takes the value at an address in use, puts it back, and copies it out.
pub fn load(s: State, store: &mut [u8], a: usize, out: &mut [u8]) -> Result<State, Refusal>
    ensures { moved result s store.new out.new ≡ (load_of width tag s store.old a out.old).seen }
{
    numbers::exchange(s, store, a, out)?;
    let store = store.as_mut_array().unwrap();
    let out = out.as_mut_array().unwrap();
    Ok(access::loaded(s, store, Address { index: a }, out))
}

// Takes the value at an address in use, and puts a new one.
pub fn store(s: State, store: &mut [u8], a: usize, value: &[u8]) -> Result<State, Refusal>
    ensures { moved result s store.new [] ≡ (store_of width tag s store.old a value.now).seen }
{
    numbers::exchange(s, store, a, value)?;
    let store = store.as_mut_array().unwrap();
    let value = <[u8; State::VALUE]>::try_from(value).unwrap();
    Ok(access::stored(s, store, Address { index: a }, value))
}

// Takes the value at an address in use, fills its cell with zeros, and clears its mark.
pub fn remove(s: State, store: &mut [u8], a: usize) -> Result<State, Refusal>
    ensures { moved result s store.new [] ≡ (remove_of width tag s store.old a).seen }
{
    numbers::remove(s, store, a)?;
    let store = store.as_mut_array().unwrap();
    Ok(access::removed(s, store, Address { index: a }))
}

// Takes every address in use. Where after that both hashes agree and the fault mark is clear it accepts, and a new period begins; else it says why it rejects,
// and closes the state.
pub fn check(s: State, store: &mut [u8]) -> Result<Checked, Refusal>
    ensures { checked result s store.new ≡ (check_of width tag s store.old).seen }
{
    numbers::check(s, store)?;
    let store = store.as_mut_array().unwrap();
    let taken = checks::take_each(s, s.marks, store);
    if periods::agrees(taken) {
        let state = checks::put_each(periods::opened(s), s.marks, store);
        return Ok(Checked {
            verdict: Verdict::Accept,
            state,
        });
    }
    Ok(Checked {
        verdict: periods::reason(taken),
        state: periods::close(s),
    })
}

// The value's bytes in the lent store itself; no bytes where the store's size or the address is refused.
pub fn look(store: &[u8], a: usize) -> &[u8]
    ensures { (result.now ≡ look_of width store.now a) × (result.ref_ptr ≡ lies store.entry (look_from width store.now a)) }
{
    match numbers::look(store, a) {
        Ok(()) => cells::value_part(store, Address { index: a }),
        Err(_) => &store[0..0],
    }
}

// How many addresses are in use.
pub fn count(s: State) -> u32
    ensures { result ≡ count_of s.marks }
{
    marks::count(s.marks)
}

// The smallest address that is not in use, if there is one.
pub fn lowest_free(s: State) -> Result<usize, Refusal>
    ensures { result ≡ lowest_of s.marks }
{
    let a = marks::lowest(s.marks);
    if a == State::ADDRESSES {
        return Err(Refusal::NoneFree);
    }
    Ok(a)
}
