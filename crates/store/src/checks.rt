// The walks of a check: over words of marks, which say at what addresses.
// They stay `while` loops: an iterator of these addresses would have a public `size_hint`, of which std's contract admits more than one outcome, and each public
// function here admits one (docs/TIGHTNESS.md); and a range with a filter would test all 1,024 addresses where few are in use.
ghost use Rattle.std.specs.Prelude.{◌≡◌};
ghost use Rattle.state.specs.Sizes.{width};
ghost use Rattle.state.specs.Check.{take_each, put_each, write_each};
ghost use Rattle.entries.specs.Tag.{tag};

use crate::address::Address;
use crate::cells::Store;
use state::State;

// Every marked address is taken, lowest first.
pub fn take_each(s: State, m: [u64; State::WORDS], store: &Store) -> State
    ensures { result ≡ take_each width tag m s store.now }
{
    let mut r = s;
    let mut a = marks::next_used(m, 0);
    while a < State::ADDRESSES {
        r = crate::access::take(r, store, Address { index: a });
        a = marks::next_used(m, a + 1);
    }
    r
}

// The puts that begin a period: at each marked address its value, with stamp 1.
pub fn put_each(s: State, m: [u64; State::WORDS], store: &mut Store) -> State
    ensures { (result ≡ put_each width tag m s store.old)
        × (store.new ≡ write_each width m store.old) }
{
    let mut r = s;
    let mut a = marks::next_used(m, 0);
    while a < State::ADDRESSES {
        let at = Address { index: a };
        let v = crate::cells::value_at(store, at);
        r = crate::access::put_entry(r, store, at, v, 1);
        a = marks::next_used(m, a + 1);
    }
    r
}
