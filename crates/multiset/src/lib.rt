// The multiset hash: a hash with one element more, and whether two hashes are equal.
#![tactic(auto)]

ghost use Rattle.std.specs.Prelude.{◌≡◌};
ghost use Rattle.octets.specs.Places.{same};
ghost use Rattle.state.specs.Multiset.{with_tag, same_hash};

use state::{Hash, State};
use std::array;

// The hash with one element more, by its tag. Not by `octets::xor`: a place that is put together wrongly is refused here too, and by a fact (`tags_joined_by_or`).
pub fn with_tag(h: Hash, t: [u8; State::TAG]) -> Hash
    ensures { result ≡ with_tag h t }
{
    Hash {
        tag: array::from_fn(|i| h.tag[i] ^ t[i]),
        number: h.number.wrapping_add(1),
    }
}

// Are two tags equal. The tags are secret, so every byte is looked at and nothing but the answer branches.
fn same_tag(s: [u8; State::TAG], t: [u8; State::TAG]) -> bool
    ensures { result ≡ same s t }
{
    let mut apart = 0;
    for (x, y) in s.iter().zip(&t) {
        apart |= *x ^ *y;
    }
    apart == 0
}

// Are two hashes equal, with no derive, which would stop at the first difference: their numbers of elements, which are no secret, and then their tags. In this order a branch on the tags is the answer itself.
pub fn same(p: Hash, q: Hash) -> bool
    ensures { result ≡ same_hash p q }
{
    p.number == q.number && same_tag(p.tag, q.tag)
}
