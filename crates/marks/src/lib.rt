// The marks of addresses in use: sixteen 64-bit words by value, and no type of their own, as docs/RULES.md has it ("The shape of some places"). The mark of address a is bit a % 64, from the least significant, of word a / 64.
#![tactic(auto)]

ghost use Rattle.std.specs.Prelude.{◌≡◌, ◌*◌, ◌/◌, ◌≤◌, get_or, set};
ghost use Rattle.state.specs.Marks.{used, marked, unmarked, count_of, lowest_free};
ghost use Rattle.marks.specs.Next.{next_used};

use state::State;
use std::array;

// The word that has the mark of a; past the last address there is none, and 0 stands for it.
fn word_of(marks: &[u64; State::WORDS], a: usize) -> u64
    ensures { result ≡ get_or marks.now (a / 64) 0 }
{
    marks.get(a / 64).copied().unwrap_or(0)
}

// The marks with another word for the one that has the mark of a.
fn with_word(mut marks: [u64; State::WORDS], a: usize, word: u64) -> [u64; State::WORDS]
    ensures { result ≡ set marks (a / 64) word }
{
    let q = a / 64;
    if q < State::WORDS {
        marks[q] = word;
    }
    marks
}

// Is the address in use; no address past the last is.
#[tactic(auto, unfolding(state::specs::Marks::used))]
pub fn used(marks: [u64; State::WORDS], a: usize) -> bool
    ensures { result ≡ used marks a }
{
    (word_of(&marks, a) >> (a % 64)) % 2 == 1
}

// The marks with that of a set; past the last address there is none to set.
pub fn with_mark(marks: [u64; State::WORDS], a: usize) -> [u64; State::WORDS]
    ensures { result ≡ marked marks a }
{
    with_word(marks, a, word_of(&marks, a) | 1 << (a % 64))
}

// The marks with that of a cleared.
pub fn without_mark(marks: [u64; State::WORDS], a: usize) -> [u64; State::WORDS]
    ensures { result ≡ unmarked marks a }
{
    with_word(marks, a, word_of(&marks, a) & !(1 << (a % 64)))
}

// How many addresses are in use: the ones of every word.
pub fn count(marks: [u64; State::WORDS]) -> u32
    ensures { result ≡ count_of marks }
{
    let mut n = 0;
    for word in &marks {
        n += word.count_ones();
    }
    n
}

// The smallest address that is not in use, or their number, as the end of a range is given: a word's first zero is the first one of its complement.
pub fn lowest(marks: [u64; State::WORDS]) -> usize
    ensures { result ≡ lowest_free marks }
{
    next_from(array::from_fn(|q| !marks[q]), 0)
}

// The smallest address in use from word q on, or where the addresses end: a word's first one stands after its trailing zeros.
fn next_from(marks: [u64; State::WORDS], q: usize) -> usize
    requires { q ≤ 16 }
    ensures { result ≡ next_used marks (q * 64) }
{
    for k in q..State::WORDS {
        let t = marks[k].trailing_zeros();
        if t < 64 {
            return k * 64 + t as usize;
        }
    }
    State::ADDRESSES
}

// The smallest address in use from a on, or where the addresses end.
pub fn next_used(marks: [u64; State::WORDS], a: usize) -> usize
    ensures { result ≡ next_used marks a }
{
    let q = a / 64;
    if q >= State::WORDS {
        return a;
    }
    let t = (marks[q] >> (a % 64)).trailing_zeros();
    if t < 64 {
        return a + t as usize;
    }
    next_from(marks, q + 1)
}
