// SHA-256's round: the words a .. h after one of its 64 rounds.
#![tactic(auto)]

ghost use Rattle.std.specs.Prelude.{◌≡◌};
ghost use Rattle.std.specs.Int.{w32, rotate_right};
ghost use Rattle.schedule.specs.Words.{◌⊕◌};
ghost use Rattle.round.specs.Round.{ch, maj, round};

// Ch (4.2): the bits of y where x has a 1, those of z where it has a 0.
fn ch(x: u32, y: u32, z: u32) -> u32
    ensures { result ≡ ch x y z }
{
    (x & y) ^ (!x & z)
}

// Maj (4.3): the bits that most of the three have.
fn maj(x: u32, y: u32, z: u32) -> u32
    ensures { result ≡ maj x y z }
{
    (x & y) ^ (x & z) ^ (y & z)
}

// A word turned right by A, by B and by C bits, by exclusive-or: Σ0 (4.4) or Σ1 (4.5), by the three numbers.
fn sigma<const A: u32, const B: u32, const C: u32>(x: u32) -> u32
    ensures { result ≡ rotate_right w32 x A ⊕ rotate_right w32 x B ⊕ rotate_right w32 x C }
{
    x.rotate_right(A) ^ x.rotate_right(B) ^ x.rotate_right(C)
}

// The words a .. h after one round, at its constant and its word of the schedule.
#[tactic(auto, unfolding(crate::specs::Round::round))]
pub fn one_round(s: [u32; 8], k: u32, w: u32) -> [u32; 8]
    ensures { result ≡ round k w s }
{
    let [a, b, c, d, e, f, g, h] = s;
    let t1 = h
        .wrapping_add(sigma::<6, 11, 25>(e))
        .wrapping_add(ch(e, f, g))
        .wrapping_add(k)
        .wrapping_add(w);
    let t2 = sigma::<2, 13, 22>(a).wrapping_add(maj(a, b, c));
    [t1.wrapping_add(t2), a, b, c, d.wrapping_add(t1), e, f, g]
}
