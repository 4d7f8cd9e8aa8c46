// SHA-256's message schedule: sixty-four words, made from a block's sixteen.
#![tactic(auto)]

ghost use Rattle.std.specs.Prelude.{◌≡◌, ◌<◌};
ghost use Rattle.std.specs.Int.{w32, rotate_right};
ghost use Rattle.schedule.specs.Words.{◌⊕◌, ◌⊞◌, shr};
ghost use Rattle.schedule.specs.Schedule.{σ0, σ1, schedule};

// A word turned right by A bits, turned by B and shifted by C, by exclusive-or: σ0 (4.6) or σ1 (4.7), by the three numbers.
fn sigma<const A: u32, const B: u32, const C: u32>(x: u32) -> u32
    requires { C < 32 }
    ensures { result ≡ rotate_right w32 x A ⊕ rotate_right w32 x B ⊕ shr C x }
{
    x.rotate_right(A) ^ x.rotate_right(B) ^ (x >> C)
}

// A word of the schedule, from those 2, 7, 15 and 16 places before it.
fn next_word(w2: u32, w7: u32, w15: u32, w16: u32) -> u32
    ensures { result ≡ σ1 w2 ⊞ w7 ⊞ σ0 w15 ⊞ w16 }
{
    sigma::<17, 19, 10>(w2)
        .wrapping_add(w7)
        .wrapping_add(sigma::<7, 18, 3>(w15))
        .wrapping_add(w16)
}

// The whole schedule of a block.
pub fn scheduled(block: [u32; 16]) -> [u32; 64]
    ensures { result ≡ schedule 64 block }
{
    let mut w = [0; 64];
    w[..16].copy_from_slice(&block);
    for t in 16..64 {
        w[t] = next_word(w[t - 2], w[t - 7], w[t - 15], w[t - 16]);
    }
    w
}
