// SHA-256's compression function: one block taken into the running hash.
#![tactic(auto)]

ghost use Rattle.std.specs.Prelude.{◌≡◌, ◌<◌, slice_index};
ghost use Rattle.round.specs.Round.{round};
ghost use Rattle.compress.specs.Compress.{rounds, increased, compress};

use std::array;

// The words a .. h after all 64 rounds: eight to a turn, which the optimiser writes out, and which bring each word back to its own place. (One loop over all 64
// is plainer, and a digest of 8,192 bytes then takes 578,816 instructions in place of 470,198.)
fn all_rounds(h: [u32; 8], w: [u32; 64]) -> [u32; 8]
    ensures { result ≡ rounds 64 w h }
{
    let k = constants::round_constants();
    let mut s = h;
    for turn in 0..8 {
        let t = 8 * turn;
        // named first: `s = f(s, ..)` gets no proof where s is an array
        let next = (t..t + 8).fold(
            s,
            |s, t| -> [u32; 8]
                requires { t < 64 }
                ensures { result ≡ round (slice_index k t) (slice_index w t) s }
            { round::one_round(s, k[t], w[t]) },
        );
        s = next;
    }
    s
}

// The running hash, increased by the words that the rounds left.
fn added(s: [u32; 8], h: [u32; 8]) -> [u32; 8]
    ensures { result ≡ increased s h }
{
    array::from_fn(|i| s[i].wrapping_add(h[i]))
}

// The running hash after a block.
#[tactic(auto, unfolding(crate::specs::Compress::compress))]
pub fn compressed(h: [u32; 8], block: [u32; 16]) -> [u32; 8]
    ensures { result ≡ compress h block }
{
    added(all_rounds(h, schedule::scheduled(block)), h)
}
