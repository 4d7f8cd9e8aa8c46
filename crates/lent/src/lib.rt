// Copies between lent slices.
#![tactic(auto)]

ghost use Rattle.std.specs.Prelude.{◌≡◌};
ghost use Rattle.lent.specs.Lent.{copied};

// Copies the bytes of `from` over the first of `to`, as many as both have.
// A loop, and no `copy_from_slice` of two parts: what may not change, its wrong functions `never_ends` and `every_second_byte`, which are refused by what a loop keeps.
pub fn copy(to: &mut [u8], from: &[u8])
    ensures { to.new ≡ copied to.old from.now }
{
    let mut i: usize = 0;
    while i < to.len() && i < from.len() {
        to[i] = from[i];
        i += 1;
    }
}
