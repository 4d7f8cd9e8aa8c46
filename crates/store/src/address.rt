// An address that a store has: a call's rows let no other through, and a mark names no other.
ghost use Rattle.std.specs.Prelude.{◌<◌};
ghost use Rattle.state.specs.Sizes.{addresses};

#[derive(Clone, Copy)]
pub struct Address {
    pub index: usize,
    ghost below: { index < addresses },
}
