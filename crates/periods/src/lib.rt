// How a period of the trusted state ends: whether its hashes agree, and why a check rejects; the state of a new period, and the state closed.
#![tactic(auto, unfolding(state::specs::Check::opened, state::specs::Check::agrees, state::specs::Check::reason, state::specs::TakePut::close, state::specs::Multiset::empty_hash))]

ghost use Rattle.std.specs.Prelude.{◌≡◌};
ghost use Rattle.state.specs.TakePut.{close};
ghost use Rattle.state.specs.Check.{opened, agrees, reason};

use state::{Hash, State, Verdict};

// Is no fault marked, and are the hashes equal. The mark is no secret and stands first: where it is set the hashes are not looked at.
pub fn agrees(s: State) -> bool
    ensures { result ≡ agrees s }
{
    !s.fault && multiset::same(s.put, s.take)
}

// Why a check rejects, by the state after its takes: the first stamp that was ahead of the clock, if there was one, and else the tags.
pub fn reason(s: State) -> Verdict
    ensures { result ≡ reason s }
{
    if s.fault {
        return Verdict::Stamp(s.first);
    }
    Verdict::Tag
}

// A new period: empty hashes, and the clock at 1.
pub fn opened(s: State) -> State
    ensures { result ≡ opened s }
{
    let none = Hash {
        tag: [0u8; State::TAG],
        number: 0,
    };
    State {
        put: none,
        take: none,
        clock: 1,
        ..s
    }
}

// The state, closed.
pub fn close(s: State) -> State
    ensures { result ≡ close s }
{
    State { closed: true, ..s }
}
