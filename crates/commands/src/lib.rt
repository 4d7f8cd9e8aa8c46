// The bench program's commands: what each does to the state and the store, and its answer.
#![tactic(auto)]

ghost use Rattle.std.specs.Prelude.{◌≡◌};
ghost use Rattle.std.specs.Result.{result_unwrap_or};
ghost use Rattle.std.proofs.Math.Option.{some};
ghost use Rattle.refusal.specs.Refusal.{filled};
ghost use Rattle.refusal.specs.Told.{number_of, told};
ghost use Rattle.lines.specs.declared.Command.TheVariants.{Load, Check};
ghost use Rattle.answers.specs.declared.Answer.TheVariants.{Numbered};
ghost use Rattle.commands.specs.Commands.{spoil_of, check_answer, ran, ran_command, ran_line};

use answers::{Answer, Name};
use lines::Command;
use state::{Refusal, State, Verdict};

// The state after a command, and what is to be printed. The state is trusted and goes by value, the store is lent and is not: no struct holds both.
#[derive(Clone, Copy)]
pub struct Ran {
    pub state: State,
    pub answer: Answer,
}

// Runs the command that a line is; a line that is none leaves all as it was.
pub fn run(s: State, store: &mut [u8; State::STORE], line: Option<Command>) -> Ran
    ensures { ran result.state store.new result.answer ≡ ran_line s store.old line }
{
    match line {
        Some(c) => run_command(s, store, c),
        None => Ran {
            state: s,
            answer: Answer::Bad,
        },
    }
}

// Runs a command.
#[tactic(auto, unfolding(crate::specs::Commands::ran_command, state::specs::Sizes::value_size))]
fn run_command(s: State, store: &mut [u8; State::STORE], c: Command) -> Ran
    ensures { ran result.state store.new result.answer ≡ ran_command s store.old c }
{
    match c {
        Command::Add(a, v) => {
            let added = store::add(s, store, a as usize, &[v; State::VALUE]);
            numbered(s, Name::Add, added)
        },
        Command::Store(a, v) => {
            let stored = store::store(s, store, a as usize, &[v; State::VALUE]);
            numbered(s, Name::Store, stored)
        },
        Command::Load(a) => run_load(s, store, a),
        Command::Remove(a) => {
            let removed = store::remove(s, store, a as usize);
            numbered(s, Name::Remove, removed)
        },
        Command::Check => run_check(s, store),
        Command::Spoil(a, v, t) => {
            let spoilt = spoil(store, a as usize, v, t);
            Ran {
                state: s,
                answer: Answer::Numbered(Name::Spoil, refusal::told(spoilt)),
            }
        },
    }
}

// After a call whose answer is its number.
fn numbered(s: State, name: Name, answer: Result<State, Refusal>) -> Ran
    ensures { (result.state ≡ result_unwrap_or answer s) × (result.answer ≡ Numbered name (told answer)) }
{
    match answer {
        Ok(state) => Ran {
            state,
            answer: Answer::Numbered(name, 0),
        },
        Err(refusal) => refused(s, name, refusal),
    }
}

// After a call that is refused.
fn refused(s: State, name: Name, refusal: Refusal) -> Ran
    ensures { (result.state ≡ s) × (result.answer ≡ Numbered name (number_of refusal)) }
{
    Ran {
        state: s,
        answer: Answer::Numbered(name, refusal.number()),
    }
}

#[tactic(auto, using(crate::proofs::Answers::load_refused, refusal::proofs::Again::some_number), unfolding(crate::specs::Commands::ran_command, state::specs::Sizes::value_size))]
fn run_load(s: State, store: &mut [u8; State::STORE], a: u16) -> Ran
    ensures { ran result.state store.new result.answer ≡ ran_command s store.old (Load a) }
{
    let mut value = [0u8; State::VALUE];
    match store::load(s, store, a as usize, &mut value) {
        Ok(state) => Ran {
            state,
            answer: Answer::Loaded(value[0]),
        },
        Err(refusal) => refused(s, Name::Load, refusal),
    }
}

#[tactic(auto, unfolding(crate::specs::Commands::ran_command, state::specs::Sizes::value_size))]
fn run_check(s: State, store: &mut [u8; State::STORE]) -> Ran
    ensures { ran result.state store.new result.answer ≡ ran_command s store.old Check }
{
    match store::check(s, store) {
        Ok(checked) => Ran {
            state: checked.state,
            answer: check_answer(checked.verdict),
        },
        Err(refusal) => refused(s, Name::Check, refusal),
    }
}

fn check_answer(verdict: Verdict) -> Answer
    ensures { result ≡ check_answer 0 (some verdict) }
{
    match verdict {
        Verdict::Accept => Answer::Accepted,
        Verdict::Stamp(a) => Answer::Stamp(a),
        Verdict::Tag => Answer::Tag,
    }
}

// Writes a value and a stamp to the cell of an address, past the checker.
#[tactic(auto, using(refusal::proofs::Rows::refused, refusal::proofs::Rows::passed, entries::proofs::Cells::has_cell_true), unfolding(crate::specs::Commands::spoil_of, entries::specs::Place::has_cell, state::specs::Sizes::addresses, state::specs::Sizes::value_size, state::specs::Sizes::cell_size, state::specs::Sizes::store_size))]
fn spoil(store: &mut [u8; State::STORE], a: usize, v: u8, t: u16) -> Result<(), Refusal>
    ensures { filled (told result) store.new ≡ spoil_of store.old a v t }
{
    Refusal::Address.when(a >= State::ADDRESSES)?;
    entries::write(store, a, [v; State::VALUE], t);
    Ok(())
}
