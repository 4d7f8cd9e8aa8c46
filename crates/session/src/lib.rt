// The bench program's session: its lines are run one after the other, and their answers printed.
// A session reads its input and writes to a lent buffer; the trusted state and the store are its own, and begin with zero bytes.
#![tactic(auto)]

ghost use Rattle.std.specs.Prelude.{◌≡◌, ◌≤◌, length};
ghost use Rattle.lines.specs.Grammar.{lines_in};
ghost use Rattle.page.specs.Page.{page, whole};
ghost use Rattle.page.specs.Written.{written};
ghost use Rattle.session.specs.Session.{output_of, session_of};

use page::Page;
use state::State;

// The longest input.
pub const LIMIT: usize = 4096;

// The buffer that holds whatever a session prints.
pub const ROOM: usize = 131072;

// Runs a whole session: all that it prints is written to the head of `out`. Gives how much that is, and not the part: the claim `Tied.bench` is of both.
pub fn run(input: &[u8], out: &mut [u8; ROOM]) -> usize
    ensures { page out.new result ≡ whole out.old (session_of input.now) }
{
    let mut page = Page { bytes: out, at: 0 };
    if input.len() > LIMIT {
        page.put(b"too long\n");
        return page.at;
    }
    let mut store = [0u8; State::STORE];
    let started = State::start(&[0u8; State::KEY]);
    run_lines(started.state, &mut store, input, &mut page);
    page.at
}

// Runs each line of an input. What follows a last newline is a line only if it is not empty: std's `split` would give an empty one.
#[tactic(auto, using(crate::proofs::Turns::run_out))]
fn run_lines(s: State, store: &mut [u8; State::STORE], input: &[u8], page: &mut Page)
    requires { page.old.at ≤ length page.old.bytes.now }
    ensures { page.new ≡ written page.old (output_of s store.old (lines_in input.now)) }
{
    let mut state = s;
    for part in input.split_inclusive(|b| *b == lines::NEWLINE) {
        let line = part.strip_suffix(&[lines::NEWLINE]).unwrap_or(part);
        let ran = commands::run(state, store, lines::parse(line));
        state = ran.state;
        answers::say(page, ran.answer);
    }
}
