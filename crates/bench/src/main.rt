// The bench program: runs the session on standard input and prints what it says.
// All that matters is in `session`: this reads one byte more than a session may have, lends the buffer that holds whatever a session prints, and writes that
// out. Where a read fails nothing is run, since what came before it may be a part of a session.
#![tactic(auto)]

mod input;

use std::io;

fn main(rt: HostRuntime) -> io::Result<()> {
    // made before the read: after it, its zeros would be written twice
    let mut out = [0u8; session::ROOM];
    let mut space = [0u8; session::LIMIT + 1];
    let Ok(n) = input::read(&mut rt.stdin(), &mut space) else {
        return eprintln!(rt; "bench: a read of the input failed, and nothing was run");
    };
    let end = session::run(&space[..n], &mut out);
    if rt.write_all(&out[..end]).is_err() {
        return eprintln!(rt; "bench: a write of the answers failed");
    }
    Ok(())
}
