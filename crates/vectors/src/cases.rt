// The cases of a file of vectors: the lines `Len`, for HMAC `Key`, then `Msg` and `MD`.
ghost use Rattle.std.specs.Prelude.{◌≡◌, ◌≤◌, length, IfOk};

use crate::values;
use std::io::Read;
use std::rt::Files;
use std::{fs, io};

// How many cases there are, how many agree, and how many of these by a tag that was cut.
#[derive(Default, Drop)]
pub struct Seen {
    cases: u64,
    agree: u64,
    cut: u64,
}

impl Seen {
    // After one more case that expects these 32 bytes: it agrees by all of them, or by the first so many, to which a tag may be cut.
    fn add(&mut self, case: &[u8], out: [u8; 32], shortest: usize)
        requires { shortest ≤ 32 }
    {
        self.cases = self.cases.wrapping_add(1);
        if expects(case, &out) {
            self.agree = self.agree.wrapping_add(1);
        } else if shortest < out.len() && expects(case, &out[..shortest]) {
            self.agree = self.agree.wrapping_add(1);
            self.cut = self.cut.wrapping_add(1);
        }
    }

    // Prints how many cases agree.
    pub fn report(&self, rt: &impl Print, name: &str) -> io::Result<()> {
        print!(rt; "{name} {} of {} agree", self.agree, self.cases)?;
        if self.cut > 0 {
            print!(rt; ", {} by its first 16 bytes", self.cut)?;
        }
        println!(rt;)
    }
}

// Does a case expect exactly these bytes?
fn expects(case: &[u8], out: &[u8]) -> bool {
    let mut buffer = [0u8; 32];
    let Some(expected) = buffer.get_mut(..out.len()) else {
        return false;
    };
    values::named(case, b"MD = ", expected) && &*expected == out
}

// What a step makes of the message of a case. Where a line of the case is not as it should be, this is not what the case expects.
// An empty message is spelled in one byte, which is not read.
fn given<F: FnOnce(&[u8], &mut [u8])>(case: &[u8], step: F) -> [u8; 32]
    requires { F.IsAlwaysCallable step }
{
    let mut out = [0u8; 32];
    if let Some(bits) = text::decimal(values::value(case)) {
        let mut buffer = [0u8; 8192];
        let message = &mut buffer[..bits as usize / 8];
        values::named(case, b"Msg = ", message);
        step(message, &mut out);
    }
    out
}

// The HMAC of a message under the key of a case, to `out`.
fn mac(case: &[u8], message: &[u8], out: &mut [u8]) {
    let value = values::value(values::after(case, b"Key = "));
    let mut buffer = [0u8; 1024];
    if let Some(key) = buffer.get_mut(..value.len() / 2) {
        values::bytes(value, key);
        let _ = hmac::mac(key, message, out);
    }
}

// What every case of a file says. A case begins with the value of its line of this name. The search for the next goes on one byte later, in the middle
// of that line, so no iterator over the lines gives what the loop sees.
pub fn all<F: FnMut(&[u8]) -> [u8; 32]>(
    file: &[u8],
    name: &[u8],
    shortest: usize,
    mut given: F,
) -> Seen
    requires short { shortest ≤ 32 }
    requires callable { F.IsAlwaysCallable given }
{
    let mut seen = Seen::default();
    let mut rest = values::after(file, name);
    while rest.len() > 0 {
        seen.add(rest, given(rest), shortest);
        rest = values::after(&rest[1..], name);
    }
    seen
}

// Room for a file. One that fills it is told to be too long, so that there is no `Vec` that grows.
pub fn room() -> [u8; 524288]
    ensures { 524288 ≡ length result }
{
    [0; 524288]
}

// Reads a file into its room, and gives the part that it fills.
pub fn read<'a>(rt: &(impl Files + Print), path: &str, room: &'a mut [u8]) -> io::Result<&'a [u8]>
    ensures { IfOk result (λ file. length file.now ≤ length room.old) }
{
    let mut opened = fs::open(rt, path)?;
    let n = read_full(&mut opened, room)?;
    if n == room.len() {
        rt.write_all(b"too long: ")?;
    }
    Ok(&room[..n])
}

// Reads until the room is full or the file ends, and gives how much was read. The bench has such a function of its own: neither is in a library, where a
// contract fixes each outcome, as it can't where a reader decides it.
fn read_full(opened: &mut impl Read, room: &mut [u8]) -> io::Result<usize>
    ensures { IfOk result (λ n. n ≤ length room.new) }
{
    let mut n = 0;
    while n < room.len() {
        let more = opened.read(&mut room[n..])?;
        if more == 0 {
            break;
        }
        n += more;
    }
    Ok(n)
}

// Runs the cases of a file, and prints how many agree.
fn run<F: FnMut(&[u8]) -> [u8; 32]>(
    rt: &(impl Files + Print),
    path: &str,
    name: &str,
    shortest: usize,
    given: F,
) -> io::Result<()>
    requires short { shortest ≤ 32 }
    requires callable { F.IsAlwaysCallable given }
{
    let mut room = room();
    let file = read(rt, path, &mut room)?;
    all(file, b"Len = ", shortest, given).report(rt, name)
}

// Runs the cases of a file of digests.
pub fn digests(rt: &(impl Files + Print), path: &str, name: &str) -> io::Result<()> {
    run(rt, path, name, 32, |case| {
        given(case, |message, out| {
            let _ = sha256::digest(message, out);
        })
    })
}

// Runs the cases of a file of tags, each under the key of its case. A tag may be cut to 16 bytes.
pub fn tags(rt: &(impl Files + Print), path: &str, name: &str) -> io::Result<()> {
    run(rt, path, name, 16, |case| {
        given(case, |message, out| mac(case, message, out))
    })
}
