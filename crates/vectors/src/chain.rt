// NIST's Monte Carlo test: from a seed on, digests of the last three digests. Each thousandth is the file's next, and the seed of the thousand after it.
use crate::{cases, values};
use std::io;
use std::rt::Files;

// The digest of three digests.
fn next(a: [u8; 32], b: [u8; 32], c: [u8; 32]) -> [u8; 32] {
    let mut joined = [0u8; 96];
    for (to, from) in joined
        .iter_mut()
        .zip(a.iter().chain(b.iter()).chain(c.iter()))
    {
        *to = *from;
    }
    let mut out = [0u8; 32];
    let _ = sha256::digest(&joined, &mut out);
    out
}

// The thousandth digest after a seed, which stands for the three before the first.
fn thousandth(seed: [u8; 32]) -> [u8; 32] {
    let mut a = seed;
    let mut b = seed;
    let mut c = seed;
    for _ in 0..1000 {
        let d = next(a, b, c);
        a = b;
        b = c;
        c = d;
    }
    c
}

// Runs the chain of a file, and prints how many of its digests agree.
pub fn run(rt: &(impl Files + Print), path: &str, name: &str) -> io::Result<()> {
    let mut room = cases::room();
    let file = cases::read(rt, path, &mut room)?;
    let mut digest = [0u8; 32];
    values::named(file, b"Seed = ", &mut digest);
    cases::all(file, b"COUNT = ", 32, |_| {
        digest = thousandth(digest);
        digest
    })
    .report(rt, name)
}
