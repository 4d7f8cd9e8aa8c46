// Calls with sizes at their bounds and one beside them: each prints its sizes, the number given, and the bytes of the output or that none changed.
ghost use Rattle.std.specs.Prelude.{◌≤◌};

use state::Seal;
use std::io;

// Prints bytes in hexadecimal.
fn print_bytes(rt: &impl Print, bytes: &[u8]) -> io::Result<()> {
    for b in bytes {
        print!(rt; "{b:02x}")?;
    }
    Ok(())
}

// Prints a number, and the output buffer where it changed.
fn print_answer(rt: &impl Print, number: u8, out: [u8; 33]) -> io::Result<()> {
    print!(rt; ": {number} ")?;
    if out == [0x55u8; 33] {
        print!(rt; "unchanged")?;
    } else {
        print_bytes(rt, &out[0..32])?;
    }
    println!(rt;)
}

// A digest of n bytes into room bytes.
fn digest(rt: &impl Print, n: usize, room: usize) -> io::Result<()>
    requires { (n ≤ 8193) × (room ≤ 33) }
{
    let message = [0xaau8; 8193];
    let mut out = [0x55u8; 33];
    let number = refusal::told(sha256::digest(&message[..n], &mut out[..room]));
    print!(rt; "digest of {n} into {room}")?;
    print_answer(rt, number, out)
}

// The HMAC of n bytes under a key of k into room bytes.
fn mac(rt: &impl Print, k: usize, n: usize, room: usize) -> io::Result<()>
    requires { (k ≤ 1025) × ((n ≤ 4097) × (room ≤ 33)) }
{
    let key = [0xccu8; 1025];
    let message = [0xaau8; 4097];
    let mut out = [0x55u8; 33];
    let number = refusal::told(hmac::mac(&key[..k], &message[..n], &mut out[..room]));
    print!(rt; "HMAC under {k} of {n} into {room}")?;
    print_answer(rt, number, out)
}

// Digests at their bounds.
pub fn digests(rt: &impl Print) -> io::Result<()> {
    digest(rt, 0, 32)?;
    digest(rt, 8191, 32)?;
    digest(rt, 8192, 32)?;
    digest(rt, 8193, 32)?;
    digest(rt, 8192, 31)?;
    digest(rt, 8192, 33)
}

// HMACs at their bounds, and under keys of a block's length and beside it.
pub fn macs(rt: &impl Print) -> io::Result<()> {
    mac(rt, 0, 0, 32)?;
    mac(rt, 63, 100, 32)?;
    mac(rt, 64, 100, 32)?;
    mac(rt, 65, 100, 32)?;
    mac(rt, 1023, 4096, 32)?;
    mac(rt, 1024, 4096, 32)?;
    mac(rt, 1025, 4096, 32)?;
    mac(rt, 1024, 4095, 32)?;
    mac(rt, 1024, 4097, 32)?;
    mac(rt, 1024, 4096, 31)?;
    mac(rt, 1024, 4096, 33)
}

// Prints some words and a tag.
fn print_tag(rt: &impl Print, words: &str, tag: [u8; 32]) -> io::Result<()> {
    print!(rt; "{words}: ")?;
    print_bytes(rt, &tag)?;
    println!(rt;)
}

// The tag of 33 bytes under a key of 32; then tags of entries: under a key of zeros, and where no two bytes of the key or of the message are equal.
pub fn tags(rt: &impl Print) -> io::Result<()> {
    print_tag(
        rt,
        "tag under 32 of 33",
        hmac::tag([0xccu8; 32], &[0xaau8; 33]),
    )?;
    print_tag(
        rt,
        "tag of an entry",
        entries::tag(Seal { key: [0u8; 32] }, 5, [0u8; 28], 3),
    )?;
    print_tag(
        rt,
        "tag of an entry, all bytes different",
        entries::tag(
            Seal {
                key: *b"ABCDEFGHIJKLMNOPQRSTUVWXYZ012345",
            },
            0x0203,
            *b"abcdefghijklmnopqrstuvwxyz67",
            0x0405,
        ),
    )
}
