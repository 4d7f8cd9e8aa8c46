// Runs the published vectors of SHA-256 and of HMAC with it by the proved functions, calls these at the bounds of their sizes, and prints tags of entries.
#![tactic(auto)]

mod bounds;
mod cases;
mod chain;
mod values;

use std::io;

fn main(rt: HostRuntime) -> io::Result<()> {
    cases::digests(&rt, "SHA256ShortMsg.rsp", "SHA256ShortMsg")?;
    cases::digests(&rt, "SHA256LongMsg.rsp", "SHA256LongMsg")?;
    chain::run(&rt, "SHA256Monte.rsp", "SHA256Monte")?;
    cases::tags(&rt, "rfc4231-sha256.txt", "RFC 4231")?;
    bounds::digests(&rt)?;
    bounds::macs(&rt)?;
    bounds::tags(&rt)
}
