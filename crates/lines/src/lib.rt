// The bench program's lines: where a line or a word ends, and the command that a line is.
#![tactic(auto)]

ghost use Rattle.std.specs.Prelude.{◌≡◌, [], ◌∷◌, ◌≤◌, length};
ghost use Rattle.lines.specs.Parse.{before, with_address, with_value, with_stamp, command_of, parsed};

pub const NEWLINE: u8 = 10;

const BLANK: u8 = 32;

// A command of the bench.
#[derive(Clone, Copy)]
pub enum Command {
    Add(u16, u8),
    Store(u16, u8),
    Load(u16),
    Remove(u16),
    Check,
    Spoil(u16, u8, u16),
}

// How many bytes stand before the first `end`: all, where there is none.
pub fn find(s: &[u8], end: u8) -> usize
    ensures { (result ≡ length (before end s.now)) × (result ≤ length s.now) }
{
    s.iter().position(|b| *b == end).unwrap_or(s.len())
}

// The command that a line is.
pub fn parse(line: &[u8]) -> Option<Command>
    ensures { result ≡ parsed line.now }
{
    let mut words = line.split(|b| *b == BLANK);
    let name = words.next()?;
    let Some(address) = words.next() else {
        return alone(name);
    };
    let Some(value) = words.next() else {
        return with_address(name, text::decimal(address));
    };
    let Some(stamp) = words.next() else {
        return with_value(name, text::decimal(address), text::hex(value));
    };
    if words.next().is_some() {
        return None;
    }
    with_stamp(
        name,
        text::decimal(address),
        text::hex(value),
        text::decimal(stamp),
    )
}

// The command of one word.
fn alone(name: &[u8]) -> Option<Command>
    ensures { result ≡ command_of (name.now ∷ []) }
{
    if name == b"check".as_slice() {
        return Some(Command::Check);
    }
    None
}

// The command of a name and an address.
fn with_address(name: &[u8], address: Option<u16>) -> Option<Command>
    ensures { result ≡ with_address name.now address }
{
    let a = address?;
    if name == b"load".as_slice() {
        return Some(Command::Load(a));
    }
    if name == b"remove".as_slice() {
        return Some(Command::Remove(a));
    }
    None
}

// The command of a name, an address and a value.
fn with_value(name: &[u8], address: Option<u16>, value: Option<u8>) -> Option<Command>
    ensures { result ≡ with_value name.now address value }
{
    let a = address?;
    let v = value?;
    if name == b"add".as_slice() {
        return Some(Command::Add(a, v));
    }
    if name == b"store".as_slice() {
        return Some(Command::Store(a, v));
    }
    None
}

// The command of a name, an address, a value and a stamp.
fn with_stamp(
    name: &[u8],
    address: Option<u16>,
    value: Option<u8>,
    stamp: Option<u16>,
) -> Option<Command>
    ensures { result ≡ with_stamp name.now address value stamp }
{
    let a = address?;
    let v = value?;
    let t = stamp?;
    if name == b"spoil".as_slice() {
        return Some(Command::Spoil(a, v, t));
    }
    None
}
