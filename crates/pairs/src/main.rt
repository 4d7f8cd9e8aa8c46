// Prints the conformance cases of the comparison, one a line: the bytes of a filter record held and of one offered, in hex, and what compare says of
// them. docs/CONFORMANCE.md says how a site uses them.
#![tactic(auto)]

use filter::{Action, Family, FilterRecord};
use going::Going;
use std::io;

// Half way round.
const HALF: u32 = 0x8000_0000;

// Serials at the bounds of one byte after another, of half the range and of the whole.
const EDGES: [u32; 18] = [
    0, 1, 2, 7, 65535, 65536, 16777216, 1073741824, 2147483646, 2147483647, 2147483648, 2147483649,
    2147483650, 3221225472, 4294901760, 4294967293, 4294967294, 4294967295,
];

// How many distances `near` has.
const NEAR: u32 = 14;

// Lawful filter records: the first, those that differ from it in one field, and two that do in most of them.
const SHAPES: [(Family, Action, u8, u8, u8); 8] = [
    (Family::Ipv4, Action::Permit, 24, 24, 192),
    (Family::Ipv6, Action::Permit, 24, 24, 192),
    (Family::Ipv4, Action::Deny, 24, 24, 192),
    (Family::Ipv4, Action::Permit, 23, 24, 192),
    (Family::Ipv4, Action::Permit, 24, 32, 192),
    (Family::Ipv4, Action::Permit, 24, 24, 198),
    (Family::Ipv6, Action::Deny, 128, 128, 32),
    (Family::Ipv6, Action::Deny, 0, 128, 0),
];

// How far from the one held: equal, half way round, one ahead, one back.
const WAYS: [u32; 4] = [0, HALF, 1, u32::MAX];

fn main(rt: HostRuntime) -> io::Result<()> {
    edges(&rt)?;
    each(&rt, NEAR * 20, nearby)?;
    each(&rt, 64, powers)?;
    each(&rt, 400, mixed)?;
    each(&rt, 32 * 4, members)?;
    each(&rt, 8 * 8 * 4, shapes)
}

// An edge serial with an edge serial.
fn edges(rt: &impl Print) -> io::Result<()> {
    for held in EDGES {
        for offered in EDGES {
            show(rt, (shaped(0, 64496, held), shaped(0, 64496, offered)))?;
        }
    }
    Ok(())
}

// The cases of a kind, from number 0 to the end: `pair` makes the filter record held and the one offered of a number.
fn each<F: Fn(u32) -> (FilterRecord, FilterRecord)>(
    rt: &impl Print,
    end: u32,
    pair: F,
) -> io::Result<()>
    requires { F.IsAlwaysCallable pair }
{
    for n in 0..end {
        show(rt, pair(n))?;
    }
    Ok(())
}

// Any serial, and one that is a little way from it or from half way round.
fn nearby(n: u32) -> (FilterRecord, FilterRecord) {
    let held = next(n);
    (
        shaped(0, 64497, held),
        shaped(0, 64497, held.wrapping_add(near(n % NEAR))),
    )
}

// Any serial, and one that is a power of two ahead of it or behind it.
fn powers(n: u32) -> (FilterRecord, FilterRecord) {
    let held = next(n);
    let by = 1 << (n / 2 % 32);
    let offered = if n % 2 == 0 {
        held.wrapping_add(by)
    } else {
        held.wrapping_sub(by)
    };
    (shaped(0, 64498, held), shaped(0, 64498, offered))
}

// Any two serials of any member, or at every fourth number of any two, with the other fields of any two shapes.
fn mixed(n: u32) -> (FilterRecord, FilterRecord) {
    let held = mix(n);
    let offered = mix(held);
    let member = mix(offered).max(1);
    let other = if n % 4 == 3 {
        mix(member).max(1)
    } else {
        member
    };
    (
        shaped(held >> 16, member, held),
        shaped(offered >> 16, other, offered),
    )
}

// Members that differ in one bit, with serials that are equal, have no order, or are one apart.
fn members(n: u32) -> (FilterRecord, FilterRecord) {
    let held = next(n);
    (
        shaped(0, 64499, held),
        shaped(0, 64499 ^ (1 << (n / 4 % 32)), held.wrapping_add(way(n))),
    )
}

// A filter record of each shape with one of each, of one member, with serials as above.
fn shapes(n: u32) -> (FilterRecord, FilterRecord) {
    let held = next(n);
    let two = n / 4;
    (
        shaped(two / 8, 64500, held),
        shaped(two, 64500, held.wrapping_add(way(n))),
    )
}

// From 3 back to 3 ahead, and then the same from half way round.
fn near(i: u32) -> u32 {
    if i < 7 {
        i.wrapping_sub(3)
    } else {
        i.wrapping_add(HALF - 10)
    }
}

// Each in turn.
fn way(n: u32) -> u32 {
    WAYS[(n % 4) as usize]
}

// The filter record of a shape: its prefix has one byte, the first.
fn shaped(shape: u32, member: u32, serial: u32) -> FilterRecord {
    let (family, action, length, longest, first) = SHAPES[(shape % 8) as usize];
    let mut prefix = [0u8; 16];
    prefix[0] = first;
    FilterRecord {
        family,
        action,
        length,
        longest,
        member,
        serial,
        prefix,
    }
}

// The next number of a fixed sequence. It, `bytes` and `hex` stand in `cases` too, and there is why.
fn next(x: u32) -> u32 {
    x.wrapping_mul(1103515245).wrapping_add(12345)
}

// The upper halves of the next two numbers, whose lower bits are less mixed.
fn mix(x: u32) -> u32 {
    let a = next(x);
    a & 0xffff_0000 | next(a) >> 16
}

// A case: the bytes of the two filter records, and what is said of the filter records that these bytes are.
fn show(rt: &impl Print, pair: (FilterRecord, FilterRecord)) -> io::Result<()> {
    let (held, offered) = pair;
    let h = bytes(held);
    let o = bytes(offered);
    hex(rt, &h)?;
    hex(rt, &o)?;
    match going::compare(read(h), read(o)) {
        Going::OtherMember => println!(rt; "other"),
        Going::NoOrder => println!(rt; "refused 16"),
        Going::Back(d) => println!(rt; "back {d}"),
        Going::Forward(d) => println!(rt; "forward {d}"),
    }
}

// The bytes that pack writes: all that is packed here is lawful.
fn bytes(r: FilterRecord) -> [u8; 28] {
    let mut b = [0u8; 28];
    let _ = filter::pack(r, &mut b);
    b
}

fn read(b: [u8; 28]) -> FilterRecord {
    filter::unpack(&b).filter
}

// Bytes in hex, and a blank.
fn hex(rt: &impl Print, b: &[u8]) -> io::Result<()> {
    for x in b {
        print!(rt; "{x:02x}")?;
    }
    print!(rt; " ")
}
