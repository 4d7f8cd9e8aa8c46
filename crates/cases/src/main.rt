// Prints the conformance cases of the filter record, one a line: the bytes in hex, the number that unpack gives, and the fields that it
// gives. docs/CONFORMANCE.md says how a site uses them.
#![tactic(auto)]

use filter::{Action, Family, FilterRecord, Unpacked};
use std::io;

fn main(rt: HostRuntime) -> io::Result<()> {
    lengths(&rt, Family::Ipv4, 33)?;
    lengths(&rt, Family::Ipv6, 129)?;
    past(&rt, Family::Ipv4, 33)?;
    past(&rt, Family::Ipv6, 128)?;
    above(&rt, Family::Ipv4, 33)?;
    above(&rt, Family::Ipv6, 129)?;
    below(&rt, Family::Ipv4, 32)?;
    below(&rt, Family::Ipv6, 128)?;
    each_bit(&rt, bytes(mixed(Family::Ipv4, 24, 32)))?;
    each_bit(&rt, bytes(mixed(Family::Ipv6, 64, 128)))?;
    spare_pairs(&rt, Family::Ipv4)?;
    spare_pairs(&rt, Family::Ipv6)?;
    members(&rt, Family::Ipv4)?;
    members(&rt, Family::Ipv6)?;
    edges(&rt, Family::Ipv4, 32)?;
    edges(&rt, Family::Ipv6, 128)?;
    orders(&rt, Family::Ipv4, 32)?;
    orders(&rt, Family::Ipv6, 128)?;
    sizes(&rt, doubled(bytes(exact(Family::Ipv6, 48))))
}

// For each prefix length below the end: lawful filter records with it as the longest, with the family's top and with one between, and member 0.
fn lengths(rt: &impl Print, f: Family, end: u8) -> io::Result<()> {
    for l in 0..end {
        let top = end - 1;
        turned(rt, f, l, &[])?;
        show(rt, &bytes(mixed(f, l, top)))?;
        show(rt, &memberless(bytes(mixed(f, l, top))))?;
        between(rt, f, l, top)?;
    }
    Ok(())
}

// A lawful filter record with a longest between its prefix length and the top, where there is one.
fn between(rt: &impl Print, f: Family, l: u8, top: u8) -> io::Result<()> {
    let half = top.saturating_sub(l) / 2;
    if half > 0 {
        show(rt, &bytes(mixed(f, l, l + half)))?;
    }
    Ok(())
}

// The first bit past the prefix length set, for each prefix length below the end.
fn past(rt: &impl Print, f: Family, end: u8) -> io::Result<()> {
    for l in 0..end {
        turned(rt, f, l, &[96 + usize::from(l)])?;
    }
    Ok(())
}

// Each longest from a start on, to the largest of eight bits.
fn above(rt: &impl Print, f: Family, start: u8) -> io::Result<()> {
    for n in start..=255 {
        show(rt, &with_longest(bytes(exact(f, 24)), n))?;
    }
    Ok(())
}

// A longest one below the prefix length, for each below the end.
fn below(rt: &impl Print, f: Family, end: u8) -> io::Result<()> {
    for n in 0..end {
        show(rt, &with_longest(bytes(exact(f, n + 1)), n))?;
    }
    Ok(())
}

// Each bit turned, one at a time.
fn each_bit(rt: &impl Print, b: [u8; 28]) -> io::Result<()> {
    for k in 0..224 {
        show(rt, &flip(b, k))?;
    }
    Ok(())
}

// Each two spare bits set.
fn spare_pairs(rt: &impl Print, f: Family) -> io::Result<()> {
    for i in 18..32 {
        for j in (i + 1..32).rev() {
            turned(rt, f, 24, &[i, j])?;
        }
    }
    Ok(())
}

// A member of each one bit.
fn members(rt: &impl Print, f: Family) -> io::Result<()> {
    for k in 0..u32::BITS {
        let mut r = mixed(f, 20, 22);
        r.member = 1 << k;
        show(rt, &bytes(r))?;
    }
    Ok(())
}

// Lengths one above a family's top, a length above its longest, member 0, and the largest filter record.
fn edges(rt: &impl Print, f: Family, top: u8) -> io::Result<()> {
    turned(rt, f, top, &[9])?;
    turned(rt, f, top, &[17])?;
    turned(rt, f, top, &[9, 17])?;
    turned(rt, f, 0, &[9])?;
    turned(rt, f, 24, &[9])?;
    turned(rt, f, 0, &[63])?;
    turned(rt, f, top, &[63])?;
    show(rt, &bytes(full(f, top)))
}

// Two numbers of 12 to 15 due, each pair: the first is given.
fn orders(rt: &impl Print, f: Family, top: u8) -> io::Result<()> {
    turned(rt, f, top, &[31, 17])?;
    turned(rt, f, 24, &[31, 223])?;
    turned(rt, f, top, &[31, 63])?;
    turned(rt, f, 24, &[9, 223])?;
    turned(rt, f, top, &[17, 63])?;
    turned(rt, f, 24, &[223, 63])
}

// The case of an exact filter record with some of its bits turned.
fn turned(rt: &impl Print, f: Family, l: u8, bits: &[usize]) -> io::Result<()> {
    show(
        rt,
        &bits.iter().fold(bytes(exact(f, l)), |b, k| flip(b, *k)),
    )
}

// The first bytes of these, as many as no filter record has.
fn sizes(rt: &impl Print, b: [u8; 56]) -> io::Result<()> {
    for n in 0..57 {
        if n != 28 {
            show(rt, &b[0..n])?;
        }
    }
    Ok(())
}

// The bytes of a filter record, twice.
fn doubled(b: [u8; 28]) -> [u8; 56] {
    let mut d = [0u8; 56];
    d[0..28].copy_from_slice(&b);
    d[28..56].copy_from_slice(&b);
    d
}

// The bytes with another longest length, lawful or not.
fn with_longest(b: [u8; 28], n: u8) -> [u8; 28] {
    let mut c = b;
    c[1] = (c[1] & 192) | (n >> 2);
    c[2] = (c[2] & 63) | (n << 6);
    c
}

// The bytes with member 0.
fn memberless(b: [u8; 28]) -> [u8; 28] {
    let mut c = b;
    c[4..8].fill(0);
    c
}

// A filter record with its prefix length for its longest, every prefix bit set, member 1 and serial 0.
fn exact(f: Family, l: u8) -> FilterRecord {
    FilterRecord {
        family: f,
        action: Action::Deny,
        length: l,
        longest: l,
        member: 1,
        serial: 0,
        prefix: kept([255u8; 16], l),
    }
}

// A filter record with every field at its largest.
fn full(f: Family, top: u8) -> FilterRecord {
    FilterRecord {
        family: f,
        action: Action::Permit,
        length: top,
        longest: top,
        member: u32::MAX,
        serial: u32::MAX,
        prefix: kept([255u8; 16], top),
    }
}

// A filter record with its other fields mixed from its lengths.
fn mixed(f: Family, l: u8, longest: u8) -> FilterRecord {
    let a = next(u32::from_be_bytes([0, 0, l, longest]));
    let b = next(a);
    FilterRecord {
        family: f,
        action: Action::Permit,
        length: l,
        longest,
        member: a.max(1),
        serial: b,
        prefix: kept(filled(b), l),
    }
}

// The bytes that pack writes: all that is packed here is lawful.
fn bytes(r: FilterRecord) -> [u8; 28] {
    let mut b = [0u8; 28];
    let _ = filter::pack(r, &mut b);
    b
}

// One bit turned, counted from the most significant of byte 0.
fn flip(b: [u8; 28], k: usize) -> [u8; 28] {
    let mut c = b;
    if let Some(byte) = c.get_mut(k / 8) {
        *byte ^= 128 >> (k % 8);
    }
    c
}

// The first l bits of a prefix, and zeros after them.
fn kept(p: [u8; 16], l: u8) -> [u8; 16] {
    (u128::from_be_bytes(p) & !u128::MAX.unbounded_shr(u32::from(l))).to_be_bytes()
}

// Sixteen bytes mixed from a number.
fn filled(seed: u32) -> [u8; 16] {
    let mut p = [0u8; 16];
    let mut x = seed;
    for byte in p.iter_mut() {
        x = next(x);
        *byte = x.to_be_bytes()[1];
    }
    p
}

// The next number of a fixed sequence. It, `bytes` and `hex` stand in `pairs` too, and `hex` in `vectors`: what prints has no contract that tells something, as a library's
// functions here must, and a library for the other two would be longer than both are twice.
fn next(x: u32) -> u32 {
    x.wrapping_mul(1103515245).wrapping_add(12345)
}

// A case: the bytes, the number, and the fields.
fn show(rt: &impl Print, b: &[u8]) -> io::Result<()> {
    let u = filter::unpack(b);
    hex(rt, b)?;
    numbers(rt, u)?;
    hex(rt, &u.filter.prefix)?;
    println!(rt)
}

// The number and the fields before the prefix. A function of its own, since `hex` would else be called with the room for this line still on the stack.
#[inline(never)]
fn numbers(rt: &impl Print, u: Unpacked) -> io::Result<()> {
    let r = u.filter;
    let number = refusal::told(u.answer);
    let family = u8::from(r.family);
    let action = u8::from(r.action);
    print!(rt;
        " {number} {family} {action} {} {} {} {} ",
        r.length, r.longest, r.member, r.serial
    )
}

fn hex(rt: &impl Print, b: &[u8]) -> io::Result<()> {
    for x in b {
        print!(rt; "{x:02x}")?;
    }
    Ok(())
}
