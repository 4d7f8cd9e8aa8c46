// The filter record: 28 bytes for each lawful one, and one for each lawful 28 bytes.
#![tactic(auto, using(refusal::proofs::Rows::refused, refusal::proofs::Rows::passed, refusal::proofs::Rows::last), unfolding(crate::specs::Filter::filter_rows, crate::specs::Filter::pack_rows, crate::specs::Filter::unpack_rows, crate::specs::Filter::pack_of, crate::specs::Filter::unpack_of))]

ghost use Rattle.std.specs.Prelude.{◌≡◌, not, ◌&&◌, length, take, leb};
ghost use Rattle.octets.specs.Layout.{join};
ghost use Rattle.std.specs.Result.{result_unwrap_or};
ghost use Rattle.refusal.specs.Refusal.{first, filled};
ghost use Rattle.refusal.specs.Told.{told};
ghost use Rattle.filter.specs.Filter.{family_number, action_number, family_of, action_of, top_of, widths, parts_of, set_past, filter_rows, spare_in, filter_in, bytes_of, zero_filter, unpacked, unpack_of, pack_of};

use refusal::Refusal;

#[derive(Clone, Copy)]
pub enum Family {
    Ipv4 = 0,
    Ipv6 = 1,
}

#[derive(Clone, Copy)]
pub enum Action {
    Deny = 0,
    Permit = 1,
}

impl From<Family> for u8 {
    ghost from_gives = { λ f n. n ≡ family_number f };

    fn from(family: Family) -> u8 {
        family as u8
    }
}

impl From<Action> for u8 {
    ghost from_gives = { λ a n. n ≡ action_number a };

    fn from(action: Action) -> u8 {
        action as u8
    }
}

// 0 is IPv4, and every other number IPv6.
impl From<u8> for Family {
    ghost from_gives = { λ n f. f ≡ family_of n };

    fn from(number: u8) -> Family {
        match number {
            0 => Family::Ipv4,
            _ => Family::Ipv6,
        }
    }
}

// 0 is deny, and every other number permit.
impl From<u8> for Action {
    ghost from_gives = { λ n a. a ≡ action_of n };

    fn from(number: u8) -> Action {
        match number {
            0 => Action::Deny,
            _ => Action::Permit,
        }
    }
}

#[derive(Clone, Copy)]
pub struct FilterRecord {
    pub family: Family,
    pub action: Action,
    pub length: u8,
    pub longest: u8,
    pub member: u32,
    pub serial: u32,
    pub prefix: [u8; 16],
}

// What unpack gives. The two stand side by side, since a refused unpack too gives a filter record, with every field zero (`unpack_zeros`).
#[derive(Clone, Copy)]
pub struct Unpacked {
    pub answer: Result<(), Refusal>,
    pub filter: FilterRecord,
}

// Packs a filter record into a lent buffer.
pub fn pack(r: FilterRecord, out: &mut [u8]) -> Result<(), Refusal>
    ensures { filled (told result) out.new ≡ pack_of r out.old }
{
    Refusal::RecordSize.when(out.len() != 28)?;
    check_lawful(r)?;
    write(out, r);
    Ok(())
}

// Unpacks a filter record; where that is refused, all fields of the one given are zero.
pub fn unpack(bytes: &[u8]) -> Unpacked
    ensures { unpacked (told result.answer) result.filter ≡ unpack_of bytes.now }
{
    match lawful_in(bytes) {
        Ok(filter) => Unpacked {
            answer: Ok(()),
            filter,
        },
        Err(refusal) => Unpacked {
            answer: Err(refusal),
            filter: zeros(),
        },
    }
}

// The lawful filter record that these bytes hold.
fn lawful_in(bytes: &[u8]) -> Result<FilterRecord, Refusal>
    ensures { unpacked (told result) (result_unwrap_or result zero_filter) ≡ unpack_of bytes.now }
{
    Refusal::RecordSize.when(bytes.len() != 28)?;
    let mut b = [0u8; 28];
    b.copy_from_slice(bytes);
    Refusal::SpareBit.when(spare(b) != 0)?;
    let filter = read(b);
    check_lawful(filter)?;
    Ok(filter)
}

// Refuses a filter record that is not lawful.
fn check_lawful(r: FilterRecord) -> Result<(), Refusal>
    ensures { told result ≡ first (filter_rows r) }
{
    Refusal::Lengths.when(unlawful(r.family, r.length, r.longest))?;
    Refusal::PastLength.when(set_past(r.prefix, r.length))?;
    Refusal::NoMember.when(r.member == 0)
}

// Whether a prefix length and a longest length are unlawful.
fn unlawful(f: Family, l: u8, g: u8) -> bool
    ensures { result ≡ not (leb l g && leb g (top_of f)) }
{
    g < l || top(f) < g
}

// Whether a bit past the first l is set.
fn set_past(p: [u8; 16], l: u8) -> bool
    ensures { result ≡ set_past p l }
{
    u128::from_be_bytes(p).unbounded_shl(u32::from(l)) != 0
}

// Writes the 28 bytes of a filter record.
fn write(out: &mut [u8], r: FilterRecord)
    requires { length out.old ≡ 28 }
    ensures { out.new ≡ bytes_of r }
{
    out[0..4].copy_from_slice(&head(r).to_be_bytes());
    out[4..8].copy_from_slice(&r.member.to_be_bytes());
    out[8..12].copy_from_slice(&r.serial.to_be_bytes());
    out[12..28].copy_from_slice(&r.prefix);
}

// The first 32 bits: family, action, prefix length, longest length, and spare bits that are 0.
fn head(r: FilterRecord) -> u32
    ensures { result ≡ join (take 5 widths) (take 5 (parts_of r)) }
{
    (u32::from(u8::from(r.family)) << 31)
        + (u32::from(u8::from(r.action)) << 30)
        + (u32::from(r.length) << 22)
        + (u32::from(r.longest) << 14)
}

// The spare bits.
fn spare(b: [u8; 28]) -> u16
    ensures { result ≡ spare_in b }
{
    u16::from_be_bytes([b[2], b[3]]) % 16384
}

// The filter record that 28 bytes hold.
fn read(b: [u8; 28]) -> FilterRecord
    ensures { result ≡ filter_in b }
{
    let head = u32::from_be_bytes([b[0], b[1], b[2], b[3]]);
    let mut prefix = [0u8; 16];
    prefix.copy_from_slice(&b[12..28]);
    FilterRecord {
        family: Family::from((head >> 31) as u8),
        action: Action::from((head >> 30) as u8 % 2),
        length: ((head >> 22) % 256) as u8,
        longest: ((head >> 14) % 256) as u8,
        member: u32::from_be_bytes([b[4], b[5], b[6], b[7]]),
        serial: u32::from_be_bytes([b[8], b[9], b[10], b[11]]),
        prefix,
    }
}

// All fields zero.
fn zeros() -> FilterRecord
    ensures { result ≡ zero_filter }
{
    FilterRecord {
        family: Family::Ipv4,
        action: Action::Deny,
        length: 0,
        longest: 0,
        member: 0,
        serial: 0,
        prefix: [0u8; 16],
    }
}

// The longest length that a family has.
fn top(f: Family) -> u8
    ensures { result ≡ top_of f }
{
    match f {
        Family::Ipv4 => 32,
        Family::Ipv6 => 128,
    }
}
