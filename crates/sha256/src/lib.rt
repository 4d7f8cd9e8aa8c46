// SHA-256 of FIPS 180-4: the padding of a message, and its digest. The message is read where it lies.
#![tactic(auto)]

ghost use Rattle.std.specs.Prelude.{◌≡◌, cond, [], ◌∷◌, ◌++◌, ◌+◌, ◌*◌, ◌/◌, ◌%◌, ◌^◌, ◌<◌, ◌≤◌, leb, length, get_or};
ghost use Rattle.octets.specs.Layout.{number};
ghost use Rattle.refusal.specs.Refusal.{filled};
ghost use Rattle.refusal.specs.Told.{told};
ghost use Rattle.sha256.specs.Sha256.{padded, word, block, absorbed, hash_bytes, finished, digest_of};

use refusal::Refusal;
use std::array;

// The word from byte i of m.
#[tactic(auto, using(octets::proofs::Layouts::number_4, crate::proofs::Blocks::word_get_d))]
fn word_at(m: &[u8], i: usize) -> u32
    requires { i + 4 ≤ length m.now }
    ensures { result ≡ word m.now i }
{
    u32::from_be_bytes([m[i], m[i + 1], m[i + 2], m[i + 3]])
}

// Byte i of m followed by 0x80; 0 past that.
fn message_byte(m: &[u8], i: usize) -> u8
    ensures { result ≡ get_or (m.now ++ (0x80 ∷ [])) i 0 }
{
    if i < m.len() {
        return m[i];
    }
    if i == m.len() {
        return 0x80;
    }
    0
}

// The word from byte i of the rest of a message, of which `before` blocks stand before it, and its padding.
fn padded_word(rest: &[u8], before: u16, i: usize) -> u32
    requires short { length rest.now ≤ 8192 }
    requires at_word { i % 4 ≡ 0 }
    requires in_block { i + 4 ≤ (length rest.now + 72) / 64 * 64 }
    ensures { result ≡ word (padded (64 * before + length rest.now) rest.now) i }
{
    let len = rest.len();
    if i + 4 <= len {
        // not by `word_at`, which is of whole blocks: a mistake there leaves this right (`absorb_bytes_swapped`)
        return u32::from_be_bytes([rest[i], rest[i + 1], rest[i + 2], rest[i + 3]]);
    }
    if i + 4 == (len + 72) / 64 * 64 {
        return 8 * (64 * (before as u32) + len as u32);
    }
    if i > len {
        return 0;
    }
    u32::from_be_bytes([
        message_byte(rest, i),
        message_byte(rest, i + 1),
        message_byte(rest, i + 2),
        message_byte(rest, i + 3),
    ])
}

// The block i of m, which has it whole.
fn whole_block(m: &[u8], i: usize) -> [u32; 16]
    requires { 64 * i + 64 ≤ length m.now }
    ensures { result ≡ block m.now i }
{
    array::from_fn(|j| word_at(m, 64 * i + 4 * j))
}

// The block i of the rest of a message, of which `before` blocks stand before it, and its padding.
fn padded_block(rest: &[u8], before: u16, i: usize) -> [u32; 16]
    requires short { length rest.now ≤ 8192 }
    requires in_blocks { i < (length rest.now + 72) / 64 }
    ensures { result ≡ block (padded (64 * before + length rest.now) rest.now) i }
{
    if 64 * i + 64 <= rest.len() {
        return whole_block(rest, i);
    }
    array::from_fn(|j| padded_word(rest, before, 64 * i + 4 * j))
}

// The hash after one block more.
pub fn absorb(h: [u32; 8], b: [u8; 64]) -> [u32; 8]
    ensures { result ≡ absorbed h b }
{
    compress::compressed(h, whole_block(&b, 0))
}

// The hash after the rest of a message whose first `before` blocks gave h; h itself where the rest has more than 8,192 bytes: it could not fail, and so gives no
// Result.
pub fn finish(h: [u32; 8], before: u16, rest: &[u8]) -> [u32; 8]
    ensures { result ≡ cond (leb (length rest.now) 8192) (finished h before rest.now) h }
{
    if rest.len() > 8192 {
        return h;
    }
    let blocks = (rest.len() + 72) / 64;
    let mut s = h;
    for i in 0..blocks {
        // named first: `s = f(s, ..)` gets no proof where s is an array
        let next = compress::compressed(s, padded_block(rest, before, i));
        s = next;
    }
    s
}

// The bytes of a hash.
pub fn hash_bytes(h: [u32; 8]) -> [u8; 32]
    ensures { result ≡ hash_bytes h }
{
    array::from_fn(|i| h[i / 4].to_be_bytes()[i % 4])
}

// The digest of a message into out; refused, and out as it was, where the message has more than 8,192 bytes or out has not 32.
#[tactic(auto, unfolding(crate::specs::Sha256::digest_of))]
pub fn digest(message: &[u8], out: &mut [u8]) -> Result<(), Refusal>
    ensures { filled (told result) out.new ≡ digest_of message.now out.old }
{
    Refusal::Bound.when(message.len() > 8192)?;
    Refusal::Bound.when(out.len() != 32)?;
    let h = finish(constants::initial_hash(), 0, message);
    out.copy_from_slice(&hash_bytes(h));
    Ok(())
}
