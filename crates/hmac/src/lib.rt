// HMAC of RFC 2104 with SHA-256.
#![tactic(auto)]

ghost use Rattle.std.specs.Prelude.{◌≡◌, ◌≤◌, length};
ghost use Rattle.constants.specs.Constants.{H0};
ghost use Rattle.octets.specs.Places.{xor};
ghost use Rattle.refusal.specs.Refusal.{filled};
ghost use Rattle.refusal.specs.Told.{told};
ghost use Rattle.sha256.specs.Sha256.{absorbed, hash_bytes, finished};
ghost use Rattle.hmac.specs.Hmac.{ipad, opad, zero_filled, key_block, mac_of, tag_within};

use refusal::Refusal;

// The bytes of k, and zeros to 64.
fn zero_filled(k: &[u8]) -> [u8; 64]
    requires { length k.now ≤ 64 }
    ensures { result ≡ zero_filled k.now }
{
    let mut b = [0; 64];
    b[..k.len()].copy_from_slice(k);
    b
}

// The block of a key: its own bytes, or its digest's where it has more than 64.
fn key_block(key: &[u8]) -> [u8; 64]
    requires { length key.now ≤ 1024 }
    ensures { result ≡ key_block key.now }
{
    if key.len() > 64 {
        let h = sha256::finish(constants::initial_hash(), 0, key);
        return zero_filled(&sha256::hash_bytes(h));
    }
    zero_filled(key)
}

// The hash after a key's block, exclusive-or a pad.
fn hash_after(block: [u8; 64], pad: [u8; 64]) -> [u32; 8]
    ensures { result ≡ absorbed H0 (xor block pad) }
{
    sha256::absorb(constants::initial_hash(), octets::xor(block, pad))
}

// A key, as the hashes after its block at the inner and at the outer pad.
#[derive(Drop)]
struct Keyed {
    inner: [u32; 8],
    outer: [u32; 8],
}

impl Keyed {
    // The key whose block is given.
    fn new(block: [u8; 64]) -> Keyed
        ensures inner { result.inner ≡ absorbed H0 (xor block ipad) }
        ensures outer { result.outer ≡ absorbed H0 (xor block opad) }
    {
        Keyed {
            inner: hash_after(block, [0x36; 64]),
            outer: hash_after(block, [0x5c; 64]),
        }
    }

    // The HMAC of a text.
    fn tag(&self, text: &[u8]) -> [u8; 32]
        requires { length text.now ≤ 4096 }
        ensures { result ≡ hash_bytes (finished self.now.outer 1 (hash_bytes (finished self.now.inner 1 text.now))) }
    {
        let d = sha256::hash_bytes(sha256::finish(self.inner, 1, text));
        sha256::hash_bytes(sha256::finish(self.outer, 1, &d))
    }
}

// The HMAC of a message under a key into out; refused, and out as it was, where the key has more than 1,024 bytes, the message more than 4,096, or out has not 32.
#[tactic(auto, unfolding(crate::specs::Hmac::mac_of))]
pub fn mac(key: &[u8], message: &[u8], out: &mut [u8]) -> Result<(), Refusal>
    ensures { filled (told result) out.new ≡ mac_of key.now message.now out.old }
{
    Refusal::Bound.when(key.len() > 1024)?;
    Refusal::Bound.when(message.len() > 4096)?;
    Refusal::Bound.when(out.len() != 32)?;
    out.copy_from_slice(&Keyed::new(key_block(key)).tag(message));
    Ok(())
}

// The HMAC of a message under a key of 32 bytes; zeros where the message has more than 4,096: it could not fail, and so gives no Result.
pub fn tag(key: [u8; 32], message: &[u8]) -> [u8; 32]
    ensures { result ≡ tag_within key message.now }
{
    if message.len() <= 4096 {
        return Keyed::new(zero_filled(&key)).tag(message);
    }
    [0; 32]
}
