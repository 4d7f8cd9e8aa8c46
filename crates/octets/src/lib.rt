// Numbers laid side by side as bits and as bytes, and lists made place by place: definitions and laws; and numbers of two bytes as code.
#![tactic(auto)]

ghost use Rattle.std.specs.Prelude.{◌≡◌, [], ◌∷◌};
ghost use Rattle.octets.specs.Layout.{number, bytes};
ghost use Rattle.octets.specs.Places.{xor};

// The two bytes of a number, most significant first.
pub fn bytes_2(n: u16) -> [u8; 2]
    ensures { result ≡ bytes 2 n }
{
    n.to_be_bytes()
}

// The number that two bytes are, most significant first.
#[tactic(auto, using(crate::proofs::Layouts::number_2))]
pub fn number_2(a: u8, b: u8) -> u16
    ensures { result ≡ number (a ∷ b ∷ []) }
{
    u16::from_be_bytes([a, b])
}

// The exclusive-or of two arrays, place by place.
pub fn xor<const N: usize>(s: [u8; N], t: [u8; N]) -> [u8; N]
    ensures { result ≡ xor s.entry t.entry }
{
    let mut x = [0; N];
    for i in 0..N {
        x[i] = s[i] ^ t[i];
    }
    x
}
