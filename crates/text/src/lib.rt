// Words, numbers and bytes as text, in ASCII: the number or the byte that a word writes.
// std's `parse` and `from_str_radix` serve for neither: they read a sign, leading zeros and upper-case digits too.
#![tactic(auto)]

ghost use Rattle.std.specs.Prelude.{◌≡◌};
ghost use Rattle.text.specs.Read.{decimal_in, hex_in};
ghost use Rattle.text.specs.Digits.{digit_in};

// The number from 0 to 65,535 that a word writes in decimal, without leading zeros.
pub fn decimal(word: &[u8]) -> Option<u16>
    ensures { result ≡ decimal_in word.now }
{
    let first = *word.first()?;
    if first == b'0' && word.len() > 1 {
        return None;
    }
    let mut n: u16 = 0;
    for b in word {
        let d = digit(*b)?;
        if d > 9 {
            return None;
        }
        n = n.checked_mul(10)?.checked_add(d as u16)?;
    }
    Some(n)
}

// The byte that a word writes in two lower-case hex digits.
pub fn hex(word: &[u8]) -> Option<u8>
    ensures { result ≡ hex_in word.now }
{
    let [high, low] = word else {
        return None;
    };
    Some(16 * digit(*high)? + digit(*low)?)
}

// The hex digit that a byte is.
fn digit(b: u8) -> Option<u8>
    ensures { result ≡ digit_in b }
{
    match b {
        b'0'..=b'9' => Some(b - b'0'),
        b'a'..=b'f' => Some(b - b'a' + 10),
        _ => None,
    }
}
