// A page: a lent buffer that is written piece by piece, each piece after the one before, as much as fits.
// It is no `fmt::Write`: `write!` answers a `Result`, and a page refuses nothing.
#![tactic(auto)]

ghost use Rattle.std.specs.Prelude.{◌≡◌, ◌<◌};
ghost use Rattle.text.specs.Text.{decimal, glyph, hex};
ghost use Rattle.page.specs.Written.{written};

// A lent buffer, and the place up to which it is written.
#[derive(Drop)]
pub struct Page<'a> {
    pub bytes: &'a mut [u8],
    pub at: usize,
}

impl Page<'_> {
    // Writes bytes.
    pub fn put(&mut self, text: &[u8])
        ensures { self.new ≡ written self.old text.now }
    {
        let end = self.bytes.len();
        if self.at < end {
            lent::copy(&mut self.bytes[self.at..], text);
        }
        self.at = self.at.saturating_add(text.len()).min(end);
    }

    // Writes a number in decimal: the digits before its last one, and then that.
    pub fn put_decimal(&mut self, n: u16)
        ensures { self.new ≡ written self.old (decimal n) }
    {
        if n > 9 {
            self.put_decimal(n / 10);
        }
        self.put(&[b'0' + (n % 10) as u8]);
    }

    // Writes a byte in two hex digits.
    pub fn put_hex(&mut self, b: u8)
        ensures { self.new ≡ written self.old (hex b) }
    {
        self.put(&[digit(b / 16), digit(b % 16)]);
    }
}

// The hex digit of a number below 16.
fn digit(d: u8) -> u8
    requires { d < 16 }
    ensures { result ≡ glyph d }
{
    if d < 10 {
        return b'0' + d;
    }
    b'a' - 10 + d
}
