// The values in a file of vectors: its lines are `NAME = VALUE`, comments, headings and blank lines, with or without a carriage return before the newline.
ghost use Rattle.std.specs.Prelude.{◌≤◌, length};

// What follows a name in the first line that begins with it, on to the end of the text: nothing where no line does.
pub fn after<'a>(text: &'a [u8], name: &[u8]) -> &'a [u8]
    ensures { length result.now ≤ length text.now }
{
    let mut rest = text;
    for line in text.split_inclusive(|b| *b == lines::NEWLINE) {
        if let Some(found) = rest.strip_prefix(name) {
            return found;
        }
        rest = &rest[line.len()..];
    }
    &[]
}

// A text up to the end of its first line.
pub fn value(text: &[u8]) -> &[u8] {
    let line = &text[..lines::find(text, lines::NEWLINE)];
    &line[..lines::find(line, b'\r')]
}

// Writes the bytes that a value spells in hexadecimal to `out`: false where these are not exactly so many.
pub fn bytes(value: &[u8], out: &mut [u8]) -> bool {
    if value.len() != 2 * out.len() {
        return false;
    }
    for (digits, b) in value.chunks_exact(2).zip(out.iter_mut()) {
        let Some(spelled) = text::hex(digits) else {
            return false;
        };
        *b = spelled;
    }
    true
}

// Writes the bytes of the first line so named to `out`: false where these are not exactly so many.
pub fn named(text: &[u8], name: &[u8], out: &mut [u8]) -> bool {
    bytes(value(after(text, name)), out)
}
