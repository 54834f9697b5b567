// Bytes, in hexadecimal.
ghost use Rattle.std.specs.Prelude.{◌≡◌, ◌<◌};
ghost use Rattle.program_saying.specs.Hexadecimal.{glyph, two_digits};

use std::fmt;

// A hexadecimal digit, in lower case.
fn glyph(n: u8) -> u8
    requires { n < 16 }
    ensures { result ≡ glyph n }
{
    if n < 10 { b'0' + n } else { b'a' + (n - 10) }
}

// A byte as two digits.
pub fn digits_of(byte: u8) -> [u8; 2]
    ensures { result ≡ two_digits byte }
{
    [glyph(byte / 16), glyph(byte % 16)]
}

// Some bytes, as two digits each.
#[derive(Clone, Copy)]
pub struct Digits<'a>(pub &'a [u8]);

impl fmt::Display for Digits<'_> {
    fn fmt<W: fmt::Write>(&self, f: &mut fmt::Formatter<W>) -> fmt::Result {
        for byte in self.0 {
            write!(f, "{byte:02x}")?;
        }
        Ok(())
    }
}

// A text up to its last byte that is not 0; `-` if all are 0.
#[derive(Clone, Copy)]
pub struct Text<'a>(pub &'a [u8]);

impl fmt::Display for Text<'_> {
    fn fmt<W: fmt::Write>(&self, f: &mut fmt::Formatter<W>) -> fmt::Result {
        match before_zeros(self.0) {
            [] => write!(f, "-"),
            bytes => write!(f, "{}", Digits(bytes)),
        }
    }
}

// The bytes before the zeros at the end.
pub(crate) fn before_zeros(text: &[u8]) -> &[u8] {
    match text.iter().rposition(|byte| *byte != 0) {
        Some(last) => &text[..=last],
        None => &[],
    }
}
