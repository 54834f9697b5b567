// The arguments: numbers, decimal or hexadecimal, and texts.
ghost use Rattle.std.specs.Prelude.{◌≡◌, ◌*◌, ◌/◌, ◌<◌, ◌≤◌, ◌↔◌, IfOk, IsErrOf, length, take};
ghost use Rattle.program_script.specs.declared.reason.Reason.TheVariants.{TextTooLong};
ghost use Rattle.program_script.specs.declared.value.TheConstants.{LONGEST};

use crate::reason::Reason;

// The longest text that can be written; beyond 60 it is there to be refused.
pub const LONGEST: usize = 64;

// A text of at most 64 bytes, zero beyond its length.
// Kept: a room of 64 bytes with a length; a text on the heap could fail to be made, and reading a line can't.
#[derive(Clone, Copy, PartialEq, Eq, Debug)]
pub struct Text {
    pub size: usize,
    pub bytes: [u8; 64],
    ghost fits: { size ≤ 64 },
}

impl Text {
    // No byte.
    pub(crate) fn new() -> Text
        ensures { result.size ≡ 0 }
    {
        Text {
            size: 0,
            bytes: [0; 64],
        }
    }

    // Its bytes, as many as it has.
    pub fn as_slice(&self) -> &[u8]
        ensures { result.now ≡ take self.now.size self.now.bytes }
    {
        &self.bytes[..self.size]
    }
}

// Once a number is so large its other digits are read, and not counted. Two more than any place takes: too large even for a place that
// took one more.
const BEYOND: u64 = (1 << 32) + 1;

// The number that digits spell, at least one, or BEYOND where that is less. Their radix is no argument, so that the compiler makes a loop
// for each.
fn spelled<const RADIX: u32>(digits: &[u8]) -> Result<u64, Reason>
    requires { (2 ≤ RADIX) × (RADIX ≤ 36) }
{
    if digits.is_empty() {
        return Err(Reason::NotANumber);
    }
    let mut number = 0u64;
    for b in digits {
        let digit = char::from(*b).to_digit(RADIX).ok_or(Reason::NotANumber)?;
        number = number
            .saturating_mul(u64::from(RADIX))
            .saturating_add(u64::from(digit))
            .min(BEYOND);
    }
    Ok(number)
}

// A number of at least one digit: decimal, or hexadecimal after 0x. Beyond the largest that it may be it is too large, however many
// digits it has.
pub fn number_in(word: &[u8], most: u32) -> Result<u32, Reason>
    ensures { IfOk result (λ n. n ≤ most) }
{
    let number = match word.strip_prefix(b"0x") {
        Some(digits) => spelled::<16>(digits)?,
        None => spelled::<10>(word)?,
    };
    if u64::from(most) < number {
        return Err(Reason::NumberTooLarge);
    }
    Ok(number as u32)
}

// The byte that two hexadecimal digits spell.
fn byte_in(pair: &[u8]) -> Option<u8> {
    let &[high, low] = pair else {
        return None;
    };
    let high = char::from(high).to_digit(16)?;
    let low = char::from(low).to_digit(16)?;
    Some((16 * high + low) as u8)
}

// A text: `-`, or two hexadecimal digits for each byte. A word of more than two digits for each of 64 bytes is too long, whatever
// it is.
pub fn text_in(word: &[u8]) -> Result<Text, Reason>
    ensures size { IfOk result (λ text. text.size ≡ length word.now / 2) }
    ensures long { IsErrOf result TextTooLong ↔ (2 * LONGEST < length word.now) }
{
    if 2 * LONGEST < word.len() {
        return Err(Reason::TextTooLong);
    }
    let mut text = Text::new();
    match word {
        b"-" => return Ok(text),
        [] => return Err(Reason::NotAText),
        _ => {}
    }
    for (byte, pair) in text.bytes.iter_mut().zip(word.chunks(2)) {
        *byte = byte_in(pair).ok_or(Reason::NotAText)?;
    }
    text.size = word.len() / 2;
    Ok(text)
}
