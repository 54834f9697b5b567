// Texts of 0 to 60 bytes in a room of 60, zero beyond their length, taken and filled a word at a time.
#![tactic(auto)]

ghost use Rattle.std.specs.Prelude.{◌≡◌, ◌≤◌, length};
ghost use Rattle.base_texts.specs.Texts.{words_of, zeros, byte_at, with_byte, word_of, with_text, padded};

// The longest text, as a number of bytes and as a length word.
pub const LONGEST: usize = 60;

pub const LENGTH: u16 = LONGEST as u16;

// How many words a text of some length has.
pub fn words_of(size: u16) -> usize
    ensures { result ≡ words_of size }
{
    usize::from(size).div_ceil(2)
}

// 60 zero bytes.
#[tactic(auto, unfolding(crate::specs::Texts::zeros))]
pub fn blank() -> [u8; 60]
    ensures { result ≡ zeros }
{
    [0; 60]
}

// A byte of the room; 0 past its end.
#[tactic(auto, unfolding(crate::specs::Texts::byte_at))]
fn byte_at(text: &[u8; 60], i: usize) -> u8
    ensures { result ≡ byte_at text.now i }
{
    text.get(i).copied().unwrap_or(0)
}

// Stores a byte of the room; past its end nothing changes.
#[tactic(auto, unfolding(crate::specs::Texts::with_byte))]
fn put_byte(text: &mut [u8; 60], i: usize, b: u8)
    ensures { text.new ≡ with_byte text.old i b }
{
    if i < LONGEST {
        text[i] = b;
    }
}

// The word that is stored for bytes 2k and 2k+1.
#[tactic(auto, unfolding(crate::specs::Texts::word_of))]
pub fn word_of(text: &[u8; 60], size: u16, k: u16) -> u16
    ensures { result ≡ word_of text.now size k }
{
    let i = 2 * k as usize;
    let low = byte_at(text, i);
    let high = if i + 1 < size as usize {
        byte_at(text, i + 1)
    } else {
        0
    };
    u16::from_le_bytes([low, high])
}

// The text with the word read for bytes 2k and 2k+1 put in.
#[tactic(auto, unfolding(crate::specs::Texts::with_text))]
pub fn put_word(text: &mut [u8; 60], size: u16, k: u16, w: u16)
    ensures { text.new ≡ with_text text.old size k w }
{
    let i = 2 * k as usize;
    let [low, high] = w.to_le_bytes();
    put_byte(text, i, low);
    if i + 1 < size as usize {
        put_byte(text, i + 1, high);
    }
}

// A text of at most 60 bytes in its room.
#[tactic(auto, using(crate::proofs::Laws::padded_is), unfolding(crate::specs::Texts::padded))]
pub fn padded_of(s: &[u8]) -> [u8; 60]
    requires { length s.now ≤ 60 }
    ensures { result ≡ padded s.now }
{
    let mut room = blank();
    room[..s.len()].copy_from_slice(s);
    room
}
