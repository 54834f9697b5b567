ghost use Rattle.std.specs.Prelude.{◌≡◌};
ghost use Rattle.base_words.specs.Fields.{of, is_set, one, wr, command_exponent, response_exponent, ie, vector, upper, lower, pi, go};
ghost use Rattle.base_words.specs.Words.{first_word, second_word, third_word, go_word, address_bits, address_of};

use crate::descriptor;
use crate::field::{is_set, part, placed};

// The host's Step 1 word.
pub fn first(command: u8, response: u8, interrupts: bool, vector4: u8) -> u16
    ensures { result ≡ first_word command response interrupts vector4 }
{
    let c = part(command as u16, 0, 3);
    let p = part(response as u16, 0, 3);
    let v = part(vector4 as u16, 0, 7);
    (c << 11) | (p << 8) | placed(interrupts, 7) | v | 0x8000
}

// The host's Step 2 word: the ring base's low part, PI 0.
pub fn second(base: u32) -> u16
    ensures { result ≡ second_word base }
{
    descriptor::low_word(base as usize)
}

// The host's Step 3 word: the ring base's high part.
pub fn third(base: u32) -> u16
    ensures { result ≡ third_word base }
{
    part(descriptor::high_half(base as usize), 0, 2)
}

// The host's Step 4 word: GO.
pub fn go_on() -> u16
    ensures { result ≡ go_word }
{
    1
}

// Bit 15, without which a Step 1 word changes nothing.
pub fn is_first(w: u16) -> bool
    ensures { result ≡ is_set one w }
{
    is_set(w, 15)
}

// WR.
pub fn wants_wrap(w: u16) -> bool
    ensures { result ≡ is_set wr w }
{
    is_set(w, 14)
}

// The exponents of the command and the response ring.
pub fn command_exponent(w: u16) -> u16
    ensures { result ≡ of command_exponent w }
{
    part(w, 11, 3)
}

pub fn response_exponent(w: u16) -> u16
    ensures { result ≡ of response_exponent w }
{
    part(w, 8, 3)
}

// IE.
pub fn wants_interrupts(w: u16) -> bool
    ensures { result ≡ is_set ie w }
{
    is_set(w, 7)
}

// Vector/4.
pub fn vector_of(w: u16) -> u16
    ensures { result ≡ of vector w }
{
    part(w, 0, 7)
}

// The halves of the Step 1 word that are echoed.
pub fn upper_half(w: u16) -> u16
    ensures { result ≡ of upper w }
{
    part(w, 8, 8)
}

pub fn lower_half(w: u16) -> u16
    ensures { result ≡ of lower w }
{
    part(w, 0, 8)
}

// PI, of the Step 2 word.
pub fn wants_purges(w: u16) -> bool
    ensures { result ≡ is_set pi w }
{
    is_set(w, 0)
}

// GO, of the Step 4 word.
pub fn says_go(w: u16) -> bool
    ensures { result ≡ is_set go w }
{
    is_set(w, 0)
}
