ghost use Rattle.std.specs.Prelude.{◌≡◌, ◌/◌, ◌%◌, ◌^◌};
ghost use Rattle.base_words.specs.Fields.{is_set, owner, flagged};
ghost use Rattle.base_words.specs.Words.{address_bits, address_of, low_word, with_address, high_word};

use crate::field::{is_set, part, placed};

// The first address past 18 bits.
pub const END: u32 = 262144;

// The address that a low and a high word say; bit 0 is taken as 0.
pub fn address(low: u16, high: u16) -> u32
    ensures { result ≡ address_of address_bits low high }
{
    ((part(high, 0, 2) as u32) << 16) | ((part(low, 1, 15) as u32) << 1)
}

// O: whether the port owns the slot.
pub fn port_owns(high: u16) -> bool
    ensures { result ≡ is_set owner high }
{
    is_set(high, 15)
}

// F.
pub fn has_flag(high: u16) -> bool
    ensures { result ≡ is_set flagged high }
{
    is_set(high, 14)
}

// Bits 31-16 of an address.
pub fn high_half(a: usize) -> u16
    ensures { result ≡ a / 2 ^ 16 % 2 ^ 16 }
{
    ((a >> 16) & 65535) as u16
}

// The low word for an address.
#[tactic(auto, using(crate::proofs::Laws::low_is, crate::proofs::Laws::low_fits))]
pub fn low_word(a: usize) -> u16
    ensures { result ≡ low_word a }
{
    (a & 0xfffe) as u16
}

// Bits 13-0 of a high word, with an address's bits 17-16 put in.
pub fn with_address(rest: u16, a: usize) -> u16
    ensures { result ≡ with_address address_bits rest a }
{
    (part(rest, 2, 12) << 2) | part(high_half(a), 0, 2)
}

// A high word: owner, flag, and bits 13-0 as given.
pub fn high_word(port: bool, flag: bool, rest: u16) -> u16
    ensures { result ≡ high_word port flag rest }
{
    placed(port, 15) | placed(flag, 14) | part(rest, 0, 14)
}
