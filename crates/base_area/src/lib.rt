// The communications area and the host's pool, read off the host's three handshake words.
// Both halves keep those words; every place follows from them, so no word that was heard needs checking again.
#![tactic(auto)]

ghost use Rattle.std.specs.Prelude.{◌≡◌, ◌+◌, ◌*◌, ◌<◌, ◌≤◌, ◌-◌, ◌^◌, cond, ◌&&◌, leb};
ghost use Rattle.base_words.specs.Words.{address_bits};
ghost use Rattle.base_area.specs.Layout.{slots, slot_count, base, number_of, slot_at, next_of, before_of, alone, indicator, envelope_at, has_vector, step_interrupt, area_lies, area_cleared};
ghost use Rattle.base_memory.specs.Memory.{lies, cleared};
ghost use Rattle.base_memory.specs.declared.Touch.TheVariants.{Below, Write};

pub mod setup;

use base_memory::Touch;
use base_words::{descriptor, hostword};

// The bytes of an envelope in the host's pool.
pub const ENVELOPE: usize = 64;

// The host's Step 1, Step 2 and Step 3 words.
#[derive(Clone, Copy, PartialEq, Eq, Debug, Default)]
pub struct Area {
    pub first: u16,
    pub second: u16,
    pub third: u16,
}

#[derive(Clone, Copy, PartialEq, Eq, Debug)]
pub enum Ring {
    Command,
    Response,
}

// Whether the port may interrupt at all.
#[tactic(auto, unfolding(crate::specs::Layout::has_vector))]
pub fn vectored(first: u16) -> bool
    ensures { result ≡ has_vector first }
{
    hostword::vector_of(first) != 0
}

// Whether the end of a handshake step reports an interrupt.
#[tactic(auto, unfolding(crate::specs::Layout::step_interrupt))]
pub fn interrupts_steps(first: u16) -> bool
    ensures { result ≡ step_interrupt first }
{
    hostword::wants_interrupts(first) && vectored(first)
}

// A power of two, of an exponent of three bits.
fn power(e: u16) -> u16
    requires { e < 8 }
    ensures { (result ≡ 2 ^ e) × ((1 ≤ result) × (result ≤ 128)) }
{
    1 << e
}

// A write to the word some bytes before an address.
fn back(at: usize, k: usize, v: u16) -> Touch
    ensures { result ≡ cond (leb k at) (Write (at - k) v) Below }
{
    match at.checked_sub(k) {
        Some(a) => Touch::Write(a, v),
        None => Touch::Below,
    }
}

// Makes a stretch zero that starts some bytes before an address, all or nothing.
fn clear_from(mem: &mut [u8], at: usize, k: usize, end: usize) -> bool
    ensures { (result ≡ (leb k at && lies address_bits mem.old (at - k) end)) × (mem.new ≡ cond (leb k at) (cleared address_bits mem.old (at - k) end) mem.old) }
{
    match at.checked_sub(k) {
        Some(a) => base_memory::clear_part(mem, a, end),
        None => false,
    }
}

// Kept: a slot is a ring and an index, two arguments as in the definitions; a cursor holds the index alone, since a side has one ring.
impl Area {
    // How many slots a ring has.
    #[tactic(auto, unfolding(crate::specs::Layout::slots))]
    pub fn slots_of(self, ring: Ring) -> u16
        ensures { (result ≡ slots self ring) × ((1 ≤ result) × (result ≤ 128)) }
    {
        power(match ring {
            Ring::Command => hostword::command_exponent(self.first),
            Ring::Response => hostword::response_exponent(self.first),
        })
    }

    // How many slots both rings have.
    pub fn count(self) -> u16
        ensures { (result ≡ slot_count self) × (result ≤ 256) }
    {
        self.slots_of(Ring::Response) + self.slots_of(Ring::Command)
    }

    // The ring base.
    #[tactic(auto, unfolding(crate::specs::Layout::base))]
    pub fn base_of(self) -> usize
        ensures { (result ≡ base address_bits self) × (result < 262144) }
    {
        descriptor::address(self.second, self.third) as usize
    }

    // A slot's number among all slots, response slots first.
    pub fn number(self, ring: Ring, i: u8) -> usize
        ensures { (result ≡ number_of self ring i) × (result ≤ 383) }
    {
        match ring {
            Ring::Command => self.slots_of(Ring::Response) as usize + i as usize,
            Ring::Response => i as usize,
        }
    }

    // Where a slot's low word stands; its high word is 2 bytes on.
    #[tactic(auto, unfolding(crate::specs::Layout::slot_at))]
    pub fn slot_at(self, ring: Ring, i: u8) -> usize
        ensures { (result ≡ slot_at address_bits self ring i) × (result < 264000) }
    {
        self.base_of() + 4 * self.number(ring, i)
    }

    // Where a slot's envelope starts in the host's pool.
    #[tactic(auto, unfolding(crate::specs::Layout::envelope_at))]
    pub fn envelope_at(self, pool: u32, ring: Ring, i: u8) -> usize
        ensures { (result ≡ envelope_at self pool ring i) × (result < 4295000000) }
    {
        pool as usize + ENVELOPE * self.number(ring, i)
    }

    // The slot after a slot.
    #[tactic(auto, unfolding(crate::specs::Layout::next_of))]
    pub fn next(self, ring: Ring, i: u8) -> u8
        ensures { result ≡ next_of self ring i }
    {
        ((i as u16 + 1) % self.slots_of(ring)) as u8
    }

    // The slot before a slot.
    #[tactic(auto, unfolding(crate::specs::Layout::before_of))]
    pub fn before(self, ring: Ring, i: u8) -> u8
        ensures { result ≡ before_of self ring i }
    {
        if i == 0 {
            (self.slots_of(ring) - 1) as u8
        } else {
            i - 1
        }
    }

    // Whether a ring has one slot.
    #[tactic(auto, unfolding(crate::specs::Layout::alone))]
    pub fn is_alone(self, ring: Ring) -> bool
        ensures { result ≡ alone self ring }
    {
        self.slots_of(ring) == 1
    }

    // A write to a ring's indicator.
    #[tactic(auto, unfolding(crate::specs::Layout::indicator))]
    pub fn indicator_write(self, ring: Ring, v: u16) -> Touch
        ensures { result ≡ indicator address_bits self ring v }
    {
        let start = self.base_of();
        match ring {
            Ring::Command => back(start, 4, v),
            Ring::Response => back(start, 2, v),
        }
    }

    // Makes the area zero from before the indicators to the end of the rings, all or nothing.
    #[tactic(auto, unfolding(crate::specs::Layout::area_lies, crate::specs::Layout::area_cleared))]
    pub fn clear_area(self, mem: &mut [u8]) -> bool
        ensures { (result ≡ area_lies address_bits mem.old self) × (mem.new ≡ area_cleared address_bits mem.old self) }
    {
        let start = self.base_of();
        let end = start + 4 * self.count() as usize;
        let lead = if hostword::wants_purges(self.second) {
            8
        } else {
            4
        };
        clear_from(mem, start, lead, end)
    }
}
