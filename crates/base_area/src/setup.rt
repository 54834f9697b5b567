ghost use Rattle.std.specs.Prelude.{◌≡◌, ◌<◌};
ghost use Rattle.base_words.specs.Words.{address_bits};
ghost use Rattle.base_area.specs.Setup.{fits, with_length, slot_set, set_up};

use crate::{Area, ENVELOPE, Ring};
use base_words::descriptor;

// Kept: area and pool are two arguments, since a host has its area from the handshake on and its pool from the setup on.

// Whether indicators, rings and pool lie in the first `end` bytes, and the pool is even and meets neither.
#[tactic(auto, unfolding(crate::specs::Setup::fits))]
pub fn fits_in(area: Area, pool: u32, end: usize) -> bool
    ensures { result ≡ fits address_bits area pool end }
{
    let count = area.count() as usize;
    let base = area.base_of();
    let rings_end = base + 4 * count;
    let start = pool as usize;
    let pool_end = start + ENVELOPE * count;
    let lies = 4 <= base && rings_end <= end && pool_end <= end;
    start % 2 == 0 && lies && (pool_end <= base - 4 || rings_end <= start)
}

// Writes 60 as the length of slot j's envelope, where it is a response slot.
fn set_length(area: Area, pool: u32, j: usize, mem: &mut [u8])
    requires { j < 256 }
    ensures { mem.new ≡ with_length address_bits area pool j mem.old }
{
    if j < area.slots_of(Ring::Response) as usize {
        base_memory::write_word(mem, pool as usize + ENVELOPE * j, base_texts::LENGTH);
    }
}

// Sets slot j: its envelope's length, its address, its owner.
#[tactic(auto, unfolding(crate::specs::Setup::slot_set))]
fn set_slot(area: Area, pool: u32, j: usize, mem: &mut [u8])
    requires { j < 256 }
    ensures { mem.new ≡ slot_set address_bits area pool j mem.old }
{
    set_length(area, pool, j, mem);
    let text = pool as usize + ENVELOPE * j + 4;
    let slot = area.base_of() + 4 * j;
    let to_port = j < area.slots_of(Ring::Response) as usize;
    base_memory::write_word(mem, slot, descriptor::low_word(text));
    let high = descriptor::high_word(to_port, to_port, descriptor::with_address(0, text));
    base_memory::write_word(mem, slot + 2, high);
}

// Clears the pool and sets every slot.
#[tactic(auto, using(crate::proofs::SetupLaws::slots_more), unfolding(crate::specs::Setup::set_up, crate::specs::Setup::slots_set))]
pub fn set_up(area: Area, pool: u32, mem: &mut [u8])
    ensures { mem.new ≡ set_up address_bits area pool mem.old }
{
    let count = area.count() as usize;
    let start = pool as usize;
    base_memory::clear_part(mem, start, start + ENVELOPE * count);
    for j in 0..count {
        set_slot(area, pool, j, mem);
    }
}
