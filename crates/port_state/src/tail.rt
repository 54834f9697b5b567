ghost use Rattle.std.specs.Prelude.{◌≡◌};
ghost use Rattle.base_words.specs.Words.{address_bits};
ghost use Rattle.base_memory.specs.OneWord.{found, left};
ghost use Rattle.port_state.specs.Tail.{tail_start, tail_asks, test_follows, mark_follows, tail_follows};
ghost use Rattle.port_state.specs.declared.state.TailStage.TheVariants.{Test};

use crate::state::TailStage;
use base_answers::Fatal;
use base_area::{Area, Ring};
use base_memory::Touch;
use base_side::Cursor;
use base_words::descriptor;

// Where the tail starts: a ring of one slot has no slot before to test.
#[tactic(auto, unfolding(crate::specs::Tail::tail_start))]
pub fn tail_start(area: Area, ring: Ring) -> TailStage
    ensures { result ≡ tail_start area ring }
{
    if area.is_alone(ring) {
        TailStage::Mark
    } else {
        TailStage::Test
    }
}

// The word that the previous-slot test asks for.
#[tactic(auto, unfolding(crate::specs::Tail::tail_asks))]
fn test_asks(area: Area, ring: Ring, c: Cursor) -> Touch
    ensures { result ≡ tail_asks address_bits area ring Test c }
{
    Touch::Read(area.slot_at(ring, area.before(ring, c.slot)) + 2)
}

// A step of a tail comes to a fatal error, to `Ok(None)` where the indicator is next, or to `Ok(Some(i))` where the tail ends, with an
// interrupt or without. This is what the previous slot's high word comes to.
#[tactic(auto, unfolding(crate::specs::Tail::test_follows))]
fn test_follows(w: Option<u16>) -> Result<Option<bool>, Fatal>
    ensures { result ≡ test_follows w }
{
    let v = w.ok_or(Fatal::RingRead)?;
    if descriptor::port_owns(v) {
        Ok(None)
    } else {
        Ok(Some(false))
    }
}

// What the indicator's write comes to.
#[tactic(auto, unfolding(crate::specs::Tail::mark_follows))]
fn mark_follows(area: Area, w: Option<u16>) -> Result<Option<bool>, Fatal>
    ensures { result ≡ mark_follows area w }
{
    w.ok_or(Fatal::InterruptWrite)?;
    Ok(Some(base_area::vectored(area.first)))
}

// One step of a tail: the previous slot's high word is read; any other stage, the indicator's, falls to its own answer.
#[tactic(auto, unfolding(crate::specs::Tail::tail_asks))]
pub fn tail_step(
    area: Area,
    ring: Ring,
    stage: TailStage,
    c: Cursor,
    mem: &mut [u8],
) -> Result<Option<bool>, Fatal>
    ensures { (result ≡ tail_follows area stage (found address_bits mem.old (tail_asks address_bits area ring stage c))) × (mem.new ≡ left address_bits mem.old (tail_asks address_bits area ring stage c)) }
{
    let TailStage::Test = stage else {
        let w = base_memory::touched(mem, area.indicator_write(ring, 1));
        return mark_follows(area, w);
    };
    let w = base_memory::touched(mem, test_asks(area, ring, c));
    test_follows(w)
}
