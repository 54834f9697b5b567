// What a fetch and a post have in common: how they are stepped. Each says its ring, the words that it asks for and what follows from
// them.
ghost use Rattle.std.specs.Prelude.{◌≡◌, ℕ, Bool};
ghost use Rattle.base_words.specs.Words.{address_bits};
ghost use Rattle.base_memory.specs.declared.Touch.{Touch};
ghost use Rattle.base_answers.specs.declared.Fatal.{Fatal};
ghost use Rattle.base_area.specs.declared.Area.{Area};
ghost use Rattle.base_area.specs.declared.Ring.{Ring};
ghost use Rattle.base_side.specs.Step.{Next, next_by, with_memory};
ghost use Rattle.base_side.specs.declared.Cursor.{Cursor};
ghost use Rattle.port_state.specs.State.{serving_of, side_of};
ghost use Rattle.port_state.specs.Side.{outside_as, followed, tailed_on, port_step};
ghost use Rattle.port_state.specs.declared.state.Stage.{Stage};
ghost use Rattle.port_state.specs.declared.state.Port.{Port};

use crate::state::{Port, Side, Stage, TailStage};
use crate::{state, tail};
use base_answers::{Fatal, Refusal};
use base_area::{Area, Ring};
use base_memory::Touch;
use base_side::{Cursor, Half, Stepped};

// Kept: an operation takes half, stage and cursor one by one, each function those that it reads; a struct of them would be taken
// apart again in every one.
pub trait Operation {
    ghost its_ring: { Ring };

    ghost its_fault: { Fatal };

    ghost its_words: { Port → Area → Stage → Cursor → Touch };

    ghost its_way: { Port → Area → ℕ → Stage → Cursor → ℕ → Next Port };

    ghost its_end: { Port → Cursor → Bool → Next Port };

    // Commands are fetched, responses posted.
    fn ring() -> Ring
        ensures { result ≡ its_ring };

    // The fatal error of an envelope's word that lies outside.
    fn envelope_fault() -> Fatal
        ensures { result ≡ its_fault };

    // The word that a stage asks for.
    fn asks(port: Port, area: Area, stage: Stage, c: Cursor) -> Touch
        ensures { result ≡ its_words port area stage c };

    // What follows from the word that a stage found, on a memory that counts so many bytes.
    fn finds(port: Port, area: Area, end: usize, stage: Stage, c: Cursor, v: u16) -> Stepped<Port>
        ensures { next_by result ≡ its_way port area end stage c v };

    // The operation ends.
    fn closes(port: Port, c: Cursor, interrupt: bool) -> Stepped<Port>
        ensures { next_by result ≡ its_end port c interrupt };

    // What follows from the word found, or from none.
    final fn follows(
        port: Port,
        area: Area,
        end: usize,
        stage: Stage,
        c: Cursor,
        w: Option<u16>,
    ) -> Stepped<Port>
        ensures { next_by result ≡ followed port (outside_as its_fault stage) (its_way port area end stage c) w }
    {
        match w {
            Some(v) => Self::finds(port, area, end, stage, c, v),
            None => port.failed(stage.outside(Self::envelope_fault())),
        }
    }

    // What follows from a tail step.
    final fn follows_tail(port: Port, c: Cursor, x: Result<Option<bool>, Fatal>) -> Stepped<Port>
        ensures { next_by result ≡ tailed_on port its_ring (its_end port) c x }
    {
        match x {
            Ok(None) => port.goes(Self::ring(), Side::Tail(TailStage::Mark, c)),
            Ok(Some(interrupt)) => Self::closes(port, c, interrupt),
            Err(fatal) => port.failed(fatal),
        }
    }

    // One step: it touches one word at most.
    #[tactic(auto, unfolding(crate::specs::Side::port_step))]
    final fn step(port: Port, mem: &mut [u8]) -> Stepped<Port>
        ensures { with_memory (next_by result) mem.new ≡ port_step address_bits port its_ring (its_words port) (λ a end s c. followed port (outside_as its_fault s) (its_way port a end s c)) (tailed_on port its_ring (its_end port)) mem.old (side_of port its_ring) (serving_of port.phase) }
    {
        let Some(area) = state::serving_of(port.phase) else {
            return port.refused(Self::ring(), Refusal::NotRunning);
        };
        match port.side(Self::ring()) {
            Side::Idle => port.refused(Self::ring(), Refusal::IdleSide),
            Side::At(stage, c) => {
                let end = base_memory::usable_of(mem);
                let w = base_memory::touched(mem, Self::asks(port, area, stage, c));
                Self::follows(port, area, end, stage, c, w)
            }
            Side::Tail(stage, c) => {
                let x = tail::tail_step(area, Self::ring(), stage, c, mem);
                Self::follows_tail(port, c, x)
            }
        }
    }
}
