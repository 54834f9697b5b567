// What a send and a take have in common: how they are stepped. Each says its ring, the words that it asks for and what follows from
// them.
ghost use Rattle.std.specs.Prelude.{◌≡◌, ℕ};
ghost use Rattle.base_words.specs.Words.{address_bits};
ghost use Rattle.base_memory.specs.declared.Touch.{Touch};
ghost use Rattle.base_area.specs.declared.Ring.{Ring};
ghost use Rattle.base_side.specs.Step.{Next, next_by, with_memory};
ghost use Rattle.base_side.specs.declared.Cursor.{Cursor};
ghost use Rattle.host_state.specs.State.{is_ready, side_of};
ghost use Rattle.host_state.specs.Side.{followed, host_step};
ghost use Rattle.host_state.specs.declared.state.Stage.{Stage};
ghost use Rattle.host_state.specs.declared.state.Host.{Host};

use crate::state::{Host, Side, Stage};
use base_answers::Refusal;
use base_area::Ring;
use base_memory::Touch;
use base_side::{Cursor, Half, Stepped};

// Kept: an operation takes half, stage and cursor one by one, each function those that it reads; a struct of them would be taken
// apart again in every one.
// Kept beside the port's trait of that name, whose operations have an area to serve, a length to look at and a tail.
pub trait Operation {
    ghost its_ring: { Ring };

    ghost its_words: { Host → Stage → Cursor → Touch };

    ghost its_way: { Host → Stage → Cursor → ℕ → Next Host };

    // Commands are sent, responses taken.
    fn ring() -> Ring
        ensures { result ≡ its_ring };

    // The word that a stage asks for.
    fn asks(host: Host, stage: Stage, c: Cursor) -> Touch
        ensures { result ≡ its_words host stage c };

    // What follows from the word that a stage found.
    fn finds(host: Host, stage: Stage, c: Cursor, v: u16) -> Stepped<Host>
        ensures { next_by result ≡ its_way host stage c v };

    // What follows from the word found, or from none.
    final fn follows(host: Host, stage: Stage, c: Cursor, w: Option<u16>) -> Stepped<Host>
        ensures { next_by result ≡ followed host its_ring (its_way host stage c) w }
    {
        match w {
            Some(v) => Self::finds(host, stage, c, v),
            None => host.refused(Self::ring(), Refusal::DoesNotFit),
        }
    }

    // One step: it touches one word at most.
    #[tactic(auto, unfolding(crate::specs::Side::host_step))]
    final fn step(host: Host, mem: &mut [u8]) -> Stepped<Host>
        ensures { with_memory (next_by result) mem.new ≡ host_step address_bits host its_ring (its_words host) (λ s c. followed host its_ring (its_way host s c)) mem.old (side_of host its_ring) (is_ready host) }
    {
        if !host.is_ready() {
            return host.refused(Self::ring(), Refusal::NotRunning);
        }
        match host.side(Self::ring()) {
            Side::Idle => host.refused(Self::ring(), Refusal::IdleSide),
            Side::At(stage, c) => {
                let w = base_memory::touched(mem, Self::asks(host, stage, c));
                Self::follows(host, stage, c, w)
            }
        }
    }
}
