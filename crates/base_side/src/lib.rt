// What both halves have: an answer with the half after it, and where the operation of a side stands. The definitions of specs/ say, over
// the half's record, what a call leaves, and what a step is: the word that a stage asks for, and what follows from the word found, or
// from none.
#![tactic(auto)]

ghost use Rattle.std.specs.Prelude.{◌≡◌, false};
ghost use Rattle.base_answers.specs.Told.{bare_reply, refusal_number};
ghost use Rattle.base_area.specs.declared.Ring.{Ring};
ghost use Rattle.base_side.specs.Place.{start_of, with_high, with_envelope, with_size, with_at, has_word};
ghost use Rattle.base_side.specs.Step.{next_by, onward, denied};

use base_answers::{Refusal, Reply, Said};
use base_area::Ring;

// Where an operation stands: its slot, that slot's high word as read, where the envelope starts, the text's length, the next
// text word. What else goes with a message stands beside its text in the half.
#[derive(Clone, Copy, PartialEq, Eq, Debug, Default)]
pub struct Cursor {
    pub envelope: u32,
    pub high: u16,
    pub size: u16,
    pub at: u16,
    pub slot: u8,
}

impl Cursor {
    // An operation at its beginning.
    pub fn start(slot: u8, envelope: u32, size: u16) -> Cursor
        ensures { result ≡ start_of slot envelope size }
    {
        Cursor {
            envelope,
            size,
            slot,
            ..Cursor::default()
        }
    }

    // Kept: a method for each definition `with_..`, so that a contract names what changes and nothing else.
    pub fn with_high(mut self, x: u16) -> Cursor
        ensures { result ≡ with_high self x }
    {
        self.high = x;
        self
    }

    pub fn with_envelope(mut self, x: u32) -> Cursor
        ensures { result ≡ with_envelope self x }
    {
        self.envelope = x;
        self
    }

    pub fn with_size(mut self, x: u16) -> Cursor
        ensures { result ≡ with_size self x }
    {
        self.size = x;
        self
    }

    pub fn with_at(mut self, x: u16) -> Cursor
        ensures { result ≡ with_at self x }
    {
        self.at = x;
        self
    }

    // Whether the text has a word k.
    pub fn has_word(self, k: usize) -> bool
        ensures { result ≡ has_word self k }
    {
        k < base_texts::words_of(self.size)
    }
}

// An answer, and the half after it.
#[derive(Clone, Copy, PartialEq, Eq, Debug)]
pub struct Stepped<S> {
    pub reply: Reply,
    pub half: S,
}

// What both halves have: a side for each ring, and the answers that carry no text.
pub trait Half: Copy {
    type Side;

    ghost sided: { Self → Ring → Self.Side → Self };

    ghost idle: { Self.Side };

    // The half with the side of a ring changed.
    fn with_side(self, ring: Ring, x: Self::Side) -> Self
        ensures { result ≡ sided self ring x };

    // A side with no operation.
    fn idle_side() -> Self::Side
        ensures { result ≡ idle };

    // The half with an answer that carries no text.
    final fn replies(self, said: Said) -> Stepped<Self>
        ensures { result ≡ record { reply = bare_reply said false; half = self } }
    {
        Stepped {
            reply: base_answers::bare(said, false),
            half: self,
        }
    }

    // A side's operation goes on.
    final fn goes(self, ring: Ring, x: Self::Side) -> Stepped<Self>
        ensures { next_by result ≡ onward (sided self ring x) }
    {
        self.with_side(ring, x).replies(Said::Going)
    }

    // A side's operation is refused, and ends.
    final fn refused(self, ring: Ring, x: Refusal) -> Stepped<Self>
        ensures { next_by result ≡ denied (sided self ring idle) (refusal_number x) }
    {
        self.with_side(ring, Self::idle_side())
            .replies(Said::Refused(x))
    }
}
