ghost use Rattle.std.specs.Prelude.{◌≡◌};
ghost use Rattle.port_state.specs.Side.{is_idle, text_or_release, outside_as, looked, may_begin};
ghost use Rattle.port_state.specs.State.{serving_of, with_phase, with_fetcher, with_poster, with_side, side_of, with_incoming, with_outgoing, with_counts, fresh, ended, fail};
ghost use Rattle.base_answers.specs.Told.{refusal_number};
ghost use Rattle.base_side.specs.Step.{next_by};
ghost use Rattle.port_state.specs.declared.state.Side.TheVariants.{Idle};

use base_answers::{Fatal, Refusal, Said};
use base_area::{Area, Ring};
use base_side::{Cursor, Half, Stepped};
use base_words::descriptor;

// What creation gave: kept through every write to IP.
#[derive(Clone, Copy, PartialEq, Eq, Debug, Default)]
pub struct Made {
    pub nv: bool,
    pub qb: bool,
    pub di: bool,
    pub version: u8,
    pub limit: u8,
}

// Where the port stands: the handshake's steps with the host's words so far, wrap, running, or a fatal error.
// Running keeps the word with GO.
#[derive(Clone, Copy, PartialEq, Eq, Debug)]
pub enum Phase {
    Step1,
    Wrap(u16),
    Step2(u16),
    Step3(u16, u16),
    Step4(Area),
    Running(Area, u16),
    Failed(Fatal),
}

// What a fetch or a post does next: which word of the slot or the envelope it touches.
#[derive(Clone, Copy, PartialEq, Eq, Debug)]
pub enum Stage {
    High,
    Low,
    Length,
    Header,
    Text,
    Release,
}

// What the tail of a fetch or a post does next: the previous slot's test, or the indicator.
#[derive(Clone, Copy, PartialEq, Eq, Debug)]
pub enum TailStage {
    Test,
    Mark,
}

// "A half has two sides, each with at most one operation": the fetch side and the post side.
// Kept: an enum with stage and cursor in its cases is the form that document 01 names here (docs/DECISIONS.md).
#[derive(Clone, Copy, PartialEq, Eq, Debug)]
pub enum Side {
    Idle,
    At(Stage, Cursor),
    Tail(TailStage, Cursor),
}

// What a post is asked beside its text: whether it answers a command.
#[derive(Clone, Copy, PartialEq, Eq, Debug, Default)]
pub struct Asked {
    pub answers: bool,
}

// The next slot of each side, the credits still to grant, and the commands fetched and not answered.
#[derive(Clone, Copy, PartialEq, Eq, Debug, Default)]
pub struct Counts {
    pub fetch: u8,
    pub post: u8,
    pub owed: u8,
    pub unanswered: u8,
}

// The port. The texts stand beside the sides, and with the text of a post what it was asked.
#[derive(Clone, Copy, PartialEq, Eq, Debug)]
pub struct Port {
    pub made: Made,
    pub phase: Phase,
    pub fetcher: Side,
    pub poster: Side,
    pub incoming: [u8; 60],
    pub outgoing: [u8; 60],
    pub asked: Asked,
    pub counts: Counts,
}

// The area that a port serves in some phase, if it runs.
pub fn serving_of(phase: Phase) -> Option<Area>
    ensures { result ≡ serving_of phase }
{
    match phase {
        Phase::Running(area, _) => Some(area),
        _ => None,
    }
}

impl Stage {
    // The fatal error of a stage whose word lies outside; that of an envelope's word is its side's.
    pub fn outside(self, envelope: Fatal) -> Fatal
        ensures { result ≡ outside_as envelope self }
    {
        match self {
            Stage::High | Stage::Low => Fatal::RingRead,
            Stage::Length | Stage::Header | Stage::Text => envelope,
            Stage::Release => Fatal::RingWrite,
        }
    }
}

impl Side {
    // Whether the side has no operation.
    pub fn is_idle(self) -> bool
        ensures { result ≡ is_idle self }
    {
        matches!(self, Side::Idle)
    }

    // Text word k next, or the release where there is none.
    #[tactic(auto, unfolding(crate::specs::Side::text_or_release))]
    pub fn text_or_release(c: Cursor, k: usize) -> Side
        ensures { result ≡ text_or_release c k }
    {
        if c.has_word(k) {
            Side::At(Stage::Text, c.with_at(k as u16))
        } else {
            Side::At(Stage::Release, c)
        }
    }
}

impl Half for Port {
    type Side = Side;

    ghost sided = { with_side };

    ghost idle = { Idle };

    // Commands are fetched, responses posted.
    fn with_side(self, ring: Ring, x: Side) -> Port {
        match ring {
            Ring::Command => self.with_fetcher(x),
            Ring::Response => self.with_poster(x),
        }
    }

    fn idle_side() -> Side {
        Side::Idle
    }
}

impl Port {
    // A port in Step 1 that knows only what creation gave.
    pub fn new(made: Made) -> Port
        ensures { result ≡ fresh made }
    {
        Port {
            made,
            phase: Phase::Step1,
            fetcher: Side::Idle,
            poster: Side::Idle,
            incoming: base_texts::blank(),
            outgoing: base_texts::blank(),
            asked: Asked::default(),
            counts: Counts {
                owed: made.limit.saturating_sub(1),
                ..Counts::default()
            },
        }
    }

    // The side of a ring.
    pub fn side(self, ring: Ring) -> Side
        ensures { result ≡ side_of self ring }
    {
        match ring {
            Ring::Command => self.fetcher,
            Ring::Response => self.poster,
        }
    }

    // Kept: a method for each definition `with_..`, so that a contract names what changes and nothing else.
    pub fn with_phase(mut self, x: Phase) -> Port
        ensures { result ≡ with_phase self x }
    {
        self.phase = x;
        self
    }

    pub fn with_fetcher(mut self, x: Side) -> Port
        ensures { result ≡ with_fetcher self x }
    {
        self.fetcher = x;
        self
    }

    pub fn with_poster(mut self, x: Side) -> Port
        ensures { result ≡ with_poster self x }
    {
        self.poster = x;
        self
    }

    pub fn with_incoming(mut self, x: [u8; 60]) -> Port
        ensures { result ≡ with_incoming self x }
    {
        self.incoming = x;
        self
    }

    // A text to be posted, and what was asked of it.
    pub fn with_outgoing(mut self, x: [u8; 60], asked: Asked) -> Port
        ensures { result ≡ with_outgoing self x asked }
    {
        self.outgoing = x;
        self.asked = asked;
        self
    }

    pub fn with_counts(mut self, x: Counts) -> Port
        ensures { result ≡ with_counts self x }
    {
        self.counts = x;
        self
    }

    // Whether a side may begin an operation.
    pub fn may_begin(self, ring: Ring) -> Result<(), Refusal>
        ensures { result ≡ may_begin self ring }
    {
        serving_of(self.phase).ok_or(Refusal::NotRunning)?;
        if !self.side(ring).is_idle() {
            return Err(Refusal::Busy);
        }
        Ok(())
    }

    // A side's first step: the port owns the slot, or a refusal ends the operation.
    pub fn looks(self, ring: Ring, otherwise: Refusal, c: Cursor, v: u16) -> Stepped<Port>
        ensures { next_by result ≡ looked self ring (refusal_number otherwise) c v }
    {
        if descriptor::port_owns(v) {
            self.goes(ring, Side::At(Stage::Low, c.with_high(v)))
        } else {
            self.refused(ring, otherwise)
        }
    }

    // Both sides end, and SA shows the code from now on.
    pub fn ended(self, x: Fatal) -> Port
        ensures { result ≡ ended self x }
    {
        self.with_phase(Phase::Failed(x))
            .with_fetcher(Side::Idle)
            .with_poster(Side::Idle)
    }

    // A fatal error.
    pub fn failed(self, x: Fatal) -> Stepped<Port>
        ensures { next_by result ≡ fail self x }
    {
        self.ended(x).replies(Said::Failed(x))
    }
}
