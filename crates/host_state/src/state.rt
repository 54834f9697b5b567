ghost use Rattle.std.specs.Prelude.{◌≡◌};
ghost use Rattle.base_texts.specs.Texts.{zeros};
ghost use Rattle.host_state.specs.State.{is_finished, is_ready, envelope_of, with_shake, with_sender, with_taker, with_side, side_of, with_outgoing, with_incoming, with_counts, fresh};
ghost use Rattle.host_state.specs.Side.{is_idle, text_or_closing, may_begin};
ghost use Rattle.host_state.specs.declared.state.Side.TheVariants.{Idle};

use base_answers::Refusal;
use base_area::{Area, Ring};
use base_side::{Cursor, Half};

// What a beginning is given: exponents, IE, vector/4 and the ring base.
#[derive(Clone, Copy, PartialEq, Eq, Debug)]
pub struct Beginning {
    pub command: u8,
    pub response: u8,
    pub interrupts: bool,
    pub vector: u8,
    pub base: u32,
}

// The four steps of the handshake, each with its bit among SA's four step bits.
#[derive(Clone, Copy, PartialEq, Eq, Debug)]
pub enum Step {
    One = 1,
    Two = 2,
    Three = 4,
    Four = 8,
}

// Where the handshake stands: dead, expecting a step (and whether IP was written a second time), or finished.
#[derive(Clone, Copy, PartialEq, Eq, Debug)]
pub enum Shake {
    Dead,
    Expect(Step, bool),
    Finished,
}

// What the host half asks of its caller in the handshake.
#[derive(Clone, Copy, PartialEq, Eq, Debug)]
pub enum Act {
    WriteIp,
    WriteSa(u16),
    Waiting,
    IsDead,
    None,
    PortFailed(u16),
    Denied(Refusal),
}

// What a send is asked beside its text: the flag F.
#[derive(Clone, Copy, PartialEq, Eq, Debug, Default)]
pub struct Asked {
    pub flag: bool,
}

// What a send or a take does next: which word of the slot or the envelope it touches. Closing is the word before the high word:
// a send's low word, a take's 60 as length.
#[derive(Clone, Copy, PartialEq, Eq, Debug)]
pub enum Stage {
    High,
    Length,
    Header,
    Text,
    Closing,
    Release,
}

// "A half has two sides, each with at most one operation": the send side and the take side.
// Kept: an enum with stage and cursor in its cases is the form that document 01 names here (docs/DECISIONS.md).
#[derive(Clone, Copy, PartialEq, Eq, Debug)]
pub enum Side {
    Idle,
    At(Stage, Cursor),
}

// The next slot of each side, and the credit account.
#[derive(Clone, Copy, PartialEq, Eq, Debug, Default)]
pub struct Counts {
    pub send: u8,
    pub take: u8,
    pub account: u8,
}

// The host. The texts stand beside the sides; with the text of a send what it was asked, with
// the text of a take the credits that its envelope carries.
#[derive(Clone, Copy, PartialEq, Eq, Debug)]
pub struct Host {
    pub shake: Shake,
    pub area: Area,
    pub pool: u32,
    pub ready: bool,
    pub sender: Side,
    pub taker: Side,
    pub outgoing: [u8; 60],
    pub asked: Asked,
    pub incoming: [u8; 60],
    pub credits: u8,
    pub counts: Counts,
}

// What a handshake call asks, the length and the 60 bytes that every answer has, and the host after it.
// Kept: length and bytes are two fields as in `Reply`, and the definition `turn_by` reads them.
#[derive(Clone, Copy, PartialEq, Eq, Debug)]
pub struct Shaken {
    pub act: Act,
    pub size: u16,
    pub bytes: [u8; 60],
    pub host: Host,
}

// Whether the handshake is finished.
pub fn finished(shake: Shake) -> bool
    ensures { result ≡ is_finished shake }
{
    matches!(shake, Shake::Finished)
}

impl Side {
    // Whether the side has no operation.
    pub fn is_idle(self) -> bool
        ensures { result ≡ is_idle self }
    {
        matches!(self, Side::Idle)
    }

    // Text word k next, or the word before the high word where there is none.
    #[tactic(auto, unfolding(crate::specs::Side::text_or_closing))]
    pub fn text_or_closing(c: Cursor, k: usize) -> Side
        ensures { result ≡ text_or_closing c k }
    {
        if c.has_word(k) {
            Side::At(Stage::Text, c.with_at(k as u16))
        } else {
            Side::At(Stage::Closing, c)
        }
    }
}

impl Half for Host {
    type Side = Side;

    ghost sided = { with_side };

    ghost idle = { Idle };

    // Commands are sent, responses taken.
    fn with_side(self, ring: Ring, x: Side) -> Host {
        match ring {
            Ring::Command => self.with_sender(x),
            Ring::Response => self.with_taker(x),
        }
    }

    fn idle_side() -> Side {
        Side::Idle
    }
}

impl Host {
    // A host at some stage of the handshake that knows only its three words.
    pub fn fresh_at(shake: Shake, area: Area) -> Host
        ensures { result ≡ fresh shake area }
    {
        Host {
            shake,
            area,
            pool: 0,
            ready: false,
            sender: Side::Idle,
            taker: Side::Idle,
            outgoing: base_texts::blank(),
            asked: Asked::default(),
            incoming: base_texts::blank(),
            credits: 0,
            counts: Counts::default(),
        }
    }

    // Whether sends and takes may come: the handshake is finished and a setup was accepted.
    #[tactic(auto, unfolding(crate::specs::State::is_ready))]
    pub fn is_ready(self) -> bool
        ensures { result ≡ is_ready self }
    {
        finished(self.shake) && self.ready
    }

    // The side of a ring.
    pub fn side(self, ring: Ring) -> Side
        ensures { result ≡ side_of self ring }
    {
        match ring {
            Ring::Command => self.sender,
            Ring::Response => self.taker,
        }
    }

    // Whether a side may begin an operation.
    pub fn may_begin(self, ring: Ring) -> Result<(), Refusal>
        ensures { result ≡ may_begin self ring }
    {
        if !self.is_ready() {
            return Err(Refusal::NotRunning);
        }
        if !self.side(ring).is_idle() {
            return Err(Refusal::Busy);
        }
        Ok(())
    }

    // Kept: a method for each definition `with_..`, so that a contract names what changes and nothing else.
    pub fn with_shake(mut self, x: Shake) -> Host
        ensures { result ≡ with_shake self x }
    {
        self.shake = x;
        self
    }

    pub fn with_sender(mut self, x: Side) -> Host
        ensures { result ≡ with_sender self x }
    {
        self.sender = x;
        self
    }

    pub fn with_taker(mut self, x: Side) -> Host
        ensures { result ≡ with_taker self x }
    {
        self.taker = x;
        self
    }

    // A text to be sent, and what was asked of it.
    pub fn with_outgoing(mut self, x: [u8; 60], asked: Asked) -> Host
        ensures { result ≡ with_outgoing self x asked }
    {
        self.outgoing = x;
        self.asked = asked;
        self
    }

    // The text of a response so far, and the credits that it carries.
    pub fn with_incoming(mut self, x: [u8; 60], credits: u8) -> Host
        ensures { result ≡ with_incoming self x credits }
    {
        self.incoming = x;
        self.credits = credits;
        self
    }

    pub fn with_counts(mut self, x: Counts) -> Host
        ensures { result ≡ with_counts self x }
    {
        self.counts = x;
        self
    }

    // Where the envelope of a slot starts.
    pub fn envelope_of(self, ring: Ring, i: u8) -> u32
        ensures { result ≡ envelope_of self ring i }
    {
        self.area
            .envelope_at(self.pool, ring, i)
            .min(u32::MAX as usize) as u32
    }

    // The host with what the handshake asks; it carries no text.
    pub fn asks(self, act: Act) -> Shaken
        ensures { result ≡ record { act = act; size = 0; bytes = zeros; host = self } }
    {
        Shaken {
            act,
            size: 0,
            bytes: base_texts::blank(),
            host: self,
        }
    }
}
