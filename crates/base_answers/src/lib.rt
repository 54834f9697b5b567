// What both halves answer: refusals and fatal codes by document 01's names, and the reply that carries them.
#![tactic(auto)]

ghost use Rattle.std.specs.Prelude.{◌≡◌};
ghost use Rattle.base_answers.specs.Told.{refusal_number, fatal_number, bare_reply, full_reply};

// "Refusal numbers", document 01.
#[derive(Clone, Copy, PartialEq, Eq, Debug)]
pub enum Refusal {
    NotRunning = 1,
    Busy = 2,
    TooLong = 3,
    NothingOpen = 4,
    NoCredit = 5,
    RingFull = 6,
    Empty = 7,
    NoSlot = 8,
    BadEnvelope = 9,
    DoesNotFit = 10,
    BadSetting = 11,
    IdleSide = 12,
}

// The fatal codes of document 004, chapter 7, that document 01 uses.
#[derive(Clone, Copy, PartialEq, Eq, Debug)]
pub enum Fatal {
    EnvelopeRead = 1,
    EnvelopeWrite = 2,
    RingRead = 6,
    RingWrite = 7,
    CreditLimit = 10,
    InvalidConnection = 14,
    InterruptWrite = 15,
    Incompatible = 20,
}

// How a call closes.
#[derive(Clone, Copy, PartialEq, Eq, Debug)]
pub enum Said {
    Going,
    Done,
    Refused(Refusal),
    Failed(Fatal),
}

// An answer: how the call closed, the text it carries, and whether it reports an interrupt.
// Kept: "the text in 60 bytes, zero beyond its length" is document 01's; a half has no heap, and `told_of` reads both fields.
#[derive(Clone, Copy, PartialEq, Eq, Debug)]
pub struct Reply {
    pub said: Said,
    pub size: u16,
    pub bytes: [u8; 60],
    pub interrupt: bool,
}

// The number that document 01 gives a refusal.
impl From<Refusal> for u16 {
    ghost from_gives = { λ r n. n ≡ refusal_number r };

    fn from(r: Refusal) -> u16 {
        r as u16
    }
}

// The code that chapter 7 of document 004 gives a fatal error.
impl From<Fatal> for u16 {
    ghost from_gives = { λ x n. n ≡ fatal_number x };

    fn from(x: Fatal) -> u16 {
        x as u16
    }
}

// An answer with no text.
pub fn bare(said: Said, interrupt: bool) -> Reply
    ensures { result ≡ bare_reply said interrupt }
{
    Reply {
        said,
        size: 0,
        bytes: base_texts::blank(),
        interrupt,
    }
}

// The closing answer that carries a text.
pub fn full(size: u16, bytes: [u8; 60], interrupt: bool) -> Reply
    ensures { result ≡ full_reply size bytes interrupt }
{
    Reply {
        said: Said::Done,
        size,
        bytes,
        interrupt,
    }
}
