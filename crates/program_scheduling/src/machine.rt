ghost use Rattle.std.specs.Prelude.{◌≡◌};
ghost use Rattle.base_answers.specs.Told.{told_of};
ghost use Rattle.program_scheduling.specs.Machine.{counted_if, is_done, bytes_of, text_in, kept, oldest, after_send, after_take, after_fetch, after_answer};

use base_answers::{Reply, Said};
use base_side::Stepped;
use host_state::state::Host;
use port_state::state::Port;

// How many operations are finished, and how many indicator writes were reported, by ring. Each number wraps at 2^32.
#[derive(Clone, Copy, PartialEq, Eq, Debug, Default)]
pub struct Tally {
    pub sent: u32,
    pub taken: u32,
    pub fetched: u32,
    pub answered: u32,
    pub command: u32,
    pub response: u32,
}

// Both halves, the tally, and the texts of the commands fetched: that of command number k stands at k mod 64.
#[derive(Clone, Copy)]
pub struct Machine {
    pub host: Host,
    pub port: Port,
    pub tally: Tally,
    pub texts: [u16; 64],
}

// A number, or the next where something is counted.
#[tactic(auto, unfolding(crate::specs::Machine::counted_if))]
fn counted_if(b: bool, n: u32) -> u32
    ensures { result ≡ counted_if b n }
{
    n.wrapping_add(b as u32)
}

// Whether an answer closes its operation well.
#[tactic(auto, unfolding(crate::specs::Machine::is_done))]
fn is_done(reply: Reply) -> bool
    ensures { result ≡ is_done (told_of reply) }
{
    matches!(reply.said, Said::Done)
}

// The two bytes of a number's 16 low bits, low byte first.
#[tactic(auto, unfolding(crate::specs::Machine::bytes_of))]
pub fn bytes_of(n: u32) -> [u8; 2]
    ensures { result ≡ bytes_of n }
{
    let [low, high, ..] = n.to_le_bytes();
    [low, high]
}

// The number that a text's first two bytes say.
#[tactic(auto, unfolding(crate::specs::Machine::text_in))]
fn text_in(reply: Reply) -> u16
    ensures { result ≡ text_in (told_of reply) }
{
    base_texts::word_of(&reply.bytes, 2, 0)
}

impl Machine {
    // The text of the oldest open command. Here and in `keeps` an element of the texts alone is looked at: one of `self.texts` would
    // have the compiler copy all of the machine first.
    #[tactic(auto, unfolding(crate::specs::Machine::oldest))]
    pub fn oldest_text(self) -> u16
        ensures { result ≡ oldest self }
    {
        let texts = self.texts;
        texts[self.tally.answered as usize % 64]
    }

    // The texts with that of the command just fetched.
    #[tactic(auto, unfolding(crate::specs::Machine::kept))]
    fn keeps(self, b: bool, text: u16) -> [u16; 64]
        ensures { result ≡ kept self b text }
    {
        let mut texts = self.texts;
        if b {
            texts[self.tally.fetched as usize % 64] = text;
        }
        texts
    }

    // After a step of the send side.
    #[tactic(auto, unfolding(crate::specs::Machine::after_send))]
    pub fn after_send(self, r: Stepped<Host>) -> Machine
        ensures { result ≡ after_send self (told_of r.reply) r.half }
    {
        let sent = counted_if(is_done(r.reply), self.tally.sent);
        Machine {
            host: r.half,
            tally: Tally { sent, ..self.tally },
            ..self
        }
    }

    // After a step of the take side.
    // Kept: a counter each, as in the definitions `after_send` and `after_take`.
    #[tactic(auto, unfolding(crate::specs::Machine::after_take))]
    pub fn after_take(self, r: Stepped<Host>) -> Machine
        ensures { result ≡ after_take self (told_of r.reply) r.half }
    {
        let taken = counted_if(is_done(r.reply), self.tally.taken);
        Machine {
            host: r.half,
            tally: Tally {
                taken,
                ..self.tally
            },
            ..self
        }
    }

    // After a step of the fetch side: a command fetched or not, and an interrupt or not.
    #[tactic(auto, unfolding(crate::specs::Machine::after_fetch))]
    pub fn after_fetch(self, r: Stepped<Port>) -> Machine
        ensures { result ≡ after_fetch self (told_of r.reply) r.half }
    {
        let done = is_done(r.reply);
        Machine {
            port: r.half,
            tally: Tally {
                fetched: counted_if(done, self.tally.fetched),
                command: counted_if(r.reply.interrupt, self.tally.command),
                ..self.tally
            },
            texts: self.keeps(done, text_in(r.reply)),
            ..self
        }
    }

    // After a step of the post side: a command answered or not, and an interrupt or not.
    #[tactic(auto, unfolding(crate::specs::Machine::after_answer))]
    pub fn after_answer(self, r: Stepped<Port>) -> Machine
        ensures { result ≡ after_answer self (told_of r.reply) r.half }
    {
        let closed = r.half.counts.unanswered < self.port.counts.unanswered;
        Machine {
            port: r.half,
            tally: Tally {
                answered: counted_if(closed, self.tally.answered),
                response: counted_if(r.reply.interrupt, self.tally.response),
                ..self.tally
            },
            ..self
        }
    }
}
