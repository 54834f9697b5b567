// The host's send side: a command is written into its envelope and slot, a word a step.
#![tactic(auto)]

ghost use Rattle.std.specs.Prelude.{◌≡◌};
ghost use Rattle.base_words.specs.Words.{address_bits};
ghost use Rattle.base_area.specs.declared.Ring.TheVariants.{Command};
ghost use Rattle.base_side.specs.Step.{next_by, with_memory};
ghost use Rattle.host_state.specs.Send.{send_asks, send_high, send_closed, send_finds, send_step, send_begins, send_begun};

use base_answers::{Refusal, Said};
use base_area::Ring;
use base_memory::Touch;
use base_side::{Cursor, Half, Stepped};
use base_words::descriptor;
use host_state::operation::Operation;
use host_state::state::{Asked, Host, Side, Stage};

// After the slot's high word: refusal 5 without a credit, 6 where the port owns the slot.
#[tactic(auto, unfolding(host_state::specs::Send::send_high))]
fn send_high(host: Host, c: Cursor, v: u16) -> Stepped<Host>
    ensures { next_by result ≡ send_high host c v }
{
    if host.counts.account == 0 {
        return host.refused(Ring::Command, Refusal::NoCredit);
    }
    if descriptor::port_owns(v) {
        return host.refused(Ring::Command, Refusal::RingFull);
    }
    host.goes(Ring::Command, Side::At(Stage::Length, c.with_high(v)))
}

// The send ends.
fn send_closed(host: Host, c: Cursor) -> Stepped<Host>
    ensures { next_by result ≡ send_closed host c }
{
    host.sent_one(c).with_sender(Side::Idle).replies(Said::Done)
}

struct Send;

impl Operation for Send {
    ghost its_ring = { Command };

    ghost its_words = { send_asks address_bits };

    ghost its_way = { send_finds };

    fn ring() -> Ring {
        Ring::Command
    }

    #[tactic(auto, unfolding(host_state::specs::Send::send_asks))]
    fn asks(host: Host, stage: Stage, c: Cursor) -> Touch {
        let slot = host.area.slot_at(Ring::Command, c.slot);
        let envelope = c.envelope as usize;
        match stage {
            Stage::High if host.counts.account == 0 => Touch::Nothing,
            Stage::High => Touch::Read(slot + 2),
            Stage::Length => Touch::Write(envelope, c.size),
            Stage::Header => Touch::Write(envelope + 2, 0),
            Stage::Text => {
                let word = base_texts::word_of(&host.outgoing, c.size, c.at);
                Touch::Write(envelope + 4 + 2 * c.at as usize, word)
            }
            Stage::Closing => Touch::Write(slot, descriptor::low_word(envelope + 4)),
            Stage::Release => {
                let rest = descriptor::with_address(c.high, envelope + 4);
                Touch::Write(slot + 2, descriptor::high_word(true, host.asked.flag, rest))
            }
        }
    }

    fn finds(host: Host, stage: Stage, c: Cursor, v: u16) -> Stepped<Host> {
        match stage {
            Stage::High => send_high(host, c, v),
            Stage::Length => host.goes(Ring::Command, Side::At(Stage::Header, c)),
            Stage::Header => host.goes(Ring::Command, Side::text_or_closing(c, 0)),
            Stage::Text => host.goes(Ring::Command, Side::text_or_closing(c, c.at as usize + 1)),
            Stage::Closing => host.goes(Ring::Command, Side::At(Stage::Release, c)),
            Stage::Release => send_closed(host, c),
        }
    }
}

// A send of a text by an idle side.
fn send_begins(host: Host, asked: Asked, text: &[u8]) -> Stepped<Host>
    ensures { next_by result ≡ send_begins host asked text.now }
{
    if text.len() > base_texts::LONGEST {
        return host.replies(Said::Refused(Refusal::TooLong));
    }
    let slot = host.counts.send;
    let envelope = host.envelope_of(Ring::Command, slot);
    let c = Cursor::start(slot, envelope, text.len() as u16);
    let host = host.with_outgoing(base_texts::padded_of(text), asked);
    host.goes(Ring::Command, Side::At(Stage::High, c))
}

// Begins a send.
#[tactic(auto, unfolding(host_state::specs::Send::send_begun, host_state::specs::Side::host_begun))]
pub fn begin_send(host: Host, asked: Asked, text: &[u8]) -> Stepped<Host>
    ensures { next_by result ≡ send_begun host asked text.now }
{
    if let Err(refusal) = host.may_begin(Ring::Command) {
        return host.replies(Said::Refused(refusal));
    }
    send_begins(host, asked, text)
}

// One step of the send side: it touches one word at most.
#[tactic(auto, unfolding(host_state::specs::Send::send_step, host_state::specs::Send::send_follows))]
pub fn step_send(host: Host, mem: &mut [u8]) -> Stepped<Host>
    ensures { with_memory (next_by result) mem.new ≡ send_step address_bits host mem.old }
{
    Send::step(host, mem)
}
