// The host's take side: a response is read out of its envelope and its slot given back, a word a step.
#![tactic(auto)]

ghost use Rattle.std.specs.Prelude.{◌≡◌};
ghost use Rattle.base_words.specs.Words.{address_bits};
ghost use Rattle.base_area.specs.declared.Ring.TheVariants.{Response};
ghost use Rattle.base_side.specs.Step.{next_by, with_memory};
ghost use Rattle.host_state.specs.Take.{take_asks, take_high, take_header, take_text, take_closed, take_finds, take_step, take_begun};

use base_answers::{Refusal, Said};
use base_area::Ring;
use base_memory::Touch;
use base_side::{Cursor, Half, Stepped};
use base_words::{descriptor, header};
use host_state::operation::Operation;
use host_state::state::{Host, Side, Stage};

// After the slot's high word: refusal 7 where the port owns the slot.
#[tactic(auto, unfolding(host_state::specs::Take::take_high))]
fn take_high(host: Host, c: Cursor, v: u16) -> Stepped<Host>
    ensures { next_by result ≡ take_high host c v }
{
    if descriptor::port_owns(v) {
        host.refused(Ring::Response, Refusal::Empty)
    } else {
        host.goes(Ring::Response, Side::At(Stage::Length, c.with_high(v)))
    }
}

// After the header: refusal 9, or the credits that the envelope carries are kept.
#[tactic(auto, unfolding(host_state::specs::Take::take_header))]
fn take_header(host: Host, c: Cursor, v: u16) -> Stepped<Host>
    ensures { next_by result ≡ take_header host c v }
{
    let credits = header::credits_of(v);
    let fault = base_rules::fault_of(header::type_of(v), header::connection_of(v), c.size);
    let account = host.counts.account as u16 + credits as u16;
    if fault.is_err() || base_rules::MOST_ACCOUNT < account {
        return host.refused(Ring::Response, Refusal::BadEnvelope);
    }
    let host = host.with_incoming(host.incoming, credits);
    host.goes(Ring::Response, Side::text_or_closing(c, 0))
}

// After a text word: it is put in.
// Kept: three lines, as in the port's `fetch_text`; one function for both would need a half's text and its next side in `Half`.
#[tactic(auto, unfolding(host_state::specs::Take::take_text))]
fn take_text(mut host: Host, c: Cursor, v: u16) -> Stepped<Host>
    ensures { next_by result ≡ take_text host c v }
{
    base_texts::put_word(&mut host.incoming, c.size, c.at, v);
    let side = Side::text_or_closing(c, c.at as usize + 1);
    host.goes(Ring::Response, side)
}

// The take ends with its text.
#[tactic(auto, unfolding(host_state::specs::Take::take_closed))]
fn take_closed(host: Host, c: Cursor) -> Stepped<Host>
    ensures { next_by result ≡ take_closed host c }
{
    Stepped {
        reply: base_answers::full(c.size, host.incoming, false),
        half: host.taken_one(c).with_taker(Side::Idle),
    }
}

struct Take;

impl Operation for Take {
    ghost its_ring = { Response };

    ghost its_words = { take_asks address_bits };

    ghost its_way = { take_finds };

    fn ring() -> Ring {
        Ring::Response
    }

    #[tactic(auto, unfolding(host_state::specs::Take::take_asks))]
    fn asks(host: Host, stage: Stage, c: Cursor) -> Touch {
        let slot = host.area.slot_at(Ring::Response, c.slot);
        let envelope = c.envelope as usize;
        match stage {
            Stage::High => Touch::Read(slot + 2),
            Stage::Length => Touch::Read(envelope),
            Stage::Header => Touch::Read(envelope + 2),
            Stage::Text => Touch::Read(envelope + 4 + 2 * c.at as usize),
            Stage::Closing => Touch::Write(envelope, base_texts::LENGTH),
            Stage::Release => Touch::Write(slot + 2, descriptor::high_word(true, true, c.high)),
        }
    }

    fn finds(host: Host, stage: Stage, c: Cursor, v: u16) -> Stepped<Host> {
        match stage {
            Stage::High => take_high(host, c, v),
            Stage::Length => host.goes(Ring::Response, Side::At(Stage::Header, c.with_size(v))),
            Stage::Header => take_header(host, c, v),
            Stage::Text => take_text(host, c, v),
            Stage::Closing => host.goes(Ring::Response, Side::At(Stage::Release, c)),
            Stage::Release => take_closed(host, c),
        }
    }
}

// Begins a take.
#[tactic(auto, unfolding(host_state::specs::Take::take_begun, host_state::specs::Side::host_begun))]
pub fn begin_take(host: Host) -> Stepped<Host>
    ensures { next_by result ≡ take_begun host }
{
    if let Err(refusal) = host.may_begin(Ring::Response) {
        return host.replies(Said::Refused(refusal));
    }
    let slot = host.counts.take;
    let c = Cursor::start(slot, host.envelope_of(Ring::Response, slot), 0);
    let host = host.with_incoming(base_texts::blank(), 0);
    host.goes(Ring::Response, Side::At(Stage::High, c))
}

// One step of the take side: it touches one word at most.
#[tactic(auto, unfolding(host_state::specs::Take::take_step, host_state::specs::Take::take_follows))]
pub fn step_take(host: Host, mem: &mut [u8]) -> Stepped<Host>
    ensures { with_memory (next_by result) mem.new ≡ take_step address_bits host mem.old }
{
    Take::step(host, mem)
}
