// The port's fetch side: a command is read out of its slot and envelope, a word a step.
#![tactic(auto)]

ghost use Rattle.std.specs.Prelude.{◌≡◌, ◌+◌};
ghost use Rattle.base_words.specs.Words.{address_bits};
ghost use Rattle.base_answers.specs.declared.Fatal.TheVariants.{EnvelopeRead};
ghost use Rattle.base_area.specs.declared.Ring.TheVariants.{Command};
ghost use Rattle.base_side.specs.Step.{next_by, with_memory};
ghost use Rattle.port_state.specs.Fetch.{fetch_asks, fetch_low, fetch_header, header_ended, fetch_text, fetch_closed, fetch_release, fetch_finds, fetch_step, fetch_begun};

use base_answers::{Fatal, Refusal, Said};
use base_area::{Area, Ring};
use base_memory::Touch;
use base_side::{Cursor, Half, Stepped};
use base_words::{descriptor, header};
use port_state::operation::Operation;
use port_state::state::{Port, Side, Stage};
use port_state::tail;

// After the low word: where the envelope starts. The four bytes from text-4 lie in memory.
#[tactic(auto, unfolding(port_state::specs::Fetch::fetch_low))]
fn fetch_low(port: Port, end: usize, c: Cursor, v: u16) -> Stepped<Port>
    ensures { next_by result ≡ fetch_low address_bits port end c v }
{
    let text = descriptor::address(v, c.high);
    match text.checked_sub(4) {
        Some(envelope) if text as usize <= end => {
            let c = c.with_envelope(envelope);
            port.goes(Ring::Command, Side::At(Stage::Length, c))
        }
        _ => port.failed(Fatal::EnvelopeRead),
    }
}

// After the header: what must hold of the envelope, in document 01's order.
#[tactic(auto, unfolding(port_state::specs::Fetch::fetch_header))]
fn judged(port: Port, end: usize, c: Cursor, v: u16) -> Result<(), Fatal>
    ensures { header_ended port c result ≡ fetch_header port end c v }
{
    base_rules::fault_of(header::type_of(v), header::connection_of(v), c.size)?;
    let text_end = c.envelope as usize + 4 + 2 * base_texts::words_of(c.size);
    if end < text_end {
        return Err(Fatal::EnvelopeRead);
    }
    let used = port.counts.owed as u16 + port.counts.unanswered as u16;
    if port.made.limit as u16 <= used {
        return Err(Fatal::CreditLimit);
    }
    Ok(())
}

fn fetch_header(port: Port, end: usize, c: Cursor, v: u16) -> Stepped<Port>
    ensures { next_by result ≡ fetch_header port end c v }
{
    match judged(port, end, c, v) {
        Ok(()) => port.goes(Ring::Command, Side::text_or_release(c, 0)),
        Err(fatal) => port.failed(fatal),
    }
}

// After a text word: it is put in.
// Kept: three lines, as in the host's `take_text`; one function for both would need a half's text and its next side in `Half`.
#[tactic(auto, unfolding(port_state::specs::Fetch::fetch_text))]
fn fetch_text(mut port: Port, c: Cursor, v: u16) -> Stepped<Port>
    ensures { next_by result ≡ fetch_text port c v }
{
    base_texts::put_word(&mut port.incoming, c.size, c.at, v);
    let side = Side::text_or_release(c, c.at as usize + 1);
    port.goes(Ring::Command, side)
}

// The fetch ends with its text.
fn fetch_closed(port: Port, c: Cursor, interrupt: bool) -> Stepped<Port>
    ensures { next_by result ≡ fetch_closed port c interrupt }
{
    Stepped {
        reply: base_answers::full(c.size, port.incoming, interrupt),
        half: port.with_fetcher(Side::Idle),
    }
}

#[tactic(auto, unfolding(port_state::specs::Fetch::fetch_release))]
fn fetch_release(port: Port, area: Area, c: Cursor) -> Stepped<Port>
    ensures { next_by result ≡ fetch_release port area c }
{
    let port = port.fetched_one(area, c);
    if descriptor::has_flag(c.high) {
        let start = tail::tail_start(area, Ring::Command);
        port.goes(Ring::Command, Side::Tail(start, c))
    } else {
        fetch_closed(port, c, false)
    }
}

struct Fetch;

impl Operation for Fetch {
    ghost its_ring = { Command };

    ghost its_fault = { EnvelopeRead };

    ghost its_words = { λ _. fetch_asks address_bits };

    ghost its_way = { fetch_finds address_bits };

    ghost its_end = { fetch_closed };

    fn ring() -> Ring {
        Ring::Command
    }

    fn envelope_fault() -> Fatal {
        Fatal::EnvelopeRead
    }

    #[tactic(auto, unfolding(port_state::specs::Fetch::fetch_asks))]
    fn asks(_port: Port, area: Area, stage: Stage, c: Cursor) -> Touch {
        let slot = area.slot_at(Ring::Command, c.slot);
        let envelope = c.envelope as usize;
        match stage {
            Stage::High => Touch::Read(slot + 2),
            Stage::Low => Touch::Read(slot),
            Stage::Length => Touch::Read(envelope),
            Stage::Header => Touch::Read(envelope + 2),
            Stage::Text => Touch::Read(envelope + 4 + 2 * c.at as usize),
            Stage::Release => Touch::Write(slot + 2, descriptor::high_word(false, true, c.high)),
        }
    }

    #[tactic(auto, unfolding(port_state::specs::Fetch::fetch_high))]
    fn finds(port: Port, area: Area, end: usize, stage: Stage, c: Cursor, v: u16) -> Stepped<Port> {
        match stage {
            Stage::High => port.looks(Ring::Command, Refusal::Empty, c, v),
            Stage::Low => fetch_low(port, end, c, v),
            Stage::Length => port.goes(Ring::Command, Side::At(Stage::Header, c.with_size(v))),
            Stage::Header => fetch_header(port, end, c, v),
            Stage::Text => fetch_text(port, c, v),
            Stage::Release => fetch_release(port, area, c),
        }
    }

    fn closes(port: Port, c: Cursor, interrupt: bool) -> Stepped<Port> {
        fetch_closed(port, c, interrupt)
    }
}

// Begins a fetch.
#[tactic(auto, unfolding(port_state::specs::Fetch::fetch_begun, port_state::specs::Side::port_begun))]
pub fn begin_fetch(port: Port) -> Stepped<Port>
    ensures { next_by result ≡ fetch_begun port }
{
    if let Err(refusal) = port.may_begin(Ring::Command) {
        return port.replies(Said::Refused(refusal));
    }
    let c = Cursor::start(port.counts.fetch, 0, 0);
    let port = port.with_incoming(base_texts::blank());
    port.goes(Ring::Command, Side::At(Stage::High, c))
}

// One step of the fetch side: it touches one word at most.
#[tactic(auto, unfolding(port_state::specs::Fetch::fetch_step, port_state::specs::Fetch::fetch_follows, port_state::specs::Fetch::fetch_tailed))]
pub fn step_fetch(port: Port, mem: &mut [u8]) -> Stepped<Port>
    ensures { with_memory (next_by result) mem.new ≡ fetch_step address_bits port mem.old }
{
    Fetch::step(port, mem)
}
