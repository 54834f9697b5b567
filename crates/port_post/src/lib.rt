// The port's post side: an answer or an unsolicited message is written into a response slot's envelope, a word a step.
#![tactic(auto)]

ghost use Rattle.std.specs.Prelude.{◌≡◌, true, false};
ghost use Rattle.base_words.specs.Words.{address_bits};
ghost use Rattle.base_answers.specs.declared.Fatal.TheVariants.{EnvelopeWrite};
ghost use Rattle.base_area.specs.declared.Ring.TheVariants.{Response};
ghost use Rattle.base_side.specs.Step.{next_by, with_memory};
ghost use Rattle.port_state.specs.Post.{credits_of, post_asks, post_low, post_closed, post_release, post_finds, post_step, post_begins, post_begun};

use base_answers::{Fatal, Refusal, Said};
use base_area::{Area, Ring};
use base_memory::Touch;
use base_side::{Cursor, Half, Stepped};
use base_words::{descriptor, header};
use port_state::operation::Operation;
use port_state::state::{Asked, Port, Side, Stage};
use port_state::tail;

// The credits that this post carries.
#[tactic(auto, unfolding(port_state::specs::Post::credits_of))]
fn credits_of(port: Port) -> u8
    ensures { result ≡ credits_of port }
{
    if port.asked.answers {
        base_rules::carried_of(port.counts.owed)
    } else {
        0
    }
}

// After the low word: where the envelope starts. From text-4 to its last text word it lies in memory.
#[tactic(auto, unfolding(port_state::specs::Post::post_low))]
fn post_low(port: Port, end: usize, c: Cursor, v: u16) -> Stepped<Port>
    ensures { next_by result ≡ post_low address_bits port end c v }
{
    let text = descriptor::address(v, c.high);
    let text_end = text as usize + 2 * base_texts::words_of(c.size);
    match text.checked_sub(4) {
        Some(envelope) if text_end <= end => {
            let c = c.with_envelope(envelope);
            port.goes(Ring::Response, Side::At(Stage::Length, c))
        }
        _ => port.failed(Fatal::EnvelopeWrite),
    }
}

// The post ends.
fn post_closed(port: Port, interrupt: bool) -> Stepped<Port>
    ensures { next_by result ≡ post_closed port interrupt }
{
    Stepped {
        reply: base_answers::bare(Said::Done, interrupt),
        half: port.with_poster(Side::Idle),
    }
}

#[tactic(auto, unfolding(port_state::specs::Post::post_release))]
fn post_release(port: Port, area: Area, c: Cursor) -> Stepped<Port>
    ensures { next_by result ≡ post_release port area c }
{
    let port = port.posted_one(area, c);
    if descriptor::has_flag(c.high) {
        let start = tail::tail_start(area, Ring::Response);
        port.goes(Ring::Response, Side::Tail(start, c))
    } else {
        post_closed(port, false)
    }
}

struct Post;

impl Operation for Post {
    ghost its_ring = { Response };

    ghost its_fault = { EnvelopeWrite };

    ghost its_words = { post_asks address_bits };

    ghost its_way = { post_finds address_bits };

    ghost its_end = { λ p _. post_closed p };

    fn ring() -> Ring {
        Ring::Response
    }

    fn envelope_fault() -> Fatal {
        Fatal::EnvelopeWrite
    }

    #[tactic(auto, unfolding(port_state::specs::Post::post_asks))]
    fn asks(port: Port, area: Area, stage: Stage, c: Cursor) -> Touch {
        let slot = area.slot_at(Ring::Response, c.slot);
        let envelope = c.envelope as usize;
        match stage {
            Stage::High => Touch::Read(slot + 2),
            Stage::Low => Touch::Read(slot),
            Stage::Length => Touch::Write(envelope, c.size),
            Stage::Header => Touch::Write(envelope + 2, header::header(credits_of(port))),
            Stage::Text => {
                let word = base_texts::word_of(&port.outgoing, c.size, c.at);
                Touch::Write(envelope + 4 + 2 * c.at as usize, word)
            }
            Stage::Release => Touch::Write(slot + 2, descriptor::high_word(false, true, c.high)),
        }
    }

    #[tactic(auto, unfolding(port_state::specs::Post::post_high))]
    fn finds(port: Port, area: Area, end: usize, stage: Stage, c: Cursor, v: u16) -> Stepped<Port> {
        match stage {
            Stage::High => port.looks(Ring::Response, Refusal::NoSlot, c, v),
            Stage::Low => post_low(port, end, c, v),
            Stage::Length => port.goes(Ring::Response, Side::At(Stage::Header, c)),
            Stage::Header => port.goes(Ring::Response, Side::text_or_release(c, 0)),
            Stage::Text => port.goes(Ring::Response, Side::text_or_release(c, c.at as usize + 1)),
            Stage::Release => post_release(port, area, c),
        }
    }

    fn closes(port: Port, _c: Cursor, interrupt: bool) -> Stepped<Port> {
        post_closed(port, interrupt)
    }
}

// A post of a text by an idle side.
fn post_begins(port: Port, asked: Asked, text: &[u8]) -> Stepped<Port>
    ensures { next_by result ≡ post_begins port asked text.now }
{
    if text.len() > base_texts::LONGEST {
        return port.replies(Said::Refused(Refusal::TooLong));
    }
    if asked.answers && port.counts.unanswered == 0 {
        return port.replies(Said::Refused(Refusal::NothingOpen));
    }
    let c = Cursor::start(port.counts.post, 0, text.len() as u16);
    let port = port.with_outgoing(base_texts::padded_of(text), asked);
    port.goes(Ring::Response, Side::At(Stage::High, c))
}

// Begins a post, as an answer or unsolicited.
#[tactic(auto, unfolding(port_state::specs::Post::post_begun, port_state::specs::Side::port_begun))]
fn begin_post(port: Port, asked: Asked, text: &[u8]) -> Stepped<Port>
    ensures { next_by result ≡ post_begun port asked text.now }
{
    if let Err(refusal) = port.may_begin(Ring::Response) {
        return port.replies(Said::Refused(refusal));
    }
    post_begins(port, asked, text)
}

// Begins an answer to the oldest open command. Kept: it and the next are two calls of document 01.
pub fn begin_answer(port: Port, text: &[u8]) -> Stepped<Port>
    ensures { next_by result ≡ post_begun port (record { answers = true }) text.now }
{
    begin_post(port, Asked { answers: true }, text)
}

// Begins an unsolicited message.
pub fn begin_unsolicited(port: Port, text: &[u8]) -> Stepped<Port>
    ensures { next_by result ≡ post_begun port (record { answers = false }) text.now }
{
    begin_post(port, Asked { answers: false }, text)
}

// One step of the post side: it touches one word at most.
#[tactic(auto, unfolding(port_state::specs::Post::post_step, port_state::specs::Post::post_follows, port_state::specs::Post::post_tailed))]
pub fn step_post(port: Port, mem: &mut [u8]) -> Stepped<Port>
    ensures { with_memory (next_by result) mem.new ≡ post_step address_bits port mem.old }
{
    Post::step(port, mem)
}
