// The state of a host.
use crate::item::{AtWork, Item, Words, number};
use base_side::Cursor;
use host_state::state::{Host, Shake, Side, Stage, Step};
use std::fmt;

// A host: where its handshake stands, and its sides.
#[derive(Clone, Copy)]
pub struct State<'a>(pub &'a Host);

impl fmt::Display for State<'_> {
    fn fmt<W: fmt::Write>(&self, f: &mut fmt::Formatter<W>) -> fmt::Result {
        let host = self.0;
        match host.shake {
            Shake::Dead => write!(f, "host handshake=dead"),
            Shake::Expect(step, retried) => {
                let step = number("step", number_of(step));
                let retried = number("retried", retried);
                write!(
                    f,
                    "host handshake=expect{step}{retried}{}",
                    Words(host.area)
                )
            }
            Shake::Finished => {
                write!(f, "host handshake=finished{}", Words(host.area))?;
                counts(host, f)?;
                sides(host, f)
            }
        }
    }
}

// Kept: as an enum's number a step has its bit in SA; reckoning from it which step it is would be no plainer.
fn number_of(step: Step) -> u8 {
    match step {
        Step::One => 1,
        Step::Two => 2,
        Step::Three => 3,
        Step::Four => 4,
    }
}

fn counts<W: fmt::Write>(host: &Host, f: &mut fmt::Formatter<W>) -> fmt::Result {
    let ready = number("ready", host.ready);
    let pool = number("pool", host.pool);
    let send = number("send-slot", host.counts.send);
    let take = number("take-slot", host.counts.take);
    let account = number("account", host.counts.account);
    write!(f, "{ready}{pool}{send}{take}{account}")
}

// Each side with an operation.
fn sides<W: fmt::Write>(host: &Host, f: &mut fmt::Formatter<W>) -> fmt::Result {
    if let Side::At(stage, cursor) = host.sender {
        let send = AtWork {
            side: "send",
            stage: name_of(stage, "low"),
            cursor: place_of(stage, cursor),
            beside: Some(number("flag", host.asked.flag)),
            text: &host.outgoing,
        };
        write!(f, "{send}")?;
    }
    if let Side::At(stage, cursor) = host.taker {
        let take = AtWork {
            side: "take",
            stage: name_of(stage, "refill"),
            cursor: place_of(stage, cursor),
            beside: Some(credits(stage, host.credits)),
            text: &host.incoming,
        };
        write!(f, "{take}")?;
    }
    Ok(())
}

// Where an operation stands. The number of a text word says something at the stage `text` alone.
fn place_of(stage: Stage, cursor: Cursor) -> Cursor {
    match stage {
        Stage::Text => cursor,
        _ => cursor.with_at(0),
    }
}

// A stage; `closing` is what the word before the last is called.
fn name_of(stage: Stage, closing: &'static str) -> &'static str {
    match stage {
        Stage::High => "high",
        Stage::Length => "length",
        Stage::Header => "header",
        Stage::Text => "text",
        Stage::Closing => closing,
        Stage::Release => "release",
    }
}

// The credits of a take, once it has read the header.
fn credits(stage: Stage, credits: u8) -> Item<'static> {
    let read = match stage {
        Stage::High | Stage::Length | Stage::Header => 0,
        Stage::Text | Stage::Closing | Stage::Release => credits,
    };
    number("credits", read)
}
