// The state of a port.
use crate::item::{AtWork, Words, number, word};
use base_side::Cursor;
use port_state::state::{Made, Phase, Port, Side, Stage, TailStage};
use std::fmt;

// A port: what creation gave, where it stands, and its sides.
#[derive(Clone, Copy)]
pub struct State<'a>(pub &'a Port);

impl fmt::Display for State<'_> {
    fn fmt<W: fmt::Write>(&self, f: &mut fmt::Formatter<W>) -> fmt::Result {
        let port = self.0;
        write!(f, "port{} phase=", Created(port.made))?;
        match port.phase {
            Phase::Step1 => write!(f, "step1"),
            Phase::Wrap(shown) => write!(f, "wrap{}", word("shown", shown)),
            Phase::Step2(first) => write!(f, "step2{}", word("first", first)),
            Phase::Step3(first, second) => {
                write!(f, "step3{}{}", word("first", first), word("second", second))
            }
            Phase::Step4(area) => write!(f, "step4{}", Words(area)),
            Phase::Running(area, go) => {
                write!(f, "running{}{}", Words(area), word("go", go))?;
                counts(port, f)?;
                sides(port, f)
            }
            Phase::Failed(e) => write!(f, "fatal{}", number("fatal", u16::from(e))),
        }
    }
}

// What creation gave.
#[derive(Clone, Copy)]
struct Created(Made);

impl fmt::Display for Created {
    fn fmt<W: fmt::Write>(&self, f: &mut fmt::Formatter<W>) -> fmt::Result {
        let made = self.0;
        let nv = number("nv", made.nv);
        let qb = number("qb", made.qb);
        let di = number("di", made.di);
        let version = number("version", made.version);
        let limit = number("limit", made.limit);
        write!(f, "{nv}{qb}{di}{version}{limit}")
    }
}

fn counts<W: fmt::Write>(port: &Port, f: &mut fmt::Formatter<W>) -> fmt::Result {
    let fetch = number("fetch-slot", port.counts.fetch);
    let post = number("post-slot", port.counts.post);
    let owed = number("owed", port.counts.owed);
    let unanswered = number("unanswered", port.counts.unanswered);
    write!(f, "{fetch}{post}{owed}{unanswered}")
}

// Each side with an operation.
fn sides<W: fmt::Write>(port: &Port, f: &mut fmt::Formatter<W>) -> fmt::Result {
    if let Some((stage, cursor)) = stand_of(port.fetcher) {
        let fetch = AtWork {
            side: "fetch",
            stage,
            cursor,
            beside: None,
            text: &port.incoming,
        };
        write!(f, "{fetch}")?;
    }
    if let Some((stage, cursor)) = stand_of(port.poster) {
        let post = AtWork {
            side: "post",
            stage,
            cursor,
            beside: Some(number("answers", port.asked.answers)),
            text: &port.outgoing,
        };
        write!(f, "{post}")?;
    }
    Ok(())
}

// What a side's next step touches, and where its operation stands. The number of a text word says something at the stage `text` alone.
fn stand_of(side: Side) -> Option<(&'static str, Cursor)> {
    match side {
        Side::Idle => None,
        Side::At(Stage::Text, cursor) => Some(("text", cursor)),
        Side::At(stage, cursor) => Some((name_of(stage), cursor.with_at(0))),
        Side::Tail(TailStage::Test, cursor) => Some(("test", cursor.with_at(0))),
        Side::Tail(TailStage::Mark, cursor) => Some(("mark", cursor.with_at(0))),
    }
}

// Kept beside the host's: each half has stages of its own.
fn name_of(stage: Stage) -> &'static str {
    match stage {
        Stage::High => "high",
        Stage::Low => "low",
        Stage::Length => "length",
        Stage::Header => "header",
        Stage::Text => "text",
        Stage::Release => "release",
    }
}
