// Document 01, "The schedule program": both halves driven over one memory by a schedule of bytes, and the numbers that it prints.
// Every call is total: any schedule, any memory, any state gets an answer.
#![tactic(auto)]

ghost use Rattle.std.specs.Prelude.{◌≡◌};
ghost use Rattle.program_scheduling.specs.Schedule.{byte_of, takes, line_of, reported, run_of};

pub mod drive;
pub mod machine;
pub mod opening;

use machine::Machine;
use std::fmt;

// The nine numbers of the line that is printed.
#[derive(Clone, Copy, PartialEq, Eq, Debug)]
pub struct Line {
    pub sent: u32,
    pub fetched: u32,
    pub answered: u32,
    pub taken: u32,
    pub account: u8,
    pub owed: u8,
    pub command: u32,
    pub response: u32,
    pub sa: u16,
}

// The line, as it is printed.
impl fmt::Display for Line {
    ghost use Rattle.std.specs.Prelude.{Some};
    ghost use Rattle.program_scheduling.specs.Printed.{line_text};

    ghost output = { λ line. Some (line_text line) };

    fn fmt<W: fmt::Write>(&self, f: &mut fmt::Formatter<W>) -> fmt::Result {
        let line = *self;
        write!(f, "sent {} fetched {}", line.sent, line.fetched)?;
        write!(f, " answered {} taken {}", line.answered, line.taken)?;
        write!(f, " account {} owed {}", line.account, line.owed)?;
        write!(f, " wakes {} {}", line.command, line.response)?;
        write!(f, " sa {:04x}", line.sa)
    }
}

// A byte of the input; 0 past its end.
fn byte_of(input: &[u8], i: usize) -> u8
    ensures { result ≡ byte_of input.now i }
{
    input.get(i).copied().unwrap_or(0)
}

// Whether an input is a schedule.
#[tactic(auto, unfolding(crate::specs::Schedule::takes))]
fn accepted(input: &[u8]) -> bool
    ensures { result ≡ takes input.now }
{
    (2..=4096).contains(&input.len())
        && byte_of(input, 0) % 4 == 0
        && (1..=64).contains(&byte_of(input, 1))
}

// The line of a machine at the schedule's end.
fn line_of(x: Machine) -> Line
    ensures { result ≡ line_of x }
{
    Line {
        sent: x.tally.sent,
        fetched: x.tally.fetched,
        answered: x.tally.answered,
        taken: x.tally.taken,
        account: x.host.counts.account,
        owed: x.port.counts.owed,
        command: x.tally.command,
        response: x.tally.response,
        sa: port_registers::sa(x.port),
    }
}

// The schedule run on a memory, and its line; no line of an input that is refused.
#[tactic(auto, unfolding(crate::specs::Schedule::run_of))]
pub fn run(input: &[u8], mem: &mut [u8]) -> Option<Line>
    ensures { reported result mem.new ≡ run_of input.now mem.old }
{
    if !accepted(input) {
        return None;
    }
    let rings = byte_of(input, 0);
    let limit = byte_of(input, 1);
    let start = opening::started(rings >> 5, (rings >> 2) % 8, limit, mem);
    let end = drive::all_bytes(start, input, mem);
    Some(line_of(end))
}
