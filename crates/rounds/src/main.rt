// Rounds to be measured: a command sent, fetched, answered with its own text, and the answer taken, again and again.
// Reads one line, `COMMAND RESPONSE SIZE COUNT`: the ring exponents, the texts' length and the number of rounds, in decimal.
#![tactic(auto)]

mod side;

ghost use Rattle.std.specs.Prelude.{◌≤◌};

use base_answers::Reply;
use host_state::state::Host;
use port_state::state::Port;
use program_saying::sum;
use program_scheduling::opening;
use program_script::order;
use program_script::reason::Reason;

// The input is read until it ends or so many bytes have come.
const MOST: usize = 128;

// How the program is used, line by line.
const USAGE: [&str; 2] = [
    "usage: rounds reads a line COMMAND RESPONSE SIZE COUNT, in decimal:",
    "ring exponents 0 to 7, bytes of a text 0 to 60, rounds 0 to 1000000",
];

// Both halves, the step calls made, and the sum of the texts taken.
#[derive(Clone, Copy)]
struct Run {
    host: Host,
    port: Port,
    steps: u32,
    sum: u32,
}

// The text of round k: byte i is i + k, modulo 256.
fn text_of(size: usize, k: u32) -> [u8; 60] {
    let mut text = [0u8; 60];
    for (byte, i) in text.iter_mut().take(size).zip(0..60) {
        *byte = (k.wrapping_add(i) % 256) as u8;
    }
    text
}

// The text that a reply carries.
fn carried(reply: &Reply) -> &[u8] {
    let size = usize::from(reply.size);
    &reply.bytes[..size.min(reply.bytes.len())]
}

// One round: a command is sent and fetched, and answered with its own text, and the answer is taken. A million rounds make fewer
// than 2^28 step calls.
fn round(run: Run, wanted: Wanted, k: u32, mem: &mut [u8]) -> Run {
    let text = text_of(wanted.size, k);
    let sent = side::send(run.host, &text[..wanted.size], mem);
    let fetched = side::fetch(run.port, mem);
    let posted = side::answer(fetched.last.half, carried(&fetched.last.reply), mem);
    let taken = side::take(sent.last.half, mem);
    Run {
        host: taken.last.half,
        port: posted.last.half,
        steps: run
            .steps
            .wrapping_add(sent.steps)
            .wrapping_add(fetched.steps)
            .wrapping_add(posted.steps)
            .wrapping_add(taken.steps),
        sum: sum::with_bytes(run.sum, carried(&taken.last.reply)),
    }
}

// A port with limit 28 and a host that have met, base 8, pool 2048.
fn met(command: u8, response: u8, mem: &mut [u8]) -> Run {
    let x = opening::started(command, response, 28, mem);
    Run {
        host: x.host,
        port: x.port,
        steps: 0,
        sum: sum::START,
    }
}

// What a line asks: the ring exponents, the texts' length and the number of rounds.
#[derive(Clone, Copy)]
struct Wanted {
    command: u8,
    response: u8,
    size: usize,
    count: u32,
    ghost short: { size ≤ 60 },
}

// All the rounds that are asked for.
fn rounds(wanted: Wanted) -> Run {
    let mut mem = [0u8; 32768];
    let mut run = met(wanted.command, wanted.response, &mut mem);
    for k in 0..wanted.count {
        run = round(run, wanted, k, &mut mem);
    }
    run
}

// The four numbers of a line, each with the largest that it may be. An x would make a number hexadecimal.
fn wanted_in(line: &[u8]) -> Result<Wanted, Reason> {
    let [command, response, size, count] = order::numbers_of(line, [7, 7, 60, 1000000])?;
    if line.contains(&b'x') {
        return Err(Reason::NotANumber);
    }
    Ok(Wanted {
        command: command as u8,
        response: response as u8,
        size: size as usize,
        count,
    })
}

fn main(rt: HostRuntime) {
    let mut room = [0u8; MOST];
    let Ok(input) = program_reading::read(rt.stdin(), &mut room) else {
        let _ = eprintln!(rt; "rounds: can't read");
        return;
    };
    let line = input.split(|b| *b == b'\n').next().unwrap_or(&[]);
    let Ok(wanted) = wanted_in(line) else {
        for usage in USAGE {
            let _ = eprintln!(rt; "{usage}");
        }
        return;
    };
    let Run { steps, sum, .. } = rounds(wanted);
    let count = wanted.count;
    if println!(rt; "rounds {count} steps {steps} sum {sum:08x}").is_err() {
        let _ = eprintln!(rt; "rounds: can't write");
    }
}
