// The program of docs/SCRIPTS.md: reads a script of calls on standard input, makes them, and prints a line for each.
#![tactic(auto)]

mod made_on_host;
mod made_on_port;
mod stage;

use program_script::order;
use stage::Stage;
use std::io;
use std::io::{Read, Write};

// The longest script.
const LONGEST: usize = 1048576;

// Room for a script and a byte more, to see that it is longer.
const ROOM: usize = LONGEST + 1;

// What is printed waits in so many bytes: beside what is written at once they have room for any line.
const WAITING: usize = stage::WRITTEN + 16384;

// The bytes that a script can lend.
const MEMORY: usize = order::LENT as usize;

// A script, or more than the longest. The room is handed on whole: the check knows the length of so large an array from its type, and
// where it sees the array made it counts.
fn read<R: Read + Drop>(input: R, room: &mut [u8; ROOM]) -> io::Result<&[u8]> {
    program_reading::read(input, room)
}

// All that a script prints.
fn play<W: Write + Drop>(
    mut output: W,
    script: &[u8],
    waiting: &mut [u8],
    memory: &mut [u8],
) -> io::Result<()> {
    if LONGEST < script.len() {
        return output.write_all(b"script too long\n");
    }
    Stage::new(output, waiting, memory).play(script)
}

// All that is kept lies on the stack: for its first byte the C library's heap takes 132 KiB.
fn main(rt: HostRuntime) {
    let mut room = [0u8; ROOM];
    let mut waiting = [0u8; WAITING];
    let mut memory = [0u8; MEMORY];
    let Ok(script) = read(rt.stdin(), &mut room) else {
        let _ = eprintln!(rt; "replay: can't read");
        return;
    };
    if play(rt.stdout(), script, &mut waiting, &mut memory).is_err() {
        let _ = eprintln!(rt; "replay: can't write");
    }
}
