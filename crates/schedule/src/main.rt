// Document 01, "The schedule program": reads a schedule on standard input and prints one line.
#![tactic(auto)]

// The input is read until it ends or so many bytes have come: one more than a schedule has.
const MOST: usize = 4097;

fn main(rt: HostRuntime) {
    let mut room = [0u8; MOST];
    let Ok(input) = program_reading::read(rt.stdin(), &mut room) else {
        let _ = eprintln!(rt; "schedule: can't read");
        return;
    };
    let mut mem = [0u8; 32768];
    let printed = match program_scheduling::run(input, &mut mem) {
        Some(line) => println!(rt; "{line}"),
        None => println!(rt; "refused"),
    };
    if printed.is_err() {
        let _ = eprintln!(rt; "schedule: can't write");
    }
}
