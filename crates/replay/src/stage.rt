// The stage: one host and one port over one memory, and what a script does to them.
use crate::{made_on_host, made_on_port};
use base_side::Stepped;
use host_state::state::Host;
use port_state::state::{Made, Port};
use program_saying::answer::{Asks, Replied};
use program_saying::sum::Memory;
use program_saying::{of_host, of_port, text};
use program_script::order;
use program_script::order::{OnRegister, OnSide, OnStage, Order};
use std::fmt::Display;
use std::io;
use std::io::{Cursor, Write};

// What waits is written, whole lines, once there are so many bytes.
pub const WRITTEN: usize = 32768;

// The most bytes that a peek prints.
const PEEKED: usize = order::PEEKED as usize;

// What is printed waits in `out`, and is written to `output`. `lent` is how many bytes of the memory are lent, and `line` the number of
// the line that is read.
#[derive(Drop)]
pub struct Stage<'a, W: Write + Drop> {
    output: W,
    out: Cursor<&'a mut [u8]>,
    memory: &'a mut [u8],
    lent: usize,
    host: Host,
    port: Port,
    line: u32,
}

impl<'a, W: Write + Drop> Stage<'a, W> {
    // A host that has not begun, a port with all 0 and limit 1, and no byte lent.
    pub fn new(output: W, waiting: &'a mut [u8], memory: &'a mut [u8]) -> Stage<'a, W> {
        Stage {
            output,
            out: Cursor::new(waiting),
            memory,
            lent: 0,
            host: Host::new(),
            port: fresh_port(),
            line: 0,
        }
    }

    // One line after the other, to the script's end or the first that is no call.
    pub fn play(&mut self, script: &[u8]) -> io::Result<()> {
        for (number, line) in (1u32..).zip(script.split(|byte| *byte == b'\n')) {
            self.line = number;
            match order::order_of(line) {
                Ok(order) => self.obey(order)?,
                Err(reason) => {
                    writeln!(self.out, "{}: not a call: {reason}", self.line)?;
                    break;
                }
            }
        }
        self.write()
    }

    // The bytes lent: a call gets these, and no more.
    fn lent(&mut self) -> &mut [u8] {
        let n = self.lent.min(self.memory.len());
        &mut self.memory[..n]
    }

    // What an order asks.
    fn obey(&mut self, order: Order) -> io::Result<()> {
        match order {
            Order::Blank => Ok(()),
            Order::Stage(on) => self.set_stage(on),
            Order::Register(on) => self.register(on),
            Order::Port(on) => {
                let r = made_on_port::call(self.port, on, self.lent());
                self.port_replied(r)
            }
            Order::Handshake(on) => {
                let r = made_on_host::handshake(self.host, on);
                self.host = r.host;
                self.show(Asks(&r), of_host::State(&r.host))
            }
            Order::Host(on) => {
                let r = made_on_host::call(self.host, on, self.lent());
                self.host_replied(r)
            }
            Order::Repeated(side, times) => {
                for _ in 0..times {
                    self.step(side)?;
                }
                Ok(())
            }
        }
    }

    // Somebody else's hand on the memory, and a look at it.
    fn set_stage(&mut self, on: OnStage) -> io::Result<()> {
        match on {
            OnStage::Afresh => {
                self.memory.fill(0);
                self.lent = 0;
                self.host = Host::new();
                self.port = fresh_port();
            }
            OnStage::Memory { lent } => self.lent = lent as usize,
            OnStage::Fill { byte } => self.lent().fill(byte),
            OnStage::Poke { address, word } => poke(self.lent(), address, word),
            OnStage::Peek { address, count } => self.peek(address, count)?,
        }
        Ok(())
    }

    // Some bytes, those that are not lent as `..`.
    fn peek(&mut self, address: u32, count: u32) -> io::Result<()> {
        let lent = self.lent();
        let start = lent.len().min(address as usize);
        let mut pairs = [*b".."; PEEKED];
        let pairs = &mut pairs[..PEEKED.min(count as usize)];
        for (pair, byte) in pairs.iter_mut().zip(&lent[start..]) {
            *pair = text::digits_of(*byte);
        }
        write!(self.out, "{}: ", self.line)?;
        self.out.write_all(pairs.as_flattened())?;
        self.ends()
    }

    // The end of a line.
    fn ends(&mut self) -> io::Result<()> {
        writeln!(self.out)?;
        if WRITTEN as u64 <= self.out.position() {
            self.write()?;
        }
        Ok(())
    }

    // What waits is written.
    fn write(&mut self) -> io::Result<()> {
        let waiting = &self.out.get_ref()[..];
        let n = waiting.len().min(self.out.position() as usize);
        self.output.write_all(&waiting[..n])?;
        self.out.set_position(0);
        Ok(())
    }

    // The calls of the port that answer with no reply: with `done`, or with what SA reads.
    fn register(&mut self, on: OnRegister) -> io::Result<()> {
        let port = self.port;
        match on {
            OnRegister::WriteIp => {
                self.port = port_registers::write_ip(port);
                let port = self.port;
                self.show("done", of_port::State(&port))
            }
            OnRegister::ReadSa => {
                let word = port_registers::sa(port);
                self.show(format_args!("{word:04x}"), of_port::State(&port))
            }
        }
    }

    // Kept: a script's word says which.
    fn step(&mut self, side: OnSide) -> io::Result<()> {
        match side {
            OnSide::Port(side) => {
                let r = made_on_port::step(self.port, side, self.lent());
                self.port_replied(r)
            }
            OnSide::Host(side) => {
                let r = made_on_host::step(self.host, side, self.lent());
                self.host_replied(r)
            }
        }
    }

    // Kept: this and the next set a field of their own and print by a type of their own; one for both would need a trait for that.
    fn port_replied(&mut self, r: Stepped<Port>) -> io::Result<()> {
        self.port = r.half;
        self.show(Replied(&r.reply), of_port::State(&r.half))
    }

    fn host_replied(&mut self, r: Stepped<Host>) -> io::Result<()> {
        self.host = r.half;
        self.show(Replied(&r.reply), of_host::State(&r.half))
    }

    // The line of a call: what it answered, the state of the half that it was made on, and the bytes lent.
    fn show(&mut self, answer: impl Display + Drop, state: impl Display + Drop) -> io::Result<()> {
        let line = self.line;
        let lent = Memory::of(self.lent());
        write!(self.out, "{line}: {answer} | {state} | {lent}")?;
        self.ends()
    }
}

fn fresh_port() -> Port {
    let made = Made {
        limit: 1,
        ..Made::default()
    };
    Port::create(made).half
}

// Stores a word, low byte first, as far as its bytes are lent.
fn poke(lent: &mut [u8], address: u32, word: u16) {
    let start = lent.len().min(address as usize);
    for (place, byte) in lent[start..].iter_mut().zip(word.to_le_bytes()) {
        *place = byte;
    }
}
