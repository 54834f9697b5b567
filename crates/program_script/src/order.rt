// What a line asks, by what it is made on: the stage, the port or the host.
ghost use Rattle.std.specs.Prelude.{◌≡◌, IfOk};
ghost use Rattle.program_script.specs.Order.{word_of, IsWithin, IsLimited};

use crate::line::Words;
use crate::reason::Reason;
use crate::value::Text;

// The most bytes that can be lent.
pub const LENT: u32 = 262400;

// The most bytes that a peek prints.
pub const PEEKED: u32 = 64;

// The most often that one line makes a step.
const TIMES: u32 = 100000;

// The sides of a port, and of a host.
#[derive(Clone, Copy, PartialEq, Eq, Debug)]
pub enum PortSide {
    Fetch,
    Post,
}

#[derive(Clone, Copy, PartialEq, Eq, Debug)]
pub enum HostSide {
    Send,
    Take,
}

// A step call of any of the four sides stands apart: it may be made more than once.
#[derive(Clone, Copy, PartialEq, Eq, Debug)]
pub enum OnSide {
    Port(PortSide),
    Host(HostSide),
}

#[derive(Clone, Copy, PartialEq, Eq, Debug)]
pub enum OnStage {
    Afresh,
    Memory { lent: u32 },
    Fill { byte: u8 },
    Poke { address: u32, word: u16 },
    Peek { address: u32, count: u32 },
}

// Calls of the port that answer with no reply.
#[derive(Clone, Copy, PartialEq, Eq, Debug)]
pub enum OnRegister {
    WriteIp,
    ReadSa,
}

// Calls of the port that answer with a reply.
#[derive(Clone, Copy, PartialEq, Eq, Debug)]
pub enum OnPort {
    Create {
        nv: bool,
        qb: bool,
        di: bool,
        version: u8,
        limit: u8,
    },
    WriteSa(u16),
    BeginFetch,
    BeginAnswer(Text),
    BeginUnsolicited(Text),
}

// Calls of the host that answer with what they ask.
#[derive(Clone, Copy, PartialEq, Eq, Debug)]
pub enum OnHandshake {
    Begin {
        command: u8,
        response: u8,
        interrupts: bool,
        vector: u8,
        base: u32,
    },
    SaSeen(u16),
    TimeIsUp,
}

// Calls of the host that answer with a reply.
#[derive(Clone, Copy, PartialEq, Eq, Debug)]
pub enum OnHost {
    SetUp { pool: u32 },
    BeginSend { flag: bool, text: Text },
    BeginTake,
    ClearCommand,
    ClearResponse,
}

// What a line is: blank (empty or a comment), or a call. A step has how often it is made.
#[derive(Clone, Copy, PartialEq, Eq, Debug)]
pub enum Order {
    Blank,
    Stage(OnStage),
    Register(OnRegister),
    Port(OnPort),
    Handshake(OnHandshake),
    Host(OnHost),
    Repeated(OnSide, u32),
}

// What a word begins, with its arguments among the words that follow it.
fn read(word: &[u8], words: &mut Words<'_>) -> Result<Order, Reason>
    ensures word { IfOk result (λ order. word.now ≡ word_of order) }
    ensures limited { IfOk result IsLimited }
{
    Ok(match word {
        b"new" => Order::Stage(OnStage::Afresh),
        b"memory" => Order::Stage(OnStage::Memory {
            lent: words.number(LENT)?,
        }),
        b"fill" => Order::Stage(OnStage::Fill {
            byte: words.byte()?,
        }),
        b"poke" => Order::Stage(OnStage::Poke {
            address: words.number(u32::MAX)?,
            word: words.word()?,
        }),
        b"peek" => Order::Stage(OnStage::Peek {
            address: words.number(u32::MAX)?,
            count: words.number(PEEKED)?,
        }),
        b"write-ip" => Order::Register(OnRegister::WriteIp),
        b"read-sa" => Order::Register(OnRegister::ReadSa),
        b"create" => Order::Port(OnPort::Create {
            nv: words.bit()?,
            qb: words.bit()?,
            di: words.bit()?,
            version: words.byte()?,
            limit: words.byte()?,
        }),
        b"write-sa" => Order::Port(OnPort::WriteSa(words.word()?)),
        b"begin-fetch" => Order::Port(OnPort::BeginFetch),
        b"begin-answer" => Order::Port(OnPort::BeginAnswer(words.text()?)),
        b"begin-unsolicited" => Order::Port(OnPort::BeginUnsolicited(words.text()?)),
        b"begin" => Order::Handshake(OnHandshake::Begin {
            command: words.byte()?,
            response: words.byte()?,
            interrupts: words.bit()?,
            vector: words.byte()?,
            base: words.number(u32::MAX)?,
        }),
        b"sa-seen" => Order::Handshake(OnHandshake::SaSeen(words.word()?)),
        b"time-is-up" => Order::Handshake(OnHandshake::TimeIsUp),
        b"set-up" => Order::Host(OnHost::SetUp {
            pool: words.number(u32::MAX)?,
        }),
        b"begin-send" => Order::Host(OnHost::BeginSend {
            flag: words.bit()?,
            text: words.text()?,
        }),
        b"begin-take" => Order::Host(OnHost::BeginTake),
        b"clear-command" => Order::Host(OnHost::ClearCommand),
        b"clear-response" => Order::Host(OnHost::ClearResponse),
        b"step-fetch" => Order::Repeated(OnSide::Port(PortSide::Fetch), words.times(TIMES)?),
        b"step-post" => Order::Repeated(OnSide::Port(PortSide::Post), words.times(TIMES)?),
        b"step-send" => Order::Repeated(OnSide::Host(HostSide::Send), words.times(TIMES)?),
        b"step-take" => Order::Repeated(OnSide::Host(HostSide::Take), words.times(TIMES)?),
        _ => return Err(Reason::NoSuchWord),
    })
}

// A line without the CR before its line feed.
fn without_cr(line: &[u8]) -> &[u8] {
    line.strip_suffix(b"\r").unwrap_or(line)
}

// The order that a line is. The CR before a line feed is no part of it.
pub fn order_of(line: &[u8]) -> Result<Order, Reason>
    ensures limited { IfOk result IsLimited }
{
    let line = without_cr(line);
    if line.is_empty() || line.starts_with(b"#") {
        return Ok(Order::Blank);
    }
    let mut words = Words::new(line);
    let word = words.next().unwrap_or(&[]);
    let order = read(word, &mut words)?;
    words.end()?;
    Ok(order)
}

// A line of numbers alone, each with the largest that it may be.
pub fn numbers_of<const N: usize>(line: &[u8], most: [u32; N]) -> Result<[u32; N], Reason>
    ensures { IfOk result (λ numbers. IsWithin numbers most.entry) }
{
    let mut words = Words::new(without_cr(line));
    let mut numbers = [1; N];
    for (i, largest) in most.iter().enumerate() {
        numbers[i] = words.number(*largest)?;
    }
    words.end()?;
    Ok(numbers)
}
