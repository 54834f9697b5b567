// The answers: replies, and what the host asks in its handshake.
use crate::text::Text;
use base_answers::{Reply, Said};
use host_state::state::{Act, Shaken};
use std::fmt;

// A reply: how the call closed, the length, the 60 bytes, and an interrupt.
#[derive(Clone, Copy)]
pub struct Replied<'a>(pub &'a Reply);

impl fmt::Display for Replied<'_> {
    fn fmt<W: fmt::Write>(&self, f: &mut fmt::Formatter<W>) -> fmt::Result {
        let reply = self.0;
        match reply.said {
            Said::Going => write!(f, "going")?,
            Said::Done => write!(f, "done")?,
            Said::Refused(r) => write!(f, "refused {}", u16::from(r))?,
            Said::Failed(e) => write!(f, "fatal {}", u16::from(e))?,
        }
        write!(f, " {} {}", reply.size, Text(&reply.bytes))?;
        if reply.interrupt {
            write!(f, " interrupt")?;
        }
        Ok(())
    }
}

// What a handshake call of the host asks. A refusal has a length and 60 bytes, as everywhere.
#[derive(Clone, Copy)]
pub struct Asks<'a>(pub &'a Shaken);

impl fmt::Display for Asks<'_> {
    fn fmt<W: fmt::Write>(&self, f: &mut fmt::Formatter<W>) -> fmt::Result {
        let shaken = self.0;
        match shaken.act {
            Act::WriteIp => write!(f, "write-ip"),
            Act::WriteSa(word) => write!(f, "write-sa {word:04x}"),
            Act::Waiting => write!(f, "waiting"),
            Act::IsDead => write!(f, "dead"),
            Act::None => write!(f, "none"),
            Act::PortFailed(code) => write!(f, "port-failed {code}"),
            Act::Denied(r) => {
                let number = u16::from(r);
                write!(
                    f,
                    "refused {number} {} {}",
                    shaken.size,
                    Text(&shaken.bytes)
                )
            }
        }
    }
}
