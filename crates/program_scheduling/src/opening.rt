ghost use Rattle.std.specs.Prelude.{◌≡◌};
ghost use Rattle.base_words.specs.Words.{address_bits};
ghost use Rattle.host_state.specs.Shake.{asks_of};
ghost use Rattle.fact_meeting.specs.Meeting.{pair, obeyed, opened, exchange, exchanges};
ghost use Rattle.program_scheduling.specs.Machine.{stand};
ghost use Rattle.program_scheduling.specs.Opening.{asked, unmet, settled, started_by};

use crate::machine::{Machine, Tally};
use host_state::state::{Act, Beginning, Host, Shaken};
use port_state::state::{Made, Port};

// The two halves.
#[derive(Clone, Copy)]
pub struct Halves {
    pub host: Host,
    pub port: Port,
}

// What the host asks is done.
fn obey(r: Shaken, port: Port, mem: &mut [u8]) -> Halves
    ensures { pair result.host result.port mem.new ≡ obeyed r.host port mem.old (asks_of r.act) }
{
    let host = r.host;
    let port = match r.act {
        Act::WriteIp => port_registers::write_ip(port),
        Act::WriteSa(w) => port_registers::write_sa(port, w, mem).half,
        _ => port,
    };
    Halves { host, port }
}

// The host begins.
#[tactic(auto, unfolding(fact_meeting::specs::Meeting::opened))]
fn begins(b: Beginning, x: Halves, mem: &mut [u8]) -> Halves
    ensures { pair result.host result.port mem.new ≡ opened b (pair x.host x.port mem.old) }
{
    obey(host_handshake::begin(x.host, b), x.port, mem)
}

// The host is shown SA.
#[tactic(auto, unfolding(fact_meeting::specs::Meeting::exchange))]
fn show(x: Halves, mem: &mut [u8]) -> Halves
    ensures { pair result.host result.port mem.new ≡ exchange (pair x.host x.port mem.old) }
{
    let sa = port_registers::sa(x.port);
    obey(host_handshake::sa_seen(x.host, sa), x.port, mem)
}

// .. a number of times.
#[tactic(auto, using(crate::proofs::DriveLaws::exchanges_more), unfolding(fact_meeting::specs::Meeting::exchanges))]
fn show_times(x: Halves, n: usize, mem: &mut [u8]) -> Halves
    ensures { pair result.host result.port mem.new ≡ exchanges n (pair x.host x.port mem.old) }
{
    let mut x = x;
    for _ in 0..n {
        x = show(x, mem);
    }
    x
}

// A host that has not begun, and a port just created.
fn apart(limit: u8) -> Halves
    ensures { result ≡ unmet limit }
{
    let made = Made {
        limit,
        ..Made::default()
    };
    Halves {
        host: Host::new(),
        port: Port::create(made).half,
    }
}

// What the host begins with: ring base 8, no step interrupts, and a vector, so that each indicator write is reported.
fn settings(command: u8, response: u8) -> Beginning
    ensures { result ≡ asked command response }
{
    Beginning {
        command,
        response,
        interrupts: false,
        vector: 1,
        base: 8,
    }
}

// The setup with the pool at 2048, and nothing counted yet.
#[tactic(auto, unfolding(crate::specs::Opening::settled))]
fn settle(x: Halves, mem: &mut [u8]) -> Machine
    ensures { stand result mem.new ≡ settled (pair x.host x.port mem.old) }
{
    Machine {
        host: host_setup::set_up(x.host, 2048, mem).half,
        port: x.port,
        tally: Tally::default(),
        texts: [0; 64],
    }
}

// The machine before its first byte: created, met in four exchanges, set up.
#[tactic(auto, unfolding(crate::specs::Opening::started_by))]
pub fn started(command: u8, response: u8, limit: u8, mem: &mut [u8]) -> Machine
    ensures { stand result mem.new ≡ started_by command response limit mem.old }
{
    let begun = begins(settings(command, response), apart(limit), mem);
    let met = show_times(begun, 4, mem);
    settle(met, mem)
}
