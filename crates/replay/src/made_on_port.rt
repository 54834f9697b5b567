// The calls of the port that answer with a reply.
use base_side::Stepped;
use port_state::state::{Made, Port};
use program_script::order::{OnPort, PortSide};

pub fn call(port: Port, on: OnPort, mem: &mut [u8]) -> Stepped<Port> {
    match on {
        OnPort::Create {
            nv,
            qb,
            di,
            version,
            limit,
        } => Port::create(Made {
            nv,
            qb,
            di,
            version,
            limit,
        }),
        OnPort::WriteSa(word) => port_registers::write_sa(port, word, mem),
        OnPort::BeginFetch => port_fetch::begin_fetch(port),
        OnPort::BeginAnswer(text) => port_post::begin_answer(port, text.as_slice()),
        OnPort::BeginUnsolicited(text) => port_post::begin_unsolicited(port, text.as_slice()),
    }
}

// Kept: a script's word says which.
pub fn step(port: Port, side: PortSide, mem: &mut [u8]) -> Stepped<Port> {
    match side {
        PortSide::Fetch => port_fetch::step_fetch(port, mem),
        PortSide::Post => port_post::step_post(port, mem),
    }
}
