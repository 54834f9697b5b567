// The calls of the host.
use base_area::Ring;
use base_side::Stepped;
use host_state::state::{Asked, Beginning, Host, Shaken};
use program_script::order::{HostSide, OnHandshake, OnHost};

// The calls that answer with what they ask.
pub fn handshake(host: Host, on: OnHandshake) -> Shaken {
    match on {
        OnHandshake::Begin {
            command,
            response,
            interrupts,
            vector,
            base,
        } => {
            let beginning = Beginning {
                command,
                response,
                interrupts,
                vector,
                base,
            };
            host_handshake::begin(host, beginning)
        }
        OnHandshake::SaSeen(word) => host_handshake::sa_seen(host, word),
        OnHandshake::TimeIsUp => host_handshake::time_is_up(host),
    }
}

// The calls that answer with a reply.
pub fn call(host: Host, on: OnHost, mem: &mut [u8]) -> Stepped<Host> {
    match on {
        OnHost::SetUp { pool } => host_setup::set_up(host, pool, mem),
        OnHost::BeginSend { flag, text } => {
            host_send::begin_send(host, Asked { flag }, text.as_slice())
        }
        OnHost::BeginTake => host_take::begin_take(host),
        OnHost::ClearCommand => host_setup::clear_indicator(host, Ring::Command, mem),
        OnHost::ClearResponse => host_setup::clear_indicator(host, Ring::Response, mem),
    }
}

// Kept: a script's word says which.
pub fn step(host: Host, side: HostSide, mem: &mut [u8]) -> Stepped<Host> {
    match side {
        HostSide::Send => host_send::step_send(host, mem),
        HostSide::Take => host_take::step_take(host, mem),
    }
}
