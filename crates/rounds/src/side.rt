// The four sides: an operation begun, and stepped until it ends.
use base_answers::Said;
use base_side::Stepped;
use host_state::state::{Asked, Host};
use port_state::state::Port;

// More steps than any operation has: 30 text words, and 7 besides.
const MOST: u32 = 64;

// The end of an operation: what its last step call gave back, and how many they were.
#[derive(Clone, Copy)]
pub struct End<S> {
    pub last: Stepped<S>,
    pub steps: u32,
}

// A half that has begun an operation is stepped until that ends. The step is called at two places, so that the compiler keeps it a
// function: what is measured is a call.
fn stepped<S: Copy, F: Fn(S, &mut [u8]) -> Stepped<S>>(
    begun: Stepped<S>,
    mem: &mut [u8],
    step: F,
) -> End<S>
    requires { F.IsAlwaysCallable step }
{
    let mut last = step(begun.half, mem);
    for steps in 1..MOST {
        if !matches!(last.reply.said, Said::Going) {
            return End { last, steps };
        }
        last = step(last.half, mem);
    }
    End { last, steps: MOST }
}

pub fn send(host: Host, text: &[u8], mem: &mut [u8]) -> End<Host> {
    let begun = host_send::begin_send(host, Asked { flag: false }, text);
    stepped(begun, mem, host_send::step_send)
}

pub fn take(host: Host, mem: &mut [u8]) -> End<Host> {
    stepped(host_take::begin_take(host), mem, host_take::step_take)
}

pub fn fetch(port: Port, mem: &mut [u8]) -> End<Port> {
    stepped(port_fetch::begin_fetch(port), mem, port_fetch::step_fetch)
}

pub fn answer(port: Port, text: &[u8], mem: &mut [u8]) -> End<Port> {
    stepped(
        port_post::begin_answer(port, text),
        mem,
        port_post::step_post,
    )
}
