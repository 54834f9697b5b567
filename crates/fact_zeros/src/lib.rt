// "The result carries the text in 60 bytes, zero beyond its length": of every list of calls of a port or a host, over any memory, also where
// others write between the steps. The contract carries the fact; the function counts the kinds of call of both.
#![tactic(auto)]

ghost use Rattle.std.specs.Prelude.{◌+◌, ◌≡◌, length};
ghost use Rattle.port_state.specs.Calls as PortCalls;
ghost use Rattle.host_state.specs.Calls as HostCalls;
ghost use Rattle.fact_zeros.specs.Zeros.{EveryText};

pub fn every_text() -> u16
    ensures { (result ≡ length PortCalls.kinds + length HostCalls.kinds) × EveryText }
{
    15
}
