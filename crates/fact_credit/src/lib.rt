// Fatal 10 comes exactly where the first credit and all granted since are used up by fetched commands: of every list of port calls, over
// any memory. The contract carries the fact; the function counts the kinds of call.
#![tactic(auto)]

ghost use Rattle.std.specs.Prelude.{◌≡◌, length};
ghost use Rattle.port_state.specs.Calls.{kinds};
ghost use Rattle.fact_credit.specs.Credit.{EveryLedger, Happens};

pub fn every_ledger() -> u16
    ensures { (result ≡ length kinds) × EveryLedger × Happens }
{
    6
}
