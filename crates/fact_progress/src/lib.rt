// Every operation ends, after exactly the steps that document 01 lists. The contract carries the fact; the function counts the operations.
#![tactic(auto)]

ghost use Rattle.std.specs.Prelude.{◌≡◌, length};
ghost use Rattle.fact_progress.specs.Instance.{EveryPremiseMet};
ghost use Rattle.fact_progress.specs.Progress.{operations, EveryOperationEnds};

pub fn every_operation_ends() -> u16
    ensures { (result ≡ length operations) × EveryOperationEnds }
{
    4
}

// The premises of that fact can be met: one send, fetch, answer and take over 256 bytes.
pub fn premises_are_met() -> u16
    ensures { (result ≡ length operations) × EveryPremiseMet }
{
    4
}
