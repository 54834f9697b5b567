// The plain machine of demand 3, and what it promises of any run. The contract carries the fact; the function counts the operations.
#![tactic(auto)]

ghost use Rattle.std.specs.Prelude.{◌≡◌, length};
ghost use Rattle.fact_plain.specs.Log.{operations, EveryRunInOrder};

pub fn every_run_in_order() -> u16
    ensures { (result ≡ length operations) × EveryRunInOrder }
{
    4
}
