// "One step touches at most one word", of every side of both halves. The contract carries the fact; the function counts the kinds of step.
#![tactic(auto)]

ghost use Rattle.std.specs.Prelude.{◌≡◌, length};
ghost use Rattle.fact_oneword.specs.OneStep.{kinds, EveryStep};

pub fn every_step() -> u16
    ensures { (result ≡ length kinds) × EveryStep }
{
    5
}
