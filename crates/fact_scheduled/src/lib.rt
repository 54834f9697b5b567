// What the schedule program does with any input that it accepts is one of demand 3's runs. The contract carries the theorem; the
// function counts the calls of a turn.
#![tactic(auto)]

ghost use Rattle.std.specs.Prelude.{◌≡◌, length};
ghost use Rattle.program_scheduling.specs.declared.drive.Side.{Side};
ghost use Rattle.program_scheduling.specs.declared.machine.Machine.{Machine};
ghost use Rattle.fact_scheduled.specs.Calls.{turn_calls, EverySchedule};

pub fn every_schedule() -> u16
    ensures { ((s : Side) (x : Machine) → result ≡ length (turn_calls s x)) × EverySchedule }
{
    2
}
