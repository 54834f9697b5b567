// Traffic in any order: demand 3. The contract carries the theorem, so that it can't be lost unseen; the function counts the rings.
#![tactic(auto)]

ghost use Rattle.std.specs.Prelude.{◌≡◌, ◌*◌, ◌^◌, length};
ghost use Rattle.base_words.specs.Fields.{command_exponent, response_exponent};
ghost use Rattle.fact_layout.specs.Facts.{both_rings};
ghost use Rattle.fact_traffic.specs.Instance.{calls, EveryPair, MixedRun};
ghost use Rattle.fact_traffic.specs.ShutOut.{errors, ShutOut};
ghost use Rattle.fact_traffic.specs.Traffic.{EveryRun};

pub fn every_run() -> u16
    ensures { (result ≡ length both_rings) × EveryRun }
{
    2
}

// It is about something: a start for every pair of exponents, of which there are eight for each ring.
pub fn every_pair() -> u16
    ensures { (result ≡ 2 ^ command_exponent.width * 2 ^ response_exponent.width) × EveryPair }
{
    64
}

// And a mixed run over rings of one slot, with its answers, refusals 4 to 8 among them; the function counts its calls.
pub fn mixed_run() -> u16
    ensures { (result ≡ length calls) × MixedRun }
{
    44
}

// What the promise shuts out: halves that differ from ours in one step break it. The function counts them.
pub fn errors_shut_out() -> u16
    ensures { (result ≡ length errors) × ShutOut }
{
    6
}
