// Ring and layout facts for every exponent. The contract carries them; the function says how many exponents there are.
#![tactic(auto)]

ghost use Rattle.std.specs.Prelude.{◌≡◌, ◌^◌};
ghost use Rattle.base_words.specs.Fields.{command_exponent};
ghost use Rattle.fact_layout.specs.Facts.{EveryLayout};

pub fn every_layout() -> u16
    ensures { (result ≡ 2 ^ command_exponent.width) × EveryLayout }
{
    8
}
