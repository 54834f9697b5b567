// The twelve marked examples of document 01, proved together. The contract carries the claim; the function counts the rows.
#![tactic(auto)]

ghost use Rattle.std.specs.Prelude.{◌≡◌, length};
ghost use Rattle.fact_examples.specs.Marked.{table, Claim};

pub fn marked_examples() -> u16
    ensures { (result ≡ length table) × Claim }
{
    12
}
