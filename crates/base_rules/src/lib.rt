// The two rules that both halves go by: what an envelope's header must say, and what an answer grants.
#![tactic(auto)]

ghost use Rattle.std.specs.Prelude.{◌≡◌, ◌≤◌};
ghost use Rattle.base_rules.specs.Rules.{fault_of, carried_of, left_of};

use base_answers::Fatal;

// "limit 1 to 64 (house)"; "account at most 255"; an answer carries "at most 15".
pub const MOST_LIMIT: u8 = 64;

pub const MOST_ACCOUNT: u16 = 255;

pub const MOST_CARRIED: u8 = 15;

// Decides by message type, connection and length; an envelope that will not do has a fatal code.
#[tactic(auto, unfolding(crate::specs::Rules::fault_of))]
pub fn fault_of(kind: u16, connection: u16, size: u16) -> Result<(), Fatal>
    ensures { result ≡ fault_of kind connection size }
{
    match (kind, connection, size) {
        (0, 0, 0..=base_texts::LENGTH) => Ok(()),
        (0, 0, _) => Err(Fatal::Incompatible),
        (0, _, _) => Err(Fatal::InvalidConnection),
        _ => Err(Fatal::Incompatible),
    }
}

// The credits that an answer carries.
#[tactic(auto, unfolding(crate::specs::Rules::carried_of))]
pub fn carried_of(owed: u8) -> u8
    ensures { result ≡ carried_of owed }
{
    owed.saturating_add(1).min(MOST_CARRIED)
}

// What is still to grant after it.
#[tactic(auto, unfolding(crate::specs::Rules::left_of, crate::specs::Rules::carried_of))]
pub fn left_of(owed: u8) -> u8
    ensures { result ≡ left_of owed }
{
    owed - (carried_of(owed) - 1)
}
