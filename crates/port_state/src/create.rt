// Creation of a port.
ghost use Rattle.std.specs.Prelude.{◌≡◌};
ghost use Rattle.base_side.specs.Step.{next_by, denied};
ghost use Rattle.port_state.specs.State.{fresh};
ghost use Rattle.port_state.specs.Shake.{created, with_limit};

use crate::state::{Made, Port};
use base_answers::{Refusal, Said};
use base_side::{Half, Stepped};

impl Port {
    // Creates a port in Step 1. A limit that is not 1 to 64 is refused, and the port handed back has limit 1.
    #[tactic(auto, unfolding(crate::specs::Shake::created))]
    pub fn create(made: Made) -> Stepped<Port>
        ensures { next_by result ≡ created made }
    {
        match made.limit {
            1..=base_rules::MOST_LIMIT => Port::new(made).replies(Said::Done),
            _ => Port::limited(made),
        }
    }

    // The refusal of a bad limit.
    fn limited(made: Made) -> Stepped<Port>
        ensures { next_by result ≡ denied (fresh (with_limit made 1)) 11 }
    {
        Port::new(Made { limit: 1, ..made }).replies(Said::Refused(Refusal::BadSetting))
    }
}
