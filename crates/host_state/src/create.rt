// Creation of a host.
ghost use Rattle.std.specs.Prelude.{◌≡◌};
ghost use Rattle.host_state.specs.Shake.{new_host};

use crate::state::{Host, Shake};
use base_area::Area;

impl Host {
    // A new host half: dead until its first beginning.
    pub fn new() -> Host
        ensures { result ≡ new_host }
    {
        Host::fresh_at(Shake::Dead, Area::default())
    }
}
