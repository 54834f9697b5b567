// "The high-word write is where index, account and totals change and the operation has its effect."
ghost use Rattle.std.specs.Prelude.{◌≡◌};
ghost use Rattle.host_state.specs.Send.{sent};
ghost use Rattle.host_state.specs.Take.{taken};

use crate::state::{Counts, Host};
use base_area::Ring;
use base_side::Cursor;

impl Host {
    // The slot is given to the port: the next slot is the send side's, and a credit is spent.
    #[tactic(auto, unfolding(crate::specs::Send::sent))]
    pub fn sent_one(self, c: Cursor) -> Host
        ensures { result ≡ sent self c }
    {
        self.with_counts(Counts {
            send: self.area.next(Ring::Command, c.slot),
            account: self.counts.account.saturating_sub(1),
            ..self.counts
        })
    }

    // The slot is given back to the port: the next slot is the take side's, and the account gains the credits, to 255 at most.
    #[tactic(auto, unfolding(crate::specs::Take::taken))]
    pub fn taken_one(self, c: Cursor) -> Host
        ensures { result ≡ taken self c }
    {
        self.with_counts(Counts {
            take: self.area.next(Ring::Response, c.slot),
            account: self.counts.account.saturating_add(self.credits),
            ..self.counts
        })
    }
}
