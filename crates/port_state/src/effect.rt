// "The high-word write is where index, account and totals change and the operation has its effect."
ghost use Rattle.std.specs.Prelude.{◌≡◌};
ghost use Rattle.port_state.specs.Fetch.{fetched};
ghost use Rattle.port_state.specs.Post.{posted};

use crate::state::{Counts, Port};
use base_area::{Area, Ring};
use base_side::Cursor;

impl Port {
    // The slot is given up: the next slot is the fetch side's, and one more command is open.
    #[tactic(auto, unfolding(crate::specs::Fetch::fetched))]
    pub fn fetched_one(self, area: Area, c: Cursor) -> Port
        ensures { result ≡ fetched self area c }
    {
        self.with_counts(Counts {
            fetch: area.next(Ring::Command, c.slot),
            unanswered: self.counts.unanswered.saturating_add(1),
            ..self.counts
        })
    }

    // The slot is given up: the next slot is the post side's; an answer closes a command and grants what it carries.
    #[tactic(auto, unfolding(crate::specs::Post::posted))]
    pub fn posted_one(self, area: Area, c: Cursor) -> Port
        ensures { result ≡ posted self area c }
    {
        let mut counts = self.counts;
        counts.post = area.next(Ring::Response, c.slot);
        if self.asked.answers {
            counts.owed = base_rules::left_of(counts.owed);
            counts.unanswered = counts.unanswered.saturating_sub(1);
        }
        self.with_counts(counts)
    }
}
