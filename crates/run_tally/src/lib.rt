// A run's tally: calls accepted, calls refused, rows changed.

#![tactic(auto)]

ghost use Rattle.std.specs.Prelude.{◌≡◌};

#[derive(Clone, Copy, Default)]
pub struct Tally {
    pub accepted: u64,
    pub refused: u64,
    pub rows: u64,
}

impl Tally {
    ghost use Rattle.run_tally.specs.Tallies.{tallied};

    // Counts one answer: by its code, 0 where the call is accepted, and by the rows changed. A number that would pass the largest
    // stays at it. The code is a number, as the line of the answer has it: `tallied` speaks of any.
    #[tactic(auto, unfolding(crate::specs::Tallies::capped, crate::specs::Tallies::tallied))]
    pub fn count(&mut self, code: u64, changed: u64)
        ensures { self.new ≡ tallied self.old code changed }
    {
        if code == 0 {
            self.accepted = self.accepted.saturating_add(1);
        } else {
            self.refused = self.refused.saturating_add(1);
        }
        self.rows = self.rows.saturating_add(changed);
    }
}
