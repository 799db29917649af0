//! Stopping a search from outside.
ghost use Rattle.std.specs.Prelude.{ℕ, ◌≤◌, IsTrue};
ghost use Rattle.solver.specs.Stopping.{Rises};

/// Who may stop a search.
pub trait Stop {
    /// How often a poll has said that the search is to stop, up to the last number of 64 bits.
    ghost raised: { Self → ℕ };

    /// What an earlier and a later state have in common, whatever was asked in between.
    ghost stays: { Self → Self → Type 0 };

    /// Whether the search is to stop.
    fn asked(&mut self) -> bool
        ensures stopped { IsTrue result → Rises (raised self.old) (raised self.new) }
        ensures never_falls { raised self.old ≤ raised self.new }
        ensures stays { stays self.old self.new };

    ghost reflexive: { (stop : Self) → stays stop stop };

    ghost transitive: { (a b c : Self) → stays a b → stays b c → stays a c };
}

/// Nobody.
#[derive(Clone, Copy, Debug, Drop, PartialEq, Eq)]
pub struct NoStop;

impl Stop for NoStop {
    ghost raised = { λ _. 0 };

    ghost stays = { λ _ _. Unit {0} };

    ghost reflexive = { λ _. tt };

    ghost transitive = { λ _ _ _ _ _. tt };

    fn asked(&mut self) -> bool {
        false
    }
}
