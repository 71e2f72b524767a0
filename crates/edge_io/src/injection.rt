// Faults by call number, for the objects in memory.
ghost use Rattle.edge_io.specs.Causes.{HasIncreased};
ghost use Rattle.edge_io.specs.Injection.{fresh, fails_next, after_call};
ghost use Rattle.std.specs.Prelude.{◌≡◌, ◌≤◌, MatchBool};

use std::marker::Model;

/// The numbers of an object's calls that are to fail, and how many calls were made and have failed.
#[derive(Drop)]
pub struct FaultPlan {
    failing: Vec<u64>,
    calls: u64,
    faults: u64,
}

impl Model for FaultPlan {
    ghost use Rattle.edge_io.specs.Injection.{Injection};

    ghost Value = { Injection };

    ghost view = { λ p. record { failing = p.failing.items; calls = p.calls; faults = p.faults } };
}

impl FaultPlan {
    /// A plan before the first call. Calls are numbered from 1.
    pub fn new(failing: Vec<u64>) -> FaultPlan
        ensures { result ≡ fresh failing.items }
    {
        FaultPlan {
            failing,
            calls: 0,
            faults: 0,
        }
    }

    /// Counts a call, and returns whether it is to fail.
    pub fn next_fails(&mut self) -> bool
        ensures fails { result ≡ fails_next self.old }
        ensures counted { self.new ≡ after_call self.old }
        ensures later { self.old.faults ≤ self.new.faults }
        ensures faults { MatchBool result (HasIncreased self.old.faults self.new.faults) (self.new.faults ≡ self.old.faults) }
    {
        self.calls = self.calls.saturating_add(1);
        let fails = self.failing.contains(&self.calls);
        if fails {
            self.faults = self.faults.saturating_add(1);
        }
        fails
    }
}
