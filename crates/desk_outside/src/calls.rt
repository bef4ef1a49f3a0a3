// Calls that are numbered from 0, some of which fail, and a count of those that did.
ghost use Rattle.std.specs.Prelude.{◌≡◌, ◌≤◌};
ghost use Rattle.desk_outside.specs.InMemory.{no_calls, is_listed, after_call};

use std::marker::Model;

/// Which calls of an object in memory fail.
#[derive(Drop)]
pub struct Calls {
    failing: Vec<u64>,
    // The number of the next call, which can pass every number of a list.
    next: u128,
    faults: u64,
}

impl Model for Calls {
    ghost use Rattle.desk_outside.specs.InMemory.{CallState};

    ghost Value = { CallState };

    ghost view = { λ c. record { failing = c.failing.items; next = c.next; faults = c.faults } };
}

impl Calls {
    pub fn new(failing: Vec<u64>) -> Self
        ensures { result ≡ no_calls failing.items }
    {
        Calls {
            failing,
            next: 0,
            faults: 0,
        }
    }

    /// Whether the next call is listed.
    pub fn is_listed(&self) -> bool
        ensures { result ≡ is_listed self.now }
    {
        let next = self.next;
        self.failing.iter().any(|&n| u128::from(n) == next)
    }

    /// Makes a call, and counts it where it fails.
    pub fn make(&mut self, fails: bool)
        ensures made { self.new ≡ after_call self.old fails }
        ensures later { self.old.faults ≤ self.new.faults }
    {
        self.next = self.next.saturating_add(1);
        if fails {
            self.faults = self.faults.saturating_add(1);
        }
    }
}
