//! How often a sink has failed: a count without a bound, which only contracts see.

ghost use Rattle.std.specs.Prelude.{◌≡◌, ◌+◌};

use std::marker::Model;
use std::snapshot::Snapshot;

/// What a sink has been through.
#[derive(Drop)]
enum Past {
    Fine,
    Failed(Snapshot<Past>),
}

/// A number of failures. A machine counter would end, and then a sink could not fail once more;
/// this one takes no memory that grows, since no code reads the number.
#[derive(Drop)]
pub struct FailureCount {
    past: Past,
}

impl Model for FailureCount {
    ghost use Rattle.std.specs.Prelude.{ℕ};
    ghost use Rattle.sinks.specs.Failures.{failures_in};

    ghost Value = { ℕ };

    ghost view = { λ c. failures_in c.past };
}

impl FailureCount {
    /// No failure.
    pub fn none() -> FailureCount
        ensures { result ≡ 0 }
    {
        FailureCount { past: Past::Fine }
    }

    /// Counts one failure more.
    pub fn fail(&mut self)
        ensures { self.new ≡ self.old + 1 }
    {
        self.past = Past::Failed(Snapshot::of(&self.past));
    }

    /// Drops the count in a call of its own.
    pub fn end(self) {}
}
