//! The calls of a gate: a history which only contracts see.

ghost use Rattle.std.specs.Prelude.{◌≡◌, ◌++◌, ◌∷◌, []};
ghost use Rattle.harts.specs.declared.gates.Call.TheVariants.{Before, After};

use crate::gates::{Call, Turn};
use std::marker::Model;
use std::snapshot::Snapshot;

/// What was called so far.
#[derive(Drop)]
enum Past {
    Nothing,
    Called(Call, Snapshot<Past>),
}

/// The calls that a gate was made, in order. It takes no memory that grows, since no code reads
/// them. Contracts see the list.
#[derive(Drop)]
pub struct Calls {
    past: Past,
}

impl Model for Calls {
    ghost use Rattle.std.specs.Prelude.{List};
    ghost use Rattle.harts.specs.declared.gates.Call.{Call};
    ghost use Rattle.harts.specs.Pasts.{calls_in};

    ghost Value = { List Call };

    ghost view = { λ calls. calls_in calls.past };
}

impl Calls {
    /// No call.
    pub fn none() -> Calls
        ensures { result ≡ [] }
    {
        Calls {
            past: Past::Nothing,
        }
    }

    /// Adds the call before a hart's turn, and gives its answer back.
    pub fn before(&mut self, hart: u8, turn: u32, answer: Turn) -> Turn
        ensures answer { result ≡ answer }
        ensures calls { self.new ≡ self.old ++ Before hart turn answer ∷ [] }
    {
        self.add(Call::Before { hart, turn, answer });
        answer
    }

    /// Adds the call after a turn in which a hart stepped.
    pub fn after(&mut self, hart: u8, turn: u32)
        ensures { self.new ≡ self.old ++ After hart turn ∷ [] }
    {
        self.add(Call::After { hart, turn });
    }

    /// Adds a call.
    fn add(&mut self, call: Call)
        ensures { self.new ≡ self.old ++ call ∷ [] }
    {
        self.past = Past::Called(call, Snapshot::of(&self.past));
    }
}
