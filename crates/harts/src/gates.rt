//! Gates: what is asked before each turn of a hart, and told after it.

use crate::calls::Calls;

/// Whether a hart goes on with its turn.
#[derive(Clone, Copy, Debug, PartialEq, Eq)]
pub enum Turn {
    /// The hart steps.
    Go,
    /// The hart ends before this turn.
    End,
}

/// A call of a gate.
#[derive(Clone, Copy)]
pub enum Call {
    /// Before a hart's turn, with the answer.
    Before { hart: u8, turn: u32, answer: Turn },
    /// After a turn in which a hart stepped.
    After { hart: u8, turn: u32 },
}

/// What every hart asks before each of its turns, and calls after each step that was not refused.
/// Turns count from 0. Neither is called while the machine's lock is held, so a gate may wait for
/// what other harts do. Each call is added to a list, by `Calls::before` and `Calls::after`.
pub trait Gate {
    ghost use Rattle.std.specs.Prelude.{◌≡◌, ◌++◌, ◌∷◌, [], List};
    ghost use Rattle.harts.specs.declared.gates.Call.{Call};
    ghost use Rattle.harts.specs.declared.gates.Call.TheVariants.{Before, After};

    /// The calls of a list that were made of this gate. Only the gate says which, so nothing but a
    /// call of it makes them more.
    ghost made: { List Call → List Call };

    /// Whether this hart goes on with this turn.
    fn before(&self, calls: &mut Calls, hart: u8, turn: u32) -> Turn
        ensures { made calls.new ≡ made calls.old ++ Before hart turn result ∷ [] };

    /// This hart has stepped in this turn.
    fn after(&self, calls: &mut Calls, hart: u8, turn: u32)
        ensures { made calls.new ≡ made calls.old ++ After hart turn ∷ [] };
}
