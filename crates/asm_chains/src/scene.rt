//! The symbols of a program, and what the names of their expressions mean.

use asm_expressions::Node;
use asm_tokens::AsmFaultKind;
use asm_values::{Location, Value};
use std::alloc::{AllocError, AllocFailed};

/// Where an expression stands: its file and its statement, by their numbers, and the place of `.`.
#[derive(Clone, Copy, Debug, PartialEq, Eq)]
pub struct Setting {
    pub file: usize,
    pub statement: usize,
    pub dot: Location,
}

/// What a name of an expression is.
#[derive(Clone, Copy, Debug, PartialEq, Eq)]
pub enum Leaf {
    /// A value: of `.`, or of a local label.
    Is(Value),
    /// The value of the symbol of this number.
    Stands(u32),
    /// Nothing: there is no such symbol, or no such local label.
    Missing,
}

/// What is wrong with an expression, at the token of a number in a file.
#[derive(Clone, Copy, Debug, PartialEq, Eq)]
pub struct LateFault {
    pub file: usize,
    pub kind: AsmFaultKind,
    pub at: usize,
}

impl From<AllocError> for LateFault {
    ghost use Rattle.std.specs.Prelude.{◌≡◌};
    ghost use Rattle.asm_chains.specs.Faults.{no_memory};

    ghost from_gives = { λ _ fault. fault ≡ no_memory };

    fn from(_: AllocError) -> LateFault {
        LateFault {
            file: 0,
            kind: AsmFaultKind::NoMemory,
            at: 0,
        }
    }
}

impl<T: Drop> From<AllocFailed<T>> for LateFault {
    ghost use Rattle.std.specs.Prelude.{◌≡◌};
    ghost use Rattle.asm_chains.specs.Faults.{no_memory};

    ghost from_gives = { λ _ fault. fault ≡ no_memory };

    fn from(_: AllocFailed<T>) -> LateFault {
        LateFault::from(AllocError)
    }
}

/// The symbols of a program, by their numbers, and what a name of an expression is.
pub trait Scene {
    ghost use Rattle.std.specs.Prelude.{◌≡◌, length};
    ghost use Rattle.asm_chains.specs.Scenes.{SceneParts, symbol_at};

    ghost parts: { Self → SceneParts };

    /// How many symbols there are.
    fn count(&self) -> usize
        ensures { result ≡ length (parts self.now).symbols };

    /// The place of a symbol that isn't set.
    fn own(&self, symbol: usize) -> Option<Value>
        ensures { result ≡ (symbol_at (parts self.now) symbol).own };

    /// Where the expression of a symbol stands.
    fn setting(&self, symbol: usize) -> Setting
        ensures { result ≡ (symbol_at (parts self.now) symbol).setting };

    /// The nodes of a symbol's expression; none where it isn't set.
    fn nodes(&self, symbol: usize) -> &[Node]
        ensures { result.now ≡ (symbol_at (parts self.now) symbol).nodes };

    /// What a node is that is a symbol, a local label or `.`.
    fn leaf(&self, setting: Setting, node: Node) -> Leaf
        ensures { result ≡ (parts self.now).leaf setting node };

    /// How far the first of two chunks begins after the second one, where both have addresses.
    fn apart(&self, to: u32, from: u32) -> Option<u64>
        ensures { result ≡ (parts self.now).apart to from };
}
