//! Conditions, and whether one holds in a state.
#![tactic(auto, unfolding(crate::proofs::Unfold::conditions))]

ghost use Rattle.std.specs.Prelude.{◌≡◌, IfOk, map};
ghost use Rattle.conditions.specs.Entries.{kept_nodes};
ghost use Rattle.conditions.specs.Formulas.{formula_of, nodes_of};
ghost use Rattle.conditions.specs.Holding.{holds};

use crate::entries::{Entry, entries_of};
use crate::holding::is_so;
use crate::parts::Node;
use crate::view::StateView;
use std::alloc::{AllocError, Global};
use std::marker::Model;

/// A condition on states of the machine.
#[derive(Debug, Drop)]
pub struct Condition {
    pub(crate) entries: Vec<Entry>,
}

impl Model for Condition {
    ghost use Rattle.std.specs.Prelude.{List, ◌≡◌};
    ghost use Rattle.conditions.specs.Formulas.{formula_of};
    ghost use Rattle.conditions.specs.Entries.{entries_of, kept_nodes};
    ghost use Rattle.conditions.specs.declared.parts.Node.{Node};

    ghost Value = { List Node };

    ghost view = { λ condition. kept_nodes condition.entries.items };

    ghost invariant = { λ condition. condition.entries.items
        ≡ entries_of (formula_of (kept_nodes condition.entries.items)) };
}

/// The nodes of entries.
fn kept_nodes(alloc: Global, entries: &[Entry]) -> Result<Vec<Node>, AllocError>
    ensures { IfOk result (λ nodes. nodes.items ≡ kept_nodes entries.now) }
{
    entries.iter().map(|entry| entry.node).collect(alloc)
}

impl Condition {
    /// The condition of these nodes. Fails only when out of memory.
    pub fn of(alloc: Global, nodes: &[Node]) -> Result<Condition, AllocError>
        requires { nodes_of (formula_of nodes.now) ≡ nodes.now }
        ensures { IfOk result (λ condition. condition ≡ nodes.now) }
    {
        let entries = entries_of(alloc, nodes)?;
        Ok(Condition { entries })
    }

    /// The same condition. Fails only when out of memory.
    pub fn copy(&self, alloc: Global) -> Result<Condition, AllocError>
        ensures { IfOk result (λ copy. copy ≡ self.now) }
    {
        let entries = Vec::from_slice(alloc, self.entries.as_slice())?;
        Ok(Condition { entries })
    }

    /// Its nodes, each after its parts. Fails only when out of memory.
    pub fn nodes(&self, alloc: Global) -> Result<Vec<Node>, AllocError>
        ensures { IfOk result (λ nodes. nodes.items ≡ self.now) }
    {
        kept_nodes(alloc, self.entries.as_slice())
    }

    /// Whether it holds in a state.
    pub fn holds<V: StateView>(&self, view: &V) -> bool
        ensures { result ≡ holds (V.state view.now) self.now }
    {
        is_so(view, 0, self.entries.as_slice())
    }
}
