//! The nodes of a condition as they are kept: each with the hart that the part speaks of alone
//! which ends with it, so that this is worked out once.
#![tactic(auto, unfolding(crate::proofs::Unfold::entries))]

ghost use Rattle.std.specs.Prelude.{◌≡◌, IfOk};
ghost use Rattle.conditions.specs.Formulas.{Formula, nodes_of};
ghost use Rattle.conditions.specs.Hiding.{alone};
ghost use Rattle.conditions.specs.Entries.{alone_after, entries_of, last_alone};

use crate::alone::alone_both;
use crate::parts::{Node, Subject};
use std::alloc::{AllocError, Global};

/// A node, and the hart that the part speaks of alone which ends with it, if it is of one alone.
#[derive(Clone, Copy, Debug)]
pub(crate) struct Entry {
    pub(crate) node: Node,
    pub(crate) alone: Option<Subject>,
}

/// The hart that the part speaks of alone which these entries end with.
fn last_alone(entries: &[Entry]) -> Option<Subject>
    ensures { result ≡ last_alone entries.now }
{
    match entries.get(entries.len().saturating_sub(1)) {
        Some(last) => last.alone,
        None => None,
    }
}

/// The hart that the condition of some entries speaks of alone.
pub(crate) fn alone(entries: &[Entry]) -> Option<Subject>
    ensures { (formula : Formula) → entries.now ≡ entries_of formula → result ≡ alone formula }
{
    last_alone(entries)
}

/// The hart that the part speaks of alone which a node ends, after these entries.
fn alone_after(entries: &[Entry], node: Node) -> Option<Subject>
    ensures { result ≡ alone_after entries.now node }
{
    match node {
        Node::Says(atom) => atom.alone(),
        Node::Not => last_alone(entries),
        Node::Enclosed => last_alone(entries),
        Node::Joined(_, second) => {
            let first = entries.len().saturating_sub(second);
            alone_both(last_alone(&entries[..first]), last_alone(entries))
        }
        Node::Counted(_, _) => None,
    }
}

/// The entries of a condition's nodes.
pub(crate) fn entries_of(alloc: Global, nodes: &[Node]) -> Result<Vec<Entry>, AllocError>
    ensures { IfOk result (λ entries. (formula : Formula) → nodes.now ≡ nodes_of formula →
        entries.items ≡ entries_of formula) }
{
    let mut entries = Vec::new(alloc);
    for node in nodes.iter() {
        let alone = alone_after(entries.as_slice(), *node);
        entries.push(Entry { node: *node, alone })?;
    }
    Ok(entries)
}
