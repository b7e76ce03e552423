//! The entries of a condition as its parts.
#![tactic(auto, unfolding(crate::proofs::Unfold::formulas))]

ghost use Rattle.std.specs.Prelude.{◌≡◌, ◌+◌, IfSome, length};
ghost use Rattle.conditions.specs.Formulas.{Formula};
ghost use Rattle.conditions.specs.Entries.{entries_of};
ghost use Rattle.conditions.specs.Parts.{IsParted, AreShorter, AreTwo};

use crate::entries::Entry;
use crate::parts::{Atom, Comparison, Joint, Node};

/// The last node of a condition, with the entries of its parts.
#[derive(Clone, Copy)]
pub(crate) enum Parts<'a> {
    Says(&'a Atom),
    Not(&'a [Entry]),
    Enclosed(&'a [Entry]),
    Joined(Joint, &'a [Entry], &'a [Entry]),
    Counted(&'a [Entry], Comparison, u128),
}

/// The parts of two that are joined, of which the second has so many entries.
fn two_parts(joint: Joint, entries: &[Entry], second: usize) -> Option<Parts<'_>>
    ensures two { AreTwo entries.now joint second result }
    ensures shorter { IfSome result (λ parts. AreShorter parts (length entries.now + 1)) }
{
    if entries.len() < second {
        return None;
    }
    let first = entries.len() - second;
    Some(Parts::Joined(joint, &entries[..first], &entries[first..]))
}

/// The parts of the condition that has these entries; none where they are no condition's.
pub(crate) fn parts_of(entries: &[Entry]) -> Option<Parts<'_>>
    ensures parted { (formula : Formula) → entries.now ≡ entries_of formula →
        IsParted formula result }
    ensures shorter { IfSome result (λ parts. AreShorter parts (length entries.now)) }
{
    let [before @ .., last] = entries else {
        return None;
    };
    match &last.node {
        Node::Says(atom) => Some(Parts::Says(atom)),
        Node::Not => Some(Parts::Not(before)),
        Node::Enclosed => Some(Parts::Enclosed(before)),
        Node::Joined(joint, second) => two_parts(*joint, before, *second),
        Node::Counted(comparison, number) => { Some(Parts::Counted(before, *comparison, *number)) },
    }
}
