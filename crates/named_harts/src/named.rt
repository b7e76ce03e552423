//! The harts that the parts of a condition name, from its nodes.
#![tactic(auto, unfolding(crate::proofs::Unfold::named))]

ghost use Rattle.std.specs.Prelude.{◌≡◌, ◌<◌, ◌||◌, ℕ, List, false, reverse, slice_index_or};
ghost use Rattle.std.specs.Prelude.{IfOk, OnOk};
ghost use Rattle.conditions.specs.declared.parts.Comparison.{Comparison};
ghost use Rattle.conditions.specs.declared.parts.Joint.{Joint};
ghost use Rattle.conditions.specs.declared.parts.Node.TheVariants.{Counted, Joined};
ghost use Rattle.conditions.specs.Formulas.{Formula, counted, grow, join, last_part, says};
ghost use Rattle.hart_symmetry.specs.Named.{
  atom_names,
  condition_names,
  each_names,
  formula_names,
  holder_names,
  source_names,
  subject_names,
  term_names,
};
ghost use Rattle.named_harts.specs.NamedHarts.{AreSetsOf, IsSetOf, Tells};

use crate::hart_set::{HartSet, nobody, only, union};
use conditions::{Atom, Holder, Node, Source, Subject, Term};
use std::alloc::{AllocError, Global};

/// The hart that `h` names: hart 0 outside of all counts.
fn of_each(counts: bool) -> HartSet
    ensures { IsSetOf (each_names counts) result }
{
    if counts { nobody() } else { only(0) }
}

/// The hart that a holder is of.
fn of_holder(holder: Holder) -> HartSet
    ensures { IsSetOf (holder_names holder) result }
{
    match holder {
        Holder::Register(hart, _) | Holder::Pcc(hart) => only(hart),
        Holder::Granule(_) => nobody(),
    }
}

/// The hart that is spoken of.
fn of_subject(counts: bool, who: Subject) -> HartSet
    ensures { IsSetOf (subject_names counts who) result }
{
    match who {
        Subject::Numbered(hart) => only(hart),
        Subject::Each => of_each(counts),
    }
}

/// The hart that a number is read of.
fn of_source(counts: bool, source: Source) -> HartSet
    ensures { IsSetOf (source_names counts source) result }
{
    match source {
        Source::Value(holder, _) => of_holder(holder),
        Source::Data(..) => nobody(),
        Source::Each(..) => of_each(counts),
    }
}

/// The hart of what a number is compared with.
fn of_term(counts: bool, term: Term) -> HartSet
    ensures { IsSetOf (term_names counts term) result }
{
    match term {
        Term::Number(_) => nobody(),
        Term::Source(source) => of_source(counts, source),
    }
}

/// The harts of both sides of a comparison.
fn of_compared(counts: bool, source: Source, term: Term) -> HartSet
    ensures { IsSetOf (λ hart. source_names counts source hart || term_names counts term hart)
        result }
{
    let first = of_source(counts, source);
    let second = of_term(counts, term);
    union(&first, &second)
}

/// The harts that an atom names.
fn of_atom(counts: bool, atom: Atom) -> HartSet
    ensures { IsSetOf (atom_names counts atom) result }
{
    match atom {
        Atom::Compares(source, _, term) => of_compared(counts, source, term),
        Atom::HasStatus(who, _)
        | Atom::Reaches(who, _, _)
        | Atom::IsAt(who, _)
        | Atom::IsIn(who, _, _) => of_subject(counts, who),
    }
}

/// The harts that a part of a condition names: outside of all counts, and within one.
#[derive(Clone, Copy)]
struct Part {
    outside: HartSet,
    within: HartSet,
}

impl Part {
    /// What an atom names.
    fn of(atom: &Atom) -> Part
        ensures { Tells result (says atom.now) }
    {
        Part {
            outside: of_atom(false, *atom),
            within: of_atom(true, *atom),
        }
    }

    /// What this part and another one name.
    fn joined(&self, other: &Part) -> Part
        ensures { (joint : Joint) (first second : Formula) → Tells self.now first →
            Tells other.now second → Tells result (join joint first second) }
    {
        Part {
            outside: union(&self.outside, &other.outside),
            within: union(&self.within, &other.within),
        }
    }

    /// What this part names where the harts are counted that it holds of.
    fn counted(&self) -> Part
        ensures { (formula : Formula) (comparison : Comparison) (number : ℕ) →
            Tells self.now formula → Tells result (counted formula comparison number) }
    {
        Part {
            outside: self.within,
            within: self.within,
        }
    }
}

/// The last two parts become one, if there are two.
fn join_last(parts: &mut Vec<Part>) -> Result<(), AllocError>
    ensures { (joint : Joint) (second : ℕ) (formulas : List Formula) →
        AreSetsOf formulas (reverse parts.old.items) →
        OnOk result (AreSetsOf (grow (Joined joint second) formulas) (reverse parts.new.items)) }
{
    let Some(second) = parts.pop() else {
        return Ok(());
    };
    match parts.pop() {
        Some(first) => parts.push(first.joined(&second))?,
        None => parts.push(second)?,
    }
    Ok(())
}

/// The last part, if there is one, is what harts are counted by.
fn count_last(parts: &mut Vec<Part>) -> Result<(), AllocError>
    ensures { (comparison : Comparison) (number : ℕ) (formulas : List Formula) →
        AreSetsOf formulas (reverse parts.old.items) →
        OnOk result (AreSetsOf (grow (Counted comparison number) formulas)
        (reverse parts.new.items)) }
{
    if let Some(part) = parts.pop() {
        parts.push(part.counted())?;
    }
    Ok(())
}

/// Goes on to the parts with one node more.
fn grow(parts: &mut Vec<Part>, node: Node) -> Result<(), AllocError>
    ensures { (formulas : List Formula) → AreSetsOf formulas (reverse parts.old.items) →
        OnOk result (AreSetsOf (grow node formulas) (reverse parts.new.items)) }
{
    match node {
        Node::Says(atom) => parts.push(Part::of(&atom))?,
        Node::Not | Node::Enclosed => {}
        Node::Joined(..) => join_last(parts)?,
        Node::Counted(..) => count_last(parts)?,
    }
    Ok(())
}

/// The harts that the last part names outside of all counts: hart 0 where there is none.
fn last_named(parts: &[Part]) -> HartSet
    ensures { (formulas : List Formula) → AreSetsOf formulas (reverse parts.now) →
        IsSetOf (formula_names false (last_part formulas)) result }
{
    match parts.last() {
        Some(part) => part.outside,
        None => only(0),
    }
}

/// The harts that a condition of these nodes names by their numbers: at most 8, as many as a
/// machine has. Fails only when out of memory.
pub fn named_harts(alloc: Global, nodes: &[Node]) -> Result<HartSet, AllocError>
    ensures { IfOk result (λ set. (hart : ℕ) → hart < 8 →
        slice_index_or set hart false ≡ condition_names nodes.now hart) }
{
    let mut parts = Vec::new(alloc);
    for node in nodes.iter() {
        grow(&mut parts, *node)?;
    }
    Ok(last_named(&parts))
}
