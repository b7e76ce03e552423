//! What a condition doesn't see of a hart's steps.
#![tactic(auto, unfolding(crate::proofs::Unfold::hiding))]

ghost use Rattle.std.specs.Prelude.{◌≡◌, ◌<◌, ◌&&◌, ◌||◌, not, true, IfSome, length, None};
ghost use Rattle.conditions.specs.Parts.{IsJoined};
ghost use Rattle.conditions.specs.Formulas.{Formula, formula_of};
ghost use Rattle.conditions.specs.Entries.{entries_of};
ghost use Rattle.conditions.specs.Hiding.{
  all_alike,
  alone,
  atom_keeps,
  copies,
  hides,
  is_joint,
  keeps,
  neutral,
  part_so,
  parts_so,
  single,
  so_of,
  source_moves,
  stays_so,
  term_moves,
};
ghost use Rattle.conditions.specs.Units.{AllKeep, IsWhole, part_keeps, unit_keeps};
ghost use Rattle.conditions.specs.Values.{source_number};

use crate::conditions::Condition;
use crate::entries::{Entry, alone};
use crate::formulas::{Parts, parts_of};
use crate::holding::is_so;
use crate::parts::{Atom, Joint, Source, Subject, Term};
use crate::seen::Seen;
use crate::view::StateView;
use crate::ways::Way;
use cap_ops::Cap;
use cheri_model::{Reg, Status};
use hart::Hart;

/// So many harts that are all the same, and one granule, which is null.
#[derive(Clone, Copy)]
struct Copies<'a> {
    count: usize,
    hart: &'a Hart,
}

impl<'a> Copies<'a> {
    /// Up to the one that is spoken of.
    fn of(who: Subject, hart: &'a Hart) -> Copies<'a>
        ensures { all_alike result.count result.hart.now ≡ copies who hart.now }
    {
        let count = match who {
            Subject::Numbered(number) => usize::from(number) + 1,
            Subject::Each => 1,
        };
        Copies { count, hart }
    }
}

impl StateView for Copies<'_> {
    ghost state = { λ c. all_alike c.count c.hart.now };

    fn hart_count(&self) -> usize {
        self.count
    }

    fn granule_count(&self) -> usize {
        1
    }

    fn register(&self, _hart: usize, reg: Reg) -> Cap {
        self.hart.register(reg)
    }

    fn pcc(&self, _hart: usize) -> Cap {
        self.hart.pcc()
    }

    fn status(&self, _hart: usize) -> Status {
        self.hart.status()
    }

    fn granule(&self, _number: usize) -> Cap {
        Cap::null()
    }
}

/// Whether the condition of some entries, which speaks of one hart alone, holds of it.
fn so_of(who: Subject, hart: &Hart, entries: &[Entry]) -> bool
    ensures { (formula : Formula) → entries.now ≡ entries_of formula → result
        ≡ so_of who hart.now formula }
{
    let copies = Copies::of(who, hart);
    is_so(&copies, 0, entries)
}

/// The number that is read of a hart.
fn number_of_hart(who: Subject, hart: &Hart, source: &Source) -> u128
    ensures { result ≡ source_number (copies who hart.now) 0 source.now }
{
    let copies = Copies::of(who, hart);
    (*source).number(&copies, 0)
}

/// A step of a hart: the hart before it and after it.
#[derive(Clone, Copy)]
struct Step<'a> {
    before: &'a Hart,
    after: &'a Hart,
}

impl Joint {
    /// Whether this is the same.
    fn is_joint(self, other: Joint) -> bool
        ensures { result ≡ is_joint self other }
    {
        matches!(
            (self, other),
            (Joint::And, Joint::And) | (Joint::Or, Joint::Or)
        )
    }

    /// What doesn't count where parts are joined.
    fn neutral(self) -> bool
        ensures { result ≡ neutral self }
    {
        matches!(self, Joint::And)
    }
}

/// Whether a part holds of a hart, if it is of this one alone; else it doesn't count.
fn part_so(joint: Joint, who: Subject, hart: &Hart, entries: &[Entry]) -> bool
    ensures { (formula : Formula) → entries.now ≡ entries_of formula → result
        ≡ part_so joint who hart.now formula }
{
    if who.is_of(alone(entries)) {
        so_of(who, hart, entries)
    } else {
        joint.neutral()
    }
}

/// How the last two parts of a condition are joined, and these, if they are.
fn joined_parts(entries: &[Entry]) -> Option<(Joint, &[Entry], &[Entry])>
    ensures joined { (formula : Formula) → entries.now ≡ entries_of formula →
        IsJoined formula result }
    ensures shorter { IfSome result (λ parts. (length parts.1.now < length entries.now)
        × (length parts.2.now < length entries.now)) }
{
    match parts_of(entries) {
        Some(Parts::Joined(joint, first, second)) => Some((joint, first, second)),
        Some(Parts::Says(_)) => None,
        Some(Parts::Not(_)) => None,
        Some(Parts::Enclosed(_)) => None,
        Some(Parts::Counted(_, _, _)) => None,
        None => None,
    }
}

/// Whether the parts of one hart, which are joined so, hold of it together.
fn parts_so(joint: Joint, who: Subject, hart: &Hart, entries: &[Entry]) -> bool
    ensures { (formula : Formula) → entries.now ≡ entries_of formula → result
        ≡ parts_so joint who hart.now formula }
{
    let Some((other, first, second)) = joined_parts(entries) else {
        return part_so(joint, who, hart, entries);
    };
    if !joint.is_joint(other) {
        return part_so(joint, who, hart, entries);
    }
    let answer = parts_so(joint, who, hart, second);
    if joint.decides(answer) {
        return answer;
    }
    parts_so(joint, who, hart, first)
}

/// The parts that are joined with a part: how these are to stay, how they are joined, and all of
/// them.
#[derive(Clone, Copy)]
struct Around<'a> {
    wanted: bool,
    joint: Joint,
    whole: &'a [Entry],
}

/// Whether both are so.
fn both(first: bool, second: bool) -> bool
    ensures { result ≡ (first && second) }
{
    first && second
}

/// Whether one is so where the other is.
fn implies(first: bool, second: bool) -> bool
    ensures { result ≡ (not first || second) }
{
    !first || second
}

/// Whether what is as wanted before is so after.
fn stays_so(wanted: bool, before: bool, after: bool) -> bool
    ensures { result ≡ stays_so wanted before after }
{
    before != wanted || after == wanted
}

impl Step<'_> {
    /// Whether a hart's number moves so; memory stays as it is.
    fn moves(&self, way: Way, source: &Source) -> bool
        ensures { result ≡ source_moves way source.now self.now.before.now self.now.after.now }
    {
        match (*source).alone() {
            Some(who) => {
                let before = number_of_hart(who, self.before, source);
                let after = number_of_hart(who, self.after, source);
                way.moves(before, after)
            }
            None => true,
        }
    }

    /// The same of what a number is compared with.
    fn moves_term(&self, way: Way, term: Term) -> bool
        ensures { result ≡ term_moves way term self.now.before.now self.now.after.now }
    {
        match term {
            Term::Number(_) => true,
            Term::Source(source) => self.moves(way, &source),
        }
    }

    /// Whether the numbers of a comparison move so that it stays as wanted.
    fn keeps_atom(&self, wanted: bool, atom: Atom) -> bool
        ensures { result ≡ atom_keeps wanted atom self.now.before.now self.now.after.now }
    {
        match atom {
            Atom::Compares(source, comparison, term) => {
                let way = comparison.left_way(wanted);
                if !self.moves(way, &source) {
                    return false;
                }
                self.moves_term(way.opposite(), term)
            }
            _ => true,
        }
    }

    /// Whether the parts of one hart are, together, after the step as they are wanted, where this
    /// is so of the harts that were looked at.
    fn keeps_unit(&self, around: &Around<'_>, who: Subject, seen: &mut Seen) -> bool
        ensures keeps { (whole : Formula) → IsWhole around.now whole →
            AllKeep around.now whole self.now.before.now self.now.after.now seen.old →
            result ≡ unit_keeps around.now.wanted around.now.joint whole
            self.now.before.now self.now.after.now who }
        ensures seen { (whole : Formula) → IsWhole around.now whole →
            AllKeep around.now whole self.now.before.now self.now.after.now seen.old →
            result ≡ true →
            AllKeep around.now whole self.now.before.now self.now.after.now seen.new }
    {
        if seen.has(who) {
            return true;
        }
        let before = parts_so(around.joint, who, self.before, around.whole);
        let after = parts_so(around.joint, who, self.after, around.whole);
        seen.add(who);
        stays_so(around.wanted, before, after)
    }

    /// Whether the step leaves each unit of a condition as it is wanted to be.
    #[cycle(hiding)]
    fn keeps(&self, wanted: bool, entries: &[Entry]) -> bool
        ensures { (formula : Formula) → entries.now ≡ entries_of formula → result
            ≡ keeps wanted single formula self.now.before.now self.now.after.now }
    {
        match alone(entries) {
            Some(who) => {
                let before = so_of(who, self.before, entries);
                let after = so_of(who, self.after, entries);
                stays_so(wanted, before, after)
            }
            None => self.keeps_parts(wanted, entries),
        }
    }

    /// The same of a condition that doesn't speak of one hart alone, by its parts.
    #[cycle(hiding)]
    fn keeps_parts(&self, wanted: bool, entries: &[Entry]) -> bool
        ensures { (formula : Formula) → entries.now ≡ entries_of formula → None ≡ alone formula →
            result ≡ keeps wanted single formula self.now.before.now self.now.after.now }
    {
        match parts_of(entries) {
            None => false,
            Some(Parts::Says(atom)) => self.keeps_atom(wanted, *atom),
            Some(Parts::Not(part)) => self.keeps(!wanted, part),
            Some(Parts::Enclosed(part)) => self.keeps(wanted, part),
            Some(Parts::Joined(joint, first, second)) => {
                let around = Around {
                    wanted,
                    joint,
                    whole: entries,
                };
                let mut seen = Seen::none();
                if !self.keeps_chain(&around, second, &mut seen) {
                    return false;
                }
                self.keeps_chain(&around, first, &mut seen)
            }
            Some(Parts::Counted(part, comparison, number)) => {
                let up = comparison.needs(wanted, number, true);
                let down = comparison.needs(wanted, number, false);
                let keeps_true = self.keeps(true, part);
                let keeps_false = self.keeps(false, part);
                both(implies(up, keeps_true), implies(down, keeps_false))
            }
        }
    }

    /// The same of a part that is joined with others, where the harts that were looked at keep
    /// theirs; they do so after it, too, where it is so.
    #[cycle(hiding)]
    fn keeps_chain(&self, around: &Around<'_>, part: &[Entry], seen: &mut Seen) -> bool
        ensures keeps { (whole formula : Formula) → IsWhole around.now whole →
            part.now ≡ entries_of formula →
            AllKeep around.now whole self.now.before.now self.now.after.now seen.old →
            result ≡ part_keeps around.now whole formula self.now.before.now self.now.after.now }
        ensures seen { (whole formula : Formula) → IsWhole around.now whole →
            part.now ≡ entries_of formula →
            AllKeep around.now whole self.now.before.now self.now.after.now seen.old →
            result ≡ true →
            AllKeep around.now whole self.now.before.now self.now.after.now seen.new }
    {
        if let Some(who) = alone(part) {
            return self.keeps_unit(around, who, seen);
        }
        let Some((joint, first, second)) = joined_parts(part) else {
            return self.keeps_parts(around.wanted, part);
        };
        if !around.joint.is_joint(joint) {
            return self.keeps_parts(around.wanted, part);
        }
        if !self.keeps_chain(around, second, seen) {
            return false;
        }
        self.keeps_chain(around, first, seen)
    }
}

impl Condition {
    /// Whether the condition doesn't see a step of a hart, whichever hart that is: what it says of
    /// one hart alone, or of how its numbers compare with others, is after the step as it has to be
    /// where the condition held before. So a state in which the condition holds keeps it by the
    /// step.
    pub fn hides(&self, before: &Hart, after: &Hart) -> bool
        ensures { result ≡ hides self.now before.now after.now }
    {
        let step = Step { before, after };
        step.keeps(true, self.entries.as_slice())
    }
}
