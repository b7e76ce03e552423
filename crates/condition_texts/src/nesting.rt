//! Reading a condition that may hold others in parentheses. The nodes of what was read are added to
//! those of before.
#![tactic(auto)]

ghost use Rattle.std.specs.Prelude.{◌≡◌, ◌<◌, ◌≤◌, IfOk, length, if◌then◌else◌};
ghost use Rattle.condition_texts.specs.Reading.{context_of, said_of};
ghost use Rattle.condition_texts.specs.Conditions.{
  Adds,
  GivesNodes,
  after_opening,
  chain_of,
  counted_at,
  in_parentheses,
  item_of,
  joint_word,
  of_each,
  part,
  quantified_at,
  said,
  unit,
  whole,
};

use crate::condition::MAX_PARENTHESES;
use crate::openings::{Opening, Quantifier};
use crate::reading::Reader;
use crate::words::{WordFault, push};
use conditions::{Joint, Node, Subject};
use std::alloc::Global;

/// Where a condition is read: how many parentheses may still be opened, and whether `h` is each
/// hart there.
#[derive(Clone, Copy)]
pub(crate) struct Inside {
    pub(crate) depth: u8,
    pub(crate) each: bool,
}

/// The word that joins so.
fn joint_word(joint: Joint) -> &'static [u8]
    ensures { result.now ≡ joint_word joint }
{
    match joint {
        Joint::And => b"and",
        Joint::Or => b"or",
    }
}

impl Reader<'_> {
    /// A condition in parentheses.
    #[cycle(nesting)]
    fn in_parentheses(
        &self,
        nodes: &mut Vec<Node>,
        inside: Inside,
        at: usize,
    ) -> Result<usize, WordFault>
        ensures read { Adds result nodes.old.items nodes.new.items
            (in_parentheses (context_of self.now) inside.depth inside.each at) }
        ensures room { IfOk result (λ next. (at < next) × (next ≤ length self.now.words.now)) }
    {
        if inside.depth == 0 {
            return Err(WordFault::At(at));
        }
        let first = self.only(at, b"(")?;
        let deeper = Inside {
            depth: inside.depth - 1,
            each: inside.each,
        };
        let end = self.chain(nodes, Joint::Or, deeper, first)?;
        let next = self.only(end, b")")?;
        Ok(next)
    }

    /// Items with a joint between any two.
    #[cycle(nesting)]
    fn chain(
        &self,
        nodes: &mut Vec<Node>,
        joint: Joint,
        inside: Inside,
        at: usize,
    ) -> Result<usize, WordFault>
        ensures read { Adds result nodes.old.items nodes.new.items
            (chain_of (context_of self.now) joint inside.depth inside.each at) }
        ensures room { IfOk result (λ next. (at < next) × (next ≤ length self.now.words.now)) }
    {
        let mut end = self.item(nodes, joint, inside, at)?;
        'items: while self.is_at(end, joint_word(joint)) {
            let before = nodes.len();
            end = self.item(nodes, joint, inside, end + 1)?;
            let second = nodes.len() - before;
            push(nodes, Node::Joined(joint, second))?;
        }
        Ok(end)
    }

    /// One of those that are joined.
    #[cycle(nesting)]
    fn item(
        &self,
        nodes: &mut Vec<Node>,
        joint: Joint,
        inside: Inside,
        at: usize,
    ) -> Result<usize, WordFault>
        ensures read { Adds result nodes.old.items nodes.new.items
            (item_of (context_of self.now) joint
            (in_parentheses (context_of self.now) inside.depth) inside.each at) }
        ensures room { IfOk result (λ next. (at < next) × (next ≤ length self.now.words.now)) }
    {
        match joint {
            Joint::Or => self.chain(nodes, Joint::And, inside, at),
            Joint::And => self.part(nodes, inside, at),
        }
    }

    /// An atom or a condition in parentheses, or `not` and such a one.
    #[cycle(nesting)]
    fn part(&self, nodes: &mut Vec<Node>, inside: Inside, at: usize) -> Result<usize, WordFault>
        ensures read { Adds result nodes.old.items nodes.new.items
            (part (context_of self.now)
            (in_parentheses (context_of self.now) inside.depth) inside.each at) }
        ensures room { IfOk result (λ next. (at < next) × (next ≤ length self.now.words.now)) }
    {
        if !self.is_at(at, b"not") {
            return self.unit(nodes, inside, at);
        }
        let next = self.unit(nodes, inside, at + 1)?;
        push(nodes, Node::Not)?;
        Ok(next)
    }

    /// An atom, or a condition in parentheses.
    #[cycle(nesting)]
    fn unit(&self, nodes: &mut Vec<Node>, inside: Inside, at: usize) -> Result<usize, WordFault>
        ensures read { Adds result nodes.old.items nodes.new.items
            (unit (context_of self.now)
            (in_parentheses (context_of self.now) inside.depth) inside.each at) }
        ensures room { IfOk result (λ next. (at < next) × (next ≤ length self.now.words.now)) }
    {
        if !self.is_at(at, b"(") {
            return match self.opening_at(inside.each, at) {
                Ok(opening) => self.after_opening(nodes, inside, opening, at + 1),
                Err(number) => Err(WordFault::At(number)),
            };
        }
        let next = self.in_parentheses(nodes, inside, at)?;
        push(nodes, Node::Enclosed)?;
        Ok(next)
    }

    /// What follows the word that begins an atom.
    #[cycle(nesting)]
    fn after_opening(
        &self,
        nodes: &mut Vec<Node>,
        inside: Inside,
        opening: Opening,
        at: usize,
    ) -> Result<usize, WordFault>
        ensures read { Adds result nodes.old.items nodes.new.items
            (after_opening (context_of self.now)
            (in_parentheses (context_of self.now) inside.depth) inside.each opening at) }
        ensures room { IfOk result (λ next. (at < next) × (next ≤ length self.now.words.now)) }
    {
        match opening {
            Opening::Source(source) => {
                let (atom, next) = self.compared(inside.each, source, at)?;
                push(nodes, Node::Says(atom))?;
                Ok(next)
            }
            Opening::Hart(who) => self.said(nodes, false, who, at),
            Opening::Count => self.counted(nodes, inside.depth, at),
            Opening::Quantifier(quantifier) => {
                self.quantified(nodes, inside.depth, quantifier, at)
            }
        }
    }

    /// A count of harts, after its word.
    #[cycle(nesting)]
    fn counted(&self, nodes: &mut Vec<Node>, depth: u8, at: usize) -> Result<usize, WordFault>
        ensures read { Adds result nodes.old.items nodes.new.items
            (counted_at (context_of self.now)
            (in_parentheses (context_of self.now) depth) at) }
        ensures room { IfOk result (λ next. (at < next) × (next ≤ length self.now.words.now)) }
    {
        let each = Inside { depth, each: true };
        let end = self.in_parentheses(nodes, each, at)?;
        let ((comparison, number), next) = self.asked_of_count(end)?;
        push(nodes, Node::Counted(comparison, number))?;
        Ok(next)
    }

    /// What follows a quantifier.
    #[cycle(nesting)]
    fn quantified(
        &self,
        nodes: &mut Vec<Node>,
        depth: u8,
        quantifier: Quantifier,
        at: usize,
    ) -> Result<usize, WordFault>
        ensures read { Adds result nodes.old.items nodes.new.items
            (quantified_at (context_of self.now)
            (in_parentheses (context_of self.now) depth) quantifier at) }
        ensures room { IfOk result (λ next. (at < next) × (next ≤ length self.now.words.now)) }
    {
        let next = self.only(at, quantifier.noun())?;
        let end = self.of_each(nodes, depth, quantifier.is_plural(), next)?;
        let (comparison, number) = quantifier.asked_of(self.image.harts().len());
        push(nodes, Node::Counted(comparison, number))?;
        Ok(end)
    }

    /// What a quantifier speaks of.
    #[cycle(nesting)]
    fn of_each(
        &self,
        nodes: &mut Vec<Node>,
        depth: u8,
        plural: bool,
        at: usize,
    ) -> Result<usize, WordFault>
        ensures read { Adds result nodes.old.items nodes.new.items
            (of_each (context_of self.now)
            (in_parentheses (context_of self.now) depth) plural at) }
        ensures room { IfOk result (λ next. (at < next) × (next ≤ length self.now.words.now)) }
    {
        if !self.is_at(at, b"(") {
            return self.said(nodes, plural, Subject::Each, at);
        }
        self.in_parentheses(nodes, Inside { depth, each: true }, at)
    }

    /// What is said of a hart.
    fn said(
        &self,
        nodes: &mut Vec<Node>,
        plural: bool,
        who: Subject,
        at: usize,
    ) -> Result<usize, WordFault>
        ensures read { Adds result nodes.old.items nodes.new.items
            (said (said_of (context_of self.now) plural who at)) }
        ensures room { IfOk result (λ next. (at < next) × (next ≤ length self.now.words.now)) }
    {
        let (atom, next) = self.said_of(plural, who, at)?;
        push(nodes, Node::Says(atom))?;
        Ok(next)
    }

    /// All words, which have to be a condition.
    pub(crate) fn whole(&self, alloc: Global) -> Result<Vec<Node>, WordFault>
        ensures { GivesNodes result (whole (context_of self.now)) }
    {
        let mut nodes = Vec::new(alloc);
        let inside = Inside {
            depth: MAX_PARENTHESES,
            each: false,
        };
        let end = self.chain(&mut nodes, Joint::Or, inside, 0)?;
        if end < self.words.len() {
            return Err(WordFault::At(end));
        }
        Ok(nodes)
    }
}
