//! What was read of an expression, and what waits in it.

ghost use Rattle.std.specs.Prelude.{◌≡◌, ◌<◌, ◌≤◌, ◌+◌, ◌-◌, ◌^◌, OnOk, reverse};
ghost use Rattle.asm_expressions.specs.declared.moves.Move.TheVariants.{Open, Close};
ghost use Rattle.asm_expressions.specs.Drafts.{pending_of, taken_first};
ghost use Rattle.asm_expressions.specs.Expressions.{
  taken,
  settled,
  with_leaf,
  with_waiting,
  closed,
  turned,
  moved,
};

use crate::moves::{Move, Phase};
use crate::node::{Node, NodeKind};
use asm_values::{BinaryOp, UnaryOp};
use std::alloc::{AllocError, Global};

/// What waits for an operand: a bracket for what is in it, or an operator, with the number of its
/// token.
#[derive(Clone, Copy, Debug, PartialEq, Eq)]
pub enum Waiting {
    Bracket,
    Unary(UnaryOp, usize),
    Binary(BinaryOp, usize),
}

/// The node of an operator that waits, if it binds at least so tightly.
#[tactic(auto, unfolding(crate::specs::Expressions::taken))]
fn taken(least: u8, waiting: Waiting) -> Option<Node>
    ensures { result ≡ taken least waiting }
{
    match waiting {
        Waiting::Bracket => None,
        Waiting::Unary(op, at) => Some(Node {
            kind: NodeKind::Unary(op),
            at,
        }),
        Waiting::Binary(op, at) => {
            let kind = NodeKind::Binary(op);
            if least <= op.level() {
                Some(Node { kind, at })
            } else {
                None
            }
        }
    }
}

/// What was read of an expression: what may come next, how many brackets are open, what waits, the
/// last at the end, and the nodes so far.
#[derive(Drop)]
pub(crate) struct Draft {
    pub(crate) phase: Phase,
    pub(crate) depth: usize,
    pub(crate) waiting: Vec<Waiting>,
    pub(crate) nodes: Vec<Node>,
}

impl Draft {
    ghost use Rattle.asm_expressions.specs.Expressions.{nothing_read};

    /// Nothing was read.
    pub(crate) fn new(alloc: Global) -> Draft
        ensures { pending_of result ≡ nothing_read }
    {
        Draft {
            phase: Phase::Operand,
            depth: 0,
            waiting: Vec::new(alloc),
            nodes: Vec::new(alloc),
        }
    }

    /// The node of the last operator that waits, if it binds at least so tightly.
    fn last_taken(&self, least: u8) -> Option<Node>
        ensures { result ≡ taken_first least (reverse self.now.waiting.items) }
    {
        let count = self.waiting.len();
        if count == 0 {
            return None;
        }
        taken(least, self.waiting[count - 1])
    }

    /// Takes the operators that wait and bind at least so tightly.
    pub(crate) fn settle(&mut self, least: u8) -> Result<(), AllocError>
        ensures { OnOk result (pending_of self.new ≡ settled least (pending_of self.old)) }
    {
        while let Some(node) = self.last_taken(least) {
            self.nodes.push(node)?;
            self.waiting.pop();
        }
        Ok(())
    }

    /// Adds an operand.
    fn add_leaf(&mut self, kind: NodeKind, at: usize) -> Result<(), AllocError>
        ensures { OnOk result (pending_of self.new ≡ with_leaf kind at (pending_of self.old)) }
    {
        self.phase = match kind {
            NodeKind::Symbol => Phase::Name,
            _ => Phase::Operator,
        };
        self.nodes.push(Node { kind, at })?;
        Ok(())
    }

    /// Adds something that waits for an operand.
    fn wait(&mut self, waiting: Waiting) -> Result<(), AllocError>
        ensures { OnOk result (pending_of self.new
            ≡ with_waiting waiting self.old.depth (pending_of self.old)) }
    {
        self.phase = Phase::Operand;
        self.waiting.push(waiting)?;
        Ok(())
    }

    /// Opens a bracket.
    #[tactic(auto, unfolding(crate::specs::Expressions::moved))]
    fn open(&mut self) -> Result<(), AllocError>
        requires { self.old.depth < 2 ^ 64 - 1 }
        ensures { OnOk result (pending_of self.new ≡ moved Open 0 (pending_of self.old)) }
    {
        self.depth += 1;
        self.wait(Waiting::Bracket)
    }

    /// Closes a bracket, in which nothing waits.
    fn close(&mut self)
        ensures { pending_of self.new ≡ closed (pending_of self.old) }
    {
        self.phase = Phase::Operator;
        self.depth = self.depth.saturating_sub(1);
        self.waiting.pop();
    }

    /// Takes the token of a number, which does this and doesn't end the expression.
    #[tactic(auto, unfolding(crate::specs::Expressions::moved))]
    pub(crate) fn take(&mut self, step: Move, at: usize) -> Result<(), AllocError>
        requires { self.old.depth < 2 ^ 64 - 1 }
        ensures { OnOk result (pending_of self.new ≡ moved step at (pending_of self.old)) }
    {
        match step {
            Move::Leaf(kind) => self.add_leaf(kind, at),
            Move::Open => self.open(),
            Move::Close => {
                self.settle(0)?;
                self.close();
                Ok(())
            }
            Move::Before(op) => self.wait(Waiting::Unary(op, at)),
            Move::Between(op) => {
                self.settle(op.level())?;
                self.wait(Waiting::Binary(op, at))
            }
            Move::Turn(phase) => {
                self.phase = phase;
                Ok(())
            }
            Move::End | Move::Bad(_) => Ok(()),
        }
    }
}
