//! What an expression is made of.

use asm_values::{BinaryOp, UnaryOp};

/// What a node of an expression is.
#[derive(Clone, Copy, Debug, PartialEq, Eq)]
pub enum NodeKind {
    /// A number.
    Number(u64),
    /// A symbol, by its name.
    Symbol,
    /// The last local label of a number, or the next one.
    Local,
    /// The place of the statement.
    Dot,
    /// An operator before its operand.
    Unary(UnaryOp),
    /// An operator between its operands.
    Binary(BinaryOp),
}

/// A part of an expression: what it is, and the number of its token in the file, from 0 on. The
/// nodes of an expression are in the order in which they are computed: operands come before their
/// operator, and the first operand's nodes before the second one's. Parentheses are no nodes.
#[derive(Clone, Copy, Debug, PartialEq, Eq)]
pub struct Node {
    pub kind: NodeKind,
    pub at: usize,
}
