//! The operators of expressions, and how tightly they bind.

ghost use Rattle.std.specs.Prelude.{◌≡◌};
ghost use Rattle.asm_values.specs.Operators.{binary_of, unary_of, level};

use asm_tokens::Mark;

/// An operator before its operand.
#[derive(Clone, Copy, Debug, PartialEq, Eq)]
pub enum UnaryOp {
    /// `-`
    Negate,
    /// `+`
    Keep,
    /// `~`
    Invert,
}

/// An operator between its operands.
#[derive(Clone, Copy, Debug, PartialEq, Eq)]
pub enum BinaryOp {
    /// `+`
    Add,
    /// `-`
    Subtract,
    /// `|`
    Or,
    /// `&`
    And,
    /// `^`
    Xor,
    /// `!`: `a | ~b`
    OrNot,
    /// `*`
    Multiply,
    /// `/`
    Divide,
    /// `%`
    Remainder,
    /// `<<`
    ShiftLeft,
    /// `>>`
    ShiftRight,
}

/// The operator that a mark is before an operand.
pub fn unary_of(mark: Mark) -> Option<UnaryOp>
    ensures { result ≡ unary_of mark }
{
    match mark {
        Mark::Minus => Some(UnaryOp::Negate),
        Mark::Plus => Some(UnaryOp::Keep),
        Mark::Tilde => Some(UnaryOp::Invert),
        _ => None,
    }
}

/// The operator that a mark is between operands.
pub fn binary_of(mark: Mark) -> Option<BinaryOp>
    ensures { result ≡ binary_of mark }
{
    match mark {
        Mark::Plus => Some(BinaryOp::Add),
        Mark::Minus => Some(BinaryOp::Subtract),
        Mark::Or => Some(BinaryOp::Or),
        Mark::And => Some(BinaryOp::And),
        Mark::Caret => Some(BinaryOp::Xor),
        Mark::Bang => Some(BinaryOp::OrNot),
        Mark::Star => Some(BinaryOp::Multiply),
        Mark::Slash => Some(BinaryOp::Divide),
        Mark::Percent => Some(BinaryOp::Remainder),
        Mark::ShiftLeft => Some(BinaryOp::ShiftLeft),
        Mark::ShiftRight => Some(BinaryOp::ShiftRight),
        _ => None,
    }
}

impl BinaryOp {
    /// How tightly the operator binds, from 1 on.
    pub fn level(self) -> u8
        ensures { result ≡ level self }
    {
        match self {
            BinaryOp::Add | BinaryOp::Subtract => 1,
            BinaryOp::Or | BinaryOp::And | BinaryOp::Xor | BinaryOp::OrNot => 2,
            BinaryOp::Multiply
            | BinaryOp::Divide
            | BinaryOp::Remainder
            | BinaryOp::ShiftLeft
            | BinaryOp::ShiftRight => 3,
        }
    }
}
