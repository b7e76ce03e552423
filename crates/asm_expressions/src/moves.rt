//! What each token does in an expression.
#![tactic(auto, unfolding(crate::proofs::Unfold::moves))]

ghost use Rattle.std.specs.Prelude.{◌≡◌, codes};
ghost use Rattle.asm_tokens.specs.Tokens.{token_parts};
ghost use Rattle.asm_expressions.specs.Moves.{
  after_all,
  name_move,
  mark_move,
  operand_move,
  operator_move,
  name_end_move,
  plt_move,
  move_of,
};

use crate::node::NodeKind;
use asm_tokens::{AsmFaultKind, Mark, Token, TokenKind};
use asm_values::{BinaryOp, UnaryOp, binary_of, unary_of};

/// What may come next in an expression.
#[derive(Clone, Copy, Debug, PartialEq, Eq)]
pub enum Phase {
    /// An operand.
    Operand,
    /// What may come after a symbol's name: `@plt`, or what may come after any operand.
    Name,
    /// The `plt` of an `@plt`.
    Plt,
    /// What may come after an operand: an operator, a bracket that closes, or the end.
    Operator,
}

/// What a token does in an expression.
#[derive(Clone, Copy, Debug, PartialEq, Eq)]
pub enum Move {
    /// It is an operand.
    Leaf(NodeKind),
    /// It opens a bracket.
    Open,
    /// It closes the last one.
    Close,
    /// It is an operator before its operand.
    Before(UnaryOp),
    /// It is an operator between its operands.
    Between(BinaryOp),
    /// It says nothing, and this comes next.
    Turn(Phase),
    /// The expression ended before it.
    End,
    /// It can't stand there.
    Bad(AsmFaultKind),
}

/// What a name does that is an operand.
fn name_move(text: &[u8]) -> Move
    ensures { result ≡ name_move text.now }
{
    if text == b".".as_slice() {
        Move::Leaf(NodeKind::Dot)
    } else {
        Move::Leaf(NodeKind::Symbol)
    }
}

/// What a mark does where an operand has to be.
fn mark_move(mark: Mark) -> Move
    ensures { result ≡ mark_move mark }
{
    if let Mark::Open = mark {
        return Move::Open;
    }
    match unary_of(mark) {
        Some(op) => Move::Before(op),
        None => Move::Bad(AsmFaultKind::Operand),
    }
}

/// What a token does where an operand has to be.
fn operand_move(token: Token) -> Move
    ensures { result ≡ operand_move (token_parts token.entry) }
{
    match token.kind {
        TokenKind::Number(Some(n)) => Move::Leaf(NodeKind::Number(n)),
        TokenKind::Number(None) => Move::Bad(AsmFaultKind::Range),
        TokenKind::Local => Move::Leaf(NodeKind::Local),
        TokenKind::Name => name_move(token.text),
        TokenKind::Mark(mark) => mark_move(mark),
        _ => Move::Bad(AsmFaultKind::Operand),
    }
}

/// What a token does that is neither an operator nor closes a bracket.
fn after_all(inside: bool) -> Move
    ensures { result ≡ after_all inside }
{
    if inside {
        Move::Bad(AsmFaultKind::Operand)
    } else {
        Move::End
    }
}

/// What a token does after an operand, inside brackets or not.
fn operator_move(inside: bool, kind: TokenKind) -> Move
    ensures { result ≡ operator_move inside kind }
{
    let TokenKind::Mark(mark) = kind else {
        return after_all(inside);
    };
    if let Mark::Close = mark {
        return if inside { Move::Close } else { Move::End };
    }
    match binary_of(mark) {
        Some(op) => Move::Between(op),
        None => after_all(inside),
    }
}

/// What a token does after a symbol's name.
fn name_end_move(inside: bool, kind: TokenKind) -> Move
    ensures { result ≡ name_end_move inside kind }
{
    match kind {
        TokenKind::Mark(Mark::At) => Move::Turn(Phase::Plt),
        _ => operator_move(inside, kind),
    }
}

/// What a token does after the `@` of an `@plt`.
fn plt_move(token: Token) -> Move
    ensures { result ≡ plt_move (token_parts token.entry) }
{
    match token.kind {
        TokenKind::Name if token.text == b"plt".as_slice() => Move::Turn(Phase::Operator),
        _ => Move::Bad(AsmFaultKind::Operand),
    }
}

/// What a token does in an expression, inside brackets or not.
pub(crate) fn move_of(phase: Phase, inside: bool, token: Token) -> Move
    ensures { result ≡ move_of phase inside (token_parts token.entry) }
{
    match phase {
        Phase::Operand => operand_move(token),
        Phase::Name => name_end_move(inside, token.kind),
        Phase::Plt => plt_move(token),
        Phase::Operator => operator_move(inside, token.kind),
    }
}
