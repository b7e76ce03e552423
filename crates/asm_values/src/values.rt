//! Values, and what operators give of them.
#![tactic(auto, unfolding(crate::specs::Values::binary_value))]

ghost use Rattle.std.specs.Prelude.{◌≡◌};
ghost use Rattle.asm_values.specs.Values.{
  unary_value,
  binary_number,
  moved,
  moved_by,
  moved_on,
  distance,
  binary_value,
};

use crate::numbers::{inverted, quotient, remainder, shifted_left, shifted_right};
use crate::operators::{BinaryOp, UnaryOp};

/// A place in a chunk of the program, and the symbol by which it was named, if any. Chunks and
/// symbols are told by numbers, which the caller gives them.
#[derive(Clone, Copy, Debug, PartialEq, Eq)]
pub struct Location {
    pub chunk: u32,
    pub offset: u64,
    pub symbol: Option<u32>,
}

/// What an expression is worth.
#[derive(Clone, Copy, Debug, PartialEq, Eq)]
pub enum Value {
    /// A number of 64 bits.
    Number(u64),
    /// A place.
    At(Location),
}

/// What an operator before a value gives; `None` where there is none of a place.
pub fn unary_value(op: UnaryOp, value: Value) -> Option<Value>
    ensures { result ≡ unary_value op value }
{
    match value {
        Value::Number(n) => Some(Value::Number(match op {
            UnaryOp::Negate => n.wrapping_neg(),
            UnaryOp::Keep => n,
            UnaryOp::Invert => inverted(n),
        })),
        Value::At(_) => match op {
            UnaryOp::Keep => Some(value),
            _ => None,
        },
    }
}

/// What an operator between two numbers gives; `None` for a divisor 0 and a shift outside 0 to 63.
fn binary_number(op: BinaryOp, a: u64, b: u64) -> Option<u64>
    ensures { result ≡ binary_number op a b }
{
    match op {
        BinaryOp::Add => Some(a.wrapping_add(b)),
        BinaryOp::Subtract => Some(a.wrapping_sub(b)),
        BinaryOp::Or => Some(a | b),
        BinaryOp::And => Some(a & b),
        BinaryOp::Xor => Some(a ^ b),
        BinaryOp::OrNot => Some(a | inverted(b)),
        BinaryOp::Multiply => Some(a.wrapping_mul(b)),
        BinaryOp::Divide => quotient(a, b),
        BinaryOp::Remainder => remainder(a, b),
        BinaryOp::ShiftLeft => shifted_left(a, b),
        BinaryOp::ShiftRight => shifted_right(a, b),
    }
}

/// A place of the same symbol, at another offset.
fn moved(location: Location, offset: u64) -> Value
    ensures { result ≡ moved location offset }
{
    Value::At(Location {
        chunk: location.chunk,
        offset,
        symbol: location.symbol,
    })
}

/// What an operator between a place and a number gives.
fn moved_by(op: BinaryOp, location: Location, n: u64) -> Option<Value>
    ensures { result ≡ moved_by op location n }
{
    match op {
        BinaryOp::Add => Some(moved(location, location.offset.wrapping_add(n))),
        BinaryOp::Subtract => Some(moved(location, location.offset.wrapping_sub(n))),
        _ => None,
    }
}

/// What an operator between a number and a place gives.
fn moved_on(op: BinaryOp, n: u64, location: Location) -> Option<Value>
    ensures { result ≡ moved_on op n location }
{
    match op {
        BinaryOp::Add => Some(moved(location, n.wrapping_add(location.offset))),
        _ => None,
    }
}

/// What an operator between two places gives: the distance from the second to the first.
fn distance(op: BinaryOp, to: Location, from: Location, apart: Option<u64>) -> Option<Value>
    ensures { result ≡ distance op to from apart }
{
    match op {
        BinaryOp::Subtract => {
            let within = to.offset.wrapping_sub(from.offset);
            if to.chunk == from.chunk {
                return Some(Value::Number(within));
            }
            let apart = apart?;
            Some(Value::Number(apart.wrapping_add(within)))
        }
        _ => None,
    }
}

/// What an operator between two values gives; `None` where there is none of such values. `apart` is
/// how far the first one's chunk begins after the second one's, where both have addresses: it makes
/// a difference only between two places in different chunks.
pub fn binary_value(op: BinaryOp, left: Value, right: Value, apart: Option<u64>) -> Option<Value>
    ensures { result ≡ binary_value op left right apart }
{
    match (left, right) {
        (Value::Number(a), Value::Number(b)) => {
            let number = binary_number(op, a, b)?;
            Some(Value::Number(number))
        }
        (Value::At(location), Value::Number(n)) => moved_by(op, location, n),
        (Value::Number(n), Value::At(location)) => moved_on(op, n, location),
        (Value::At(to), Value::At(from)) => distance(op, to, from, apart),
    }
}
