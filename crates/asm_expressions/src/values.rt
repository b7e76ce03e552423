//! What expressions are worth.
#![tactic(auto, using(crate::proofs::StackLemmas::pushed), unfolding(crate::proofs::Unfold::values))]

ghost use Rattle.std.specs.Prelude.{◌≡◌, reverse};
ghost use Rattle.asm_expressions.specs.Values.{
  GivesValue,
  IsWorked,
  apart_of,
  meanings_of,
  name_value,
  on_top,
  operator_value,
  value_of,
  with_binary,
  with_unary,
  worked,
};

use crate::node::{Node, NodeKind};
use asm_values::{BinaryOp, UnaryOp, Value, binary_value, unary_value};
use std::alloc::{AllocError, AllocFailed, Global};

/// Why an expression has no value.
#[derive(Drop)]
pub enum ValueFault<F> {
    /// The operator whose token has this number has no value of such operands.
    Operator(usize),
    /// A name, a local label or `.` has none.
    Name(F),
    /// Out of memory.
    NoMemory,
}

impl<F> From<AllocError> for ValueFault<F> {
    ghost use Rattle.asm_expressions.specs.declared.values.ValueFault.TheVariants.{NoMemory};

    ghost from_gives = { λ _ fault. fault ≡ NoMemory };

    fn from(_: AllocError) -> ValueFault<F> {
        ValueFault::NoMemory
    }
}

impl<F, T: Drop> From<AllocFailed<T>> for ValueFault<F> {
    ghost use Rattle.asm_expressions.specs.declared.values.ValueFault.TheVariants.{NoMemory};

    ghost from_gives = { λ _ fault. fault ≡ NoMemory };

    fn from(_: AllocFailed<T>) -> ValueFault<F> {
        ValueFault::NoMemory
    }
}

/// What names mean where an expression is worked out.
pub trait LookUp {
    ghost use Rattle.std.specs.Prelude.{ℕ, Option, Result};
    ghost use Rattle.asm_values.specs.declared.values.Value.{Value};
    ghost use Rattle.asm_expressions.specs.declared.node.Node.{Node};

    /// Why a name has no value.
    type Fault: Drop;

    /// The value of a node that is a symbol, a local label or `.`.
    ghost named: { Self → Node → Result Value Self.Fault };

    /// How far the first of two chunks begins after the second one, where both have addresses.
    ghost apart: { Self → ℕ → ℕ → Option ℕ };

    /// The value of a node that is a symbol, a local label or `.`.
    fn value(&self, node: Node) -> Result<Value, Self::Fault>
        ensures { result ≡ named self.now node };

    /// How far the first of two chunks begins after the second one, where both have addresses.
    fn distance(&self, to: u32, from: u32) -> Option<u64>
        ensures { result ≡ apart self.now to from };
}

/// How far the chunks of two values begin apart, if they are places.
fn apart_of<L: LookUp>(names: &L, first: Value, second: Value) -> Option<u64>
    ensures { result ≡ apart_of (L.apart names.now) first second }
{
    match (first, second) {
        (Value::At(to), Value::At(from)) => names.distance(to.chunk, from.chunk),
        _ => None,
    }
}

/// Puts the value of an operator on top of the others, if it has one.
fn put<F: Drop>(
    values: &mut Vec<Value>,
    at: usize,
    value: Option<Value>,
) -> Result<(), ValueFault<F>>
    ensures { IsWorked result (reverse values.new.items)
        (on_top (operator_value at value) (reverse values.old.items)) }
{
    match value {
        Some(value) => Ok(values.push(value)?),
        None => Err(ValueFault::Operator(at)),
    }
}

/// Works out an operator before its operand.
fn work_unary<F: Drop>(values: &mut Vec<Value>, op: UnaryOp, at: usize) -> Result<(), ValueFault<F>>
    ensures { IsWorked result (reverse values.new.items)
        (with_unary op at (reverse values.old.items)) }
{
    match values.pop() {
        Some(value) => put(values, at, unary_value(op, value)),
        None => Err(ValueFault::Operator(at)),
    }
}

/// Works out an operator between its operands.
fn work_binary<L: LookUp>(
    values: &mut Vec<Value>,
    names: &L,
    op: BinaryOp,
    at: usize,
) -> Result<(), ValueFault<L::Fault>>
    ensures { IsWorked result (reverse values.new.items)
        (with_binary (L.apart names.now) op at (reverse values.old.items)) }
{
    let Some(second) = values.pop() else {
        return Err(ValueFault::Operator(at));
    };
    let Some(first) = values.pop() else {
        return Err(ValueFault::Operator(at));
    };
    let apart = apart_of(names, first, second);
    put(values, at, binary_value(op, first, second, apart))
}

/// Works out a name.
fn work_name<L: LookUp>(
    values: &mut Vec<Value>,
    names: &L,
    node: Node,
) -> Result<(), ValueFault<L::Fault>>
    ensures { IsWorked result (reverse values.new.items)
        (on_top (name_value (L.named names.now node)) (reverse values.old.items)) }
{
    match names.value(node) {
        Ok(value) => Ok(values.push(value)?),
        Err(fault) => Err(ValueFault::Name(fault)),
    }
}

/// Works out a node.
fn work<L: LookUp>(
    values: &mut Vec<Value>,
    names: &L,
    node: Node,
) -> Result<(), ValueFault<L::Fault>>
    ensures { IsWorked result (reverse values.new.items)
        (worked (meanings_of (L.named names.now) (L.apart names.now)) node
        (reverse values.old.items)) }
{
    match node.kind {
        NodeKind::Number(n) => Ok(values.push(Value::Number(n))?),
        NodeKind::Unary(op) => work_unary(values, op, node.at),
        NodeKind::Binary(op) => work_binary(values, names, op, node.at),
        NodeKind::Symbol | NodeKind::Local | NodeKind::Dot => work_name(values, names, node),
    }
}

/// What an expression is worth, by what its names mean. Fails at the first operator that has no
/// value, or with the first name's fault.
pub fn value_of<L: LookUp>(
    alloc: Global,
    names: &L,
    nodes: &[Node],
) -> Result<Value, ValueFault<L::Fault>>
    ensures { GivesValue result
        (value_of (meanings_of (L.named names.now) (L.apart names.now)) nodes.now) }
{
    let mut values = Vec::new(alloc);
    for node in nodes {
        match work(&mut values, names, *node) {
            Ok(()) => {}
            Err(fault) => return Err(fault),
        }
    }
    match values.pop() {
        Some(value) => Ok(value),
        None => Err(ValueFault::Operator(0)),
    }
}
