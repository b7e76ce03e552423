//! Reading an order.

ghost use Rattle.std.specs.Prelude.{
  ◌≡◌,
  ◌<◌,
  ◌≤◌,
  ◌+◌,
  false,
  IsTrue,
  IfOk,
  All,
  length,
  slice_index,
};
ghost use Rattle.orders.specs.Orders.{
  order_of,
  Gives,
  IsAsked,
  is_version_2,
  is_blank,
  body_start,
  token_at,
  as_token,
  from_place,
};

use crate::fault::OrderFault;
use crate::judged::{JudgedOrder, judge_order};
use crate::sweeps::sweep_at;
use cheri_model::Op;
use std::alloc::{AllocError, Global};

/// The most operations that an order may ask for.
pub const ORDER_LIMIT: usize = 100_000;

/// What an order of version 2 begins with.
const HEADER: &[u8; 8] = b"order 2\n";

/// Whether a text is an order of version 2.
fn is_version_2(text: &[u8]) -> bool
    ensures version { result ≡ is_version_2 text.now }
    ensures room { IsTrue result → 8 ≤ length text.now }
{
    text.starts_with(HEADER)
}

/// Where an order's first token is.
pub(crate) fn body_start(text: &[u8]) -> usize
    ensures start { result ≡ body_start text.now }
    ensures room { result ≤ length text.now }
{
    if is_version_2(text) { HEADER.len() } else { 0 }
}

/// Whether a byte separates operations.
fn is_blank(byte: u8) -> bool
    ensures { result ≡ is_blank byte }
{
    matches!(byte, b' ' | b'\n')
}

/// The place of the first byte from `start` on that is not blank, or the end of the text.
pub(crate) fn after_blanks(text: &[u8], start: usize) -> usize
    requires { start ≤ length text.now }
    ensures inside { (start ≤ result) × (result ≤ length text.now) }
    ensures same { from_place text.now result ≡ from_place text.now start }
    ensures token { result < length text.now → is_blank (slice_index text.now result) ≡ false }
{
    let mut place = start;
    while place < text.len() && is_blank(text[place]) {
        place += 1;
    }
    place
}

/// The operation at a place, where no blank is, and the place after it. Inlined, since its answer
/// has 64 bytes, which a call would write and its caller copy for each operation.
#[inline(always)]
pub(crate) fn operation_at(text: &[u8], place: usize) -> Result<(Op, usize), OrderFault>
    requires inside { place < length text.now }
    requires token { is_blank (slice_index text.now place) ≡ false }
    ensures token { token_at text.now place (slice_index text.now place) ≡ as_token result }
    ensures next { IfOk result (λ operation.
        (place < operation.1) × (operation.1 ≤ length text.now)) }
{
    match text[place] {
        digit @ b'0'..=b'7' => Ok((Op::Step(digit - b'0'), place + 1)),
        b'[' if is_version_2(text) => sweep_at(text, place),
        _ => Err(OrderFault::byte(place)),
    }
}

/// The operations that are left of an order, in turn.
fn operations_of(alloc: Global, mut order: JudgedOrder<'_>) -> Result<Vec<Op>, AllocError>
    ensures { IfOk result (λ operations. operations.items ≡ order.entry) }
{
    let mut operations = Vec::new(alloc);
    while let Some(operation) = order.next() {
        operations.push(operation)?;
    }
    Ok(operations)
}

/// The operations that an order's text asks for, in turn: a step of a hart for each digit, and in
/// version 2 sweeps. The first fault is answered, by its offset; else more than [`ORDER_LIMIT`]
/// operations are, at offset 0. Running out of memory says nothing of the text.
pub fn read_order(alloc: Global, text: &[u8]) -> Result<Vec<Op>, OrderFault>
    ensures meaning { Gives result (order_of text.now) }
    ensures operations { IfOk result (λ order. All IsAsked order.items) }
    ensures limit { IfOk result (λ order. length order.items ≤ ORDER_LIMIT) }
{
    let order = judge_order(text)?;
    let operations = operations_of(alloc, order)?;
    Ok(operations)
}
