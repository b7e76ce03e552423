//! Judging an order, and reading the operations of one that was judged.

ghost use Rattle.std.specs.Prelude.{
  ◌≡◌,
  ◌≢◌,
  ◌<◌,
  ◌≤◌,
  ◌+◌,
  [],
  ◌∷◌,
  Ok,
  Some,
  false,
  IfErr,
  IsOk,
  IfSome,
  MatchOption,
  length,
  slice_index,
};
ghost use Rattle.orders.specs.Orders.{
  order_of,
  IsAsked,
  is_blank,
  token_at,
  from_place,
  count_from,
};

use crate::fault::{OrderFault, OrderFaultKind};
use crate::reader::{ORDER_LIMIT, after_blanks, body_start, operation_at};
use cheri_model::Op;
use std::marker::Model;

/// An order whose text was judged and is good. Its operations are read one by one from the text,
/// so that none of them is kept. Contracts see those that are left. They are counted, so that what
/// stands after the last one is not read again.
#[derive(Drop)]
pub struct JudgedOrder<'a> {
    text: &'a [u8],
    place: usize,
    left: usize,
}

impl<'a> Model for JudgedOrder<'a> {
    ghost use Rattle.std.specs.Prelude.{◌≡◌, List, length};
    ghost use Rattle.cheri_model.specs.declared.operation.Op.{Op};
    ghost use Rattle.orders.specs.Orders.{left_from, IsGoodFrom};

    ghost Value = { List Op };

    ghost view = { λ order. left_from order.text.now order.place };

    ghost invariant = { λ order. IsGoodFrom order.text.now order.place
        × (order.left ≡ length (left_from order.text.now order.place)) };
}

impl<'a> JudgedOrder<'a> {
    /// The next operation, until none is left.
    #[inline(always)]
    pub fn next(&mut self) -> Option<Op>
        ensures next { MatchOption result ((self.old ≡ []) × (self.new ≡ []))
            (λ operation. self.old ≡ operation ∷ self.new) }
        ensures asked { IfSome result IsAsked }
    {
        if self.left == 0 {
            return None;
        }
        let place = after_blanks(self.text, self.place);
        let (operation, next) = good_operation(self.text, place);
        self.place = next;
        self.left -= 1;
        Some(operation)
    }
}

/// The operation at a place, where no blank is, of a text that is good from there on.
#[inline(always)]
fn good_operation(text: &[u8], place: usize) -> (Op, usize)
    requires inside { place < length text.now }
    requires token { is_blank (slice_index text.now place) ≡ false }
    requires good { IsOk (from_place text.now place) }
    ensures token { token_at text.now place (slice_index text.now place)
        ≡ Ok (Some result.0, result.1) }
    ensures next { (place < result.1) × (result.1 ≤ length text.now) }
{
    operation_at(text, place).unwrap()
}

/// How many operations the tokens from a place on ask for, or the first fault.
fn operation_count(text: &[u8], start: usize) -> Result<usize, OrderFault>
    requires { start ≤ length text.now }
    ensures count { result ≡ count_from text.now start }
    ensures fault { IfErr result (λ fault. fault.kind ≢ OrderFaultKind.NoMemory) }
{
    let mut count = 0;
    let mut place = after_blanks(text, start);
    while place < text.len() {
        let (_, next) = operation_at(text, place)?;
        count += 1;
        place = after_blanks(text, next);
    }
    Ok(count)
}

/// Judges an order's text: the order that it means, or its fault, which is the first one in the
/// text, by its offset; else more than [`ORDER_LIMIT`] operations, at offset 0. Takes no memory.
pub fn judge_order(text: &[u8]) -> Result<JudgedOrder<'_>, OrderFault>
    ensures meaning { result ≡ order_of text.now }
    ensures fault { IfErr result (λ fault. fault.kind ≢ OrderFaultKind.NoMemory) }
{
    let place = body_start(text);
    let count = operation_count(text, place)?;
    if count > ORDER_LIMIT {
        return Err(OrderFault {
            offset: 0,
            kind: OrderFaultKind::Size,
        });
    }
    Ok(JudgedOrder {
        text,
        place,
        left: count,
    })
}
