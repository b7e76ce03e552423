//! The rule of a book, and the steps that it allows.

use crate::links::Link;
use cheri_model::Op;
use logbook::{Gain, Pen, Plain, Play, Rule};

/// The rule of a book: the pen of each link is spent, and may write no other.
pub struct LinkRule;

impl Rule<Link, u64> for LinkRule {
    ghost use Rattle.std.specs.Prelude.{[]};
    ghost use base.Fml.{ftrue};
    ghost use Rattle.seen_order.specs.Steps.{IsKept};

    ghost holds = { λ cells links. IsKept cells links };

    ghost first = { [] };

    ghost hinted = { λ n links. Unit {0} };

    ghost shows = { λ links. [] };

    ghost keeps = { λ names links. ftrue };

    ghost moves = { λ ask before after answer. Unit {0} };
}

/// Callers trade nothing.
pub struct Nothing;

impl Gain<Link, u64> for Nothing {
    ghost use base.Fml.{ftrue};

    ghost after = { λ names about answer. ftrue };
}

/// What a step adds: which pen writes it, which writes the next one, and the operation.
#[derive(Drop)]
pub struct Draft {
    pub pen: Pen,
    pub next: Pen,
    pub operation: Op,
}

/// A step that makes a pen.
pub struct Make;

impl Play<Link, u64> for Make {
    ghost use Rattle.seen_order.specs.Steps.{MakesPen};

    ghost then = { MakesPen };
}

/// A step that adds a link.
pub struct Add;

impl Play<Link, u64> for Add {
    ghost use Rattle.seen_order.specs.Steps.{AddsLink};

    ghost then = { AddsLink };
}

impl Plain<Draft, Link, u64> for Add {
    ghost use Rattle.std.specs.Prelude.{None};

    ghost ask = { λ draft. record {
      pen = draft.pen.nib.key;
      operation = draft.operation;
      next = draft.next.nib.key;
    } };

    ghost state = { λ draft. None };
}
