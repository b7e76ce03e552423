//! The keeper of an order, who alone adds to it.

ghost use Rattle.std.specs.Prelude.{◌≡◌, [], ◌∷◌, ◌++◌};
ghost use Rattle.logbook.specs.Pages.{may_write};
ghost use Rattle.seen_order.specs.Orders.{order, open_end, order_name};
ghost use Rattle.seen_order.specs.Steps.{head_of};

use crate::links::Link;
use crate::rule::{Add, Draft, LinkRule, Make, Nothing};
use crate::seen::{Order, Seen, Token};
use cheri_model::Op;
use logbook::{Offer, Pen, Start, Word};
use std::marker::{Model, PhantomData};

/// A book with an order that is empty, and is no one's yet. Contracts see its name.
#[derive(Drop)]
pub struct Blank {
    head: Word<Link, u64, LinkRule>,
    seen: logbook::Seen<Link, u64, LinkRule>,
    pen: Pen,
}

impl Model for Blank {
    ghost use Rattle.std.specs.Prelude.{◌≡◌, []};
    ghost use Rattle.logbook.specs.Pages.{may_write};
    ghost use Rattle.seen_order.specs.Orders.{OrderName, order_name, order, open_end};
    ghost use Rattle.seen_order.specs.Steps.{head_of};

    ghost Value = { OrderName };

    ghost view = { λ b. order_name b.seen.book b.pen.nib.key };

    ghost invariant = { λ b. (b.head ≡ head_of b.seen.book)
        × (b.pen.book ≡ b.seen.book)
        × (b.pen.nib.right ≡ may_write)
        × (order b.pen.nib.key b.seen.log ≡ [])
        × (open_end b.pen.nib.key b.seen.log ≡ b.pen.nib.key) };
}

impl Blank {
    /// A new book. What its order is stands in the invariant of the type: nothing yet.
    pub fn new() -> Blank {
        let (mut seen, mut first, _second) = logbook::Seen::open(Start::alone(), 0, 0);
        let head = Word::tracked(0, &mut first);
        let pen = new_pen(&head, &mut seen);
        Blank { head, seen, pen }
    }

    /// The keeper of its order.
    pub fn named<J: Order>(self) -> Keeper<J>
        requires { self ≡ J.name }
        ensures { result ≡ [] }
    {
        let Blank { head, seen, pen } = self;
        Keeper {
            head,
            seen,
            pen,
            of: PhantomData,
        }
    }
}

/// A new pen, of which no chain has a link yet.
fn new_pen(head: &Word<Link, u64, LinkRule>, seen: &mut logbook::Seen<Link, u64, LinkRule>) -> Pen
    requires { head.now ≡ head_of seen.old.book }
    ensures seen { seen.new.book ≡ seen.old.book }
    ensures pen { (result.book ≡ seen.old.book) × (result.nib.right ≡ may_write) }
    ensures order { order result.nib.key seen.new.log ≡ [] }
    ensures end { open_end result.nib.key seen.new.log ≡ result.nib.key }
{
    let blank = Draft {
        pen: seen.no_pen(),
        next: seen.no_pen(),
        operation: Op::Step(0),
    };
    let mut offer: Offer<Link, u64, LinkRule, Nothing> = seen.plain::<Nothing, Draft, Add>(&blank);
    let mut pen = seen.no_pen();
    head.compare_exchange::<Make, Nothing>(0, 0, seen, &mut offer, &mut pen);
    // The step gave the right to make a word. Making one, which is dropped, turns it into the right
    // to write, which a link's pen has.
    let _word: Word<Link, u64, LinkRule> = Word::tracked(0, &mut pen);
    pen
}

/// Who alone adds to an order. Contracts see the order.
#[derive(Drop)]
pub struct Keeper<J: Order> {
    head: Word<Link, u64, LinkRule>,
    seen: logbook::Seen<Link, u64, LinkRule>,
    pen: Pen,
    of: PhantomData<J>,
}

impl<J: Order> Model for Keeper<J> {
    ghost use Rattle.std.specs.Prelude.{◌≡◌, List};
    ghost use Rattle.logbook.specs.Pages.{may_write};
    ghost use Rattle.cheri_model.specs.declared.operation.Op.{Op};
    ghost use Rattle.seen_order.specs.Orders.{order, open_end};
    ghost use Rattle.seen_order.specs.Steps.{head_of};

    ghost Value = { List Op };

    ghost view = { λ k. order J.name.first k.seen.log };

    ghost invariant = { λ k. (k.head ≡ head_of J.name.book)
        × (k.seen.book ≡ J.name.book)
        × (k.pen.book ≡ J.name.book)
        × (k.pen.nib.right ≡ may_write)
        × (open_end J.name.first k.seen.log ≡ k.pen.nib.key) };
}

impl<J: Order> Keeper<J> {
    /// Adds an operation. It takes no memory, waits for nobody and is never refused.
    pub fn add(&mut self, operation: Op)
        ensures { self.new ≡ self.old ++ operation ∷ [] }
    {
        let mut before = self.seen.again();
        let next = new_pen(&self.head, &mut before);
        let pen = self.seen.no_pen();
        let written = std::mem::replace(&mut self.pen, pen);
        let mut draft = Draft {
            pen: written,
            next,
            operation,
        };
        let mut offer: Offer<Link, u64, LinkRule, Nothing> = self
            .seen
            .plain::<Nothing, Draft, Add>(&draft);
        self.head
            .compare_exchange::<Add, Nothing>(0, 0, &mut self.seen, &mut offer, &mut draft.pen);
        let Draft {
            pen: _,
            next,
            operation: _,
        } = draft;
        self.pen = next;
    }

    /// All of the order, as seen.
    pub fn seen(&self) -> Seen<J>
        ensures { result ≡ self.now }
    {
        Seen::over(Token {
            seen: self.seen.again(),
        })
    }
}
