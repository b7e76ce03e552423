//! The two copies of a machine that watchers read, and the rule that they keep.

ghost use Rattle.std.specs.Prelude.{◌≡◌, ◌++◌, ◌∷◌, [], drop, fold};
ghost use Rattle.shared_machine.specs.Copies.{IsShown, shown_after};
ghost use Rattle.shared_machine.specs.Names.{order_named};
ghost use Rattle.shared_machine.specs.declared.watching.shown.Ticket.TheVariants.{Tell};

use crate::shares::Naming;
use crate::watching::shown::{Shown, Ticket};
use crossbeam_utils::rule::{Outcome, Protocol};
use left_right::reader::{Reader, Reading};
use left_right::writer::Writer;
use seen_order::{Order, Token};
use std::marker::PhantomData;
use std::sync::Wait;

/// The order of a machine's operations.
pub struct OrderOf<J: Naming> {
    machine: PhantomData<J>,
}

impl<J: Naming> Order for OrderOf<J> {
    ghost use Rattle.shared_machine.specs.Names.{order_named};

    ghost name = { order_named J.names };
}

/// The rule of a machine's copies: each is a core of its image, and knows its order.
pub struct Shows<J: Naming> {
    machine: PhantomData<J>,
}

impl<J: Naming> Protocol<Shown, ()> for Shows<J> {
    ghost use Rattle.shared_machine.specs.Copies.{IsShown};
    ghost use Rattle.shared_machine.specs.Names.{order_named};

    ghost holds = { λ shown views. IsShown J.image (order_named J.names) shown };

    ghost first = { tt };
}

/// What publishing and entering tell: the rule.
pub struct Sees<J: Naming> {
    machine: PhantomData<J>,
}

impl<J: Naming> Outcome<Shown, ()> for Sees<J> {
    ghost use Rattle.shared_machine.specs.Copies.{IsShown};
    ghost use Rattle.shared_machine.specs.Names.{order_named};

    ghost then = { λ view before after now. IsShown J.image (order_named J.names) after };
}

pub type Copies<J> = Writer<Shown, Ticket, (), Shows<J>>;

pub type CopyReader<J> = Reader<Shown, (), Shows<J>>;

pub type CopyReading<J> = Reading<Shown, (), Shows<J>>;

/// Shows watchers what is pending, once nobody reads the other copy.
pub fn publish<J: Naming, R: Wait>(copies: Copies<J>, rt: &R) -> (Copies<J>, ())
    requires { IsShown J.image (order_named J.names) copies.desk.shown.value
        → IsShown J.image (order_named J.names)
        (fold shown_after copies.desk.shown.value (drop copies.behind copies.log.items)) }
    ensures shown { result.0.desk.shown.value
        ≡ fold shown_after copies.desk.shown.value (drop copies.behind copies.log.items) }
    ensures pending { drop result.0.behind result.0.log.items ≡ [] }
{
    let (copies, _published) = copies.publish_as::<Sees<J>, R>(rt);
    (copies, ())
}

/// Queues the new order for both copies, right after an operation was appended. The queue
/// makes room for four tickets when it first grows, and never holds more: the two that one
/// copy lacks, and two that are pending. So the operation's ticket has made the room for this one,
/// and the first try succeeds. Were it refused, it would wait for memory: a copy that is shown
/// always knows its order.
pub fn tell<J: Naming, R: Wait>(copies: &mut Copies<J>, rt: &R, token: Token)
    ensures shown { copies.new.desk ≡ copies.old.desk }
    ensures pending { drop copies.new.behind copies.new.log.items
        ≡ drop copies.old.behind copies.old.log.items ++ Tell token ∷ [] }
{
    let mut ticket = Ticket::Tell(token);
    for _ in rt.forever() {
        match copies.append(ticket) {
            Ok(()) => break,
            Err(refused) => ticket = refused,
        }
    }
}
