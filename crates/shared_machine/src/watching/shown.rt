//! What watchers read of a machine: one of two copies of its core, beside what was seen of the
//! order of its operations.

use cheri_model::Op;
use cores::Core;
use left_right::Absorb;
use seen_order::Token;
use std::alloc::AllocError;

/// A copy of a machine's core. Whenever it is shown, what the token has seen is the order of the
/// core's trace.
#[derive(Drop)]
pub struct Shown {
    pub core: Core,
    pub token: Token,
}

/// What both copies take in: an operation, or what was then seen of the order.
#[derive(Drop)]
pub enum Ticket {
    Take(Op),
    Tell(Token),
}

impl Absorb<Ticket> for Shown {
    ghost use Rattle.shared_machine.specs.Copies.{shown_after};

    type State = Shown;

    ghost state = { λ shown. shown };

    ghost applied = { shown_after };

    ghost never_fails = { Unit {0} };

    #[tactic(auto, unfolding(crate::specs::Copies::shown_after))]
    fn absorb_first(&mut self, ticket: &Ticket, _other: &Shown) -> Result<(), AllocError> {
        match ticket {
            Ticket::Take(op) => {
                let _event = self.core.apply(*op);
            }
            Ticket::Tell(token) => self.token = token.again(),
        }
        Ok(())
    }
}
