//! Tokens of what was seen of an order. They take no bytes.

ghost use Rattle.std.specs.Prelude.{◌≡◌, ◌≤◌, ◌⊎◌, length};
ghost use mathlib.Core.List.{IsPrefix};
ghost use Rattle.seen_order.specs.Orders.{order};

use crate::links::Link;
use crate::rule::LinkRule;
use std::marker::{Brand, Model, PhantomData};

/// Which order it is. Each call of a program picks it.
pub trait Order {
    ghost use Rattle.seen_order.specs.Orders.{OrderName};

    ghost name: { OrderName };
}

impl Order for Brand {
    ghost name = { record {
      book = record { number = 0; log_name = 0; cells_name = 0 };
      first = 0;
    } };
}

/// What was seen of the links of a book.
#[derive(Drop)]
pub struct Token {
    pub seen: logbook::Seen<Link, u64, LinkRule>,
}

/// A prefix of an order, which was seen. Contracts see its operations.
#[derive(Drop)]
pub struct Seen<J: Order> {
    token: Token,
    of: PhantomData<J>,
}

impl<J: Order> Model for Seen<J> {
    ghost use Rattle.std.specs.Prelude.{◌≡◌, List};
    ghost use Rattle.cheri_model.specs.declared.operation.Op.{Op};
    ghost use Rattle.seen_order.specs.Orders.{order};

    ghost Value = { List Op };

    ghost view = { λ s. order J.name.first s.token.seen.log };

    ghost invariant = { λ s. s.token.seen.book ≡ J.name.book };
}

impl Token {
    /// A copy.
    pub fn again(&self) -> Token
        ensures { result ≡ self.now }
    {
        Token {
            seen: self.seen.again(),
        }
    }

    /// What it has seen of an order of its book.
    pub fn tied<J: Order>(&self) -> Seen<J>
        requires { self.now.seen.book ≡ J.name.book }
        ensures { result ≡ order J.name.first self.now.seen.log }
    {
        Seen {
            token: self.again(),
            of: PhantomData,
        }
    }
}

impl<J: Order> Seen<J> {
    pub(crate) fn over(token: Token) -> Seen<J>
        requires { token.seen.book ≡ J.name.book }
        ensures { result ≡ order J.name.first token.seen.log }
    {
        Seen {
            token,
            of: PhantomData,
        }
    }

    /// A copy.
    pub fn again(&self) -> Seen<J>
        ensures { result ≡ self.now }
    {
        Seen {
            token: self.token.again(),
            of: PhantomData,
        }
    }

    /// Its token, which doesn't name the order.
    pub fn token(&self) -> Token
        ensures book { result.seen.book ≡ J.name.book }
        ensures order { self.now ≡ order J.name.first result.seen.log }
    {
        self.token.again()
    }

    /// Whatever two have seen, the shorter is a prefix of the longer.
    pub fn meet(&self, other: &Seen<J>)
        ensures { length self.now ≤ length other.now → IsPrefix self.now other.now }
    {
        let mut both = self.token.seen.again();
        both.learn(&other.token.seen);
    }
}
