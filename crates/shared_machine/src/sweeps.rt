//! The sweeper of a machine: a token that counts its sweeps, exactly, over any number of threads.
//! It takes no bytes.

ghost use Rattle.std.specs.Prelude.{◌≡◌, ◌+◌};
ghost use Rattle.shared_machine.specs.Names.{sweeps_named};

use crate::shares::Naming;
use std::marker::{Model, PhantomData};
use std::sync::ledger;
use std::sync::ledger::{Book, Ledger};

/// The ledger of a machine's sweeps. The sweeper has all of it.
pub struct SweepLane<J: Naming> {
    machine: PhantomData<J>,
}

impl<J: Naming> Ledger for SweepLane<J> {
    ghost name = { sweeps_named J.names };

    ghost parts = { 1 };
}

/// What a machine may be swept by: it counts the machine's sweeps. There is one for each machine.
/// Contracts see its count.
#[derive(Drop)]
pub struct Sweeper<J: Naming> {
    token: ledger::Share<SweepLane<J>>,
}

impl<J: Naming> Model for Sweeper<J> {
    ghost use Rattle.std.specs.Prelude.{ℕ};

    ghost Value = { ℕ };

    ghost use Rattle.std.specs.Prelude.{◌≡◌};

    ghost view = { λ s. s.token.amount };

    ghost invariant = { λ s. s.token.parts ≡ 1 };
}

impl<J: Naming> Sweeper<J> {
    /// The sweeper that has all of its ledger.
    pub fn over(token: ledger::Share<SweepLane<J>>) -> Sweeper<J>
        requires { token.parts ≡ 1 }
        ensures { result ≡ token.amount }
    {
        Sweeper { token }
    }

    /// Counts so many more sweeps.
    pub fn count(&mut self, book: &mut Book<SweepLane<J>>, count: u64)
        ensures book { book.new.total ≡ book.old.total + count }
        ensures sweeper { self.new ≡ self.old + count }
    {
        book.add(&mut self.token, count);
    }

    /// Its count is the number of its ledger. Changes nothing.
    pub fn audit(&mut self, book: &mut Book<SweepLane<J>>)
        ensures count { self.old ≡ book.old.total }
    {
        book.audit(&mut self.token);
    }
}
