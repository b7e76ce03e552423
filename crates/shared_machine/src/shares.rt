//! Shares: tokens of a machine, one for each hart. Together they count the steps of each hart,
//! exactly, over any number of threads. Tokens and books take no bytes.

ghost use Rattle.std.specs.Prelude.{◌≡◌, ◌+◌, ◌<◌, length, slice_index, slice_set};
ghost use Rattle.std.specs.Prelude.{List, ℕ, [], replicate};
ghost use Rattle.cheri_model.specs.runs.Image.{ImageParts};
ghost use Rattle.shared_machine.specs.Names.{order_named};

use crate::sweeps::{SweepLane, Sweeper};
use std::marker::{Brand, Model, PhantomData};
use std::sync::ledger;
use std::sync::ledger::{Blank, Book, Ledger};

/// The type parameter that names one machine: the ledgers that its shares are of and its order of
/// operations, and its image.
pub trait Naming {
    ghost names: { List ℕ };

    ghost image: { ImageParts };
}

impl Naming for Brand {
    ghost names = { [] };

    ghost image = { record { program = []; ram = 0; granules = []; harts = [] } };
}

/// The ledger of one hart of a machine. One share has all of it.
pub struct Lane<J: Naming, const HART: u8> {
    machine: PhantomData<J>,
}

impl<J: Naming, const HART: u8> Ledger for Lane<J, HART> {
    ghost name = { slice_index J.names HART };

    ghost parts = { 1 };
}

/// Ledgers that are of no machine yet, one for each of eight harts and one for sweeps, and an order
/// of operations. Contracts see their names.
#[derive(Drop)]
pub struct Blanks {
    hart0: Blank,
    hart1: Blank,
    hart2: Blank,
    hart3: Blank,
    hart4: Blank,
    hart5: Blank,
    hart6: Blank,
    hart7: Blank,
    order: seen_order::Blank,
    sweeps: Blank,
}

impl Model for Blanks {
    ghost use Rattle.std.specs.Prelude.{List, ℕ};

    ghost Value = { List ℕ };

    ghost use Rattle.std.specs.Prelude.{[], ◌∷◌, ◌≡◌};

    ghost view = { λ b. b.hart0.name ∷ b.hart1.name ∷ b.hart2.name ∷ b.hart3.name
        ∷ b.hart4.name ∷ b.hart5.name ∷ b.hart6.name ∷ b.hart7.name
        ∷ b.order.book.number ∷ b.order.book.log_name ∷ b.order.book.cells_name ∷ b.order.first
        ∷ b.sweeps.name ∷ [] };

    ghost invariant = { λ b. (b.hart0.parts ≡ 1)
        × (b.hart1.parts ≡ 1)
        × (b.hart2.parts ≡ 1)
        × (b.hart3.parts ≡ 1)
        × (b.hart4.parts ≡ 1)
        × (b.hart5.parts ≡ 1)
        × (b.hart6.parts ≡ 1)
        × (b.hart7.parts ≡ 1)
        × (b.sweeps.parts ≡ 1) };
}

impl Blanks {
    /// Nine new ledgers with a name for each, and a new order of operations.
    pub fn new() -> Blanks
        ensures { length result ≡ 13 }
    {
        Blanks {
            hart0: Blank::new(1),
            hart1: Blank::new(1),
            hart2: Blank::new(1),
            hart3: Blank::new(1),
            hart4: Blank::new(1),
            hart5: Blank::new(1),
            hart6: Blank::new(1),
            hart7: Blank::new(1),
            order: seen_order::Blank::new(),
            sweeps: Blank::new(1),
        }
    }

    /// The books and the tokens of these ledgers, nothing counted, and the order.
    pub fn open<J: Naming>(self) -> Opening<J>
        requires { self ≡ J.names }
        ensures books { result.books ≡ replicate 8 0 }
        ensures parts { result.tokens.parts ≡ replicate 8 1 }
        ensures amounts { result.tokens.amounts ≡ replicate 8 0 }
        ensures sweeps { result.sweeps.total ≡ 0 }
        ensures sweeper { result.sweeper ≡ 0 }
        ensures order { result.order ≡ order_named J.names }
    {
        let Blanks {
            hart0,
            hart1,
            hart2,
            hart3,
            hart4,
            hart5,
            hart6,
            hart7,
            order,
            sweeps,
        } = self;
        let (book0, token0) = hart0.open::<Lane<J, 0>>();
        let (book1, token1) = hart1.open::<Lane<J, 1>>();
        let (book2, token2) = hart2.open::<Lane<J, 2>>();
        let (book3, token3) = hart3.open::<Lane<J, 3>>();
        let (book4, token4) = hart4.open::<Lane<J, 4>>();
        let (book5, token5) = hart5.open::<Lane<J, 5>>();
        let (book6, token6) = hart6.open::<Lane<J, 6>>();
        let (book7, token7) = hart7.open::<Lane<J, 7>>();
        let (sweeps, sweeper) = sweeps.open::<SweepLane<J>>();
        let books = Books {
            hart0: book0,
            hart1: book1,
            hart2: book2,
            hart3: book3,
            hart4: book4,
            hart5: book5,
            hart6: book6,
            hart7: book7,
        };
        let tokens = Tokens {
            hart0: token0,
            hart1: token1,
            hart2: token2,
            hart3: token3,
            hart4: token4,
            hart5: token5,
            hart6: token6,
            hart7: token7,
        };
        Opening {
            books,
            tokens,
            sweeps,
            sweeper: Sweeper::over(sweeper),
            order,
        }
    }
}

/// What a machine is opened with: the books of its ledgers, their tokens, and the order of its
/// operations.
#[derive(Drop)]
pub struct Opening<J: Naming> {
    pub books: Books<J>,
    pub tokens: Tokens<J>,
    pub sweeps: Book<SweepLane<J>>,
    pub sweeper: Sweeper<J>,
    pub order: seen_order::Blank,
}

/// A token of each hart's ledger. Contracts see of each how much of its ledger it is, and its
/// amount.
#[derive(Drop)]
pub struct Tokens<J: Naming> {
    hart0: ledger::Share<Lane<J, 0>>,
    hart1: ledger::Share<Lane<J, 1>>,
    hart2: ledger::Share<Lane<J, 2>>,
    hart3: ledger::Share<Lane<J, 3>>,
    hart4: ledger::Share<Lane<J, 4>>,
    hart5: ledger::Share<Lane<J, 5>>,
    hart6: ledger::Share<Lane<J, 6>>,
    hart7: ledger::Share<Lane<J, 7>>,
}

impl<J: Naming> Model for Tokens<J> {
    ghost use Rattle.shared_machine.specs.Shares.{TokenParts};

    ghost Value = { TokenParts };

    ghost use Rattle.std.specs.Prelude.{[], ◌∷◌};

    ghost view = { λ t. record {
      parts = t.hart0.parts ∷ t.hart1.parts ∷ t.hart2.parts ∷ t.hart3.parts
          ∷ t.hart4.parts ∷ t.hart5.parts ∷ t.hart6.parts ∷ t.hart7.parts ∷ [];
      amounts = t.hart0.amount ∷ t.hart1.amount ∷ t.hart2.amount ∷ t.hart3.amount
          ∷ t.hart4.amount ∷ t.hart5.amount ∷ t.hart6.amount ∷ t.hart7.amount ∷ [];
    } };
}

/// The totals of the harts' ledgers. Contracts see the number of each of eight harts.
#[derive(Drop)]
pub struct Books<J: Naming> {
    hart0: Book<Lane<J, 0>>,
    hart1: Book<Lane<J, 1>>,
    hart2: Book<Lane<J, 2>>,
    hart3: Book<Lane<J, 3>>,
    hart4: Book<Lane<J, 4>>,
    hart5: Book<Lane<J, 5>>,
    hart6: Book<Lane<J, 6>>,
    hart7: Book<Lane<J, 7>>,
}

impl<J: Naming> Model for Books<J> {
    ghost use Rattle.std.specs.Prelude.{List, ℕ};

    ghost Value = { List ℕ };

    ghost use Rattle.std.specs.Prelude.{[], ◌∷◌};

    ghost view = { λ b. b.hart0.total ∷ b.hart1.total ∷ b.hart2.total ∷ b.hart3.total
        ∷ b.hart4.total ∷ b.hart5.total ∷ b.hart6.total ∷ b.hart7.total ∷ [] };
}

/// What one hart of a machine may step by: it knows its hart, and counts the hart's steps. There
/// is one for each hart.
#[derive(Drop)]
pub struct Share<J: Naming> {
    hart: u8,
    tokens: Tokens<J>,
}

impl<J: Naming> Model for Share<J> {
    ghost use Rattle.shared_machine.specs.Shares.{ShareParts};

    ghost Value = { ShareParts };

    ghost use Rattle.std.specs.Prelude.{◌≡◌, ◌<◌, length, slice_index};

    ghost view = { λ s. record { hart = s.hart; amount = slice_index s.tokens.amounts s.hart } };

    ghost invariant = { λ s. (s.hart < 8) × (s.hart < length J.image.harts)
        × (slice_index s.tokens.parts s.hart ≡ 1) };
}

impl<J: Naming> Tokens<J> {
    /// Draws the share of a hart, which was not drawn before. It counts nothing yet.
    pub fn draw(&mut self, hart: u8) -> Share<J>
        requires below { (hart < 8) × (hart < length J.image.harts) }
        requires whole { slice_index self.old.parts hart ≡ 1 }
        requires none { slice_index self.old.amounts hart ≡ 0 }
        ensures share { result ≡ record { hart = hart; amount = 0 } }
        ensures parts { self.new.parts ≡ slice_set self.old.parts hart 0 }
        ensures amounts { self.new.amounts ≡ self.old.amounts }
    {
        let mut tokens = self.nothing();
        match hart {
            0 => self.hart0.give(&mut tokens.hart0, 1, 0),
            1 => self.hart1.give(&mut tokens.hart1, 1, 0),
            2 => self.hart2.give(&mut tokens.hart2, 1, 0),
            3 => self.hart3.give(&mut tokens.hart3, 1, 0),
            4 => self.hart4.give(&mut tokens.hart4, 1, 0),
            5 => self.hart5.give(&mut tokens.hart5, 1, 0),
            6 => self.hart6.give(&mut tokens.hart6, 1, 0),
            7 => self.hart7.give(&mut tokens.hart7, 1, 0),
            _ => unreachable!("a machine has at most eight harts"),
        }
        Share { hart, tokens }
    }

    /// Tokens that are no part of their ledgers.
    fn nothing(&mut self) -> Tokens<J>
        ensures parts { result.parts ≡ replicate 8 0 }
        ensures amounts { result.amounts ≡ replicate 8 0 }
        ensures same { self.new ≡ self.old }
    {
        Tokens {
            hart0: self.hart0.empty(),
            hart1: self.hart1.empty(),
            hart2: self.hart2.empty(),
            hart3: self.hart3.empty(),
            hart4: self.hart4.empty(),
            hart5: self.hart5.empty(),
            hart6: self.hart6.empty(),
            hart7: self.hart7.empty(),
        }
    }
}

impl<J: Naming> Share<J> {
    /// The number of its hart.
    pub fn hart(&self) -> u8
        ensures hart { result ≡ self.now.hart }
        ensures below { result < length J.image.harts }
    {
        self.hart
    }
}

impl<J: Naming> Books<J> {
    /// Counts so many more steps of the share's hart.
    pub fn add(&mut self, share: &mut Share<J>, count: u64)
        ensures books { self.new
            ≡ slice_set self.old share.old.hart (slice_index self.old share.old.hart + count) }
        ensures lanes { length self.old ≡ 8 }
        ensures inside { share.old.hart < 8 }
        ensures share { share.new
            ≡ record { hart = share.old.hart; amount = share.old.amount + count } }
    {
        let Share { hart, tokens } = share;
        match *hart {
            0 => self.hart0.add(&mut tokens.hart0, count),
            1 => self.hart1.add(&mut tokens.hart1, count),
            2 => self.hart2.add(&mut tokens.hart2, count),
            3 => self.hart3.add(&mut tokens.hart3, count),
            4 => self.hart4.add(&mut tokens.hart4, count),
            5 => self.hart5.add(&mut tokens.hart5, count),
            6 => self.hart6.add(&mut tokens.hart6, count),
            7 => self.hart7.add(&mut tokens.hart7, count),
            _ => unreachable!("a machine has at most eight harts"),
        }
    }

    /// A share's amount is the number of its hart. Changes nothing.
    pub fn audit(&mut self, share: &mut Share<J>)
        ensures books { self.new ≡ self.old }
        ensures share { share.new ≡ share.old }
        ensures amount { share.old.amount ≡ slice_index self.old share.old.hart }
        ensures below { share.old.hart < length J.image.harts }
    {
        let Share { hart, tokens } = share;
        match *hart {
            0 => self.hart0.audit(&mut tokens.hart0),
            1 => self.hart1.audit(&mut tokens.hart1),
            2 => self.hart2.audit(&mut tokens.hart2),
            3 => self.hart3.audit(&mut tokens.hart3),
            4 => self.hart4.audit(&mut tokens.hart4),
            5 => self.hart5.audit(&mut tokens.hart5),
            6 => self.hart6.audit(&mut tokens.hart6),
            7 => self.hart7.audit(&mut tokens.hart7),
            _ => unreachable!("a machine has at most eight harts"),
        }
    }
}
