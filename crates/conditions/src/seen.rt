//! The harts of a chain that were looked at, so that none is looked at for each of its parts.
#![tactic(auto, unfolding(crate::proofs::Unfold::seen))]

ghost use Rattle.std.specs.Prelude.{◌≡◌, ◌||◌, false, true};
ghost use Rattle.conditions.specs.declared.parts.Subject.{Subject};
ghost use Rattle.conditions.specs.declared.parts.Subject.TheVariants.{Numbered};
ghost use Rattle.conditions.specs.Hiding.{is_same};
ghost use Rattle.conditions.specs.Units.{has_seen};

use crate::parts::Subject;

/// How many harts of a number are kept, which are all that one digit can name.
const NUMBERS: usize = 10;

/// Which harts were looked at. A hart of a higher number is never said to have been.
#[derive(Clone, Copy)]
pub(crate) struct Seen {
    numbers: [bool; NUMBERS],
    each: bool,
}

impl Seen {
    /// None so far.
    pub(crate) fn none() -> Seen
        ensures { (who : Subject) → has_seen result who ≡ false }
    {
        Seen {
            numbers: [false; NUMBERS],
            each: false,
        }
    }

    /// Whether this hart was looked at.
    pub(crate) fn has(&self, who: Subject) -> bool
        ensures { result ≡ has_seen self.now who }
    {
        match who {
            Subject::Each => self.each,
            Subject::Numbered(number) => match self.numbers.get(usize::from(number)) {
                Some(seen) => *seen,
                None => false,
            },
        }
    }

    /// This hart was looked at.
    pub(crate) fn add(&mut self, who: Subject)
        ensures { (other : Subject) → has_seen self.new other ≡ true →
            (is_same who other || has_seen self.old other) ≡ true }
    {
        match who {
            Subject::Each => self.each = true,
            Subject::Numbered(number) => self.add_number(usize::from(number)),
        }
    }

    /// The hart of a number was looked at.
    fn add_number(&mut self, number: usize)
        ensures { (other : Subject) → has_seen self.new other ≡ true →
            (is_same (Numbered number) other || has_seen self.old other) ≡ true }
    {
        if number < NUMBERS {
            self.numbers[number] = true;
        }
    }
}
