//! What was seen in runs.

ghost use Rattle.std.specs.Prelude.{◌≡◌, Option, IfOk};
ghost use Rattle.sample_tallies.specs.Tables.{seen_once, both, either};

use std::alloc::AllocError;

/// How often something was seen, and in which run first.
#[derive(Clone, Copy, Debug, PartialEq, Eq)]
pub struct Seen {
    /// In how many runs.
    pub runs: u64,
    /// The number of the first of them.
    pub first: u64,
}

/// Where and why a hart trapped.
#[derive(Clone, Copy, Debug, PartialEq, Eq)]
pub struct TrapPlace {
    /// The hart's number.
    pub hart: usize,
    /// The cause's number.
    pub cause: u8,
}

/// A trap, and the runs in whose last state it was.
#[derive(Clone, Copy, Debug, PartialEq, Eq)]
pub struct TrapSeen {
    pub place: TrapPlace,
    pub seen: Seen,
}

impl Seen {
    /// What was seen in one run.
    pub fn once(run: u64) -> Seen
        ensures { result ≡ seen_once run }
    {
        Seen {
            runs: 1,
            first: run,
        }
    }

    /// In these runs and in others. Fails only where they are 2^64 or more.
    pub fn and(self, other: Seen) -> Result<Seen, AllocError>
        ensures { IfOk result (λ seen. seen ≡ both self other) }
    {
        let Some(runs) = self.runs.checked_add(other.runs) else {
            return Err(AllocError);
        };
        Ok(Seen {
            runs,
            first: self.first.min(other.first),
        })
    }
}

/// The same, where either was perhaps not seen.
pub fn either(one: Option<Seen>, other: Option<Seen>) -> Result<Option<Seen>, AllocError>
    ensures { IfOk result (λ seen. seen ≡ either one other) }
{
    match (one, other) {
        (None, _) => Ok(other),
        (Some(_), None) => Ok(one),
        (Some(seen), Some(more)) => Ok(Some(seen.and(more)?)),
    }
}
