//! The one hart that a part of a condition speaks of, if it is of one alone.
#![tactic(auto, unfolding(crate::proofs::Unfold::alone))]

ghost use Rattle.std.specs.Prelude.{◌≡◌};
ghost use Rattle.conditions.specs.Hiding.{
  alone_atom,
  alone_both,
  alone_holder,
  alone_source,
  alone_with,
  is_of,
  is_same,
};

use crate::parts::{Atom, Holder, Source, Subject, Term};

impl Subject {
    /// Whether this is the same.
    fn is_same(self, other: Subject) -> bool
        ensures { result ≡ is_same self other }
    {
        match (self, other) {
            (Subject::Numbered(one), Subject::Numbered(other)) => one == other,
            (Subject::Each, Subject::Each) => true,
            _ => false,
        }
    }

    /// Whether something is of this hart alone.
    pub(crate) fn is_of(self, other: Option<Subject>) -> bool
        ensures { result ≡ is_of self other }
    {
        match other {
            Some(other) => self.is_same(other),
            None => false,
        }
    }
}

/// The hart that two parts speak of alone.
pub(crate) fn alone_both(first: Option<Subject>, second: Option<Subject>) -> Option<Subject>
    ensures { result ≡ alone_both first second }
{
    match first {
        Some(who) if who.is_of(second) => Some(who),
        _ => None,
    }
}

impl Holder {
    /// The hart of this.
    fn alone(self) -> Option<Subject>
        ensures { result ≡ alone_holder self }
    {
        match self {
            Holder::Register(hart, _) | Holder::Pcc(hart) => Some(Subject::Numbered(hart)),
            Holder::Granule(_) => None,
        }
    }
}

impl Source {
    /// The hart of this.
    pub(crate) fn alone(self) -> Option<Subject>
        ensures { result ≡ alone_source self }
    {
        match self {
            Source::Value(held, _) => held.alone(),
            Source::Data(_, _) => None,
            Source::Each(_, _) => Some(Subject::Each),
        }
    }
}

impl Term {
    /// The hart of a number that is compared with this.
    fn alone_with(self, first: Option<Subject>) -> Option<Subject>
        ensures { result ≡ alone_with first self }
    {
        match self {
            Term::Number(_) => first,
            Term::Source(source) => alone_both(first, source.alone()),
        }
    }
}

impl Atom {
    /// The hart that it speaks of alone.
    pub(crate) fn alone(self) -> Option<Subject>
        ensures { result ≡ alone_atom self }
    {
        match self {
            Atom::Compares(source, _, term) => term.alone_with(source.alone()),
            Atom::HasStatus(who, _)
            | Atom::Reaches(who, _, _)
            | Atom::IsAt(who, _)
            | Atom::IsIn(who, _, _) => Some(who),
        }
    }
}
