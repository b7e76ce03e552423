//! Which events of a run are shown.

#![tactic(auto, unfolding(crate::specs::Explanation::is_shown))]

ghost use Rattle.std.specs.Prelude.{◌≡◌};
ghost use Rattle.explanations.specs.Explanation.{is_shown};
ghost use Rattle.explanations.specs.Filters.{passes};
ghost use Rattle.explanations.specs.NextFacts.{explained_of};

use crate::followed::EventAndFacts;
use crate::lines::InstructionLines;
use cheri_model::Event;

/// Which facts an event must have to be shown.
#[derive(Clone, Copy)]
pub enum Filter {
    /// None: every event is shown.
    All,
    /// It trapped.
    Traps,
    /// A tag was cleared.
    Clears,
    /// It trapped, or a tag was cleared.
    TrapsOrClears,
}

impl Filter {
    /// Whether it shows an event that trapped, or that cleared a tag.
    fn passes(self, trapped: bool, cleared: bool) -> bool
        ensures { result ≡ passes self trapped cleared }
    {
        match self {
            Filter::All => true,
            Filter::Traps => trapped,
            Filter::Clears => cleared,
            Filter::TrapsOrClears => trapped || cleared,
        }
    }
}

/// Which events of a run are shown. They are counted from 0, over the whole run.
#[derive(Clone, Copy)]
pub struct Selection {
    /// The first event that may be shown.
    pub first: u32,
    /// The last one.
    pub last: u32,
    /// What it must have.
    pub filter: Filter,
}

impl Selection {
    /// Whether the event with this number is shown.
    pub(crate) fn shows(self, number: usize, taken: &EventAndFacts<'_>) -> bool
        ensures { result ≡ is_shown self number (explained_of taken.now).1 }
    {
        let (trapped, cleared) = match taken.event {
            Event::Step(_) => (taken.facts.traps.is_some(), taken.facts.clears.is_some()),
            Event::Sweep { .. } => (false, !taken.places.is_empty()),
        };
        self.first as usize <= number
            && number <= self.last as usize
            && self.filter.passes(trapped, cleared)
    }
}

/// Which events are shown, and the line of each instruction.
#[derive(Clone, Copy)]
pub(crate) struct Shown<'a> {
    pub lines: &'a InstructionLines<'a>,
    pub selection: Selection,
}
