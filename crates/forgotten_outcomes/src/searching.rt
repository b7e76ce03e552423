//! The search.

ghost use Rattle.std.specs.Prelude.{◌≡◌, [], false, IfOk};
ghost use Rattle.cheri_model.specs.runs.Machine.{opening_state};
ghost use Rattle.forgotten_outcomes.specs.ShownStates.{IsSurveyed};
ghost use Rattle.hart_order.specs.Arrangements.{IsUngrouped};
ghost use Rattle.live_registers.specs.LiveSets.{IsRight};
ghost use Rattle.states.specs.Searches.{IsSearchable, search_of};

use cores::Core;
use explore_sights::Sight;
use forgotten_loops::endless_of;
use forgotten_states::{Matters, Survey, survey};
use graph_search::Progress;
use live_registers::LiveRegisters;
use outcomes::{NumberedStates, outcomes_of};
use state_loops::Endless;
use state_store::State;
use states::{Room, Search};
use std::alloc::{AllocError, Global};

/// The states of a survey by their numbers.
#[derive(Clone, Copy)]
pub struct Nodes<'a> {
    pub survey: &'a Survey<'a>,
}

impl NumberedStates for Nodes<'_> {
    ghost use Rattle.forgotten_states.specs.Surveys as surveys;

    ghost at = { λ nodes. surveys.at nodes.survey.now };

    ghost count = { λ nodes. surveys.count nodes.survey.now };

    fn len(&self) -> u32 {
        self.survey.len()
    }

    fn state<'b>(&'b self, number: u32, room: &'b mut Room) -> State<'b> {
        self.survey.state(number, room)
    }
}

/// The states that a search kept, whether runs through them can go on for ever, and the numbers of
/// those in which no hart runs.
#[derive(Drop)]
pub(crate) struct Surveyed<'a> {
    pub survey: Survey<'a>,
    pub endless: Endless,
    pub outcomes: Vec<u32>,
}

/// Searches the states that a machine reaches, told apart by what matters to no step that is seen,
/// and by which hart is which. Fails only when out of memory, or of numbers past 2^32.
pub(crate) fn survey_outcomes<'a, P: Progress>(
    alloc: Global,
    search: &Search<'a>,
    matters: Matters<'a>,
    core: &Core,
    progress: &mut P,
) -> Result<Surveyed<'a>, AllocError>
    requires search { IsSearchable (search_of search.now) }
    requires turns { search.now.every_step ≡ false }
    requires unswept { search.now.sweeps.now ≡ [] }
    requires opening { core.now.state ≡ opening_state search.now.image.now }
    requires right { IsRight search.now.image.now.program matters.live.now }
    requires sight { matters.sees.now ≡ Sight.NoStep }
    requires ungrouped { IsUngrouped matters.groups }
    ensures { IfOk result (λ found. IsSurveyed (search_of search.now) matters.entry.live.now
        matters.entry.groups found.survey found.endless found.outcomes.items) }
{
    let survey = survey(alloc, search, matters, core, progress)?;
    let judged = endless_of(alloc, survey)?;
    // Its clause says that these are the first nodes, or all.
    let _count = judged.survey.len();
    let outcomes = outcomes_of(
        alloc,
        &Nodes {
            survey: &judged.survey,
        },
    )?;
    Ok(Surveyed {
        survey: judged.survey,
        endless: judged.endless,
        outcomes,
    })
}
