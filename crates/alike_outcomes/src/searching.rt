//! The search.

ghost use Rattle.std.specs.Prelude.{◌≡◌, [], false, IfOk};
ghost use Rattle.alike_outcomes.specs.AlikeOutcomes.{IsAlikeSurvey};
ghost use Rattle.cheri_model.specs.runs.Machine.{opening_state};
ghost use Rattle.live_registers.specs.LiveSets.{IsRight};
ghost use Rattle.states.specs.Searches.{IsSearchable, search_of};

use cores::Core;
use explore_sights::Sight;
use forgotten_outcomes::Nodes;
use forgotten_states::{Matters, Survey, survey};
use graph_search::Progress;
use outcomes::outcomes_of;
use states::Search;
use std::alloc::{AllocError, Global};

/// The states that a search kept, and the numbers of those in which no hart runs.
#[derive(Drop)]
pub(crate) struct Surveyed<'a> {
    pub survey: Survey<'a>,
    pub outcomes: Vec<u32>,
}

/// Searches the states that a machine reaches, told apart by what matters to no step that is seen,
/// and not by which hart of a group stands where. Fails only when out of memory, or of numbers past
/// 2^32.
pub(crate) fn survey_outcomes<'a, P: Progress>(
    alloc: Global,
    search: &Search<'a>,
    matters: Matters<'a>,
    core: &Core,
    progress: &mut P,
) -> Result<Surveyed<'a>, AllocError>
    requires search { IsSearchable (search_of search.now) }
    requires turns { search.now.every_step ≡ false }
    requires unswept { search.now.sweeps.now ≡ [] }
    requires opening { core.now.state ≡ opening_state search.now.image.now }
    requires right { IsRight search.now.image.now.program matters.live.now }
    requires sight { matters.sees.now ≡ Sight.NoStep }
    ensures { IfOk result (λ found. IsAlikeSurvey (search_of search.now) matters.entry.live.now
        matters.entry.groups found.survey found.outcomes.items) }
{
    let survey = survey(alloc, search, matters, core, progress)?;
    // Its clause says that these are the first nodes, or all.
    let _count = survey.len();
    let outcomes = outcomes_of(alloc, &Nodes { survey: &survey })?;
    Ok(Surveyed { survey, outcomes })
}
