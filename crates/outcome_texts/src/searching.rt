//! The search.

ghost use Rattle.std.specs.Prelude.{◌≡◌, IfOk};
ghost use Rattle.cheri_model.specs.runs.Machine.{opening_state};
ghost use Rattle.outcome_texts.specs.Answers.{IsFound};
ghost use Rattle.states.specs.Searches.{IsSearchable, search_of};

use cores::Core;
use explore_sights::Sight;
use graph_search::Progress;
use outcomes::outcomes_of;
use state_loops::{Endless, endless_of};
use states::{Kept, Search, search_from};
use std::alloc::{AllocError, Global};

/// The kept states, whether runs through them can go on for ever, and which of them are outcomes.
#[derive(Drop)]
pub struct Searched {
    pub kept: Kept,
    pub endless: Endless,
    pub outcomes: Vec<u32>,
}

/// Searches the states that a machine reaches. Fails only when out of memory, or of numbers past
/// 2^32.
pub fn search_outcomes<P: Progress>(
    alloc: Global,
    search: &Search<'_>,
    core: &Core,
    progress: &mut P,
) -> Result<Searched, AllocError>
    requires search { IsSearchable (search_of search.now) }
    requires opening { core.now.state ≡ opening_state search.now.image.now }
    ensures { IfOk result (IsFound (search_of search.now)) }
{
    let kept = search_from(alloc, search, &Sight::NoStep, core, progress)?;
    let judged = endless_of(alloc, kept)?;
    // Their clauses say that this is a search, and where every order leads to a kept state.
    let (_count, _complete) = (judged.kept.len(), judged.kept.is_complete());
    let outcomes = outcomes_of(alloc, &judged.kept)?;
    Ok(Searched {
        kept: judged.kept,
        endless: judged.endless,
        outcomes,
    })
}
