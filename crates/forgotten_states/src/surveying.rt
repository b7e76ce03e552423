//! Whole searches.

ghost use Rattle.std.specs.Prelude.{◌≡◌, [], false, IfOk};
ghost use Rattle.cheri_model.specs.runs.Machine.{opening_state};
ghost use Rattle.explore_sights.specs.Sights.{hides};
ghost use Rattle.forgotten_states.specs.Surveys.{IsSurveyOf};
ghost use Rattle.forgotten_turns.specs.ForgottenTurns.{HidesForgotten};
ghost use Rattle.live_registers.specs.LiveSets.{IsRight};
ghost use Rattle.states.specs.Searches.{IsSearchable, search_of};

use crate::nodes::{Nodes, Turns};
use crate::seeking::Matters;
use crate::surveys::Survey;
use cores::Core;
use graph_search::Progress;
use states::Search;
use std::alloc::{AllocError, Global};

/// The states that any order of steps leads to from a search's opening state, which `core` has,
/// told apart only by what matters to some questions, and not by the order of harts of one group: as
/// many as the limit, or all. Without sweeps, and by turns. Fails only when out of memory, or of
/// numbers past 2^32.
pub fn survey<'a, P: Progress>(
    alloc: Global,
    search: &Search<'a>,
    matters: Matters<'a>,
    core: &Core,
    progress: &mut P,
) -> Result<Survey<'a>, AllocError>
    requires search { IsSearchable (search_of search.now) }
    requires turns { search.now.every_step ≡ false }
    requires unswept { search.now.sweeps.now ≡ [] }
    requires opening { core.now.state ≡ opening_state search.now.image.now }
    requires right { IsRight search.now.image.now.program matters.live.now }
    requires hidden { HidesForgotten matters.live.now (hides matters.sees.now) }
    ensures { IfOk result (λ survey. IsSurveyOf (search_of search.now) matters.entry.sees.now
        matters.entry.live.now matters.entry.groups survey) }
{
    let turns = Turns {
        image: search.image,
        sees: matters.sees,
        live: matters.live,
        groups: matters.groups,
    };
    let nodes = Nodes::search(alloc, turns, core, search.limit, progress)?;
    Ok(Survey { turns, nodes })
}
