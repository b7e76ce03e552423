//! The answers of a search that takes one order of the harts of each group for all.

ghost use Rattle.std.specs.Prelude.{◌≡◌, ◌<◌, ℕ, [], false, true, IfOk, string_bytes};
ghost use Rattle.alike_outcomes.specs.AlikeOutcomes.{
  IsAlikeListedAnswer,
  IsAlikeShownAnswer,
  IsAlikeSurvey,
};
ghost use Rattle.asked_registers.specs.Asked.{HasAsked, items_ask};
ghost use Rattle.conditions.specs.Items.{list_of};
ghost use Rattle.forgotten_states.specs.Surveys.{count};
ghost use Rattle.hart_order.specs.GroupedTurns.{keeps_number};
ghost use Rattle.hart_symmetry.specs.Named.{NamedStay};
ghost use Rattle.live_registers.specs.LiveSets.{IsRight};
ghost use Rattle.live_registers.specs.RegisterSets.{has};
ghost use Rattle.named_items.specs.NamedItems.{items_name};
ghost use Rattle.reductions.specs.Reductions.{left_out_of};
ghost use Rattle.states.specs.Searches.{IsSearchable, search_of};

use crate::heads::Head;
use crate::listed::listed_text;
use crate::searching::{Surveyed, survey_outcomes};
use crate::shown::shown_text;
use crate::told::orders_to;
use cheri_model::NoMemory;
use conditions::Items;
use explore_sights::Sight;
use forgotten_outcomes::{Nodes, rows_told};
use forgotten_states::Matters;
use found_texts::opened;
use graph_search::Progress;
use outcomes::rows_of;
use reductions::Reduction;
use shown_states::{Answer, Ending, Format};
use states::Search;
use std::alloc::Global;

/// What an answer begins with.
fn head_of<'a>(reduction: &Reduction, surveyed: &'a Surveyed<'_>) -> Head<'a>
    ensures left_out { result.left_out ≡ left_out_of reduction.now.live reduction.now.groups }
    ensures image { result.image.now ≡ surveyed.now.survey.image }
    ensures complete { result.complete ≡ surveyed.now.survey.complete }
    ensures states { result.states ≡ count surveyed.now.survey }
{
    Head {
        left_out: reduction.left_out(),
        image: surveyed.survey.image(),
        complete: surveyed.survey.is_complete(),
        states: surveyed.survey.len(),
    }
}

/// The answer of the outcomes that were found.
fn listed_answer(
    alloc: Global,
    search: &Search<'_>,
    reduction: &Reduction,
    format: Format,
    surveyed: &Surveyed<'_>,
) -> Result<Answer, NoMemory>
    requires asked { (reg : ℕ) → reg < 32 → has reduction.now.live.asked reg ≡ true }
    requires found { IsAlikeSurvey (search_of search.now) reduction.now.live reduction.now.groups
        surveyed.now.survey surveyed.now.outcomes.items }
    ensures { IfOk result (λ answer. IsAlikeListedAnswer (search_of search.now)
        reduction.now.live reduction.now.groups format (string_bytes answer.text) answer.ending) }
{
    let survey = &surveyed.survey;
    let orders = orders_to(alloc, survey, surveyed.outcomes.as_slice())?;
    let head = head_of(reduction, surveyed);
    let text = listed_text(alloc, format, head, orders.as_slice())?;
    let ending = Ending::of_search(survey.is_complete());
    Ok(Answer { text, ending })
}

/// The answer of the rows of the outcomes that were found.
fn shown_answer(
    alloc: Global,
    search: &Search<'_>,
    items: &Items<'_>,
    reduction: &Reduction,
    format: Format,
    surveyed: &Surveyed<'_>,
) -> Result<Answer, NoMemory>
    requires asked { HasAsked reduction.now.live.asked (items_ask items.now.shown.items) }
    requires named { NamedStay (keeps_number reduction.now.groups)
        (items_name items.now.shown.items) }
    requires found { IsAlikeSurvey (search_of search.now) reduction.now.live reduction.now.groups
        surveyed.now.survey surveyed.now.outcomes.items }
    ensures { IfOk result (λ answer. IsAlikeShownAnswer (search_of search.now)
        (list_of items.now) reduction.now.live reduction.now.groups format
        (string_bytes answer.text) answer.ending) }
{
    let survey = &surveyed.survey;
    let shown = items.shown.as_slice();
    let outcomes = surveyed.outcomes.as_slice();
    let rows = rows_of(alloc, &Nodes { survey }, shown, outcomes)?;
    let told = rows_told(alloc, survey, shown, rows.as_slice())?;
    let head = head_of(reduction, surveyed);
    let names = items.names.as_slice();
    let text = shown_text(alloc, format, head, names, told.as_slice())?;
    let ending = Ending::of_search(survey.is_complete());
    Ok(Answer { text, ending })
}

/// The answer where whole states are listed: all registers are asked for.
pub(crate) fn answer_listed<P: Progress>(
    alloc: Global,
    search: &Search<'_>,
    reduction: &Reduction,
    format: Format,
    progress: &mut P,
) -> Result<Answer, NoMemory>
    requires search { IsSearchable (search_of search.now) }
    requires turns { search.now.every_step ≡ false }
    requires unswept { search.now.sweeps.now ≡ [] }
    requires right { IsRight search.now.image.now.program reduction.now.live }
    requires asked { (reg : ℕ) → reg < 32 → has reduction.now.live.asked reg ≡ true }
    ensures { IfOk result (λ answer. IsAlikeListedAnswer (search_of search.now)
        reduction.now.live reduction.now.groups format (string_bytes answer.text) answer.ending) }
{
    let core = opened(alloc, search.image)?;
    let sees = Sight::NoStep;
    let matters = Matters {
        sees: &sees,
        live: &reduction.live,
        groups: reduction.groups,
    };
    let found = survey_outcomes(alloc, search, matters, &core, progress)?;
    listed_answer(alloc, search, reduction, format, &found)
}

/// The answer where items are shown: the harts that they name keep their numbers.
pub(crate) fn answer_shown<P: Progress>(
    alloc: Global,
    search: &Search<'_>,
    items: &Items<'_>,
    reduction: &Reduction,
    format: Format,
    progress: &mut P,
) -> Result<Answer, NoMemory>
    requires search { IsSearchable (search_of search.now) }
    requires turns { search.now.every_step ≡ false }
    requires unswept { search.now.sweeps.now ≡ [] }
    requires right { IsRight search.now.image.now.program reduction.now.live }
    requires asked { HasAsked reduction.now.live.asked (items_ask items.now.shown.items) }
    requires named { NamedStay (keeps_number reduction.now.groups)
        (items_name items.now.shown.items) }
    ensures { IfOk result (λ answer. IsAlikeShownAnswer (search_of search.now)
        (list_of items.now) reduction.now.live reduction.now.groups format
        (string_bytes answer.text) answer.ending) }
{
    let core = opened(alloc, search.image)?;
    let sees = Sight::NoStep;
    let matters = Matters {
        sees: &sees,
        live: &reduction.live,
        groups: reduction.groups,
    };
    let found = survey_outcomes(alloc, search, matters, &core, progress)?;
    shown_answer(alloc, search, items, reduction, format, &found)
}
