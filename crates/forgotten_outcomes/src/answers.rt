//! The answers.

ghost use Rattle.std.specs.Prelude.{◌≡◌, ◌+◌, [], false, true, IfErr, IfOk, string_bytes};
ghost use Rattle.asked_registers.specs.Asked.{HasAsked, items_ask};
ghost use Rattle.conditions.specs.Items.{list_of};
ghost use Rattle.forgotten_outcomes.specs.ShownStates.{
  IsReducedShownAnswer,
  IsShownStatesAnswer,
  IsSurveyed,
};
ghost use Rattle.forgotten_states.specs.Surveys.{count};
ghost use Rattle.hart_order.specs.Arrangements.{IsUngrouped};
ghost use Rattle.live_registers.specs.LiveSets.{IsRight};
ghost use Rattle.named_harts.specs.NamedHarts.{IsSetOf};
ghost use Rattle.shown_states.specs.Endings.{IsUnwritten, IsWritten, failures_of};
ghost use Rattle.shown_states.specs.declared.form.Ending.{Ending};
ghost use Rattle.states.specs.Searches.{IsSearchable, search_of};

use crate::searching::{Nodes, Surveyed, survey_outcomes};
use crate::told::rows_told;
use asked_registers::with_items;
use cheri_model::NoMemory;
use conditions::Items;
use explore_sights::Sight;
use forgotten_states::Matters;
use found_texts::opened;
use graph_search::Progress;
use live_registers::RegisterSet;
use named_harts::HartSet;
use outcome_texts::{Head, show_outcomes, shown_text};
use outcomes::rows_of;
use reductions::{Keeps, Reduction, reduction_of};
use shown_states::{Answer, Ending, Format, put_answer};
use sinks::{Sink, WriteFault};
use states::Search;
use std::alloc::Global;

/// How outcomes are shown.
#[derive(Clone, Copy)]
pub struct Manner {
    pub format: Format,
    /// Whether states are told apart by all registers.
    pub keeps_registers: bool,
}

/// The registers that items ask for.
fn asked_for(items: &Items<'_>) -> RegisterSet
    ensures { HasAsked result (items_ask items.now.shown.items) }
{
    with_items(RegisterSet::none(), items.shown.as_slice())
}

/// All harts, each of which is told apart from all others.
fn all_harts() -> HartSet
    ensures { IsSetOf (λ hart. true) result }
{
    [true; 8]
}

/// What an answer begins with: registers were forgotten.
fn head_of<'a>(surveyed: &'a Surveyed<'_>) -> Head<'a>
    ensures reduced { result.reduced ≡ true }
    ensures image { result.image.now ≡ surveyed.now.survey.image }
    ensures complete { result.complete ≡ surveyed.now.survey.complete }
    ensures states { result.states ≡ count surveyed.now.survey }
    ensures endless { result.endless.now ≡ surveyed.now.endless }
{
    Head {
        reduced: true,
        image: surveyed.survey.image(),
        complete: surveyed.survey.is_complete(),
        states: surveyed.survey.len(),
        endless: &surveyed.endless,
    }
}

/// The answer of the rows of the outcomes that were found.
fn surveyed_answer(
    alloc: Global,
    search: &Search<'_>,
    items: &Items<'_>,
    reduction: &Reduction,
    format: Format,
    surveyed: &Surveyed<'_>,
) -> Result<Answer, NoMemory>
    requires asked { HasAsked reduction.now.live.asked (items_ask items.now.shown.items) }
    requires ungrouped { IsUngrouped reduction.now.groups }
    requires found { IsSurveyed (search_of search.now) reduction.now.live reduction.now.groups
        surveyed.now.survey surveyed.now.endless surveyed.now.outcomes.items }
    ensures { IfOk result (λ answer. IsReducedShownAnswer (search_of search.now)
        (list_of items.now) reduction.now.live reduction.now.groups format
        (string_bytes answer.text) answer.ending) }
{
    let survey = &surveyed.survey;
    let shown = items.shown.as_slice();
    let outcomes = surveyed.outcomes.as_slice();
    let rows = rows_of(alloc, &Nodes { survey }, shown, outcomes)?;
    let told = rows_told(alloc, survey, shown, rows.as_slice())?;
    let head = head_of(surveyed);
    let names = items.names.as_slice();
    let text = shown_text(alloc, format, head, outcomes.len(), names, told.as_slice())?;
    let ending = Ending::of_search(survey.is_complete());
    Ok(Answer { text, ending })
}

/// The answer where states are told apart by all harts, but only by the registers that matter: to
/// the program, and to the items.
fn answer_reduced<P: Progress>(
    alloc: Global,
    search: &Search<'_>,
    items: &Items<'_>,
    reduction: &Reduction,
    format: Format,
    progress: &mut P,
) -> Result<Answer, NoMemory>
    requires search { IsSearchable (search_of search.now) }
    requires turns { search.now.every_step ≡ false }
    requires unswept { search.now.sweeps.now ≡ [] }
    requires right { IsRight search.now.image.now.program reduction.now.live }
    requires asked { HasAsked reduction.now.live.asked (items_ask items.now.shown.items) }
    requires ungrouped { IsUngrouped reduction.now.groups }
    ensures { IfOk result (λ answer. IsReducedShownAnswer (search_of search.now)
        (list_of items.now) reduction.now.live reduction.now.groups format
        (string_bytes answer.text) answer.ending) }
{
    let core = opened(alloc, search.image)?;
    let sees = Sight::NoStep;
    let matters = Matters {
        sees: &sees,
        live: &reduction.live,
        groups: reduction.groups,
    };
    let surveyed = survey_outcomes(alloc, search, matters, &core, progress)?;
    surveyed_answer(alloc, search, items, reduction, format, &surveyed)
}

/// Searches the states that an image reaches, and writes what items hold in those in which no hart
/// runs, as `show_outcomes`. States that differ only in registers which no longer matter count as
/// one, if all are not to be kept and the search allows it; the answer says so where it is done,
/// and doesn't count outcomes then. Where memory runs out, nothing is written; where the sink
/// fails, it took a prefix of the answer.
pub fn show_states<P: Progress, S: Sink>(
    alloc: Global,
    search: &Search<'_>,
    items: &Items<'_>,
    manner: Manner,
    progress: &mut P,
    sink: &mut S,
) -> Result<Ending, WriteFault>
    requires { IsSearchable (search_of search.now) }
    ensures written { IfOk result (λ ending. IsWritten
        (λ text. IsShownStatesAnswer manner.keeps_registers (search_of search.now)
        (list_of items.now) manner.format text ending) (S.written sink.old) (S.written sink.new)) }
    ensures begun { IfErr result (IsUnwritten (λ text. (ending : Ending)
        × IsShownStatesAnswer manner.keeps_registers (search_of search.now) (list_of items.now)
        manner.format text ending) (S.written sink.old) (S.written sink.new)) }
    ensures failures { S.failures sink.new ≡ S.failures sink.old + failures_of result }
    ensures identity { S.identity sink.new ≡ S.identity sink.old }
{
    let asked = asked_for(items);
    let keeps = Keeps {
        registers: manner.keeps_registers,
        harts: true,
    };
    let Some(reduction) = reduction_of(alloc, search, keeps, asked, &all_harts())? else {
        return show_outcomes(alloc, search, items, manner.format, progress, sink);
    };
    let answer = answer_reduced(alloc, search, items, &reduction, manner.format, progress)?;
    put_answer(sink, &answer)
}
