//! The answers.

ghost use Rattle.std.specs.Prelude.{◌≡◌, ◌+◌, IfOk, IfErr, false, string_bytes};
ghost use Rattle.cheri_model.specs.runs.Machine.{opening_state};
ghost use Rattle.conditions.specs.Items.{list_of};
ghost use Rattle.outcome_texts.specs.Answers.{IsFound, IsListedAnswer, IsShownAnswer};
ghost use Rattle.shown_states.specs.Endings.{ending_of, failures_of, IsUnwritten, IsWritten};
ghost use Rattle.shown_states.specs.declared.form.Ending.{Ending};
ghost use Rattle.states.specs.Kept.{count};
ghost use Rattle.states.specs.Searches.{IsSearchable, search_of};

use crate::heads::Head;
use crate::listed::listed_text;
use crate::searching::{Searched, search_outcomes};
use crate::shown::shown_text;
use crate::told::{outcomes_told, rows_told};
use cheri_model::NoMemory;
use conditions::Items;
use cores::Core;
use found_texts::opened;
use graph_search::Progress;
use outcomes::rows_of;
use shown_states::{Answer, Ending, Format, Loaded, put_answer};
use sinks::{Sink, WriteFault};
use states::Search;
use std::alloc::Global;

impl Searched {
    /// Whether an answer speaks of all states.
    fn ending(&self) -> Ending
        ensures { result ≡ ending_of self.now.kept.complete }
    {
        Ending::of_search(self.kept.is_complete())
    }
}

/// What an answer begins with: nothing was forgotten.
fn head_of(searched: &Searched) -> Head<'_>
    ensures reduced { result.reduced ≡ false }
    ensures image { result.image.now ≡ searched.now.kept.image }
    ensures complete { result.complete ≡ searched.now.kept.complete }
    ensures states { result.states ≡ count searched.now.kept }
    ensures endless { result.endless.now ≡ searched.now.endless }
{
    Head {
        reduced: false,
        image: searched.kept.image(),
        complete: searched.kept.is_complete(),
        states: searched.kept.len(),
        endless: &searched.endless,
    }
}

/// The answer of the outcomes that were found.
fn listed_answer(
    alloc: Global,
    search: &Search<'_>,
    format: Format,
    core: &Core,
    searched: &Searched,
) -> Result<Answer, NoMemory>
    requires found { IsFound (search_of search.now) searched.now }
    requires opening { core.now.state ≡ opening_state search.now.image.now }
    ensures { IfOk result (λ answer. IsListedAnswer (search_of search.now) format
        (string_bytes answer.text) answer.ending) }
{
    // Its clause says that the image is one.
    let _granules = searched.kept.image().granules();
    let told = outcomes_told(alloc, &searched.kept, searched.outcomes.as_slice())?;
    let view = core.view();
    let mut state = Loaded::new(alloc, view.harts, view.ram)?;
    let head = head_of(searched);
    let text = listed_text(
        alloc,
        format,
        head,
        &mut state,
        &searched.kept,
        told.as_slice(),
    )?;
    let ending = searched.ending();
    Ok(Answer { text, ending })
}

/// The answer of the rows of the outcomes that were found.
fn shown_answer(
    alloc: Global,
    search: &Search<'_>,
    items: &Items<'_>,
    format: Format,
    searched: &Searched,
) -> Result<Answer, NoMemory>
    requires found { IsFound (search_of search.now) searched.now }
    ensures { IfOk result (λ answer. IsShownAnswer (search_of search.now) (list_of items.now)
        format (string_bytes answer.text) answer.ending) }
{
    let shown = items.shown.as_slice();
    let outcomes = searched.outcomes.as_slice();
    let rows = rows_of(alloc, &searched.kept, shown, outcomes)?;
    let told = rows_told(alloc, &searched.kept, shown, rows.as_slice())?;
    let head = head_of(searched);
    let names = items.names.as_slice();
    let text = shown_text(alloc, format, head, outcomes.len(), names, told.as_slice())?;
    let ending = searched.ending();
    Ok(Answer { text, ending })
}

/// The answer to a search for outcomes.
fn answer_listed<P: Progress>(
    alloc: Global,
    search: &Search<'_>,
    format: Format,
    progress: &mut P,
) -> Result<Answer, NoMemory>
    requires { IsSearchable (search_of search.now) }
    ensures { IfOk result (λ answer. IsListedAnswer (search_of search.now) format
        (string_bytes answer.text) answer.ending) }
{
    let core = opened(alloc, search.image)?;
    let searched = search_outcomes(alloc, search, &core, progress)?;
    listed_answer(alloc, search, format, &core, &searched)
}

/// The answer to a search for outcomes of which items are shown.
fn answer_shown<P: Progress>(
    alloc: Global,
    search: &Search<'_>,
    items: &Items<'_>,
    format: Format,
    progress: &mut P,
) -> Result<Answer, NoMemory>
    requires { IsSearchable (search_of search.now) }
    ensures { IfOk result (λ answer. IsShownAnswer (search_of search.now) (list_of items.now)
        format (string_bytes answer.text) answer.ending) }
{
    let core = opened(alloc, search.image)?;
    let searched = search_outcomes(alloc, search, &core, progress)?;
    shown_answer(alloc, search, items, format, &searched)
}

/// Searches the states that an image reaches, and writes those in which no hart runs, each with the
/// order that leads to it. Where memory runs out, nothing is written; where the sink fails, it took
/// a prefix of the answer.
pub fn list_outcomes<P: Progress, S: Sink>(
    alloc: Global,
    search: &Search<'_>,
    format: Format,
    progress: &mut P,
    sink: &mut S,
) -> Result<Ending, WriteFault>
    requires { IsSearchable (search_of search.now) }
    ensures written { IfOk result (λ ending. IsWritten
        (λ text. IsListedAnswer (search_of search.now) format text ending)
        (S.written sink.old) (S.written sink.new)) }
    ensures begun { IfErr result (IsUnwritten (λ text. (ending : Ending)
        × IsListedAnswer (search_of search.now) format text ending)
        (S.written sink.old) (S.written sink.new)) }
    ensures failures { S.failures sink.new ≡ S.failures sink.old + failures_of result }
    ensures identity { S.identity sink.new ≡ S.identity sink.old }
{
    let answer = answer_listed(alloc, search, format, progress)?;
    put_answer(sink, &answer)
}

/// The same, told by what items hold in the states: each distinct row of values, with how many
/// outcomes have it and the order that leads to the first of them.
pub fn show_outcomes<P: Progress, S: Sink>(
    alloc: Global,
    search: &Search<'_>,
    items: &Items<'_>,
    format: Format,
    progress: &mut P,
    sink: &mut S,
) -> Result<Ending, WriteFault>
    requires { IsSearchable (search_of search.now) }
    ensures written { IfOk result (λ ending. IsWritten
        (λ text. IsShownAnswer (search_of search.now) (list_of items.now) format text ending)
        (S.written sink.old) (S.written sink.new)) }
    ensures begun { IfErr result (IsUnwritten (λ text. (ending : Ending)
        × IsShownAnswer (search_of search.now) (list_of items.now) format text ending)
        (S.written sink.old) (S.written sink.new)) }
    ensures failures { S.failures sink.new ≡ S.failures sink.old + failures_of result }
    ensures identity { S.identity sink.new ≡ S.identity sink.old }
{
    let answer = answer_shown(alloc, search, items, format, progress)?;
    put_answer(sink, &answer)
}
