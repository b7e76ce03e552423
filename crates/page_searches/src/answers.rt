//! What a search answers, kept in memory.

ghost use Rattle.std.specs.Prelude.{◌≡◌, IfOk, string_bytes};
ghost use Rattle.conditions.specs.Items.{list_of};
ghost use Rattle.states.specs.Searches.{IsSearchable, search_of};
ghost use Rattle.page_searches.specs.Answered.{AreOutcomes, AreRows, AreVerdicts, IsFound};

use conditions::{Condition, Items};
use explore_properties::Property;
use forgotten_checks::check_states;
use forgotten_outcomes::{Manner, show_states};
use found_texts::find_state;
use graph_search::NoProgress;
use outcome_texts::list_outcomes;
use reductions::Keeps;
use shown_states::{Answer, Format, put_answer};
use sinks::{MemSink, WriteFault};
use states::Search;
use std::alloc::Global;

/// Whatever doesn't matter to a question may be left out, as by default in the program.
const KEEPS_NOTHING: Keeps = Keeps {
    registers: false,
    harts: false,
};

/// An answer's text.
pub(crate) fn kept(alloc: Global, answer: &Answer) -> Result<MemSink, WriteFault>
    ensures { IfOk result (λ said. said.bytes ≡ string_bytes answer.now.text) }
{
    let mut sink = MemSink::new(alloc, 0, usize::MAX);
    put_answer(&mut sink, answer)?;
    Ok(sink)
}

/// Each outcome, with an order that leads to it.
pub fn outcomes(alloc: Global, search: &Search<'_>) -> Result<MemSink, WriteFault>
    requires { IsSearchable (search_of search.now) }
    ensures { IfOk result (λ said. AreOutcomes (search_of search.now) said.bytes) }
{
    let mut sink = MemSink::new(alloc, 0, usize::MAX);
    list_outcomes(alloc, search, Format::Json, &mut NoProgress, &mut sink)?;
    Ok(sink)
}

/// Each row of what items hold in outcomes.
pub fn rows(alloc: Global, search: &Search<'_>, items: &Items<'_>) -> Result<MemSink, WriteFault>
    requires { IsSearchable (search_of search.now) }
    ensures { IfOk result (λ said. AreRows (search_of search.now, list_of items.now) said.bytes) }
{
    let mut sink = MemSink::new(alloc, 0, usize::MAX);
    let manner = Manner {
        format: Format::Json,
        keeps_registers: false,
    };
    show_states(alloc, search, items, manner, &mut NoProgress, &mut sink)?;
    Ok(sink)
}

/// A state in which a condition holds, with an order that leads to it; or that there is none.
pub fn found(
    alloc: Global,
    search: &Search<'_>,
    condition: &Condition,
) -> Result<MemSink, WriteFault>
    requires { IsSearchable (search_of search.now) }
    ensures { IfOk result (λ said. IsFound (search_of search.now, condition.now) said.bytes) }
{
    let told = find_state(
        alloc,
        search,
        condition,
        KEEPS_NOTHING,
        Format::Json,
        &mut NoProgress,
    )?;
    kept(alloc, &told.answer)
}

/// The verdict on each property.
pub fn verdicts(
    alloc: Global,
    search: &Search<'_>,
    properties: &[Property<'_>],
) -> Result<MemSink, WriteFault>
    requires { IsSearchable (search_of search.now) }
    ensures { IfOk result (λ said. AreVerdicts (search_of search.now, properties.now) said.bytes) }
{
    let told = check_states(
        alloc,
        search,
        properties,
        KEEPS_NOTHING,
        Format::Json,
        &mut NoProgress,
    )?;
    kept(alloc, &told.answer)
}
