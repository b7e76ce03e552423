//! The questions, which are answered as without equal harts where none are of a group.

ghost use Rattle.std.specs.Prelude.{◌≡◌, ◌+◌, false, true, IfErr, IfOk};
ghost use Rattle.alike_outcomes.specs.AlikeOutcomes.{IsAlikeListed, IsAlikeShown};
ghost use Rattle.alike_outcomes.specs.Grouped.{IsGroupedReduction};
ghost use Rattle.asked_registers.specs.Asked.{HasAsked, items_ask};
ghost use Rattle.conditions.specs.Items.{list_of};
ghost use Rattle.shown_states.specs.Endings.{IsUnwritten, IsWritten, failures_of};
ghost use Rattle.shown_states.specs.declared.form.Ending.{Ending};
ghost use Rattle.states.specs.Searches.{IsSearchable, search_of};

use crate::answers::{answer_listed, answer_shown};
use asked_registers::with_items;
use conditions::Items;
use forgotten_outcomes::show_states;
use graph_search::Progress;
use hart_groups::any_grouped;
use live_registers::RegisterSet;
use named_harts::{HartSet, nobody};
use named_items::named_items;
use outcome_texts::list_outcomes;
use reductions::{Keeps, Reduction, reduction_of};
use shown_states::{Ending, Format, put_answer};
use sinks::{Sink, WriteFault};
use states::Search;
use std::alloc::{AllocError, Global};

/// How outcomes are told, and what states are told apart by all the same.
#[derive(Clone, Copy)]
pub struct Manner {
    pub format: Format,
    pub keeps: Keeps,
}

/// The registers that items ask for.
fn asked_for(items: &Items<'_>) -> RegisterSet
    ensures { HasAsked result (items_ask items.now.shown.items) }
{
    with_items(RegisterSet::none(), items.shown.as_slice())
}

/// What is kept where whole states are listed: all registers.
fn whole_keeps(keeps: Keeps) -> Keeps
    ensures { result ≡ record { registers = true; harts = keeps.harts } }
{
    Keeps {
        registers: true,
        harts: keeps.harts,
    }
}

/// How outcomes are shown where all harts are told apart.
fn apart(manner: Manner) -> forgotten_outcomes::Manner
    ensures format { result.format ≡ manner.format }
    ensures keeps { result.keeps_registers ≡ manner.keeps.registers }
{
    forgotten_outcomes::Manner {
        format: manner.format,
        keeps_registers: manner.keeps.registers,
    }
}

/// What is left out of a search for a question that asks for these registers and names these harts,
/// if any hart is of a group. Fails only when out of memory.
fn grouped_by(
    alloc: Global,
    search: &Search<'_>,
    keeps: Keeps,
    asked: RegisterSet,
    named: &HartSet,
) -> Result<Option<Reduction>, AllocError>
    ensures { IfOk result (λ found.
        IsGroupedReduction keeps (search_of search.now) asked named.now found) }
{
    match reduction_of(alloc, search, keeps, asked, named)? {
        Some(reduction) => {
            if any_grouped(&reduction.groups) {
                Ok(Some(reduction))
            } else {
                Ok(None)
            }
        }
        None => Ok(None),
    }
}

/// Searches the states that an image reaches, and writes those in which no hart runs, each with the
/// order that leads to it, as `list_outcomes`. Of those that differ only in which of several equal
/// harts stands where one is written, if harts are not to be kept and the search allows it; the
/// answer says so where it is done, doesn't count outcomes then, and says nothing of runs that go on
/// for ever. Where memory runs out, nothing is written; where the sink fails, it took a prefix of
/// the answer.
pub fn list_alike<P: Progress, S: Sink>(
    alloc: Global,
    search: &Search<'_>,
    manner: Manner,
    progress: &mut P,
    sink: &mut S,
) -> Result<Ending, WriteFault>
    requires { IsSearchable (search_of search.now) }
    ensures written { IfOk result (λ ending. IsWritten
        (λ text. IsAlikeListed manner.keeps.harts (search_of search.now) manner.format text ending)
        (S.written sink.old) (S.written sink.new)) }
    ensures begun { IfErr result (IsUnwritten (λ text. (ending : Ending)
        × IsAlikeListed manner.keeps.harts (search_of search.now) manner.format text ending)
        (S.written sink.old) (S.written sink.new)) }
    ensures failures { S.failures sink.new ≡ S.failures sink.old + failures_of result }
    ensures identity { S.identity sink.new ≡ S.identity sink.old }
{
    let keeps = whole_keeps(manner.keeps);
    let asked = RegisterSet::none();
    let Some(reduction) = grouped_by(alloc, search, keeps, asked, &nobody())? else {
        return list_outcomes(alloc, search, manner.format, progress, sink);
    };
    let answer = answer_listed(alloc, search, &reduction, manner.format, progress)?;
    put_answer(sink, &answer)
}

/// The same, told by what items hold in the states, as `show_states`: each distinct row of values.
/// Harts that an item names are told apart from all others, so that the rows are the same; the
/// others are not, where they are equal.
pub fn show_alike<P: Progress, S: Sink>(
    alloc: Global,
    search: &Search<'_>,
    items: &Items<'_>,
    manner: Manner,
    progress: &mut P,
    sink: &mut S,
) -> Result<Ending, WriteFault>
    requires { IsSearchable (search_of search.now) }
    ensures written { IfOk result (λ ending. IsWritten
        (λ text. IsAlikeShown manner.keeps (search_of search.now) (list_of items.now)
        manner.format text ending) (S.written sink.old) (S.written sink.new)) }
    ensures begun { IfErr result (IsUnwritten (λ text. (ending : Ending)
        × IsAlikeShown manner.keeps (search_of search.now) (list_of items.now)
        manner.format text ending) (S.written sink.old) (S.written sink.new)) }
    ensures failures { S.failures sink.new ≡ S.failures sink.old + failures_of result }
    ensures identity { S.identity sink.new ≡ S.identity sink.old }
{
    let asked = asked_for(items);
    let named = named_items(items.shown.as_slice());
    let Some(reduction) = grouped_by(alloc, search, manner.keeps, asked, &named)? else {
        return show_states(alloc, search, items, apart(manner), progress, sink);
    };
    let answer = answer_shown(alloc, search, items, &reduction, manner.format, progress)?;
    put_answer(sink, &answer)
}
