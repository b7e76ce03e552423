//! What is answered to each question: the texts of the command line are read, and the question is
//! asked.

ghost use Rattle.std.specs.Prelude.{◌≡◌, Ok, IfOk, IfErr};
ghost use Rattle.explore_line.specs.Requests.{question_asked_by};
ghost use Rattle.grammar.specs.LabelMap.{label_parts};
ghost use Rattle.listings.specs.Meaning.{listing_meaning};
ghost use Rattle.printing.specs.Endings.{HasWhole, FailsBy};
ghost use Rattle.states.specs.Searches.{IsSearchable, search_of};
ghost use Rattle.explore_program.specs.Faults.{failure_of};
ghost use Rattle.explore_program.specs.Listings.{listed_of};
ghost use Rattle.explore_program.specs.Questions.{IsCheckSaid, IsFindSaid};
ghost use Rattle.explore_program.specs.Questions.{IsSaid, IsSaidTo, IsShownSaid};

use crate::alike::answer_alike;
use crate::faults::{Fault, property_fault, text_fault};
use crate::listing::Listed;
use crate::questions::{
    Authority, Check, Explaining, Find, Outcomes, SearchQuestion, ShownOutcomes,
};
use crate::ranges::ranges_of;
use alike_authority::Manner;
use condition_texts::{read_condition, read_items};
use explore_line::Question;
use explore_properties::read_properties;
use grammar::labels::Labels;
use graph_search::Progress;
use listing_maps::Names;
use reductions::Keeps;
use shown_states::{Ending, Format};
use sinks::Sink;
use states::Search;
use std::alloc::Global;

/// What a question is asked of: a search, its listing with its labels, how the answer is written,
/// whether its orders are explained, and what states are told apart by though the question doesn't
/// see it.
#[derive(Clone, Copy)]
pub struct Asking<'l, 's> {
    pub labels: &'l Labels<'l>,
    pub listed: Listed<'l>,
    pub search: Search<'s>,
    pub format: Format,
    pub explained: bool,
    pub keeps: Keeps,
}

/// Answers a question.
pub(crate) fn ask<Q: SearchQuestion, P: Progress, S: Sink>(
    alloc: Global,
    question: &Q,
    progress: &mut P,
    sink: &mut S,
) -> Result<Ending, Fault>
    requires { Q.is_askable question.now }
    ensures printed { IfOk result (λ ending. HasWhole (IsSaid (Q.answers question.now)) ending
        (S.written sink.old) (S.written sink.new)) }
    ensures failed { IfErr result (λ fault. FailsBy (failure_of fault)
        (IsSaid (Q.answers question.now)) fault (S.written sink.old) (S.written sink.new)) }
    ensures identity { S.identity sink.new ≡ S.identity sink.old }
{
    let ending = question.write(alloc, progress, sink)?;
    Ok(ending)
}

/// `find LISTING CONDITION`.
fn answer_find<P: Progress, S: Sink>(
    alloc: Global,
    asking: Asking<'_, '_>,
    condition: &str,
    progress: &mut P,
    sink: &mut S,
) -> Result<Ending, Fault>
    requires meaning { listing_meaning asking.listed.text.now ≡ Ok asking.search.image.now }
    requires search { IsSearchable (search_of asking.search) }
    ensures printed { IfOk result (λ ending. HasWhole
        (IsFindSaid (label_parts asking.entry.labels.now) (listed_of asking.entry.listed)
        (search_of asking.entry.search) asking.entry.format asking.entry.explained
        asking.entry.keeps condition.now) ending
        (S.written sink.old) (S.written sink.new)) }
    ensures failed { IfErr result (λ fault. FailsBy (failure_of fault)
        (IsFindSaid (label_parts asking.entry.labels.now) (listed_of asking.entry.listed)
        (search_of asking.entry.search) asking.entry.format asking.entry.explained
        asking.entry.keeps condition.now) fault
        (S.written sink.old) (S.written sink.new)) }
    ensures identity { S.identity sink.new ≡ S.identity sink.old }
{
    let Asking {
        labels,
        listed,
        search,
        format,
        explained,
        keeps,
    } = asking;
    let names = Names {
        labels,
        sources: listed.sources,
    };
    let condition = match read_condition(alloc, &names, search.image, condition) {
        Ok(condition) => condition,
        Err(refused) => return Err(text_fault(refused)),
    };
    let question = Find {
        search,
        format,
        explaining: Explaining { explained, listed },
        condition: &condition,
        keeps,
    };
    ask(alloc, &question, progress, sink)
}

/// `outcomes LISTING --show ITEM[,ITEM]..`.
fn answer_shown<P: Progress, S: Sink>(
    alloc: Global,
    asking: Asking<'_, '_>,
    items: &str,
    progress: &mut P,
    sink: &mut S,
) -> Result<Ending, Fault>
    requires { IsSearchable (search_of asking.search) }
    ensures printed { IfOk result (λ ending. HasWhole
        (IsShownSaid (search_of asking.entry.search) asking.entry.format
        asking.entry.keeps.registers items.now) ending
        (S.written sink.old) (S.written sink.new)) }
    ensures failed { IfErr result (λ fault. FailsBy (failure_of fault)
        (IsShownSaid (search_of asking.entry.search) asking.entry.format
        asking.entry.keeps.registers items.now) fault
        (S.written sink.old) (S.written sink.new)) }
    ensures identity { S.identity sink.new ≡ S.identity sink.old }
{
    let Asking {
        search,
        format,
        keeps,
        ..
    } = asking;
    let items = match read_items(alloc, search.image, items) {
        Ok(items) => items,
        Err(refused) => return Err(text_fault(refused)),
    };
    let question = ShownOutcomes {
        search,
        format,
        items: &items,
        keeps_registers: keeps.registers,
    };
    ask(alloc, &question, progress, sink)
}

/// `check LISTING`.
fn answer_check<P: Progress, S: Sink>(
    alloc: Global,
    asking: Asking<'_, '_>,
    progress: &mut P,
    sink: &mut S,
) -> Result<Ending, Fault>
    requires meaning { listing_meaning asking.listed.text.now ≡ Ok asking.search.image.now }
    requires search { IsSearchable (search_of asking.search) }
    ensures printed { IfOk result (λ ending. HasWhole
        (IsCheckSaid (label_parts asking.entry.labels.now) (listed_of asking.entry.listed)
        (search_of asking.entry.search) asking.entry.format asking.entry.explained
        asking.entry.keeps) ending
        (S.written sink.old) (S.written sink.new)) }
    ensures failed { IfErr result (λ fault. FailsBy (failure_of fault)
        (IsCheckSaid (label_parts asking.entry.labels.now) (listed_of asking.entry.listed)
        (search_of asking.entry.search) asking.entry.format asking.entry.explained
        asking.entry.keeps) fault
        (S.written sink.old) (S.written sink.new)) }
    ensures identity { S.identity sink.new ≡ S.identity sink.old }
{
    let Asking {
        labels,
        listed,
        search,
        format,
        explained,
        keeps,
    } = asking;
    let names = Names {
        labels,
        sources: listed.sources,
    };
    let read = match read_properties(alloc, &names, search.image, listed.text) {
        Ok(read) => read,
        Err(refused) => return Err(property_fault(refused)),
    };
    let sweeps = ranges_of(alloc, read.sweeps())?;
    let search = Search {
        image: search.image,
        sweeps: sweeps.as_slice(),
        every_step: search.every_step,
        limit: search.limit,
    };
    let properties = read.properties();
    let question = Check {
        search,
        format,
        explaining: Explaining { explained, listed },
        properties,
        keeps,
    };
    ask(alloc, &question, progress, sink)
}

/// Answers a question of the command line in a format.
pub fn answer_question<P: Progress, S: Sink>(
    alloc: Global,
    question: Question<'_>,
    asking: Asking<'_, '_>,
    progress: &mut P,
    sink: &mut S,
) -> Result<Ending, Fault>
    requires meaning { listing_meaning asking.listed.text.now ≡ Ok asking.search.image.now }
    requires search { IsSearchable (search_of asking.search) }
    ensures printed { IfOk result (λ ending. HasWhole
        (IsSaidTo (question_asked_by question.entry) (label_parts asking.entry.labels.now)
        (listed_of asking.entry.listed) (search_of asking.entry.search) asking.entry.format
        asking.entry.explained asking.entry.keeps) ending
        (S.written sink.old) (S.written sink.new)) }
    ensures failed { IfErr result (λ fault. FailsBy (failure_of fault)
        (IsSaidTo (question_asked_by question.entry) (label_parts asking.entry.labels.now)
        (listed_of asking.entry.listed) (search_of asking.entry.search) asking.entry.format
        asking.entry.explained asking.entry.keeps) fault
        (S.written sink.old) (S.written sink.new)) }
    ensures identity { S.identity sink.new ≡ S.identity sink.old }
{
    let Asking {
        search,
        format,
        keeps,
        ..
    } = asking;
    match question {
        Question::Find { condition } => answer_find(alloc, asking, condition, progress, sink),
        Question::Check => answer_check(alloc, asking, progress, sink),
        Question::Authority => {
            let manner = Manner {
                format,
                keeps_harts: keeps.harts,
            };
            ask(alloc, &Authority { search, manner }, progress, sink)
        }
        Question::Alike { show } => answer_alike(alloc, asking, show, progress, sink),
        Question::Outcomes { show } => match show {
            Some(items) => answer_shown(alloc, asking, items, progress, sink),
            None => ask(alloc, &Outcomes { search, format }, progress, sink),
        },
    }
}
