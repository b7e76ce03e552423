//! `outcomes --alike`: what is answered up to which of several equal harts stands where.

ghost use Rattle.std.specs.Prelude.{◌≡◌, ℕ, List, IfErr, IfOk, None, option_map};
ghost use Rattle.alike_outcomes.specs.AlikeOutcomes.{IsAlikeListed, IsAlikeShown};
ghost use Rattle.conditions.specs.Items.{list_of};
ghost use Rattle.explore_program.specs.Faults.{failure_of};
ghost use Rattle.explore_program.specs.Questions.{IsAlikeSaid, IsAlikeShownSaid};
ghost use Rattle.printing.specs.Endings.{FailsBy, HasWhole};
ghost use Rattle.shown_states.specs.declared.form.Ending.{Ending};
ghost use Rattle.states.specs.Searches.{IsSearchable, search_of};

use crate::answers::{Asking, ask};
use crate::faults::{Fault, text_fault};
use crate::questions::SearchQuestion;
use alike_outcomes::{Manner, list_alike, show_alike};
use condition_texts::read_items;
use conditions::Items;
use graph_search::Progress;
use shown_states::Ending;
use sinks::{Sink, WriteFault};
use states::Search;
use std::alloc::Global;

/// In which states does no hart run, but for which of several equal harts stands where?
#[derive(Clone, Copy)]
pub struct AlikeOutcomes<'a> {
    pub search: Search<'a>,
    pub manner: Manner,
}

impl<'a> SearchQuestion for AlikeOutcomes<'a> {
    ghost is_askable = { λ q. IsSearchable (search_of q.search) };

    ghost answers = { λ q. IsAlikeListed q.manner.keeps.harts (search_of q.search)
        q.manner.format };

    fn write<P: Progress, S: Sink>(
        &self,
        alloc: Global,
        progress: &mut P,
        sink: &mut S,
    ) -> Result<Ending, WriteFault> {
        list_alike(alloc, &self.search, self.manner, progress, sink)
    }
}

/// What do items hold in these states, where the harts that they name are told apart?
#[derive(Clone, Copy)]
pub struct AlikeShown<'a, 'b, 'c> {
    pub search: Search<'a>,
    pub manner: Manner,
    pub items: &'b Items<'c>,
}

impl<'a, 'b, 'c> SearchQuestion for AlikeShown<'a, 'b, 'c> {
    ghost is_askable = { λ q. IsSearchable (search_of q.search) };

    ghost answers = { λ q. IsAlikeShown q.manner.keeps (search_of q.search)
        (list_of q.items.now) q.manner.format };

    fn write<P: Progress, S: Sink>(
        &self,
        alloc: Global,
        progress: &mut P,
        sink: &mut S,
    ) -> Result<Ending, WriteFault> {
        show_alike(alloc, &self.search, self.items, self.manner, progress, sink)
    }
}

/// How the answer is told.
fn manner_of(asking: Asking<'_, '_>) -> Manner
    ensures { result ≡ record { format = asking.entry.format; keeps = asking.entry.keeps } }
{
    Manner {
        format: asking.format,
        keeps: asking.keeps,
    }
}

/// `outcomes LISTING --alike --show ITEM[,ITEM]..`.
fn answer_alike_shown<P: Progress, S: Sink>(
    alloc: Global,
    asking: Asking<'_, '_>,
    items: &str,
    progress: &mut P,
    sink: &mut S,
) -> Result<Ending, Fault>
    requires { IsSearchable (search_of asking.search) }
    ensures printed { IfOk result (λ ending. HasWhole
        (IsAlikeShownSaid (search_of asking.entry.search) asking.entry.format
        asking.entry.keeps items.now) ending (S.written sink.old) (S.written sink.new)) }
    ensures failed { IfErr result (λ fault. FailsBy (failure_of fault)
        (IsAlikeShownSaid (search_of asking.entry.search) asking.entry.format
        asking.entry.keeps items.now) fault (S.written sink.old) (S.written sink.new)) }
    ensures identity { S.identity sink.new ≡ S.identity sink.old }
{
    let search = asking.search;
    let manner = Manner {
        format: asking.format,
        keeps: asking.keeps,
    };
    let items = match read_items(alloc, search.image, items) {
        Ok(items) => items,
        Err(refused) => return Err(text_fault(refused)),
    };
    let question = AlikeShown {
        search,
        manner,
        items: &items,
    };
    ask(alloc, &question, progress, sink)
}

/// `outcomes LISTING --alike`.
fn answer_alike_listed<P: Progress, S: Sink>(
    alloc: Global,
    asking: Asking<'_, '_>,
    progress: &mut P,
    sink: &mut S,
) -> Result<Ending, Fault>
    requires { IsSearchable (search_of asking.search) }
    ensures printed { IfOk result (λ ending. HasWhole
        (IsAlikeSaid (search_of asking.entry.search) asking.entry.format asking.entry.keeps None)
        ending (S.written sink.old) (S.written sink.new)) }
    ensures failed { IfErr result (λ fault. FailsBy (failure_of fault)
        (IsAlikeSaid (search_of asking.entry.search) asking.entry.format asking.entry.keeps None)
        fault (S.written sink.old) (S.written sink.new)) }
    ensures identity { S.identity sink.new ≡ S.identity sink.old }
{
    let question = AlikeOutcomes {
        search: asking.search,
        manner: manner_of(asking),
    };
    ask(alloc, &question, progress, sink)
}

/// `outcomes LISTING --alike [--show ITEM[,ITEM]..]`.
pub(crate) fn answer_alike<P: Progress, S: Sink>(
    alloc: Global,
    asking: Asking<'_, '_>,
    show: Option<&str>,
    progress: &mut P,
    sink: &mut S,
) -> Result<Ending, Fault>
    requires { IsSearchable (search_of asking.search) }
    ensures printed { IfOk result (λ ending. HasWhole
        (IsAlikeSaid (search_of asking.entry.search) asking.entry.format asking.entry.keeps
        (option_map (λ items. items.now) show.entry)) ending
        (S.written sink.old) (S.written sink.new)) }
    ensures failed { IfErr result (λ fault. FailsBy (failure_of fault)
        (IsAlikeSaid (search_of asking.entry.search) asking.entry.format asking.entry.keeps
        (option_map (λ items. items.now) show.entry)) fault
        (S.written sink.old) (S.written sink.new)) }
    ensures identity { S.identity sink.new ≡ S.identity sink.old }
{
    match show {
        Some(items) => answer_alike_shown(alloc, asking, items, progress, sink),
        None => answer_alike_listed(alloc, asking, progress, sink),
    }
}
