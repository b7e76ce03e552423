//! The questions, each of the states that the image of a listing reaches.

ghost use Rattle.std.specs.Prelude.{◌≡◌, ◌+◌, ℕ, List, Ok, IfOk, IfErr, true, string_bytes};
ghost use Rattle.std.specs.Io.KnownBytes.{Appends};
ghost use Rattle.alike_authority.specs.AlikeAuthority.{IsAlikeAuthority};
ghost use Rattle.conditions.specs.Items.{list_of};
ghost use Rattle.forgotten_checks.specs.StateChecks.{IsCheckStatesAnswer};
ghost use Rattle.forgotten_outcomes.specs.ShownStates.{IsShownStatesAnswer};
ghost use Rattle.found_texts.specs.Reduced.{IsStateAnswer};
ghost use Rattle.listings.specs.Meaning.{listing_meaning};
ghost use Rattle.order_texts.specs.OrderTexts.{orders_of};
ghost use Rattle.outcome_texts.specs.Answers.{IsListedAnswer};
ghost use Rattle.shown_states.specs.Endings.{failures_of, IsUnwritten, IsWritten};
ghost use Rattle.shown_states.specs.declared.form.Ending.{Ending};
ghost use Rattle.explore_program.specs.Listings.{listed_of};
ghost use Rattle.explore_program.specs.Questions.{explained_text, format_of, IsExplained};
ghost use Rattle.states.specs.Searches.{IsSearchable, search_of};

use crate::listing::Listed;
use alike_authority::authority_alike;
use cheri_model::{Image, NoMemory};
use conditions::{Condition, Items};
use explained_orders::explain_orders;
use explore_properties::Property;
use forgotten_checks::check_states;
use forgotten_outcomes::{Manner, show_states};
use found_texts::{Told, find_state};
use graph_search::Progress;
use outcome_texts::list_outcomes;
use reductions::Keeps;
use shown_states::{Ending, Format, put_answer};
use sinks::{MemSink, Sink, WriteFault, put_whole};
use states::Search;
use std::alloc::Global;

/// How an answer that is asked for in this format is written.
pub fn format_of(asked: command_line::Format) -> Format
    ensures { result ≡ format_of asked }
{
    match asked {
        command_line::Format::Text => Format::Text,
        command_line::Format::Json => Format::Json,
    }
}

/// A question about the states that a search keeps.
pub trait SearchQuestion {
    /// Whether it can be asked.
    ghost is_askable: { Self → Type 0 };

    /// Whether a text that ends so answers it.
    ghost answers: { Self → List ℕ → Ending → Type 0 };

    /// Searches the states, and writes the answer. Where memory runs out, nothing is written;
    /// where the sink fails, it took a prefix of the answer.
    fn write<P: Progress, S: Sink>(
        &self,
        alloc: Global,
        progress: &mut P,
        sink: &mut S,
    ) -> Result<Ending, WriteFault>
        requires { is_askable self.now }
        ensures written { IfOk result (λ ending. IsWritten (λ text. answers self.now text ending)
            (S.written sink.old) (S.written sink.new)) }
        ensures begun { IfErr result
            (IsUnwritten (λ text. (ending : Ending) × answers self.now text ending)
            (S.written sink.old) (S.written sink.new)) }
        ensures failures { S.failures sink.new ≡ S.failures sink.old + failures_of result }
        ensures identity { S.identity sink.new ≡ S.identity sink.old };
}

/// Whether the orders that an answer tells of are explained after it, and the listing whose orders
/// they are.
#[derive(Clone, Copy)]
pub struct Explaining<'t> {
    pub explained: bool,
    pub listed: Listed<'t>,
}

/// An answer, and after it the orders that it tells of, explained. Fails only when out of memory.
fn explained(
    alloc: Global,
    listed: Listed<'_>,
    image: &Image,
    told: &Told,
) -> Result<MemSink, NoMemory>
    requires { listing_meaning listed.text.now ≡ Ok image.now }
    ensures { IfOk result (λ said. said.bytes ≡ explained_text true (listed_of listed.entry)
        image.now (orders_of told.now.orders.items) (string_bytes told.now.answer.text)) }
{
    let Listed { text, sources } = listed;
    let answer = told.answer.text.as_bytes();
    explain_orders(alloc, text, sources, image, answer, told.orders.as_slice())
}

/// Puts bytes, after which the answer ends so. Where the sink fails, it took a prefix of them.
fn put_said<S: Sink>(sink: &mut S, said: &[u8], ending: Ending) -> Result<Ending, WriteFault>
    ensures written { IfOk result (λ e. (e ≡ ending)
        × Appends (S.written sink.old) (S.written sink.new) said.now) }
    ensures begun { IfErr result (IsUnwritten (λ text. text ≡ said.now)
        (S.written sink.old) (S.written sink.new)) }
    ensures failures { S.failures sink.new ≡ S.failures sink.old + failures_of result }
    ensures identity { S.identity sink.new ≡ S.identity sink.old }
{
    put_whole(sink, said)?;
    Ok(ending)
}

/// Puts an answer, and after it the orders that it tells of, explained. Where memory runs out,
/// nothing is put; where the sink fails, it took a prefix.
fn put_explained<S: Sink>(
    alloc: Global,
    listed: Listed<'_>,
    image: &Image,
    told: &Told,
    sink: &mut S,
) -> Result<Ending, WriteFault>
    requires { listing_meaning listed.text.now ≡ Ok image.now }
    ensures written { IfOk result (λ ending. (ending ≡ told.now.answer.ending)
        × Appends (S.written sink.old) (S.written sink.new)
        (explained_text true (listed_of listed.entry) image.now
        (orders_of told.now.orders.items) (string_bytes told.now.answer.text))) }
    ensures begun { IfErr result (IsUnwritten (λ said. said
        ≡ explained_text true (listed_of listed.entry) image.now
        (orders_of told.now.orders.items) (string_bytes told.now.answer.text))
        (S.written sink.old) (S.written sink.new)) }
    ensures failures { S.failures sink.new ≡ S.failures sink.old + failures_of result }
    ensures identity { S.identity sink.new ≡ S.identity sink.old }
{
    let said = explained(alloc, listed, image, told)?;
    put_said(sink, said.bytes(), told.answer.ending)
}

/// Puts an answer, and after it, where this is asked for, the orders that it tells of, explained.
fn put_told<S: Sink>(
    alloc: Global,
    explaining: Explaining<'_>,
    image: &Image,
    told: &Told,
    sink: &mut S,
) -> Result<Ending, WriteFault>
    requires { listing_meaning explaining.listed.text.now ≡ Ok image.now }
    ensures written { IfOk result (λ ending. (ending ≡ told.now.answer.ending)
        × Appends (S.written sink.old) (S.written sink.new)
        (explained_text explaining.entry.explained (listed_of explaining.entry.listed) image.now
        (orders_of told.now.orders.items) (string_bytes told.now.answer.text))) }
    ensures begun { IfErr result (IsUnwritten (λ said. said
        ≡ explained_text explaining.entry.explained (listed_of explaining.entry.listed) image.now
        (orders_of told.now.orders.items) (string_bytes told.now.answer.text))
        (S.written sink.old) (S.written sink.new)) }
    ensures failures { S.failures sink.new ≡ S.failures sink.old + failures_of result }
    ensures identity { S.identity sink.new ≡ S.identity sink.old }
{
    if explaining.explained {
        put_explained(alloc, explaining.listed, image, told, sink)
    } else {
        put_answer(sink, &told.answer)
    }
}

/// Which state is the first in which a condition holds, where states are told apart by all that is
/// kept, or by what matters?
#[derive(Clone, Copy)]
pub struct Find<'a, 'b, 't> {
    pub search: Search<'a>,
    pub format: Format,
    pub explaining: Explaining<'t>,
    pub condition: &'b Condition,
    pub keeps: Keeps,
}

impl<'a, 'b, 't> SearchQuestion for Find<'a, 'b, 't> {
    ghost is_askable = { λ q. IsSearchable (search_of q.search)
        × (listing_meaning q.explaining.listed.text.now ≡ Ok q.search.image.now) };

    ghost answers = { λ q. IsExplained q.explaining.explained (listed_of q.explaining.listed)
        q.search.image.now (IsStateAnswer q.keeps (search_of q.search) q.condition.now q.format) };

    fn write<P: Progress, S: Sink>(
        &self,
        alloc: Global,
        progress: &mut P,
        sink: &mut S,
    ) -> Result<Ending, WriteFault> {
        let told = find_state(
            alloc,
            &self.search,
            self.condition,
            self.keeps,
            self.format,
            progress,
        )?;
        put_told(alloc, self.explaining, self.search.image, &told, sink)
    }
}

/// What are the greatest rights that each hart and memory ever hold?
#[derive(Clone, Copy)]
pub struct Authority<'a> {
    pub search: Search<'a>,
    pub manner: alike_authority::Manner,
}

impl<'a> SearchQuestion for Authority<'a> {
    ghost is_askable = { λ q. IsSearchable (search_of q.search) };

    ghost answers = { λ q. IsAlikeAuthority q.manner.keeps_harts (search_of q.search)
        q.manner.format };

    fn write<P: Progress, S: Sink>(
        &self,
        alloc: Global,
        progress: &mut P,
        sink: &mut S,
    ) -> Result<Ending, WriteFault> {
        authority_alike(alloc, &self.search, self.manner, progress, sink)
    }
}

/// In which states does no hart run?
#[derive(Clone, Copy)]
pub struct Outcomes<'a> {
    pub search: Search<'a>,
    pub format: Format,
}

impl<'a> SearchQuestion for Outcomes<'a> {
    ghost is_askable = { λ q. IsSearchable (search_of q.search) };

    ghost answers = { λ q. IsListedAnswer (search_of q.search) q.format };

    fn write<P: Progress, S: Sink>(
        &self,
        alloc: Global,
        progress: &mut P,
        sink: &mut S,
    ) -> Result<Ending, WriteFault> {
        list_outcomes(alloc, &self.search, self.format, progress, sink)
    }
}

/// What do items hold in the states in which no hart runs, where states are told apart by all
/// registers, or by those that matter?
#[derive(Clone, Copy)]
pub struct ShownOutcomes<'a, 'b, 'c> {
    pub search: Search<'a>,
    pub format: Format,
    pub items: &'b Items<'c>,
    pub keeps_registers: bool,
}

impl<'a, 'b, 'c> SearchQuestion for ShownOutcomes<'a, 'b, 'c> {
    ghost is_askable = { λ q. IsSearchable (search_of q.search) };

    ghost answers = { λ q. IsShownStatesAnswer q.keeps_registers (search_of q.search)
        (list_of q.items.now) q.format };

    fn write<P: Progress, S: Sink>(
        &self,
        alloc: Global,
        progress: &mut P,
        sink: &mut S,
    ) -> Result<Ending, WriteFault> {
        let manner = Manner {
            format: self.format,
            keeps_registers: self.keeps_registers,
        };
        show_states(alloc, &self.search, self.items, manner, progress, sink)
    }
}

/// Do the properties hold that the listing carries, where states are told apart by all that is
/// kept, or by what matters?
#[derive(Clone, Copy)]
pub struct Check<'a, 'b, 'c, 't> {
    pub search: Search<'a>,
    pub format: Format,
    pub explaining: Explaining<'t>,
    pub properties: &'b [Property<'c>],
    pub keeps: Keeps,
}

impl<'a, 'b, 'c, 't> SearchQuestion for Check<'a, 'b, 'c, 't> {
    ghost is_askable = { λ q. IsSearchable (search_of q.search)
        × (listing_meaning q.explaining.listed.text.now ≡ Ok q.search.image.now) };

    ghost answers = { λ q. IsExplained q.explaining.explained (listed_of q.explaining.listed)
        q.search.image.now (IsCheckStatesAnswer q.keeps (search_of q.search) q.properties.now
        q.format) };

    fn write<P: Progress, S: Sink>(
        &self,
        alloc: Global,
        progress: &mut P,
        sink: &mut S,
    ) -> Result<Ending, WriteFault> {
        let told = check_states(
            alloc,
            &self.search,
            self.properties,
            self.keeps,
            self.format,
            progress,
        )?;
        put_told(alloc, self.explaining, self.search.image, &told, sink)
    }
}
