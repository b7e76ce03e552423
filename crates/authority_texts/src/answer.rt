//! The search, and its answer.

ghost use Rattle.std.specs.Prelude.{◌≡◌, ◌+◌, ◌++◌, IfOk, IfErr, OnOk, string_bytes};
ghost use Rattle.explore_sights.specs.declared.sights.Sight.TheVariants.{Rights};
ghost use Rattle.authority_texts.specs.Answers.{AreFound, IsAuthorityAnswer};
ghost use Rattle.authority_texts.specs.AuthorityTexts.{said};
ghost use Rattle.shown_states.specs.Endings.{failures_of, IsUnwritten, IsWritten};
ghost use Rattle.shown_states.specs.declared.form.Ending.{Ending};
ghost use Rattle.states.specs.Kept.{count, IsKeptOf};
ghost use Rattle.states.specs.Searches.{IsSearchable, search_of};

use crate::json::write_json;
use crate::text::write_text;
use crate::told::{Told, all_told_of, told_of};
use authorities::{Authorities, authorities_of};
use cheri_model::NoMemory;
use explore_sights::Sight;
use found_texts::opened;
use graph_search::Progress;
use shown_states::{Answer, Ending, Format, put_answer};
use sinks::{Sink, WriteFault};
use states::{Kept, Search, search_from};
use std::alloc::{AllocError, Global};

/// Appends an answer in a form.
fn write_said(
    alloc: Global,
    format: Format,
    out: &mut String,
    kept: &Kept,
    harts: &[Vec<Told>],
    memory: &[Told],
) -> Result<(), NoMemory>
    ensures { OnOk result (string_bytes out.new ≡ string_bytes out.old
        ++ said format kept.now.complete kept.now.image (count kept.now) harts.now memory.now) }
{
    match format {
        Format::Text => write_text(out, kept, harts, memory),
        Format::Json => write_json(alloc, out, kept, harts, memory),
    }
}

/// Searches the states that an image reaches, and gathers the greatest rights over them.
fn found_authorities<P: Progress>(
    alloc: Global,
    search: &Search<'_>,
    progress: &mut P,
) -> Result<Authorities, AllocError>
    requires { IsSearchable (search_of search.now) }
    ensures kept_of { IfOk result (λ found. IsKeptOf (search_of search.now) Rights found.kept) }
    ensures limit { IfOk result (λ found. found.kept.limit ≡ search.now.limit) }
    ensures found { IfOk result (λ found.
        AreFound found.kept found.harts.items found.memory.items) }
{
    let core = opened(alloc, search.image)?;
    let kept = search_from(alloc, search, &Sight::Rights, &core, progress)?;
    // Its clause says that, where it is so, every order leads to a kept state.
    let _complete = kept.is_complete();
    authorities_of(alloc, kept)
}

/// The answer that was found.
fn answer_of(
    alloc: Global,
    search: &Search<'_>,
    format: Format,
    found: &Authorities,
) -> Result<Answer, NoMemory>
    requires kept_of { IsKeptOf (search_of search.now) Rights found.now.kept }
    requires limit { found.now.kept.limit ≡ search.now.limit }
    requires found { AreFound found.now.kept found.now.harts.items found.now.memory.items }
    ensures { IfOk result (λ answer. IsAuthorityAnswer (search_of search.now) format
        (string_bytes answer.text) answer.ending) }
{
    // Its clause says that this is a search.
    let _count = found.kept.len();
    let harts = all_told_of(alloc, &found.kept, found.harts.as_slice())?;
    let memory = told_of(alloc, &found.kept, found.memory.as_slice())?;
    let mut text = String::new(alloc);
    write_said(
        alloc,
        format,
        &mut text,
        &found.kept,
        harts.as_slice(),
        memory.as_slice(),
    )?;
    let ending = Ending::of_search(found.kept.is_complete());
    Ok(Answer { text, ending })
}

/// The answer to a search for rights.
fn answer_found<P: Progress>(
    alloc: Global,
    search: &Search<'_>,
    format: Format,
    progress: &mut P,
) -> Result<Answer, NoMemory>
    requires { IsSearchable (search_of search.now) }
    ensures { IfOk result (λ answer. IsAuthorityAnswer (search_of search.now) format
        (string_bytes answer.text) answer.ending) }
{
    let found = found_authorities(alloc, search, progress)?;
    answer_of(alloc, search, format, &found)
}

/// Searches the states that an image reaches, and writes the greatest rights that each hart and
/// memory ever hold, each with the order that leads to the first state in which just these are
/// held. Where memory runs out, nothing is written; where the sink fails, it took a prefix of the
/// answer.
pub fn authority<P: Progress, S: Sink>(
    alloc: Global,
    search: &Search<'_>,
    format: Format,
    progress: &mut P,
    sink: &mut S,
) -> Result<Ending, WriteFault>
    requires { IsSearchable (search_of search.now) }
    ensures written { IfOk result (λ ending. IsWritten
        (λ text. IsAuthorityAnswer (search_of search.now) format text ending)
        (S.written sink.old) (S.written sink.new)) }
    ensures begun { IfErr result (IsUnwritten (λ text. (ending : Ending)
        × IsAuthorityAnswer (search_of search.now) format text ending)
        (S.written sink.old) (S.written sink.new)) }
    ensures failures { S.failures sink.new ≡ S.failures sink.old + failures_of result }
    ensures identity { S.identity sink.new ≡ S.identity sink.old }
{
    let answer = answer_found(alloc, search, format, progress)?;
    put_answer(sink, &answer)
}
