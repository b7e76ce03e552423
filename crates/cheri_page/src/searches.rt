//! Questions about the orders of a listing's harts, each answered in one line of JSON. Of all
//! orders states are told apart by turns, and at most `limit` of them are kept.
#![tactic(auto, using(crate::proofs::SearchLemmas::searched))]

ghost use Rattle.std.specs.Prelude.{◌≡◌};
ghost use Rattle.asm_map_reader.specs.Words.{text_of};
ghost use Rattle.cheri_page.specs.Answers.{Answers, IsTold};
ghost use Rattle.cheri_page.specs.Searches.{IsFoundTold, IsOutcomesTold, IsRowsTold, IsSampleTold};
ghost use Rattle.cheri_page.specs.Searches.{IsVerdictsTold};
ghost use Rattle.cheri_page.specs.Searches.{told_of};
ghost use Rattle.page_searches.specs.Answered.{answer_of};

use crate::answer::{Answer, tell};
use crate::fault::Fault;
use crate::texts::text_of;
use page_searches::{Drawn, SearchFault, ask_check, ask_find, ask_outcomes, ask_rows, ask_sample};
use sinks::MemSink;
use std::alloc::Global;

/// Tells what a question's answer is, or why there is none.
fn tell_answer(
    alloc: Global,
    asked: Result<MemSink, SearchFault>,
    out: &mut [u8],
    answer: &mut Answer,
)
    ensures { Answers (IsTold (told_of (answer_of asked))) out.old out.new answer.new }
{
    match asked {
        Ok(said) => tell(alloc, said.bytes(), None, out, answer),
        Err(fault) => tell(alloc, b"", Some(Fault::from(fault)), out, answer),
    }
}

/// How can a listing end, and does it always end? The line of `cheri_explore outcomes`.
#[unsafe(no_mangle)]
pub extern "C" fn cheri_outcomes(
    alloc: Global,
    listing: &[u8],
    limit: u32,
    out: &mut [u8],
    answer: &mut Answer,
)
    ensures { Answers (IsOutcomesTold listing.now limit) out.old out.new answer.new }
{
    let asked = ask_outcomes(alloc, listing, limit);
    tell_answer(alloc, asked, out, answer);
}

/// What do items hold at the ends? The line with `--show`. The text of the items is judged first.
#[unsafe(no_mangle)]
pub extern "C" fn cheri_outcome_rows(
    alloc: Global,
    listing: &[u8],
    items: &[u8],
    limit: u32,
    out: &mut [u8],
    answer: &mut Answer,
)
    ensures { Answers (IsRowsTold listing.now items.now limit) out.old out.new answer.new }
{
    let Some(items) = text_of(items) else {
        return tell(alloc, b"", Some(Fault::BadText), out, answer);
    };
    let asked = ask_rows(alloc, listing, items, limit);
    tell_answer(alloc, asked, out, answer);
}

/// Can a condition ever hold? The line of `cheri_explore find`. The condition's text is judged
/// first.
#[unsafe(no_mangle)]
pub extern "C" fn cheri_find(
    alloc: Global,
    listing: &[u8],
    condition: &[u8],
    limit: u32,
    out: &mut [u8],
    answer: &mut Answer,
)
    ensures { Answers (IsFoundTold listing.now condition.now limit) out.old out.new answer.new }
{
    let Some(condition) = text_of(condition) else {
        return tell(alloc, b"", Some(Fault::BadText), out, answer);
    };
    let asked = ask_find(alloc, listing, condition, limit);
    tell_answer(alloc, asked, out, answer);
}

/// Do the properties hold that a listing carries, with the sweeps that it allows? The line of
/// `cheri_explore check`.
#[unsafe(no_mangle)]
pub extern "C" fn cheri_verdicts(
    alloc: Global,
    listing: &[u8],
    limit: u32,
    out: &mut [u8],
    answer: &mut Answer,
)
    ensures { Answers (IsVerdictsTold listing.now limit) out.old out.new answer.new }
{
    let asked = ask_check(alloc, listing, limit);
    tell_answer(alloc, asked, out, answer);
}

/// What do runs in orders do that are drawn by chance, the first of them number 0? The line of
/// `cheri_explore sample`; with a depth of 0 each step is drawn.
#[unsafe(no_mangle)]
pub extern "C" fn cheri_sample(
    alloc: Global,
    listing: &[u8],
    runs: u32,
    seed: u32,
    length: u32,
    depth: u32,
    out: &mut [u8],
    answer: &mut Answer,
)
    ensures { Answers (IsSampleTold listing.now (record {
      runs = runs;
      seed = seed;
      length = length;
      depth = depth;
    })) out.old out.new answer.new }
{
    let drawn = Drawn {
        runs,
        seed,
        length,
        depth,
    };
    let asked = ask_sample(alloc, listing, drawn);
    tell_answer(alloc, asked, out, answer);
}
