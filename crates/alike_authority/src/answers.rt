//! The answer of a search that takes one order of the harts of each group for all.

ghost use Rattle.std.specs.Prelude.{◌≡◌, ◌++◌, ℕ, [], false, true, IfOk, OnOk, string_bytes};
ghost use Rattle.alike_authority.specs.AlikeAuthority.{IsAlikeAnswer};
ghost use Rattle.alike_authority.specs.AlikeAuthorityTexts.{alike_said, parts_of};
ghost use Rattle.explore_sights.specs.declared.sights.Sight.TheVariants.{Rights};
ghost use Rattle.forgotten_states.specs.Surveys.{IsSurveyOf};
ghost use Rattle.hart_exchanges.specs.Exchanges.{AreGroupsEqual};
ghost use Rattle.live_registers.specs.LiveSets.{IsRight};
ghost use Rattle.live_registers.specs.RegisterSets.{has};
ghost use Rattle.states.specs.Searches.{IsSearchable, search_of};

use crate::heads::{Head, head_of};
use crate::json::write_json;
use crate::text::write_text;
use crate::told::{hart_lists, memory_list};
use authority_texts::Told;
use cheri_model::NoMemory;
use explore_sights::Sight;
use forgotten_states::{Matters, Survey, survey};
use found_texts::opened;
use graph_search::Progress;
use reductions::Reduction;
use shown_states::{Answer, Ending, Format};
use states::Search;
use std::alloc::Global;

/// An answer in a form.
fn said_text(
    alloc: Global,
    format: Format,
    head: Head<'_>,
    harts: &[Vec<Told>],
    memory: &[Told],
) -> Result<String, NoMemory>
    ensures { IfOk result (λ text. string_bytes text
        ≡ alike_said format (parts_of head.entry.left_out head.entry.complete head.entry.image.now
        head.entry.states) harts.now memory.now) }
{
    let mut out = String::new(alloc);
    match format {
        Format::Text => write_text(alloc, &mut out, head, harts, memory)?,
        Format::Json => write_json(alloc, &mut out, head, harts, memory)?,
    }
    Ok(out)
}

/// The answer of the states that were found.
fn found_answer(
    alloc: Global,
    search: &Search<'_>,
    reduction: &Reduction,
    format: Format,
    survey: &Survey<'_>,
) -> Result<Answer, NoMemory>
    requires equal { AreGroupsEqual search.now.image.now.harts reduction.now.groups }
    requires asked { (reg : ℕ) → has reduction.now.live.asked reg ≡ true }
    requires found { IsSurveyOf (search_of search.now) Rights reduction.now.live
        reduction.now.groups survey.now }
    ensures { IfOk result (λ answer. IsAlikeAnswer (search_of search.now)
        reduction.now.live reduction.now.groups format (string_bytes answer.text) answer.ending) }
{
    // Its clause says that these are the first states, or all.
    let _count = survey.len();
    let harts = hart_lists(alloc, survey, &reduction.groups)?;
    let memory = memory_list(alloc, survey)?;
    let head = head_of(reduction, survey);
    let text = said_text(alloc, format, head, harts.as_slice(), memory.as_slice())?;
    let ending = Ending::of_search(survey.is_complete());
    Ok(Answer { text, ending })
}

/// The answer where harts of these groups may change places, and all registers are asked for.
pub(crate) fn answer_alike<P: Progress>(
    alloc: Global,
    search: &Search<'_>,
    reduction: &Reduction,
    format: Format,
    progress: &mut P,
) -> Result<Answer, NoMemory>
    requires search { IsSearchable (search_of search.now) }
    requires turns { search.now.every_step ≡ false }
    requires unswept { search.now.sweeps.now ≡ [] }
    requires right { IsRight search.now.image.now.program reduction.now.live }
    requires equal { AreGroupsEqual search.now.image.now.harts reduction.now.groups }
    requires asked { (reg : ℕ) → has reduction.now.live.asked reg ≡ true }
    ensures { IfOk result (λ answer. IsAlikeAnswer (search_of search.now)
        reduction.now.live reduction.now.groups format (string_bytes answer.text) answer.ending) }
{
    let core = opened(alloc, search.image)?;
    let sees = Sight::Rights;
    let matters = Matters {
        sees: &sees,
        live: &reduction.live,
        groups: reduction.groups,
    };
    let found = survey(alloc, search, matters, &core, progress)?;
    found_answer(alloc, search, reduction, format, &found)
}
