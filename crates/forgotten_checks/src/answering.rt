//! The search, and its answer.

ghost use Rattle.std.specs.Prelude.{◌≡◌, ◌||◌, string_bytes, false, true, Some, [], IfOk};
ghost use Rattle.asked_registers.specs.Asked.{HasAsked};
ghost use Rattle.explore_checks.specs.Checks.{one_asks};
ghost use Rattle.explore_verdicts.specs.Deciding.{AreSeen};
ghost use Rattle.forgotten_checks.specs.Asked.{properties_ask, properties_name};
ghost use Rattle.forgotten_checks.specs.StateChecks.{
  IsCheckStatesAnswer,
  IsReducedCheckAnswer,
  SaysChecked,
  keeps_for,
};
ghost use Rattle.forgotten_loops.specs.ForgottenLoops.{IsForgottenEndless};
ghost use Rattle.forgotten_states.specs.Surveys.{count};
ghost use Rattle.hart_order.specs.Arrangements.{IsUngrouped};
ghost use Rattle.hart_order.specs.GroupedTurns.{keeps_number};
ghost use Rattle.hart_symmetry.specs.Named.{NamedStay};
ghost use Rattle.live_registers.specs.LiveSets.{IsRight};
ghost use Rattle.order_texts.specs.OrderTexts.{orders_of};
ghost use Rattle.reductions.specs.Reductions.{left_out_of};
ghost use Rattle.states.specs.Searches.{IsSearchable, search_of};

use crate::asked::asked_for;
use crate::judging::judge_all;
use crate::named::named_by;
use cheri_model::NoMemory;
use explore_checks::{Head, check, checked, ending_of, one_asks, orders_against};
use explore_properties::Property;
use explore_sights::Sight;
use explore_verdicts::watches_of;
use forgotten_loops::{Judged, endless_of};
use forgotten_states::{Matters, Survey, survey};
use found_texts::{Told, opened};
use graph_search::Progress;
use reductions::{Keeps, LeftOut, Reduction, reduction_of};
use shown_states::{Answer, Format};
use state_loops::Endless;
use states::Search;
use std::alloc::{AllocError, Global};

/// Judges whether runs go on for ever, where it is asked for; else this stays unknown.
fn judged_if<'a>(alloc: Global, survey: Survey<'a>, asked: bool) -> Result<Judged<'a>, AllocError>
    requires { asked ≡ true → IsUngrouped survey.groups }
    ensures same { IfOk result (λ judged. judged.survey ≡ survey.entry) }
    ensures endless { IfOk result (λ judged.
        asked ≡ true → IsForgottenEndless judged.survey judged.endless) }
{
    if asked {
        return endless_of(alloc, survey);
    }
    Ok(Judged {
        survey,
        endless: Endless::Unknown,
    })
}

/// What an answer begins with.
fn head_of<'a>(survey: &'a Survey<'_>, left_out: LeftOut) -> Head<'a>
    ensures image { result.image.now ≡ survey.now.image }
    ensures reduced { result.reduced ≡ Some left_out }
    ensures complete { result.complete ≡ survey.now.complete }
    ensures states { result.states ≡ count survey.now }
{
    Head {
        image: survey.image(),
        reduced: Some(left_out),
        complete: survey.is_complete(),
        states: survey.len(),
    }
}

/// The answer by what a search found.
fn answer_of(
    alloc: Global,
    properties: &[Property<'_>],
    format: Format,
    survey: &Survey<'_>,
    left_out: LeftOut,
    endless: &Endless,
) -> Result<Told, NoMemory>
    requires seen { AreSeen survey.now.sight properties.now }
    requires asked { HasAsked survey.now.live.asked (properties_ask properties.now) }
    requires named { NamedStay (keeps_number survey.now.groups) (properties_name properties.now) }
    ensures { IfOk result (λ told. SaysChecked survey.now left_out endless.now properties.now format
        (orders_of told.orders.items) (string_bytes told.answer.text) told.answer.ending) }
{
    let told = judge_all(alloc, survey, endless, properties)?;
    let head = head_of(survey, left_out);
    let text = checked(alloc, format, head, told.as_slice())?;
    let orders = orders_against(alloc, told.as_slice())?;
    let ending = ending_of(told.as_slice());
    Ok(Told {
        answer: Answer { text, ending },
        orders,
    })
}

/// As `check`, where states are told apart only by the registers that matter, to the program and to
/// the properties, and not by which hart of a group stands where.
fn check_reduced<P: Progress>(
    alloc: Global,
    search: &Search<'_>,
    properties: &[Property<'_>],
    reduction: &Reduction,
    format: Format,
    progress: &mut P,
) -> Result<Told, NoMemory>
    requires search { IsSearchable (search_of search.now) }
    requires turns { search.now.every_step ≡ false }
    requires unswept { search.now.sweeps.now ≡ [] }
    requires right { IsRight search.now.image.now.program reduction.now.live }
    requires asked { HasAsked reduction.now.live.asked (properties_ask properties.now) }
    requires named { NamedStay (keeps_number reduction.now.groups)
        (properties_name properties.now) }
    requires harts { one_asks properties.now ≡ true → IsUngrouped reduction.now.groups }
    ensures { IfOk result (λ told. IsReducedCheckAnswer (search_of search.now) properties.now
        reduction.now.live reduction.now.groups format (orders_of told.orders.items)
        (string_bytes told.answer.text) told.answer.ending) }
{
    let core = opened(alloc, search.image)?;
    let sees = Sight::Watches(watches_of(alloc, properties)?);
    let matters = Matters {
        sees: &sees,
        live: &reduction.live,
        groups: reduction.groups,
    };
    let survey = survey(alloc, search, matters, &core, progress)?;
    let judged = judged_if(alloc, survey, one_asks(properties))?;
    // Its clause says that this is a survey.
    let _count = judged.survey.len();
    let left_out = reduction.left_out();
    answer_of(
        alloc,
        properties,
        format,
        &judged.survey,
        left_out,
        &judged.endless,
    )
}

/// What is kept for properties: all harts where one asks whether runs go on for ever, since a loop
/// may come back with its harts in another order.
fn keeps_for(keeps: Keeps, properties: &[Property<'_>]) -> Keeps
    ensures { result ≡ keeps_for keeps properties.now }
{
    let asked = one_asks(properties);
    Keeps {
        registers: keeps.registers,
        harts: keeps.harts || asked,
    }
}

/// Searches the states that an image reaches, once, as `check`: what they say of each property of
/// its listing. States that differ only in registers which no longer matter, or in which of several
/// equal harts stands where, count as one, if these are not to be kept and the search allows it;
/// the answer says so where it is done. Fails only when out of memory, or of numbers past 2^32.
pub fn check_states<P: Progress>(
    alloc: Global,
    search: &Search<'_>,
    properties: &[Property<'_>],
    keeps: Keeps,
    format: Format,
    progress: &mut P,
) -> Result<Told, NoMemory>
    requires { IsSearchable (search_of search.now) }
    ensures { IfOk result (λ told. IsCheckStatesAnswer keeps (search_of search.now) properties.now
        format (orders_of told.orders.items) (string_bytes told.answer.text) told.answer.ending) }
{
    let asked = asked_for(alloc, properties)?;
    let named = named_by(alloc, properties)?;
    let keeps = keeps_for(keeps, properties);
    match reduction_of(alloc, search, keeps, asked, &named)? {
        Some(reduction) => check_reduced(alloc, search, properties, &reduction, format, progress),
        None => check(alloc, search, properties, format, progress),
    }
}
