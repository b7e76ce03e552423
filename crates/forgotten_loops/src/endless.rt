//! Whether runs can go on for ever.

ghost use Rattle.std.specs.Prelude.{◌≡◌, ◌≤◌, ◌++◌, [], drop, length, IfOk};
ghost use Rattle.explore_turns.specs.Orders.{AreOfHarts, order_of_turns};
ghost use Rattle.forgotten_loops.specs.ForgottenLoops.{IsForgottenEndless, IsLassoOf};
ghost use Rattle.forgotten_states.specs.Surveys.{at};
ghost use Rattle.forgotten_turns.specs.ForgottenTurns.{forgotten_turn};
ghost use Rattle.hart_order.specs.Arrangements.{IsUngrouped};
ghost use Rattle.loop_search.specs.Verdicts.{IsFoundLoop, IsVerdict};
ghost use Rattle.state_loops.specs.Endless.{IsAnswerOf};

use cheri_model::Op;
use forgotten_states::{Looped, Survey};
use loop_search::{FoundLoop, Verdict};
use state_loops::{Endless, Lasso};
use std::alloc::{AllocError, Global};

/// Whether runs can go on for ever, and the survey by which this was judged.
#[derive(Drop)]
pub struct Judged<'a> {
    pub survey: Survey<'a>,
    pub endless: Endless,
}

/// Whether runs can go on for ever, by the loops of a survey's states, of which each hart stays in
/// its place. Each time round such a loop the machine's state may be another one, but it forgets to
/// be the same. The survey is given back as it was; what was learned of single steps is kept. Fails
/// only when out of memory, or of numbers past 2^32, and then drops it.
pub fn endless_of<'a>(alloc: Global, survey: Survey<'a>) -> Result<Judged<'a>, AllocError>
    requires { IsUngrouped survey.groups }
    ensures endless { IfOk result (λ judged. IsForgottenEndless judged.survey judged.endless) }
    ensures same { IfOk result (λ judged. judged.survey ≡ survey.entry) }
{
    let Looped { survey, verdict } = survey.loops(alloc)?;
    let endless = endless_by(alloc, &survey, &verdict)?;
    Ok(Judged { survey, endless })
}

/// A verdict on the states of a survey, in the machine's operations.
fn endless_by(alloc: Global, survey: &Survey<'_>, verdict: &Verdict) -> Result<Endless, AllocError>
    requires ungrouped { IsUngrouped survey.now.groups }
    requires verdict { IsVerdict
        (forgotten_turn survey.now.image survey.now.sight survey.now.live)
        (length survey.now.image.harts) (at survey.now) survey.now.complete verdict.now }
    ensures answer { IfOk result (IsAnswerOf verdict.now) }
    ensures endless { IfOk result (IsForgottenEndless survey.now) }
{
    // Its clause says that this is a survey.
    let _count = survey.len();
    match verdict {
        Verdict::Fair(found) => Ok(Endless::Yes(lasso_of(alloc, survey, found)?)),
        Verdict::Unknown => Ok(Endless::Unknown),
        Verdict::Unfair(found) => Ok(Endless::Unfair(lasso_of(alloc, survey, found)?)),
        Verdict::NoLoop => Ok(Endless::No),
    }
}

/// The order of one list of turns, and what others after them add to it.
fn orders_of(
    alloc: Global,
    survey: &Survey<'_>,
    first: Vec<Op>,
    later: &[Op],
) -> Result<(Vec<Op>, Vec<Op>), AllocError>
    requires first { AreOfHarts survey.now.image first.items }
    requires whole { AreOfHarts survey.now.image (first.items ++ later.now) }
    requires longer { length (order_of_turns survey.now.image [] survey.now.sight first.items)
        ≤ length (order_of_turns survey.now.image [] survey.now.sight (first.items ++ later.now)) }
    ensures first { IfOk result (λ orders. orders.0.items
        ≡ order_of_turns survey.now.image [] survey.now.sight first.items) }
    ensures later { IfOk result (λ orders. orders.1.items
        ≡ drop (length (order_of_turns survey.now.image [] survey.now.sight first.items))
        (order_of_turns survey.now.image [] survey.now.sight (first.items ++ later.now))) }
{
    let order = survey.order_of(alloc, first.as_slice())?;
    let mut ops = first;
    ops.extend_from_slice(later)?;
    let whole = survey.order_of(alloc, ops.as_slice())?;
    let cycle = Vec::from_slice(alloc, &whole[order.len()..])?;
    Ok((order, cycle))
}

/// A loop of a survey's state, in the machine's operations.
fn lasso_of(alloc: Global, survey: &Survey<'_>, found: &FoundLoop) -> Result<Lasso, AllocError>
    requires ungrouped { IsUngrouped survey.now.groups }
    requires loops { IsFoundLoop
        (forgotten_turn survey.now.image survey.now.sight survey.now.live)
        (length survey.now.image.harts) (at survey.now) found.now }
    ensures { IfOk result (IsLassoOf survey.now found.now) }
{
    // Its clause says that this is a survey.
    let _count = survey.len();
    let first = survey.turns_to(alloc, found.node)?;
    let later = survey.operations(alloc, found.labels.as_slice())?;
    let (order, cycle) = orders_of(alloc, survey, first, later.as_slice())?;
    Ok(Lasso { order, cycle })
}
