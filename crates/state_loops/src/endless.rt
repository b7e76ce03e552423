//! Whether runs can go on for ever.

ghost use Rattle.std.specs.Prelude.{◌≡◌, ◌≤◌, ◌++◌, drop, length, IfOk};
ghost use Rattle.loop_search.specs.Verdicts.{IsVerdict, IsFoundLoop};
ghost use Rattle.explore_turns.specs.Orders.{AreOfHarts, order_of_turns};
ghost use Rattle.explore_turns.specs.Turns.{turn_by};
ghost use Rattle.states.specs.Kept.{at};
ghost use Rattle.state_loops.specs.Endless.{IsEndless, IsAnswerOf, IsSame, IsLassoOf};

use cheri_model::Op;
use loop_search::{FoundLoop, Verdict, search_loops};
use states::{Kept, Searched};
use std::alloc::{AllocError, Global};

/// A run that goes on for ever: the order that leads to a kept state, its witness, and a loop of
/// this state, an order that leads from it back to it with at least one step. The loop is taken
/// again and again.
#[derive(Drop)]
pub struct Lasso {
    pub order: Vec<Op>,
    pub cycle: Vec<Op>,
}

/// Whether runs can go on for ever.
#[derive(Drop)]
pub enum Endless {
    /// Some can, and every hart that runs takes its steps in them: the loop is a fair one, through
    /// kept states.
    Yes(Lasso),
    /// No such run through the kept states, which are not all.
    Unknown,
    /// The states are all, and no loop of any of them is fair; but this loop is one.
    Unfair(Lasso),
    /// The states are all, and none of them has a loop.
    No,
}

/// Whether runs can go on for ever, and the states of which this was judged.
#[derive(Drop)]
pub struct Judged {
    pub kept: Kept,
    pub endless: Endless,
}

/// Whether runs through the kept states can go on for ever. The states are given back as they were;
/// what was learned of single steps is kept. Fails only when out of memory, or of numbers past
/// 2^32, and then drops them.
pub fn endless_of(alloc: Global, kept: Kept) -> Result<Judged, AllocError>
    ensures endless { IfOk result (λ judged. IsEndless judged.kept judged.endless) }
    ensures same { IfOk result (λ judged. IsSame kept judged.kept) }
{
    let mut parts = kept.into_parts();
    // Its clause says that there are at most 8 harts.
    let _granules = parts.image.granules();
    let harts = parts.image.harts().len() as u32;
    let verdict = search_loops(alloc, &mut parts.graph, &parts.reached, harts)?;
    let kept = Kept::from_parts(parts);
    let endless = endless_by(alloc, &kept, &verdict)?;
    Ok(Judged { kept, endless })
}

/// A verdict on the kept states, in the machine's operations.
fn endless_by(alloc: Global, kept: &Kept, verdict: &Verdict) -> Result<Endless, AllocError>
    requires { IsVerdict (turn_by kept.now.image kept.now.sweeps kept.now.sight)
        (length kept.now.image.harts) (at kept.now) kept.now.complete verdict.now }
    ensures answer { IfOk result (IsAnswerOf verdict.now) }
    ensures endless { IfOk result (IsEndless kept.now) }
{
    // Its clause says that these are the states of a search.
    let _count = kept.len();
    match verdict {
        Verdict::Fair(found) => Ok(Endless::Yes(lasso_of(alloc, kept, found)?)),
        Verdict::Unknown => Ok(Endless::Unknown),
        Verdict::Unfair(found) => Ok(Endless::Unfair(lasso_of(alloc, kept, found)?)),
        Verdict::NoLoop => Ok(Endless::No),
    }
}

/// The order of one list of turns, and what others after them add to it.
fn orders_of(
    alloc: Global,
    kept: &Kept,
    first: Vec<Op>,
    later: &[Op],
) -> Result<(Vec<Op>, Vec<Op>), AllocError>
    requires first { AreOfHarts kept.now.image first.items }
    requires whole { AreOfHarts kept.now.image (first.items ++ later.now) }
    requires longer { length
        (order_of_turns kept.now.image kept.now.sweeps kept.now.sight first.items)
        ≤ length (order_of_turns kept.now.image kept.now.sweeps kept.now.sight
        (first.items ++ later.now)) }
    ensures first { IfOk result (λ orders. orders.0.items
        ≡ order_of_turns kept.now.image kept.now.sweeps kept.now.sight first.items) }
    ensures later { IfOk result (λ orders. orders.1.items
        ≡ drop (length (order_of_turns kept.now.image kept.now.sweeps kept.now.sight first.items))
        (order_of_turns kept.now.image kept.now.sweeps kept.now.sight
        (first.items ++ later.now))) }
{
    let order = kept.order_of(alloc, first.as_slice())?;
    let mut ops = first;
    ops.extend_from_slice(later)?;
    let whole = kept.order_of(alloc, ops.as_slice())?;
    let cycle = Vec::from_slice(alloc, &whole[order.len()..])?;
    Ok((order, cycle))
}

/// A loop of a kept state, in the machine's operations.
fn lasso_of(alloc: Global, kept: &Kept, found: &FoundLoop) -> Result<Lasso, AllocError>
    requires { IsFoundLoop (turn_by kept.now.image kept.now.sweeps kept.now.sight)
        (length kept.now.image.harts) (at kept.now) found.now }
    ensures { IfOk result (IsLassoOf kept.now found.now) }
{
    let first = kept.witness_turns(alloc, found.node)?;
    let later = kept.operations(alloc, found.labels.as_slice())?;
    let (order, cycle) = orders_of(alloc, kept, first, later.as_slice())?;
    Ok(Lasso { order, cycle })
}
