//! Whether runs can go on for ever.

ghost use Rattle.std.specs.Prelude.{◌≡◌, length, IfOk};
ghost use Rattle.granule_loops.specs.GranuleLoops.{IsAnswerOf, IsLassoOf, IsOwnedEndless};
ghost use Rattle.granule_states.specs.Graphs.{turn_in};
ghost use Rattle.granule_states.specs.Owned.{IsSame, at};
ghost use Rattle.loop_search.specs.Verdicts.{IsFoundLoop, IsVerdict};

use granule_states::{Looped, OwnedStates};
use loop_search::{FoundLoop, Verdict};
use state_loops::{Endless, Lasso};
use std::alloc::{AllocError, Global};

/// Whether runs can go on for ever, and the states of which this was judged.
#[derive(Drop)]
pub struct Judged {
    pub kept: OwnedStates,
    pub endless: Endless,
}

/// Whether runs can go on for ever, by the loops of the kept states. The states are given back as
/// they were; what was learned of single steps is kept. Fails only when out of memory, or of
/// numbers past 2^32, and then drops them.
pub fn endless_of(alloc: Global, kept: OwnedStates) -> Result<Judged, AllocError>
    ensures endless { IfOk result (λ judged. IsOwnedEndless judged.kept judged.endless) }
    ensures same { IfOk result (λ judged. IsSame kept judged.kept) }
{
    let Looped { kept, verdict } = kept.loops(alloc)?;
    let endless = endless_by(alloc, &kept, &verdict)?;
    Ok(Judged { kept, endless })
}

/// A verdict on the kept states, in the machine's operations. Where these may not be all, it says
/// nothing of runs that none of them shows.
fn endless_by(alloc: Global, kept: &OwnedStates, verdict: &Verdict) -> Result<Endless, AllocError>
    requires { IsVerdict (turn_in kept.now.graph) (length kept.now.graph.graph.image.harts)
        (at kept.now) kept.now.finished verdict.now }
    ensures answer { IfOk result (IsAnswerOf kept.now.complete verdict.now) }
    ensures endless { IfOk result (IsOwnedEndless kept.now) }
{
    // Their clauses say that these are the states of a search, and that the image is one.
    let _count = kept.len();
    let _granules = kept.image().granules();
    let is_complete = kept.is_complete();
    match verdict {
        Verdict::Fair(found) => Ok(Endless::Yes(lasso_of(alloc, kept, found)?)),
        Verdict::Unfair(found) if is_complete => {
            Ok(Endless::Unfair(lasso_of(alloc, kept, found)?))
        }
        Verdict::NoLoop if is_complete => Ok(Endless::No),
        Verdict::Unknown | Verdict::Unfair(_) | Verdict::NoLoop => Ok(Endless::Unknown),
    }
}

/// A loop of a kept state, in the machine's operations.
fn lasso_of(alloc: Global, kept: &OwnedStates, found: &FoundLoop) -> Result<Lasso, AllocError>
    requires { IsFoundLoop (turn_in kept.now.graph) (length kept.now.graph.graph.image.harts)
        (at kept.now) found.now }
    ensures { IfOk result (IsLassoOf kept.now found.now) }
{
    let (order, cycle) = kept.lasso(alloc, found)?;
    Ok(Lasso { order, cycle })
}
