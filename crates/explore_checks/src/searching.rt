//! The search.

ghost use Rattle.std.specs.Prelude.{◌≡◌, true, None, IfOk};
ghost use Rattle.cheri_model.specs.runs.Machine.{opening_state};
ghost use Rattle.explore_checks.specs.Checks.{asks_of_loops, IsFound, one_asks};
ghost use Rattle.state_loops.specs.Endless.{IsEndless, IsSame};
ghost use Rattle.states.specs.Kept.{count};
ghost use Rattle.states.specs.Searches.{IsSearchable, search_of};

use crate::head::Head;
use cores::Core;
use explore_properties::{Claim, Property};
use explore_sights::Sight;
use explore_verdicts::watches_of;
use graph_search::Progress;
use state_loops::{Endless, endless_of};
use states::{Kept, Search, search_from};
use std::alloc::{AllocError, Global};

/// The kept states, and, where a property asks it, whether runs through them can go on for ever.
#[derive(Drop)]
pub(crate) struct Searched {
    pub kept: Kept,
    pub endless: Endless,
}

impl Searched {
    /// What an answer begins with.
    pub fn head(&self) -> Head<'_>
        ensures image { result.image.now ≡ self.now.kept.image }
        ensures reduced { result.reduced ≡ None }
        ensures complete { result.complete ≡ self.now.kept.complete }
        ensures states { result.states ≡ count self.now.kept }
    {
        Head {
            image: self.kept.image(),
            reduced: None,
            complete: self.kept.is_complete(),
            states: self.kept.len(),
        }
    }
}

/// Whether a claim is one on runs that go on for ever.
fn asks_of_loops(claim: &Claim) -> bool
    ensures { result ≡ asks_of_loops claim.now }
{
    match claim {
        Claim::Holds(_, _) => false,
        Claim::Ends | Claim::EndsFairly => true,
    }
}

/// Whether a property asks whether runs go on for ever.
pub fn one_asks(properties: &[Property<'_>]) -> bool
    ensures { result ≡ one_asks properties.now }
{
    for property in properties {
        if asks_of_loops(property.claim()) {
            return true;
        }
    }
    false
}

/// Judges whether runs through the kept states can go on for ever.
fn judged(alloc: Global, kept: Kept) -> Result<Searched, AllocError>
    ensures same { IfOk result (λ searched. IsSame kept searched.kept) }
    ensures endless { IfOk result (λ searched. IsEndless searched.kept searched.endless) }
{
    let judged = endless_of(alloc, kept)?;
    Ok(Searched {
        kept: judged.kept,
        endless: judged.endless,
    })
}

/// The same where it is asked for; else this stays unknown.
fn judged_if(alloc: Global, kept: Kept, asked: bool) -> Result<Searched, AllocError>
    ensures same { IfOk result (λ searched. IsSame kept searched.kept) }
    ensures endless { IfOk result (λ searched.
        asked ≡ true → IsEndless searched.kept searched.endless) }
{
    if asked {
        return judged(alloc, kept);
    }
    Ok(Searched {
        kept,
        endless: Endless::Unknown,
    })
}

/// Searches the states that a machine reaches, once for all properties, and judges their loops
/// where a property asks for it. Fails only when out of memory, or of numbers past 2^32.
pub(crate) fn search_properties<P: Progress>(
    alloc: Global,
    search: &Search<'_>,
    core: &Core,
    properties: &[Property<'_>],
    progress: &mut P,
) -> Result<Searched, AllocError>
    requires search { IsSearchable (search_of search.now) }
    requires opening { core.now.state ≡ opening_state search.now.image.now }
    ensures { IfOk result (IsFound (search_of search.now) properties.now) }
{
    let sees = Sight::Watches(watches_of(alloc, properties)?);
    let kept = search_from(alloc, search, &sees, core, progress)?;
    let searched = judged_if(alloc, kept, one_asks(properties))?;
    // Its clause says that this is a search.
    let _count = searched.kept.len();
    Ok(searched)
}
