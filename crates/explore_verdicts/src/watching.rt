//! What a search has to see.

ghost use Rattle.std.specs.Prelude.{◌≡◌, ◌++◌, ◌∷◌, [], IfOk, OnOk};
ghost use Rattle.explore_verdicts.specs.Deciding.{watch_of, watches_of};

use conditions::Condition;
use explore_properties::{Claim, Property, When};
use explore_sights::{Watch, Watches};
use std::alloc::{AllocError, Global};

/// Adds the states in which a condition holds, or doesn't.
fn add_condition(
    alloc: Global,
    watches: &mut Vec<Watch>,
    condition: &Condition,
    holds: bool,
) -> Result<(), AllocError>
    ensures { OnOk result (watches.new.items ≡ watches.old.items
        ++ record { condition = condition.now; holds = holds } ∷ []) }
{
    let condition = condition.copy(alloc)?;
    watches.push(Watch { condition, holds })?;
    Ok(())
}

/// Adds the states that decide a claim also while harts run.
fn add_claim(alloc: Global, watches: &mut Vec<Watch>, claim: &Claim) -> Result<(), AllocError>
    ensures { OnOk result (watches.new.items ≡ watches.old.items ++ watch_of claim.now) }
{
    match claim {
        Claim::Holds(When::Never | When::Sometimes, condition) => {
            add_condition(alloc, watches, condition, true)
        }
        Claim::Holds(When::Always, condition) => add_condition(alloc, watches, condition, false),
        Claim::Holds(When::Finally, _) | Claim::Ends | Claim::EndsFairly => Ok(()),
    }
}

/// The states that decide properties also while harts run, as a search has to see them. Fails only
/// when out of memory.
pub fn watches_of(alloc: Global, properties: &[Property<'_>]) -> Result<Watches, AllocError>
    ensures { IfOk result (λ watches. watches ≡ watches_of properties.now) }
{
    let mut watches = Vec::new(alloc);
    for property in properties {
        add_claim(alloc, &mut watches, property.claim())?;
    }
    Ok(Watches::new(watches))
}
