//! The harts that properties name by their numbers.

ghost use Rattle.std.specs.Prelude.{◌||◌, IfOk};
ghost use Rattle.forgotten_checks.specs.Asked.{claim_names, properties_name};
ghost use Rattle.named_harts.specs.NamedHarts.{IsSetOf, has};

use explore_properties::{Claim, Property};
use named_harts::{HartSet, named_harts, nobody, union};
use std::alloc::{AllocError, Global};

/// The harts that a claim names.
fn of_claim(alloc: Global, claim: &Claim) -> Result<HartSet, AllocError>
    ensures { IfOk result (IsSetOf (claim_names claim.now)) }
{
    match claim {
        Claim::Holds(_, condition) => {
            let nodes = condition.nodes(alloc)?;
            named_harts(alloc, nodes.as_slice())
        }
        Claim::Ends | Claim::EndsFairly => Ok(nobody()),
    }
}

/// A set with the harts that a claim names.
fn with_claim(alloc: Global, set: &HartSet, claim: &Claim) -> Result<HartSet, AllocError>
    ensures { IfOk result (IsSetOf (λ hart. has set.now hart || claim_names claim.now hart)) }
{
    let named = of_claim(alloc, claim)?;
    Ok(union(set, &named))
}

/// The harts that properties name. Fails only when out of memory.
pub(crate) fn named_by(alloc: Global, properties: &[Property<'_>]) -> Result<HartSet, AllocError>
    ensures { IfOk result (IsSetOf (properties_name properties.now)) }
{
    let mut named = nobody();
    for property in properties {
        named = with_claim(alloc, &named, property.claim())?;
    }
    Ok(named)
}
