//! The registers that properties ask for.

ghost use Rattle.std.specs.Prelude.{IfOk};
ghost use Rattle.asked_registers.specs.Asked.{HasAsked, IsWith};
ghost use Rattle.forgotten_checks.specs.Asked.{claim_asks, properties_ask};

use asked_registers::with_nodes;
use explore_properties::{Claim, Property};
use live_registers::RegisterSet;
use std::alloc::{AllocError, Global};

/// A set with the registers that a claim asks for.
fn with_claim(alloc: Global, set: RegisterSet, claim: &Claim) -> Result<RegisterSet, AllocError>
    ensures { IfOk result (IsWith set (claim_asks claim.now)) }
{
    match claim {
        Claim::Holds(_, condition) => {
            let nodes = condition.nodes(alloc)?;
            Ok(with_nodes(set, nodes.as_slice()))
        }
        Claim::Ends | Claim::EndsFairly => Ok(set),
    }
}

/// The registers that properties ask for. Fails only when out of memory.
pub(crate) fn asked_for(
    alloc: Global,
    properties: &[Property<'_>],
) -> Result<RegisterSet, AllocError>
    ensures { IfOk result (λ set. HasAsked set (properties_ask properties.now)) }
{
    let mut asked = RegisterSet::none();
    for property in properties {
        asked = with_claim(alloc, asked, property.claim())?;
    }
    Ok(asked)
}
