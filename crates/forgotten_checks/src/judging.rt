//! What the states of a survey say of properties.

ghost use Rattle.std.specs.Prelude.{IfOk};
ghost use Rattle.asked_registers.specs.Asked.{HasAsked, condition_asks};
ghost use Rattle.explore_verdicts.specs.Deciding.{AreSeen, IsClaimSeen, IsSeen};
ghost use Rattle.explore_verdicts.specs.Verdicts.{
  AreVerdicts,
  IsPropertyVerdict,
  IsVerdict,
};
ghost use Rattle.forgotten_checks.specs.Asked.{
  claim_asks,
  claim_names,
  properties_ask,
  properties_name,
};
ghost use Rattle.forgotten_checks.specs.StateVerdicts.{IsForgottenStateVerdict};
ghost use Rattle.hart_order.specs.GroupedTurns.{keeps_number};
ghost use Rattle.hart_symmetry.specs.Named.{NamedStay, condition_names};

use conditions::Condition;
use explore_properties::{Claim, Property, When};
use explore_verdicts::{
    Decision, PropertyVerdict, Verdict, absent_verdict, found_verdict, judge_ends,
};
use forgotten_states::Survey;
use state_loops::Endless;
use std::alloc::{AllocError, Global};

/// The verdict on when a condition holds.
fn judge_states(
    alloc: Global,
    survey: &Survey<'_>,
    when: When,
    condition: &Condition,
) -> Result<Verdict, AllocError>
    requires seen { IsSeen survey.now.sight when condition.now }
    requires asked { HasAsked survey.now.live.asked (condition_asks condition.now) }
    requires named { NamedStay (keeps_number survey.now.groups) (condition_names condition.now) }
    ensures { IfOk result (IsForgottenStateVerdict survey.now when condition.now) }
{
    // Its clause says that this is a survey.
    let _count = survey.len();
    match survey.first_passing(&Decision { when, condition }) {
        Some(number) => {
            let order = survey.order_to(alloc, number)?;
            Ok(found_verdict(when, order))
        }
        None => Ok(absent_verdict(when, survey.is_complete())),
    }
}

/// The verdict on a claim, by the states of a survey and by whether runs go on for ever.
fn judge(
    alloc: Global,
    survey: &Survey<'_>,
    endless: &Endless,
    claim: &Claim,
) -> Result<Verdict, AllocError>
    requires seen { IsClaimSeen survey.now.sight claim.now }
    requires asked { HasAsked survey.now.live.asked (claim_asks claim.now) }
    requires named { NamedStay (keeps_number survey.now.groups) (claim_names claim.now) }
    ensures { IfOk result (IsVerdict (IsForgottenStateVerdict survey.now) endless.now claim.now) }
{
    match claim {
        Claim::Holds(when, condition) => judge_states(alloc, survey, *when, condition),
        Claim::Ends => judge_ends(alloc, endless, false),
        Claim::EndsFairly => judge_ends(alloc, endless, true),
    }
}

/// The verdict on a property.
fn judge_property<'p, 'a>(
    alloc: Global,
    survey: &Survey<'_>,
    endless: &Endless,
    property: &'p Property<'a>,
) -> Result<PropertyVerdict<'p, 'a>, AllocError>
    requires seen { IsClaimSeen survey.now.sight property.now.claim }
    requires asked { HasAsked survey.now.live.asked (claim_asks property.now.claim) }
    requires named { NamedStay (keeps_number survey.now.groups) (claim_names property.now.claim) }
    ensures { IfOk result (IsPropertyVerdict (IsForgottenStateVerdict survey.now) endless.now
        property.now) }
{
    let verdict = judge(alloc, survey, endless, property.claim())?;
    Ok(PropertyVerdict { property, verdict })
}

/// The verdicts on properties, one by one, by the states of a survey that passed over none that
/// decides, and by whether runs go on for ever. Fails only when out of memory.
pub(crate) fn judge_all<'p, 'a>(
    alloc: Global,
    survey: &Survey<'_>,
    endless: &Endless,
    properties: &'p [Property<'a>],
) -> Result<Vec<PropertyVerdict<'p, 'a>>, AllocError>
    requires seen { AreSeen survey.now.sight properties.now }
    requires asked { HasAsked survey.now.live.asked (properties_ask properties.now) }
    requires named { NamedStay (keeps_number survey.now.groups) (properties_name properties.now) }
    ensures { IfOk result (λ verdicts. AreVerdicts (IsForgottenStateVerdict survey.now) endless.now
        properties.now verdicts.items) }
{
    let mut verdicts = Vec::with_capacity(alloc, properties.len())?;
    for property in properties {
        verdicts.push(judge_property(alloc, survey, endless, property)?)?;
    }
    Ok(verdicts)
}
