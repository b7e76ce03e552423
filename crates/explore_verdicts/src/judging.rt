//! Judging.

ghost use Rattle.std.specs.Prelude.{◌≡◌, ◌<◌, IfOk};
ghost use Rattle.explore_verdicts.specs.Deciding.{AreSeen, IsClaimSeen, IsSeen};
ghost use Rattle.explore_verdicts.specs.Verdicts.{
  absent_verdict,
  AreVerdicts,
  found_verdict,
  IsEndsVerdict,
  IsFoundVerdict,
  IsLassoVerdict,
  IsPropertyVerdict,
  IsStateVerdict,
  IsVerdict,
};
ghost use Rattle.states.specs.Kept.{count};

use crate::deciding::first_deciding;
use crate::verdict::{PropertyVerdict, Verdict};
use cheri_model::Op;
use conditions::Condition;
use explore_properties::{Claim, Property, When};
use state_loops::{Endless, Lasso};
use states::Kept;
use std::alloc::{AllocError, Global};

/// The verdict where this order leads to a state that decides.
pub fn found_verdict(when: When, order: Vec<Op>) -> Verdict
    ensures { result ≡ found_verdict when order }
{
    match when {
        When::Sometimes => Verdict::HoldsAfter(order),
        When::Never | When::Always | When::Finally => Verdict::ViolatedAfter(order),
    }
}

/// The verdict where the state of this number is the first that decides.
fn witness_verdict(
    alloc: Global,
    kept: &Kept,
    when: When,
    number: u32,
) -> Result<Verdict, AllocError>
    requires { number < count kept.now }
    ensures { IfOk result (IsFoundVerdict kept.now when number) }
{
    let order = kept.witness(alloc, number)?;
    Ok(found_verdict(when, order))
}

/// The verdict where no kept state decides, which may be all there are.
pub fn absent_verdict(when: When, complete: bool) -> Verdict
    ensures { result ≡ absent_verdict when complete }
{
    if !complete {
        return Verdict::Unknown;
    }
    match when {
        When::Sometimes => Verdict::Violated,
        When::Never | When::Always | When::Finally => Verdict::Holds,
    }
}

/// The verdict on when a condition holds.
fn judge_states(
    alloc: Global,
    kept: &Kept,
    when: When,
    condition: &Condition,
) -> Result<Verdict, AllocError>
    requires seen { IsSeen kept.now.sight when condition.now }
    ensures { IfOk result (IsStateVerdict kept.now when condition.now) }
{
    match first_deciding(kept, when, condition) {
        Some(number) => witness_verdict(alloc, kept, when, number),
        None => Ok(absent_verdict(when, kept.is_complete())),
    }
}

/// A run that goes on for ever, again.
fn violated_by(alloc: Global, lasso: &Lasso) -> Result<Verdict, AllocError>
    ensures { IfOk result (IsLassoVerdict lasso.now) }
{
    Ok(Verdict::ViolatedBy(Lasso {
        order: Vec::from_slice(alloc, lasso.order.as_slice())?,
        cycle: Vec::from_slice(alloc, lasso.cycle.as_slice())?,
    }))
}

/// The verdict on whether every run ends, or every run in which each hart is let on. Fails only
/// when out of memory.
pub fn judge_ends(alloc: Global, endless: &Endless, fairly: bool) -> Result<Verdict, AllocError>
    ensures { IfOk result (IsEndsVerdict fairly endless.now) }
{
    match endless {
        Endless::Yes(lasso) => violated_by(alloc, lasso),
        Endless::Unknown => Ok(Verdict::Unknown),
        Endless::Unfair(_) if fairly => Ok(Verdict::Holds),
        Endless::Unfair(lasso) => violated_by(alloc, lasso),
        Endless::No => Ok(Verdict::Holds),
    }
}

/// The verdict on a claim, by the kept states and by whether runs through them go on for ever.
fn judge(
    alloc: Global,
    kept: &Kept,
    endless: &Endless,
    claim: &Claim,
) -> Result<Verdict, AllocError>
    requires seen { IsClaimSeen kept.now.sight claim.now }
    ensures { IfOk result (IsVerdict (IsStateVerdict kept.now) endless.now claim.now) }
{
    match claim {
        Claim::Holds(when, condition) => judge_states(alloc, kept, *when, condition),
        Claim::Ends => judge_ends(alloc, endless, false),
        Claim::EndsFairly => judge_ends(alloc, endless, true),
    }
}

/// The verdict on a property.
fn judge_property<'p, 'a>(
    alloc: Global,
    kept: &Kept,
    endless: &Endless,
    property: &'p Property<'a>,
) -> Result<PropertyVerdict<'p, 'a>, AllocError>
    requires seen { IsClaimSeen kept.now.sight property.now.claim }
    ensures { IfOk result (IsPropertyVerdict (IsStateVerdict kept.now) endless.now property.now) }
{
    let verdict = judge(alloc, kept, endless, property.claim())?;
    Ok(PropertyVerdict { property, verdict })
}

/// The verdicts on properties, one by one, by the kept states of a search that passed over none
/// that decides, and by whether runs through them go on for ever. Fails only when out of memory.
pub fn judge_all<'p, 'a>(
    alloc: Global,
    kept: &Kept,
    endless: &Endless,
    properties: &'p [Property<'a>],
) -> Result<Vec<PropertyVerdict<'p, 'a>>, AllocError>
    requires seen { AreSeen kept.now.sight properties.now }
    ensures { IfOk result (λ verdicts.
        AreVerdicts (IsStateVerdict kept.now) endless.now properties.now verdicts.items) }
{
    let mut verdicts = Vec::with_capacity(alloc, properties.len())?;
    for property in properties {
        verdicts.push(judge_property(alloc, kept, endless, property)?)?;
    }
    Ok(verdicts)
}
