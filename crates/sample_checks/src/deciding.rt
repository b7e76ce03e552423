//! The orders that decide properties.
#![tactic(auto, unfolding(crate::specs::Told::told_of))]

ghost use Rattle.std.specs.Prelude.{◌≡◌, ◌≤◌, Some, None, map, length, All};
ghost use Rattle.std.specs.Prelude.{IfOk, IfSome, IfNone};
ghost use Rattle.sample_draws.specs.Orders.{drawn_order};
ghost use Rattle.sample_checks.specs.Deciding.{deciding_part};
ghost use Rattle.sample_checks.specs.Checks.{is_drawn};
ghost use Rattle.sample_checks.specs.Told.{with_order, told_of, tell_all, told_in, property_of};
ghost use Rattle.sample_checks.specs.Told.{parts_of};

use crate::machine::Machine;
use crate::told::{Decided, PropertySeen};
use cheri_model::{Image, Op};
use explore_properties::Property;
use sample_draws::{Drawing, MAX_RUN};
use sample_runs::Runner;
use sample_tallies::Seen;
use std::alloc::{AllocError, Global};

/// The order of a run up to the first state that decides a property, or `None` where the run does
/// not decide it. Fails only when out of memory.
pub fn deciding_order(
    alloc: Global,
    runner: &mut Runner,
    drawing: &Drawing,
    property: &Property<'_>,
    run: u64,
) -> Result<Option<Vec<Op>>, AllocError>
    requires { run ≤ MAX_RUN }
    ensures image { runner.new.image ≡ runner.old.image }
    ensures order { IfOk result (λ part. IfSome part (λ order.
        deciding_part runner.old.image property.now.claim
        (drawn_order runner.old.image drawing.now run) ≡ Some order.items)) }
    ensures none { IfOk result (λ part. IfNone part (
        deciding_part runner.old.image property.now.claim
        (drawn_order runner.old.image drawing.now run) ≡ None)) }
{
    // Its clause says that sweeps can be taken.
    let _seed = drawing.seed();
    let mut order = runner.order(alloc, drawing, run)?;
    let mut machine = Machine::open(alloc, runner.image())?;
    let after = machine.decided_after(alloc, property.claim(), order.as_slice())?;
    match after {
        None => Ok(None),
        Some(after) => {
            order.truncate(after);
            Ok(Some(order))
        }
    }
}

/// What is told of a property that runs decide, where the first of them does.
fn told_with(
    alloc: Global,
    runner: &mut Runner,
    drawing: &Drawing,
    property: &Property<'_>,
    seen: Seen,
) -> Result<Option<Decided>, AllocError>
    requires { seen.first ≤ MAX_RUN }
    ensures image { runner.new.image ≡ runner.old.image }
    ensures told { IfOk result (λ decided. parts_of decided ≡ with_order seen
        (deciding_part runner.old.image property.now.claim
        (drawn_order runner.old.image drawing.now seen.first))) }
{
    let order = deciding_order(alloc, runner, drawing, property, seen.first)?;
    match order {
        None => Ok(None),
        Some(order) => Ok(Some(Decided { seen, order })),
    }
}

/// What is told of a property.
fn told(
    alloc: Global,
    runner: &mut Runner,
    drawing: &Drawing,
    property: &Property<'_>,
    seen: Option<Seen>,
) -> Result<Option<Decided>, AllocError>
    requires { is_drawn seen }
    ensures image { runner.new.image ≡ runner.old.image }
    ensures told { IfOk result (λ decided. parts_of decided
        ≡ told_of runner.old.image drawing.now property.now seen) }
{
    match seen {
        None => Ok(None),
        Some(seen) => told_with(alloc, runner, drawing, property, seen),
    }
}

/// What is told of each property that runs of a machine decide, where the first of them does. Fails
/// only when out of memory.
pub fn properties_seen<'p, 'a>(
    alloc: Global,
    image: &Image,
    drawing: &Drawing,
    properties: &'p [Property<'a>],
    decided: &[Option<Seen>],
) -> Result<Vec<PropertySeen<'p, 'a>>, AllocError>
    requires as_many { length decided.now ≡ length properties.now }
    requires drawn { All is_drawn decided.now }
    ensures properties { IfOk result (λ all. map property_of all.items ≡ properties.now) }
    ensures told { IfOk result (λ all. map told_in all.items
        ≡ tell_all image.now drawing.now properties.now decided.now) }
{
    let mut runner = Runner::open(alloc, image)?;
    let mut all = Vec::new(alloc);
    for place in 0..properties.len() {
        let property = &properties[place];
        let decided = told(alloc, &mut runner, drawing, property, decided[place])?;
        all.push(PropertySeen { property, decided })?;
    }
    Ok(all)
}
