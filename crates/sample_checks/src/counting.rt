//! Counting runs, and looking at properties in each.

ghost use Rattle.std.specs.Prelude.{◌≡◌, ◌≤◌, ◌+◌, true, length, map, Option, None, Some};
ghost use Rattle.std.specs.Prelude.{IfOk, OnOk};
ghost use Rattle.cheri_model.specs.runs.Image.{opening_memory};
ghost use Rattle.cheri_model.specs.runs.Machine.{opening_state};
ghost use Rattle.cheri_model.specs.runs.Replay.{is_legal};
ghost use Rattle.explore_properties.specs.Properties.{PropertyParts};
ghost use Rattle.sample_tallies.specs.Tallies.{tally, numbers_from};
ghost use Rattle.sample_checks.specs.Deciding.{decided_after};
ghost use Rattle.sample_checks.specs.Checks.{seen_if, decided_in, either_each};

use crate::checked::{Checked, either, none_each};
use crate::machine::Machine;
use cheri_model::{Image, Op};
use explore_properties::Property;
use sample_draws::{Drawing, MAX_RUN};
use sample_runs::Runner;
use sample_tallies::{Seen, count_runs};
use std::alloc::{AllocError, Global};

/// What a run says of a property that its order decides after so many operations.
fn seen_if(after: Option<usize>, run: u64) -> Option<Seen>
    ensures { result ≡ seen_if after run }
{
    match after {
        None => None,
        Some(_) => Some(Seen::once(run)),
    }
}

/// Adds what a run of this order says of each property. Fails only when out of memory, or where a
/// count reaches 2^64.
fn see_run(
    alloc: Global,
    machine: &mut Machine,
    properties: &[Property<'_>],
    order: &[Op],
    run: u64,
    decided: &mut [Option<Seen>],
) -> Result<(), AllocError>
    requires legal { is_legal machine.old.image (opening_state machine.old.image) order.now ≡ true }
    requires as_many { length decided.old ≡ length properties.now }
    ensures image { machine.new.image ≡ machine.old.image }
    ensures seen { OnOk result (decided.new ≡ either_each decided.old (map (λ (p : PropertyParts).
        seen_if (decided_after machine.old.image p.claim order.now) run) properties.now)) }
{
    for place in 0..properties.len() {
        let after = machine.decided_after(alloc, properties[place].claim(), order)?;
        decided[place] = either(decided[place], seen_if(after, run))?;
    }
    Ok(())
}

/// Which runs decide each property, of so many runs from the one with this number on. Fails as
/// `count_checked` does.
fn count_decided(
    alloc: Global,
    image: &Image,
    drawing: &Drawing,
    properties: &[Property<'_>],
    first: u64,
    count: u64,
) -> Result<Vec<Option<Seen>>, AllocError>
    requires { first + count ≤ MAX_RUN + 1 }
    ensures { IfOk result (λ decided. decided.items
        ≡ decided_in image.now drawing.now properties.now (numbers_from first count)) }
{
    let mut decided = none_each(alloc, properties.len())?;
    if properties.is_empty() {
        return Ok(decided);
    }
    let mut runner = Runner::open(alloc, image)?;
    let mut machine = Machine::open(alloc, image)?;
    // Its clause says that sweeps can be taken.
    let _seed = drawing.seed();
    for done in 0..count {
        let run = first + done;
        let order = runner.order(alloc, drawing, run)?;
        see_run(
            alloc,
            &mut machine,
            properties,
            order.as_slice(),
            run,
            &mut decided,
        )?;
    }
    Ok(decided)
}

/// What so many runs give, from the one with this number on, and which of them decide each
/// property. Fails only when out of memory or of numbers for states, or where a count reaches 2^64.
pub fn count_checked(
    alloc: Global,
    image: &Image,
    drawing: &Drawing,
    properties: &[Property<'_>],
    first: u64,
    count: u64,
) -> Result<Checked, AllocError>
    requires { first + count ≤ MAX_RUN + 1 }
    ensures sum { IfOk result (λ checked.
        checked.sum ≡ tally image.now drawing.now (numbers_from first count)) }
    ensures decided { IfOk result (λ checked. checked.decided
        ≡ decided_in image.now drawing.now properties.now (numbers_from first count)) }
    ensures harts { IfOk result (λ checked. checked.harts ≡ length image.now.harts) }
    ensures granules { IfOk result (λ checked.
        checked.granules ≡ length (opening_memory image.now.ram image.now.granules)) }
{
    let tally = count_runs(alloc, image, drawing, first, count)?;
    let decided = count_decided(alloc, image, drawing, properties, first, count)?;
    Ok(Checked::of_claims(tally, decided))
}
