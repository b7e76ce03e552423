//! How a line says that orders are drawn.
#![tactic(auto, unfolding(crate::proofs::Unfold::drawn))]

ghost use Rattle.std.specs.Prelude.{◌≡◌, ◌≤◌, IfOk, IfSome, Option};
ghost use Rattle.sample_draws.specs.declared.drawing.TheConstants.{MAX_DEPTH};
ghost use Rattle.serde_json.specs.View.{items_view, view as data_of};
ghost use Rattle.sample_slices.specs.Drawn.{are_given, depth_in, drawing_in, drawing_of, inner};
ghost use Rattle.sample_slices.specs.Drawn.{range_in, range_step, ranges_in};
ghost use Rattle.sample_slices.specs.Members.{Gives, GivesSeen, Steps, all_steps};
ghost use Rattle.sample_slices.specs.Slices.{properties_in};
ghost use Rattle.sample_slices.specs.Sweeps.{same_ranges};

use crate::fault::LineFault;
use crate::members::{list_in, member, number_in, number_within};
use crate::sweeps::{is_same, range_of, unite_sweeps};
use cheri_model::NoMemory;
use explore_properties::Properties;
use explore_sweeps::{MAX_SWEEPS, sweep_of};
use sample_draws::{Drawing, MAX_DEPTH, MAX_LENGTH, MAX_SEED};
use schedules::SweepRange;
use serde_json::Value;
use std::alloc::Global;

/// A text without its first and its last byte.
fn inner(text: &[u8]) -> &[u8]
    ensures { result.now ≡ inner text.now }
{
    if text.len() < 2 {
        return &text[..0];
    }
    &text[1..text.len() - 1]
}

/// The range of a sweep in brackets.
fn range_in(value: &Value) -> Option<SweepRange>
    ensures { result ≡ range_in (data_of value.now) }
{
    let text = value.as_str()?;
    let sweep = sweep_of(inner(text.as_bytes()))?;
    Some(range_of(sweep))
}

/// One range more.
fn add_range(value: &Value, ranges: &mut Vec<SweepRange>) -> Result<(), LineFault>
    ensures { Steps result ranges.new.items (range_step (data_of value.now) ranges.old.items) }
{
    let range = range_in(value).ok_or(LineFault::Form)?;
    ranges.push(range)?;
    Ok(())
}

/// Adds those of a list.
fn add_ranges(list: &[Value], ranges: &mut Vec<SweepRange>) -> Result<(), LineFault>
    ensures { Steps result ranges.new.items
        (all_steps range_step (items_view list.now) ranges.old.items) }
{
    for item in list {
        add_range(item, ranges)?;
    }
    Ok(())
}

/// The ranges that may be swept.
fn ranges_in(alloc: Global, value: &Value) -> Result<Vec<SweepRange>, LineFault>
    ensures { GivesSeen (λ ranges. ranges.items) result (ranges_in (data_of value.now)) }
{
    let list = list_in(value, "sweeps").ok_or(LineFault::Form)?;
    let mut ranges = Vec::new(alloc);
    add_ranges(list, &mut ranges)?;
    Ok(ranges)
}

/// The depth, where one is there.
fn depth_in(value: &Value) -> Option<Option<u8>>
    ensures { result ≡ depth_in (data_of value.now) }
{
    match member(value, "depth") {
        None => Some(None),
        Some(found) => {
            let depth = number_within(found, u64::from(MAX_DEPTH))?;
            Some(Some(depth as u8))
        }
    }
}

/// How orders are drawn, within limits.
fn drawing_of(alloc: Global, value: &Value) -> Result<Drawing, LineFault>
    ensures { Gives result (drawing_of (data_of value.now)) }
{
    let seed = number_in(value, "seed", u64::from(MAX_SEED)).ok_or(LineFault::Form)?;
    let length = number_in(value, "length", u64::from(MAX_LENGTH)).ok_or(LineFault::Form)?;
    let depth = depth_in(value).ok_or(LineFault::Form)?;
    let sweeps = ranges_in(alloc, value)?;
    Drawing::new(seed as u32, length as u32, depth, sweeps).ok_or(LineFault::Form)
}

/// Whether ranges are the same as others.
#[tactic(auto, using(crate::proofs::SweepLemmas::same))]
fn are_same(ranges: &[SweepRange], others: &[SweepRange]) -> bool
    ensures { result ≡ same_ranges ranges.now others.now }
{
    if ranges.len() != others.len() {
        return false;
    }
    for place in 0..ranges.len() {
        if !is_same(ranges[place], others[place]) {
            return false;
        }
    }
    true
}

/// Whether ranges are those of a command line and of the properties that are looked at.
fn are_given(
    alloc: Global,
    properties: Option<&Properties<'_>>,
    ranges: &[SweepRange],
) -> Result<bool, NoMemory>
    ensures { IfOk result (λ are. are ≡ are_given (properties_in properties.entry) ranges.now) }
{
    match properties {
        None => Ok(ranges.len() <= MAX_SWEEPS),
        Some(read) => {
            let first = &ranges[..ranges.len().min(MAX_SWEEPS)];
            let united = unite_sweeps(alloc, first, read.sweeps())?;
            Ok(are_same(united.as_slice(), ranges))
        }
    }
}

/// How orders are drawn, where these properties are looked at.
pub(crate) fn drawing_in(
    alloc: Global,
    properties: Option<&Properties<'_>>,
    value: &Value,
) -> Result<Drawing, LineFault>
    ensures { Gives result (drawing_in (properties_in properties.entry) (data_of value.now)) }
{
    let drawn = member(value, "drawn").ok_or(LineFault::Form)?;
    let drawing = drawing_of(alloc, drawn)?;
    if are_given(alloc, properties, drawing.sweeps())? {
        Ok(drawing)
    } else {
        Err(LineFault::Form)
    }
}
