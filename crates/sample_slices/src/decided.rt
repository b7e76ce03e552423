//! What a line claims that runs say of properties.
#![tactic(auto, using(crate::proofs::ClaimLemmas::all_drawn), unfolding(crate::proofs::Unfold::decided))]

ghost use Rattle.std.specs.Prelude.{◌≡◌, ◌≤◌, All, IfOk, IfSome, OnOk, length, option_map};
ghost use Rattle.sample_checks.specs.Checks.{is_drawn};
ghost use Rattle.serde_json.specs.View.{items_view, view as data_of};
ghost use Rattle.sample_slices.specs.Claimed.{decided_by, decided_in, decided_of};
ghost use Rattle.sample_slices.specs.Claimed.{decided_step, deciding_in, runs_or_one};
ghost use Rattle.sample_slices.specs.Members.{Gives, GivesSeen, Steps, all_steps};
ghost use Rattle.sample_slices.specs.Slices.{asked, properties_in};

use crate::again::Again;
use crate::fault::LineFault;
use crate::members::{list_in, member, number_within, text_in};
use explore_properties::{Properties, Property};
use sample_draws::MAX_RUN;
use sample_tallies::Seen;
use serde_json::Value;

/// How many runs decide a property: one, where that is not said.
fn runs_or_one(found: Option<&Value>) -> Option<u64>
    ensures { result ≡ runs_or_one (option_map (λ v. data_of v.now) found.entry) }
{
    match found {
        None => Some(1),
        Some(found) => number_within(found, MAX_RUN + 1),
    }
}

/// Runs that decide a property.
fn deciding_in(again: &Again<'_>, value: &Value) -> Option<Seen>
    ensures seen { result ≡ deciding_in again.now.numbers (data_of value.now) }
    ensures within { IfSome result (λ seen. seen.first ≤ MAX_RUN) }
{
    let runs = runs_or_one(member(value, "runs"))?;
    again.seen_of(runs, value)
}

/// What is said of a property.
fn decided_of(
    again: &mut Again<'_>,
    property: &Property<'_>,
    answer: &str,
    value: &Value,
) -> Result<Option<Seen>, LineFault>
    ensures decided { Gives result (decided_of again.old property.now answer.now
        (data_of value.now)) }
    ensures drawn { IfOk result is_drawn }
    ensures same { again.new ≡ again.old }
{
    if answer == "not seen" {
        return Ok(None);
    }
    let seen = deciding_in(again, value).ok_or(LineFault::Form)?;
    if again.decides(property, seen)? {
        Ok(Some(seen))
    } else {
        Err(LineFault::Form)
    }
}

/// What is said of the next property.
fn add_decided(
    again: &mut Again<'_>,
    properties: &[Property<'_>],
    value: &Value,
    decided: &mut Vec<Option<Seen>>,
) -> Result<(), LineFault>
    requires { All is_drawn decided.old.items }
    ensures decided { Steps result decided.new.items
        (decided_step again.old properties.now (data_of value.now) decided.old.items) }
    ensures drawn { OnOk result (All is_drawn decided.new.items) }
    ensures same { again.new ≡ again.old }
{
    let place = decided.len();
    if place >= properties.len() {
        return Err(LineFault::Form);
    }
    let answer = text_in(value, "answer").ok_or(LineFault::Form)?;
    let one = decided_of(again, &properties[place], answer, value)?;
    decided.push(one)?;
    Ok(())
}

/// What the items of a list say, each of the next property.
fn add_list(
    again: &mut Again<'_>,
    properties: &[Property<'_>],
    list: &[Value],
    decided: &mut Vec<Option<Seen>>,
) -> Result<(), LineFault>
    requires { All is_drawn decided.old.items }
    ensures decided { Steps result decided.new.items
        (all_steps (decided_step again.old properties.now) (items_view list.now)
        decided.old.items) }
    ensures drawn { OnOk result (All is_drawn decided.new.items) }
    ensures same { again.new ≡ again.old }
{
    for item in list {
        add_decided(again, properties, item, decided)?;
    }
    Ok(())
}

/// What is said of properties, of each in its place.
fn decided_by(
    again: &mut Again<'_>,
    properties: &[Property<'_>],
    value: &Value,
) -> Result<Vec<Option<Seen>>, LineFault>
    ensures decided { GivesSeen (λ decided. decided.items) result
        (decided_by again.old properties.now (data_of value.now)) }
    ensures drawn { IfOk result (λ decided. All is_drawn decided.items) }
    ensures count { IfOk result (λ decided. length decided.items ≡ length properties.now) }
    ensures same { again.new ≡ again.old }
{
    let list = list_in(value, "properties").ok_or(LineFault::Form)?;
    let mut decided = Vec::new(again.alloc());
    add_list(again, properties, list, &mut decided)?;
    if decided.len() != properties.len() {
        return Err(LineFault::Form);
    }
    Ok(decided)
}

/// What is said of the properties that are looked at.
pub(crate) fn decided_in(
    again: &mut Again<'_>,
    properties: Option<&Properties<'_>>,
    value: &Value,
) -> Result<Vec<Option<Seen>>, LineFault>
    ensures decided { GivesSeen (λ decided. decided.items) result
        (decided_in again.old (properties_in properties.entry) (data_of value.now)) }
    ensures drawn { IfOk result (λ decided. All is_drawn decided.items) }
    ensures count { IfOk result (λ decided.
        length decided.items ≡ length (asked (properties_in properties.entry))) }
    ensures same { again.new ≡ again.old }
{
    match properties {
        None => Ok(Vec::new(again.alloc())),
        Some(read) => decided_by(again, read.properties(), value),
    }
}
