//! What a line claims.
#![tactic(auto, unfolding(crate::proofs::Unfold::claims))]

ghost use Rattle.std.specs.Prelude.{◌≡◌, IfOk, is_some, length};
ghost use Rattle.serde_json.specs.View.{view as data_of};
ghost use Rattle.sample_slices.specs.Claimed.{checked_in, claimed, sliced};
ghost use Rattle.sample_slices.specs.Members.{Gives};
ghost use Rattle.sample_slices.specs.Slices.{AreItems, Fits, asked, looked_at, properties_in};

use crate::again::Again;
use crate::decided::decided_in;
use crate::fault::LineFault;
use crate::listing::KnownListing;
use crate::numbers::{Numbers, numbers_in};
use crate::question::{Question, question_in};
use crate::slice::Slice;
use crate::tally::tally_in;
use explore_properties::Properties;
use sample_checks::Checked;
use serde_json::Value;
use std::alloc::Global;

/// What the runs gave, and what they say of these properties.
fn checked_by(
    again: &mut Again<'_>,
    properties: Option<&Properties<'_>>,
    is_shown: bool,
    value: &Value,
) -> Result<Checked, LineFault>
    ensures checked { Gives result (checked_in again.old (properties_in properties.entry) is_shown
        (data_of value.now)) }
    ensures count { IfOk result (λ checked.
        length checked.decided ≡ length (asked (properties_in properties.entry))) }
{
    let tally = tally_in(again, is_shown, value)?;
    let decided = decided_in(again, properties, value)?;
    Ok(Checked::of_claims(tally, decided))
}

/// What the runs gave, and what they say of the properties that are looked at.
fn checked_in(
    alloc: Global,
    listing: &KnownListing<'_>,
    question: &Question,
    numbers: &Numbers,
    value: &Value,
) -> Result<Checked, LineFault>
    ensures checked { Gives result (checked_in (record {
      image = listing.now.image;
      drawing = question.now.drawing;
      numbers = numbers.now.spans;
    }) (looked_at listing.now.properties question.now.is_checked) (is_some question.now.items)
        (data_of value.now)) }
    ensures count { IfOk result (λ checked. length checked.decided
        ≡ length (asked (looked_at listing.now.properties question.now.is_checked))) }
{
    let mut again = Again::open(alloc, listing.image(), question.drawing(), numbers)?;
    let properties = listing.looked_at(question.is_checked());
    checked_by(&mut again, properties, question.is_shown(), value)
}

/// With what is asked of runs of these numbers.
fn sliced(
    alloc: Global,
    listing: &KnownListing<'_>,
    question: Question,
    numbers: Numbers,
    value: &Value,
) -> Result<Slice, LineFault>
    requires { AreItems listing.now.image question.items }
    ensures slice { Gives result (sliced listing.now question numbers.spans (data_of value.now)) }
    ensures fits { IfOk result (λ slice. Fits listing.now slice) }
{
    let checked = checked_in(alloc, listing, &question, &numbers, value)?;
    Ok(Slice {
        question,
        numbers: numbers.into_spans(),
        checked,
    })
}

/// The slice that JSON claims.
pub(crate) fn claimed(
    alloc: Global,
    listing: &KnownListing<'_>,
    value: &Value,
) -> Result<Slice, LineFault>
    ensures slice { Gives result (claimed listing.now (data_of value.now)) }
    ensures fits { IfOk result (λ slice. Fits listing.now slice) }
{
    let question = question_in(alloc, listing, value)?;
    let numbers = numbers_in(alloc, value)?;
    sliced(alloc, listing, question, numbers, value)
}
