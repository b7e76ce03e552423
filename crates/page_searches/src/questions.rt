//! The questions. The limit is judged first, then the listing, then what asks beside it.
#![tactic(auto, using(crate::proofs::AskedLemmas::asked))]

ghost use Rattle.page_searches.specs.Answered.{Gives, IsCheckedAnswer, IsFoundAnswer};
ghost use Rattle.page_searches.specs.Answered.{IsOutcomesAnswer, IsRowsAnswer};

use crate::answers::{found, outcomes, rows, verdicts};
use crate::fault::SearchFault;
use crate::searched::{condition_of, image_of, properties_of, ranges_of, turns_of};
use condition_texts::read_items;
use listing_labels::labels_of;
use sinks::MemSink;
use states::Search;
use std::alloc::Global;

/// `cheri_explore outcomes`: how can a listing end, and does it always end? At most `limit` states
/// are kept.
pub fn ask_outcomes(alloc: Global, listing: &[u8], limit: u32) -> Result<MemSink, SearchFault>
    ensures { Gives result (IsOutcomesAnswer listing.now limit) }
{
    let image = image_of(alloc, listing, limit)?;
    Ok(outcomes(alloc, &turns_of(&image, limit))?)
}

/// The same with `--show`: what do these items hold at the ends?
pub fn ask_rows(
    alloc: Global,
    listing: &[u8],
    items: &str,
    limit: u32,
) -> Result<MemSink, SearchFault>
    ensures { Gives result (IsRowsAnswer listing.now items.now limit) }
{
    let image = image_of(alloc, listing, limit)?;
    let items = read_items(alloc, &image, items)?;
    Ok(rows(alloc, &turns_of(&image, limit), &items)?)
}

/// `cheri_explore find`: can this condition ever hold?
pub fn ask_find(
    alloc: Global,
    listing: &[u8],
    condition: &str,
    limit: u32,
) -> Result<MemSink, SearchFault>
    ensures { Gives result (IsFoundAnswer listing.now condition.now limit) }
{
    let image = image_of(alloc, listing, limit)?;
    let labels = labels_of(alloc, &image, listing)?;
    let condition = condition_of(alloc, &labels, &image, condition)?;
    Ok(found(alloc, &turns_of(&image, limit), &condition)?)
}

/// `cheri_explore check`: do the properties hold that the listing carries?
pub fn ask_check(alloc: Global, listing: &[u8], limit: u32) -> Result<MemSink, SearchFault>
    ensures { Gives result (IsCheckedAnswer listing.now limit) }
{
    let image = image_of(alloc, listing, limit)?;
    let labels = labels_of(alloc, &image, listing)?;
    let read = properties_of(alloc, &labels, &image, listing)?;
    let sweeps = ranges_of(alloc, read.sweeps())?;
    let search = Search {
        image: &image,
        sweeps: sweeps.as_slice(),
        every_step: false,
        limit,
    };
    Ok(verdicts(alloc, &search, read.properties())?)
}
