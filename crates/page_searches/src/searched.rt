//! What is searched of a listing.
#![tactic(auto, using(crate::proofs::AskedLemmas::searched))]

ghost use Rattle.std.specs.Prelude.{◌≡◌, ◌<◌, ◌⊎◌, Ok, Err, IfOk, IfErr, map};
ghost use Rattle.condition_texts.specs.Conditions.{condition_of, GivesCondition};
ghost use Rattle.explore_properties.specs.Reading.{properties_of, GivesPlace};
ghost use Rattle.grammar.specs.LabelMap.{label_parts};
ghost use Rattle.listings.specs.Meaning.{listing_meaning};
ghost use Rattle.states.specs.Searches.{search_of};
ghost use Rattle.page_searches.specs.Asked.{range_of, search_asked, turns_of};
ghost use Rattle.page_searches.specs.declared.fault.SearchFault.TheVariants.{NoMemory};

use crate::fault::SearchFault;
use cheri_model::Image;
use condition_texts::{TextFault, read_condition};
use conditions::Condition;
use explore_properties::{Properties, PropertyFault, read_properties};
use explore_sweeps::Sweep;
use grammar::labels::Labels;
use listing_maps::Names;
use listings::read_listing;
use schedules::SweepRange;
use states::Search;
use std::alloc::{AllocError, Global};

/// The image of a good listing, where some states may be kept.
pub fn image_of(alloc: Global, listing: &[u8], limit: u32) -> Result<Image, SearchFault>
    ensures some { IfOk result (λ image. 0 < limit) }
    ensures meaning { IfOk result (λ image. listing_meaning listing.now ≡ Ok image) }
    ensures asked { IfOk result (λ image. search_asked listing.now limit
        ≡ Ok (turns_of image limit)) }
    ensures refused { IfErr result (λ fault. (fault ≡ NoMemory)
        ⊎ (search_asked listing.now limit ≡ Err fault)) }
{
    if limit == 0 {
        return Err(SearchFault::Limit);
    }
    match read_listing(alloc, listing) {
        Ok(image) => Ok(image),
        Err(fault) => Err(SearchFault::from(fault)),
    }
}

/// The search of an image by turns, and with no sweep.
pub fn turns_of(image: &Image, limit: u32) -> Search<'_>
    ensures { search_of result ≡ turns_of image.now limit }
{
    Search {
        image,
        sweeps: &[],
        every_step: false,
        limit,
    }
}

/// The condition that a text writes beside a listing with these labels, which has no map.
#[tactic(auto, unfolding(listing_maps::specs::Names::named))]
pub fn condition_of(
    alloc: Global,
    labels: &Labels<'_>,
    image: &Image,
    text: &str,
) -> Result<Condition, TextFault>
    ensures { GivesCondition result (condition_of (label_parts labels.now) image.now text.now) }
{
    let names = Names {
        labels,
        sources: None,
    };
    read_condition(alloc, &names, image, text)
}

/// The properties that a listing with these labels carries, and the sweeps that it allows; it has
/// no map.
#[tactic(auto, unfolding(listing_maps::specs::Names::named))]
pub fn properties_of<'t>(
    alloc: Global,
    labels: &Labels<'_>,
    image: &Image,
    listing: &'t [u8],
) -> Result<Properties<'t>, PropertyFault>
    requires { listing_meaning listing.now ≡ Ok image.now }
    ensures { GivesPlace result (properties_of (label_parts labels.now) image.now listing.now) }
{
    let names = Names {
        labels,
        sources: None,
    };
    read_properties(alloc, &names, image, listing)
}

/// The ranges of sweeps.
pub fn ranges_of(alloc: Global, sweeps: &[Sweep]) -> Result<Vec<SweepRange>, AllocError>
    ensures { IfOk result (λ ranges. ranges.items ≡ map range_of sweeps.now) }
{
    let mut ranges = Vec::with_capacity(alloc, sweeps.len())?;
    for sweep in sweeps {
        ranges.push(SweepRange {
            lo: sweep.lo,
            hi: sweep.hi,
        })?;
    }
    Ok(ranges)
}
