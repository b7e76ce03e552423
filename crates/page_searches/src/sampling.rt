//! The question that orders drawn by chance answer. The numbers are judged first, then the listing.
#![tactic(auto, using(crate::proofs::SampleLemmas::drawn_answers, crate::proofs::Limits::limits))]

ghost use Rattle.std.specs.Prelude.{◌≡◌, ◌⊎◌, Ok, Err, IfOk, IfErr, true};
ghost use Rattle.page_searches.specs.Answered.{Gives};
ghost use Rattle.page_searches.specs.Drawn.{drawing_of, is_drawn, IsSample, IsSampleAnswer};
ghost use Rattle.page_searches.specs.Drawn.{sample_asked};
ghost use Rattle.page_searches.specs.declared.fault.SearchFault.TheVariants.{NoMemory};

use crate::answers::kept;
use crate::drawn::Drawn;
use crate::fault::SearchFault;
use cheri_model::Image;
use listings::read_listing;
use sample_checks::count_checked;
use sample_draws::Drawing;
use sample_texts::{Sampled, Span, sample_text};
use shown_states::{Answer, Ending, Format};
use sinks::{MemSink, WriteFault};
use std::alloc::Global;

/// How orders are drawn, by numbers in their limits, and the image of a good listing.
fn asked(alloc: Global, listing: &[u8], drawn: Drawn) -> Result<(Drawing, Image), SearchFault>
    ensures drawing { IfOk result (λ both. both.0 ≡ drawing_of drawn) }
    ensures some { IfOk result (λ both. is_drawn drawn ≡ true) }
    ensures image { IfOk result (λ both. sample_asked listing.now drawn ≡ Ok both.1) }
    ensures refused { IfErr result (λ fault. (fault ≡ NoMemory)
        ⊎ (sample_asked listing.now drawn ≡ Err fault)) }
{
    let Some(drawing) = drawn.drawing(alloc) else {
        return Err(SearchFault::Number);
    };
    match read_listing(alloc, listing) {
        Ok(image) => Ok((drawing, image)),
        Err(fault) => Err(SearchFault::from(fault)),
    }
}

/// What the runs of an image gave.
fn sampled(
    alloc: Global,
    image: &Image,
    drawing: &Drawing,
    drawn: Drawn,
) -> Result<MemSink, WriteFault>
    requires drawing { drawing.now ≡ drawing_of drawn }
    requires some { is_drawn drawn ≡ true }
    ensures { IfOk result (λ said. IsSample drawn image.now said.bytes) }
{
    let counted = count_checked(alloc, image, drawing, &[], 0, u64::from(drawn.runs))?;
    let numbers = [Span {
        first: 0,
        last: u64::from(drawn.runs - 1),
    }];
    let text = sample_text(
        alloc,
        Format::Json,
        Sampled {
            image,
            drawing,
            items: None,
            numbers: &numbers,
            tally: counted.tally(),
            properties: &[],
        },
    )?;
    kept(
        alloc,
        &Answer {
            text,
            ending: Ending::Done,
        },
    )
}

/// `cheri_explore sample`: what do runs in orders do that are drawn by chance?
pub fn ask_sample(alloc: Global, listing: &[u8], drawn: Drawn) -> Result<MemSink, SearchFault>
    ensures { Gives result (IsSampleAnswer listing.now drawn) }
{
    let (drawing, image) = asked(alloc, listing, drawn)?;
    Ok(sampled(alloc, &image, &drawing, drawn)?)
}
