//! The explanation of a listing's run by the map of an assembled program.
#![tactic(auto, using(crate::proofs::MappedLemmas::maps))]

ghost use Rattle.std.specs.Prelude.{◌≡◌, option_map};
ghost use Rattle.explanations.specs.ExplainedRuns.{mapped};
ghost use Rattle.explanations.specs.InstructionLines.{shown_sources};
ghost use Rattle.cheri_page.specs.Answers.{Answers};
ghost use Rattle.cheri_page.specs.Runs.{IsRunTold};
ghost use Rattle.cheri_page.specs.Mapped.{GivesSources, IsMappedTold, counts_of, sources_meant};

use crate::answer::{Answer, tell};
use crate::fault::Fault;
use crate::runs::{keeper, tell_run};
use asm_map_reader::{Counts, MapFault, Source, read_map};
use cheri_model::Image;
use explanations::{Explanation, Filter, Format, Selection, explain_mapped};
use listings::read_listing;
use std::alloc::Global;

/// What the map of an image's program has to have.
fn counts_of(image: &Image) -> Counts
    ensures { result ≡ counts_of image.now }
{
    Counts {
        instructions: image.program().len(),
        harts: image.harts().len(),
    }
}

/// What the map of a listing's program says that its instructions come from. The listing is judged
/// before the map.
fn sources_of<'m>(alloc: Global, listing: &[u8], map: &'m [u8]) -> Result<Vec<Source<'m>>, Fault>
    ensures { GivesSources result (sources_meant listing.now map.now) }
{
    let image = match read_listing(alloc, listing) {
        Ok(image) => image,
        Err(fault) => return Err(Fault::from(fault)),
    };
    match read_map(alloc, map, counts_of(&image)) {
        Ok(sources) => Ok(sources),
        Err(MapFault::Line(line)) => Err(Fault::Map(line)),
        Err(MapFault::NoMemory) => Err(Fault::NoMemory),
    }
}

/// Tells the explanation of a listing's run in an order.
#[tactic(auto)]
fn tell_explained(
    alloc: Global,
    listing: &[u8],
    order: &[u8],
    text: &Explanation<'_>,
    out: &mut [u8],
    answer: &mut Answer,
)
    ensures { Answers (IsRunTold
        (mapped text.now.format (option_map shown_sources text.now.sources) listing.now
        text.now.selection)
        listing.now order.now) out.old out.new answer.new }
{
    let mut sink = keeper(alloc);
    let ran = explain_mapped(alloc, listing, order, text, &mut sink);
    tell_run(alloc, ran, sink.bytes(), out, answer);
}

/// The explanation as text of the events of a run that are numbered from `from` to `to`, which are
/// counted from 0 over the whole run; each step is told by what the map says that its instruction
/// comes from. The listing is judged before the map, and the map before the order.
#[unsafe(no_mangle)]
pub extern "C" fn cheri_explain_map(
    alloc: Global,
    listing: &[u8],
    order: &[u8],
    map: &[u8],
    from: u32,
    to: u32,
    out: &mut [u8],
    answer: &mut Answer,
)
    ensures { Answers (IsMappedTold listing.now order.now map.now from to) out.old out.new
        answer.new }
{
    let sources = match sources_of(alloc, listing, map) {
        Ok(sources) => sources,
        Err(fault) => return tell(alloc, b"", Some(fault), out, answer),
    };
    let text = Explanation {
        selection: Selection {
            first: from,
            last: to,
            filter: Filter::All,
        },
        format: Format::Text,
        sources: Some(sources.as_slice()),
    };
    tell_explained(alloc, listing, order, &text, out, answer);
}
