//! `sample`: what runs in drawn orders of a listing's image gave.

ghost use Rattle.std.specs.Prelude.{◌≡◌, ◌<◌, ◌≤◌, ◌+◌, Ok, IfOk, length, option_map, string_bytes};
ghost use Rattle.std.specs.Prelude.{IfSome, Some, false, true};
ghost use Rattle.cheri_model.specs.runs.Image.{opening_memory};
ghost use Rattle.explore_line.specs.Samples.{sample_asked_by, text_of, IsSampleBounded};
ghost use Rattle.grammar.specs.LabelMap.{label_parts};
ghost use Rattle.listings.specs.Meaning.{listing_meaning};
ghost use Rattle.explore_program.specs.Questions.{format_of, IsSaid};
ghost use Rattle.explore_program.specs.Samples.{drawing_asked, sampling_of, span_asked};
ghost use Rattle.explore_program.specs.Samples.{AreLabelledSampled, ArePropertiesSampled};
ghost use Rattle.explore_program.specs.Samples.{IsItemsSampled};
ghost use Rattle.explore_program.specs.Samples.{IsListingSampled, IsSampleAnswer, IsSampleTold};
ghost use Rattle.explore_program.specs.Samples.{IsSampled, IsShownSampled, Makes};

use crate::faults::{Fault, property_fault, text_fault};
use crate::questions::format_of;
use crate::ranges::ranges_of;
use crate::threads::threads_for;
use cheri_model::{Image, NoMemory};
use condition_texts::read_items;
use conditions::Items;
use explore_line::SampleRequest;
use explore_properties::{Property, read_properties};
use grammar::labels::Labels;
use graph_search::Progress;
use inputs::{Files, InputFault, read_listing_text};
use listing_labels::labels_of;
use listing_maps::Names;
use listings::read_listing;
use sample_checks::{Checked, properties_seen};
use sample_draws::Drawing;
use sample_slices::unite_sweeps;
use sample_texts::{Sampled, Span, sample_ending, sample_text};
use sample_threads::{Runs, count_all};
use schedules::SweepRange;
use shown_states::{Answer, Format};
use std::alloc::{AllocError, Global};
use std::thread::Threads;

/// A good listing, and its image.
#[derive(Clone, Copy)]
struct GoodListing<'t, 'i> {
    text: &'t [u8],
    image: &'i Image,
}

/// What is sampled: an image, how its orders are drawn, and the properties that are looked at.
#[derive(Clone, Copy)]
pub struct Sampling<'i, 'd, 'p, 'c> {
    pub image: &'i Image,
    pub drawing: &'d Drawing,
    pub properties: &'p [Property<'c>],
}

/// What is told of runs with these numbers, which gave this. Fails only when out of memory, or
/// where the runs of a row of values reach 2^64.
fn tell<'x>(
    alloc: Global,
    format: Format,
    sampling: Sampling<'x, 'x, 'x, 'x>,
    items: Option<&Items<'_>>,
    numbers: &'x [Span],
    counted: &'x Checked,
) -> Result<Answer, NoMemory>
    requires harts { counted.now.harts ≡ length sampling.image.now.harts }
    requires granules { counted.now.granules
        ≡ length (opening_memory sampling.image.now.ram sampling.image.now.granules) }
    requires as_many { length counted.now.decided ≡ length sampling.properties.now }
    ensures { IfOk result (λ answer. IsSampleTold format
        (sampling_of sampling.entry items.entry) numbers.now counted.now.sum counted.now.decided
        (string_bytes answer.text) answer.ending) }
{
    let Sampling {
        image,
        drawing,
        properties,
    } = sampling;
    let told = properties_seen(alloc, image, drawing, properties, counted.decided())?;
    let sampled = Sampled {
        image,
        drawing,
        items,
        numbers,
        tally: counted.tally(),
        properties: told.as_slice(),
    };
    let text = sample_text(alloc, format, sampled)?;
    Ok(Answer {
        text,
        ending: sample_ending(told.as_slice()),
    })
}

/// The numbers of the runs that are asked for.
fn span_asked(request: &SampleRequest<'_>) -> Span
    requires { IsSampleBounded request.now }
    ensures { result ≡ span_asked (sample_asked_by request.now) }
{
    Span {
        first: request.first,
        last: request.first + u64::from(request.orders) - 1,
    }
}

/// Makes the runs that are asked for, and tells what they gave, by these items, if there are any.
fn sample_runs<'x, R: Threads + Sync, P: Progress>(
    rt: &R,
    alloc: Global,
    request: &SampleRequest<'_>,
    sampling: Sampling<'x, 'x, 'x, 'x>,
    items: Option<&Items<'_>>,
    progress: &mut P,
) -> Result<Answer, NoMemory>
    requires { IsSampleBounded request.now }
    ensures { IfOk result (λ answer. IsSampleAnswer (sample_asked_by request.now)
        (sampling_of sampling.entry items.entry) (string_bytes answer.text) answer.ending) }
{
    let runs = Runs {
        image: sampling.image,
        drawing: sampling.drawing,
        properties: sampling.properties,
        first: request.first,
        count: u64::from(request.orders),
    };
    let threads = threads_for(rt, request.jobs);
    let counted = count_all(rt, alloc, &runs, threads, progress)?;
    let numbers = [span_asked(request)];
    tell(
        alloc,
        format_of(request.form),
        sampling,
        items,
        &numbers,
        &counted,
    )
}

/// The same, with these items.
fn sample_by<'x, R: Threads + Sync, P: Progress>(
    rt: &R,
    alloc: Global,
    request: &SampleRequest<'_>,
    sampling: Sampling<'x, 'x, 'x, 'x>,
    items: &Items<'_>,
    progress: &mut P,
) -> Result<Answer, Fault>
    requires { IsSampleBounded request.now }
    ensures { Makes (IsSaid (IsSampleAnswer (sample_asked_by request.now)
        (sampling_of sampling.entry (Some items.entry)))) result }
{
    let answer = sample_runs(rt, alloc, request, sampling, Some(items), progress)?;
    Ok(answer)
}

/// The same, with the items that a text writes.
fn sample_shown<'x, R: Threads + Sync, P: Progress>(
    rt: &R,
    alloc: Global,
    request: &SampleRequest<'_>,
    text: &str,
    sampling: Sampling<'x, 'x, 'x, 'x>,
    progress: &mut P,
) -> Result<Answer, Fault>
    requires { IsSampleBounded request.now }
    ensures { Makes (IsShownSampled (sample_asked_by request.now) sampling.entry.image.now
        sampling.entry.drawing.now sampling.entry.properties.now text.now) result }
{
    match read_items(alloc, sampling.image, text) {
        Ok(items) => sample_by(rt, alloc, request, sampling, &items, progress),
        Err(refused) => Err(text_fault(refused)),
    }
}

/// The same, with the items that a text writes, if there is one.
fn sample_items<R: Threads + Sync, P: Progress>(
    rt: &R,
    alloc: Global,
    request: &SampleRequest<'_>,
    show: Option<&str>,
    sampling: Sampling<'_, '_, '_, '_>,
    progress: &mut P,
) -> Result<Answer, Fault>
    requires { IsSampleBounded request.now }
    ensures { Makes (IsItemsSampled (sample_asked_by request.now) sampling.entry.image.now
        sampling.entry.drawing.now sampling.entry.properties.now
        (option_map text_of show.entry)) result }
{
    match show {
        Some(text) => sample_shown(rt, alloc, request, text, sampling, progress),
        None => {
            let answer = sample_runs(rt, alloc, request, sampling, None, progress)?;
            Ok(answer)
        }
    }
}

/// How orders are drawn that are asked for, with these sweeps. Requests have no others than such as
/// may be drawn.
fn drawing_asked(request: &SampleRequest<'_>, sweeps: Vec<SweepRange>) -> Result<Drawing, NoMemory>
    ensures { IfOk result (λ drawing.
        drawing ≡ drawing_asked (sample_asked_by request.now) sweeps.items) }
{
    Drawing::new(request.seed, request.length, request.depth, sweeps).ok_or(AllocError)
}

/// With the properties of a good listing with these labels, and its sweeps.
fn sample_labelled<R: Threads + Sync, P: Progress>(
    rt: &R,
    alloc: Global,
    request: &SampleRequest<'_>,
    listing: GoodListing<'_, '_>,
    labels: &Labels<'_>,
    progress: &mut P,
) -> Result<Answer, Fault>
    requires bounds { IsSampleBounded request.now }
    requires meaning { listing_meaning listing.text.now ≡ Ok listing.image.now }
    ensures { Makes (AreLabelledSampled (sample_asked_by request.now) (label_parts labels.now)
        listing.entry.text.now listing.entry.image.now) result }
{
    let GoodListing { text, image } = listing;
    let names = Names {
        labels,
        sources: None,
    };
    let read = match read_properties(alloc, &names, image, text) {
        Ok(read) => read,
        Err(refused) => return Err(property_fault(refused)),
    };
    let given = ranges_of(alloc, request.sweeps.as_slice())?;
    let sweeps = unite_sweeps(alloc, given.as_slice(), read.sweeps())?;
    let drawing = drawing_asked(request, sweeps)?;
    let properties = read.properties();
    let sampling = Sampling {
        image,
        drawing: &drawing,
        properties,
    };
    sample_items(rt, alloc, request, request.show, sampling, progress)
}

/// With the properties of a good listing, and its sweeps.
fn sample_checked<R: Threads + Sync, P: Progress>(
    rt: &R,
    alloc: Global,
    request: &SampleRequest<'_>,
    listing: GoodListing<'_, '_>,
    progress: &mut P,
) -> Result<Answer, Fault>
    requires bounds { IsSampleBounded request.now }
    requires meaning { listing_meaning listing.text.now ≡ Ok listing.image.now }
    ensures { Makes (ArePropertiesSampled (sample_asked_by request.now) listing.entry.text.now
        listing.entry.image.now true) result }
{
    let labels = labels_of(alloc, listing.image, listing.text)?;
    sample_labelled(rt, alloc, request, listing, &labels, progress)
}

/// Without properties.
fn sample_unchecked<R: Threads + Sync, P: Progress>(
    rt: &R,
    alloc: Global,
    request: &SampleRequest<'_>,
    listing: GoodListing<'_, '_>,
    progress: &mut P,
) -> Result<Answer, Fault>
    requires { IsSampleBounded request.now }
    ensures { Makes (ArePropertiesSampled (sample_asked_by request.now) listing.entry.text.now
        listing.entry.image.now false) result }
{
    let sweeps = ranges_of(alloc, request.sweeps.as_slice())?;
    let drawing = drawing_asked(request, sweeps)?;
    let none: Vec<Property<'_>> = Vec::new(alloc);
    let sampling = Sampling {
        image: listing.image,
        drawing: &drawing,
        properties: none.as_slice(),
    };
    sample_items(rt, alloc, request, request.show, sampling, progress)
}

/// With properties, where they are asked for.
fn sample_image<R: Threads + Sync, P: Progress>(
    rt: &R,
    alloc: Global,
    request: &SampleRequest<'_>,
    listing: GoodListing<'_, '_>,
    progress: &mut P,
) -> Result<Answer, Fault>
    requires bounds { IsSampleBounded request.now }
    requires meaning { listing_meaning listing.text.now ≡ Ok listing.image.now }
    ensures { Makes (ArePropertiesSampled (sample_asked_by request.now) listing.entry.text.now
        listing.entry.image.now request.now.is_checked) result }
{
    if request.is_checked {
        sample_checked(rt, alloc, request, listing, progress)
    } else {
        sample_unchecked(rt, alloc, request, listing, progress)
    }
}

/// Of the listing with this text.
fn sample_listing<R: Threads + Sync, P: Progress>(
    rt: &R,
    alloc: Global,
    request: &SampleRequest<'_>,
    text: &[u8],
    progress: &mut P,
) -> Result<Answer, Fault>
    requires { IsSampleBounded request.now }
    ensures { Makes (IsListingSampled (sample_asked_by request.now) text.now) result }
{
    let image = match read_listing(alloc, text) {
        Ok(image) => image,
        Err(fault) => return Err(Fault::Input(InputFault::from(fault))),
    };
    let listing = GoodListing {
        text,
        image: &image,
    };
    sample_image(rt, alloc, request, listing, progress)
}

/// Answers `sample`. Nothing is printed yet.
pub fn sample<F: Files, R: Threads + Sync, P: Progress>(
    rt: &R,
    alloc: Global,
    request: &SampleRequest<'_>,
    files: &mut F,
    progress: &mut P,
) -> Result<Answer, Fault>
    requires { IsSampleBounded request.now }
    ensures { Makes (IsSampled (F.bytes_of files.old) (sample_asked_by request.now)) result }
{
    let listing = read_listing_text(files, request.listing)?;
    sample_listing(rt, alloc, request, listing.as_slice(), progress)
}
