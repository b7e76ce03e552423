//! Slices are added up, one line after another.

ghost use Rattle.std.specs.Prelude.{◌≡◌, ◌<◌, Ok, Some, IfErr, IfOk, length, map, slice_get, take};
ghost use Rattle.cheri_model.specs.runs.Image.{opening_memory};
ghost use Rattle.listings.specs.Meaning.{listing_meaning};
ghost use Rattle.sample_slices.specs.Lines.{IsSlice};
ghost use Rattle.sample_slices.specs.Slices.{Fits};
ghost use Rattle.sample_merges.specs.Lines.{slice_lines};
ghost use Rattle.sample_merges.specs.Merged.{AreMerged, FirstRefused, listing_of};
ghost use Rattle.sample_merges.specs.Steps.{AddsLine, AddsSlice, IsFirstRead};
ghost use Rattle.sample_merges.specs.Spans.{AreSpans};

use crate::lines::slice_lines;
use crate::merged::Merged;
use crate::questions::ask_the_same;
use crate::refused::Refused;
use crate::spans::join_spans;
use cheri_model::Image;
use sample_runs::Runner;
use sample_slices::{
    KnownListing, Slice, SliceError, SliceFault, SliceKind, SliceListing, read_slice,
};
use shown_states::Loaded;
use std::alloc::{AllocError, Global};

/// A state as large as those of an image.
fn blank_state(alloc: Global, image: &Image) -> Result<Loaded, AllocError>
    ensures harts { IfOk result (λ blank. length blank.harts ≡ length image.now.harts) }
    ensures granules { IfOk result (λ blank. length blank.memory
        ≡ length (opening_memory image.now.ram image.now.granules)) }
{
    let runner = Runner::open(alloc, image)?;
    // Its clause says that memory has as many granules as at first.
    let _opening = runner.memory().opening();
    Loaded::new(alloc, runner.harts(), runner.memory().ram())
}

/// Adds a slice to the sum of those before it.
fn with_slice(
    alloc: Global,
    whole: Slice,
    slice: &Slice,
    blank: &mut Loaded,
) -> Result<Slice, Refused>
    requires spans { AreSpans whole.numbers }
    requires slice_spans { AreSpans slice.now.numbers }
    requires harts { slice.now.harts ≡ whole.harts }
    requires granules { slice.now.granules ≡ whole.granules }
    requires properties { slice.now.is_checked ≡ whole.is_checked
        → length slice.now.decided ≡ length whole.decided }
    requires blank_harts { length blank.old.harts ≡ whole.harts }
    requires blank_granules { length blank.old.memory ≡ whole.granules }
    ensures added { AddsSlice whole slice.now result }
    ensures blank_harts { length blank.new.harts ≡ whole.harts }
    ensures blank_granules { length blank.new.memory ≡ whole.granules }
{
    if !ask_the_same(&whole, slice) {
        return Err(Refused::As(SliceKind::Other));
    }
    match join_spans(alloc, whole.numbers(), slice.numbers())? {
        None => Err(Refused::As(SliceKind::Twice)),
        Some(numbers) => Ok(whole.plus(alloc, slice, numbers, blank)?),
    }
}

/// Adds the slice that a line is to the sum of those before it.
fn with_line(
    alloc: Global,
    listing: &KnownListing<'_>,
    whole: Slice,
    line: &[u8],
    blank: &mut Loaded,
) -> Result<Slice, Refused>
    requires fits { Fits listing.now whole }
    requires spans { AreSpans whole.numbers }
    requires blank_harts { length blank.old.harts ≡ whole.harts }
    requires blank_granules { length blank.old.memory ≡ whole.granules }
    ensures added { AddsLine listing.now whole line.now result }
    ensures fits { IfOk result (λ both. Fits listing.now both) }
    ensures blank_harts { length blank.new.harts ≡ whole.harts }
    ensures blank_granules { length blank.new.memory ≡ whole.granules }
{
    let slice = read_slice(alloc, listing, line)?;
    with_slice(alloc, whole, &slice, blank)
}

/// The slice that the first line is.
fn first_slice(
    alloc: Global,
    listing: &KnownListing<'_>,
    lines: &[&[u8]],
) -> Result<Slice, SliceError>
    ensures read { IsFirstRead listing.now (map (λ line. line.now) lines.now) result }
    ensures fits { IfOk result (λ slice. Fits listing.now slice) }
{
    let Some((line, _)) = lines.split_first() else {
        return Err(SliceError::Slice(SliceFault {
            line: 0,
            kind: SliceKind::Form,
        }));
    };
    match read_slice(alloc, listing, line) {
        Ok(slice) => Ok(slice),
        Err(fault) => Err(Refused::from(fault).at(1)),
    }
}

/// The line at a place.
fn line_at<'s>(lines: &[&'s [u8]], place: usize) -> &'s [u8]
    requires { place < length lines.now }
    ensures { slice_get (map (λ line. line.now) lines.now) place ≡ Some result.now }
{
    lines[place]
}

/// Adds up what the lines are, after the first, which is this slice.
fn merge_rest(
    alloc: Global,
    listing: &KnownListing<'_>,
    first: Slice,
    lines: &[&[u8]],
) -> Result<Slice, SliceError>
    requires there { 0 < length lines.now }
    requires first { AreMerged listing.now (take 1 (map (λ line. line.now) lines.now)) first }
    requires fits { Fits listing.now first }
    ensures merged { IfOk result (λ whole.
        AreMerged listing.now (map (λ line. line.now) lines.now) whole) }
    ensures fits { IfOk result (λ whole. Fits listing.now whole) }
    ensures refused { IfErr result (λ error.
        FirstRefused listing.now (map (λ line. line.now) lines.now) error) }
{
    let mut blank = blank_state(alloc, listing.image())?;
    let mut whole = first;
    for place in 1..lines.len() {
        match with_line(alloc, listing, whole, line_at(lines, place), &mut blank) {
            Ok(both) => whole = both,
            Err(refused) => return Err(refused.at(place + 1)),
        }
    }
    Ok(whole)
}

/// Adds up what lines are.
fn merge_lines(
    alloc: Global,
    listing: &KnownListing<'_>,
    lines: &[&[u8]],
) -> Result<Slice, SliceError>
    ensures merged { IfOk result (λ whole.
        AreMerged listing.now (map (λ line. line.now) lines.now) whole) }
    ensures fits { IfOk result (λ whole. Fits listing.now whole) }
    ensures refused { IfErr result (λ error.
        FirstRefused listing.now (map (λ line. line.now) lines.now) error) }
{
    let first = first_slice(alloc, listing, lines)?;
    merge_rest(alloc, listing, first, lines)
}

/// Adds up what the lines of a text are.
fn merge_text(alloc: Global, listing: &KnownListing<'_>, slices: &[u8]) -> Result<Slice, SliceError>
    ensures merged { IfOk result (λ whole. AreMerged listing.now (slice_lines slices.now) whole) }
    ensures fits { IfOk result (λ whole. Fits listing.now whole) }
    ensures refused { IfErr result (λ error.
        FirstRefused listing.now (slice_lines slices.now) error) }
{
    let lines = slice_lines(alloc, slices)?;
    merge_lines(alloc, listing, lines.as_slice())
}

/// What the slices of a good listing give together that the lines of a text are. The first line
/// that is no slice, or doesn't go with those before it, is refused, for the least kind that
/// applies. Fails else only when out of memory or of numbers for states, or where a count reaches
/// 2^64.
pub fn merge_slices<'l>(
    alloc: Global,
    listing: SliceListing<'l, '_>,
    slices: &[u8],
) -> Result<Merged<'l>, SliceError>
    requires { listing_meaning listing.text.now ≡ Ok listing.image.now }
    ensures listing { IfOk result (λ merged. merged.listing ≡ listing_of listing.entry) }
    ensures merged { IfOk result (λ merged.
        AreMerged (listing_of listing.entry) (slice_lines slices.now) merged.whole) }
    ensures fits { IfOk result (λ merged. Fits merged.listing merged.whole) }
    ensures refused { IfErr result (λ error.
        FirstRefused (listing_of listing.entry) (slice_lines slices.now) error) }
{
    let known = KnownListing::read(alloc, listing)?;
    let whole = merge_text(alloc, &known, slices)?;
    Ok(Merged::of(known, whole))
}
