//! `merge`: what the runs of many slices of a sample gave.

ghost use Rattle.std.specs.Prelude.{◌≡◌, Ok, IfErr, IfOk, string_bytes};
ghost use Rattle.explore_line.specs.Samples.{merge_asked_by};
ghost use Rattle.grammar.specs.LabelMap.{label_parts};
ghost use Rattle.inputs.specs.Files.{AreBytesOf};
ghost use Rattle.listings.specs.Meaning.{listing_meaning};
ghost use Rattle.explore_program.specs.Merges.{AreTextsMerged, IsMergeTold, IsMerged};
ghost use Rattle.explore_program.specs.Merges.{IsLabelledMerged, IsSlicesUnread, IsTextMerged};
ghost use Rattle.explore_program.specs.Samples.{Makes};

use crate::faults::{Fault, OwnFault, slice_fault};
use crate::questions::format_of;
use cheri_model::{Image, NoMemory};
use explore_line::MergeRequest;
use grammar::labels::Labels;
use inputs::{FileFault, Files, InputFault, read_listing_text};
use listing_labels::labels_of;
use listing_maps::Names;
use listings::read_listing;
use sample_checks::properties_seen;
use sample_merges::{Merged, merge_slices};
use sample_slices::SliceListing;
use sample_texts::sample_ending;
use shown_states::{Answer, Format};
use std::alloc::Global;

/// The bytes of the file of slices.
fn read_slices_text<F: Files>(files: &mut F, name: &str) -> Result<Vec<u8>, Fault>
    ensures bytes { IfOk result (λ bytes. AreBytesOf (F.bytes_of files.old name.now) bytes.items) }
    ensures refused { IfErr result (IsSlicesUnread (F.bytes_of files.old name.now)) }
    ensures kept { F.bytes_of files.new ≡ F.bytes_of files.old }
{
    match files.read(name, u64::MAX) {
        Ok(bytes) => Ok(bytes),
        Err(FileFault::CannotRead) => Err(Fault::Own(OwnFault::CannotReadSlices)),
        Err(FileFault::NoMemory) => Err(Fault::Input(InputFault::NoMemory)),
    }
}

/// What is told of slices that were merged. Fails only when out of memory, or where the runs of a
/// row of values reach 2^64.
fn tell_merged(alloc: Global, format: Format, merged: &Merged<'_>) -> Result<Answer, NoMemory>
    ensures { IfOk result (λ answer.
        IsMergeTold format merged.now (string_bytes answer.text) answer.ending) }
{
    let slice = merged.slice();
    let image = merged.listing().image();
    let properties = merged.properties();
    let decided = slice.checked().decided();
    let told = properties_seen(alloc, image, slice.drawing(), properties, decided)?;
    let text = merged.text(alloc, format)?;
    Ok(Answer {
        text,
        ending: sample_ending(told.as_slice()),
    })
}

/// Of a good listing with these labels.
fn merge_labelled(
    alloc: Global,
    request: &MergeRequest<'_>,
    image: &Image,
    text: &[u8],
    labels: &Labels<'_>,
    slices: &[u8],
) -> Result<Answer, Fault>
    requires { listing_meaning text.now ≡ Ok image.now }
    ensures { Makes (IsLabelledMerged (merge_asked_by request.now) (label_parts labels.now) text.now
        image.now slices.now) result }
{
    let names = Names {
        labels,
        sources: None,
    };
    let listing = SliceListing {
        image,
        names: &names,
        text,
    };
    let merged = match merge_slices(alloc, listing, slices) {
        Ok(merged) => merged,
        Err(refused) => return Err(slice_fault(refused)),
    };
    let answer = tell_merged(alloc, format_of(request.form), &merged)?;
    Ok(answer)
}

/// Of a good listing.
fn merge_image(
    alloc: Global,
    request: &MergeRequest<'_>,
    image: &Image,
    listing: &[u8],
    slices: &[u8],
) -> Result<Answer, Fault>
    requires { listing_meaning listing.now ≡ Ok image.now }
    ensures { Makes (IsTextMerged (merge_asked_by request.now) listing.now image.now slices.now)
        result }
{
    let labels = labels_of(alloc, image, listing)?;
    merge_labelled(alloc, request, image, listing, &labels, slices)
}

/// Of the texts of a listing and of slices.
fn merge_texts(
    alloc: Global,
    request: &MergeRequest<'_>,
    listing: &[u8],
    slices: &[u8],
) -> Result<Answer, Fault>
    ensures { Makes (AreTextsMerged (merge_asked_by request.now) listing.now slices.now) result }
{
    let image = match read_listing(alloc, listing) {
        Ok(image) => image,
        Err(fault) => return Err(Fault::Input(InputFault::from(fault))),
    };
    merge_image(alloc, request, &image, listing, slices)
}

/// Answers `merge`. Nothing is printed yet. Both files are read before one is judged.
pub fn merge<F: Files>(
    alloc: Global,
    request: &MergeRequest<'_>,
    files: &mut F,
) -> Result<Answer, Fault>
    ensures { Makes (IsMerged (F.bytes_of files.old) (merge_asked_by request.now)) result }
{
    let listing = read_listing_text(files, request.listing)?;
    let slices = read_slices_text(files, request.slices)?;
    merge_texts(alloc, request, listing.as_slice(), slices.as_slice())
}
