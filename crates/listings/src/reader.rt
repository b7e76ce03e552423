//! Reading a listing.
#![tactic(auto, unfolding(crate::proofs::Unfold::reader))]

ghost use Rattle.std.specs.Prelude.{◌≡◌, ◌≤◌, ◌<◌, ◌^◌, length, true};
ghost use Rattle.std.specs.List.{list_all};
ghost use Rattle.listings.specs.Faults.{Gives, FillsLine};
ghost use Rattle.grammar.specs.Lines.{lines_of, is_plain};
ghost use Rattle.grammar.specs.LabelMap.{label_parts};
ghost use Rattle.listings.specs.Draft.{empty_draft};
ghost use Rattle.listings.specs.Meaning.{line_meaning, lines_meaning, listing_meaning};

use crate::draft::Draft;
use crate::fault::{LineFault, ListingFault};
use crate::statement::with_line;
use cheri_model::Image;
use grammar::fault::ListingFaultKind;
use grammar::labels::{Labels, labels_of};
use grammar::lines::{are_plain, is_plain};
use grammar::tokens::read_tokens;
use std::alloc::Global;

/// The most bytes of a listing.
pub const LISTING_LIMIT: usize = 1_048_576;

/// A line of a listing: its number, its bytes, and whether these are known to be plain.
#[derive(Clone, Copy)]
struct Line<'a> {
    number: usize,
    bytes: &'a [u8],
    plain: bool,
}

/// What a line makes of what the lines before it made. `tokens` is a buffer, whose content does
/// not count.
fn read_line<'a>(
    alloc: Global,
    labels: &Labels<'_>,
    line: Line<'a>,
    draft: &mut Draft,
    tokens: &mut Vec<&'a [u8]>,
) -> Result<(), LineFault>
    requires { line.plain ≡ true → list_all is_plain line.bytes.now ≡ true }
    ensures { FillsLine result draft.new
        (line_meaning (label_parts labels.now) line.entry.number draft.old line.entry.bytes.now) }
{
    if !line.plain && !is_plain(line.bytes) {
        return Err(LineFault::Kind(ListingFaultKind::NotAscii));
    }
    read_tokens(line.bytes, tokens)?;
    with_line(alloc, labels, line.number, draft, tokens.as_slice())
}

/// What lines make one after another, up to the first fault.
fn read_lines(alloc: Global, labels: &Labels<'_>, text: &[u8]) -> Result<Draft, ListingFault>
    requires { length text.now < 2 ^ 32 }
    ensures { Gives result
        (lines_meaning (label_parts labels.now) 1 empty_draft (lines_of text.now)) }
{
    let mut draft = Draft::new(alloc)?;
    let mut tokens = Vec::new(alloc);
    let plain = are_plain(text);
    let mut number = 1;
    for line in text.split(|byte| *byte == b'\n') {
        let numbered = Line {
            number,
            bytes: line,
            plain,
        };
        match read_line(alloc, labels, numbered, &mut draft, &mut tokens) {
            Ok(()) => number += 1,
            Err(fault) => return Err(fault.at(number)),
        }
    }
    Ok(draft)
}

/// The image that a listing describes: what its lines say, one after another, or the first faulty
/// line's fault, of which the least kind is reported. A listing of more than [`LISTING_LIMIT`]
/// bytes is refused before any line is read; one without a hart, and then one without an
/// instruction, is refused after its last line. Running out of memory says nothing of the listing.
pub fn read_listing(alloc: Global, text: &[u8]) -> Result<Image, ListingFault>
    ensures { Gives result (listing_meaning text.now) }
{
    if text.len() > LISTING_LIMIT {
        return Err(ListingFault {
            line: 0,
            kind: ListingFaultKind::Size,
        });
    }
    let labels = labels_of(alloc, text)?;
    let draft = read_lines(alloc, &labels, text)?;
    draft.finish(alloc)
}
