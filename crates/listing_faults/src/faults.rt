//! The faults of a listing, by reading it again without the lines that are told.
#![tactic(auto, using(crate::proofs::FaultLemmas::faults))]

ghost use Rattle.std.specs.Prelude.{◌≡◌, ◌++◌, IfOk, OnOk};
ghost use Rattle.grammar.specs.Tokens.{texts};
ghost use Rattle.listings.specs.Meaning.{listing_meaning};
ghost use Rattle.listing_faults.specs.Faults.{faults_of, is_no_memory, line_fault, told};
ghost use Rattle.listing_faults.specs.Lines.{text_of};

use crate::lines::{after_first, joined, leave_out, lines_of};
use cheri_model::NoMemory;
use grammar::fault::ListingFaultKind;
use listings::{ListingFault, read_listing};
use std::alloc::{AllocError, Global};

/// A listing is read at most so many times. A faulty line costs one reading, or two where what
/// stands for it is faulty itself.
pub const MOST_READINGS: u32 = 100;

/// Whether a kind of fault says nothing of a listing.
fn is_no_memory(kind: ListingFaultKind) -> bool
    ensures { result ≡ is_no_memory kind }
{
    matches!(kind, ListingFaultKind::NoMemory)
}

/// The fault of a line that a listing's text has.
fn fault_in_text(alloc: Global, text: &[u8]) -> Result<Option<ListingFault>, NoMemory>
    ensures { IfOk result (λ found. found ≡ line_fault (listing_meaning text.now)) }
{
    let Err(fault) = read_listing(alloc, text) else {
        return Ok(None);
    };
    if is_no_memory(fault.kind) {
        return Err(AllocError);
    }
    if fault.line == 0 {
        return Ok(None);
    }
    Ok(Some(fault))
}

/// The fault of a line that the text of lines has.
fn fault_in_lines(alloc: Global, lines: &[&[u8]]) -> Result<Option<ListingFault>, NoMemory>
    ensures { IfOk result (λ found.
        found ≡ line_fault (listing_meaning (text_of (texts lines.now)))) }
{
    let text = joined(alloc, lines)?;
    fault_in_text(alloc, after_first(text.as_slice()))
}

/// Adds a fault, unless its line is the last one that was told.
fn tell(faults: &mut Vec<ListingFault>, last: usize, fault: ListingFault) -> Result<(), NoMemory>
    ensures { OnOk result (faults.new.items ≡ faults.old.items ++ told last fault) }
{
    if fault.line != last {
        faults.push(fault)?;
    }
    Ok(())
}

/// The faulty lines of a listing, in order, each with the fault that the listing has where other
/// lines stand for those before it: these make nothing, but their labels are there and their
/// instructions are counted. At most [`MOST_READINGS`] readings look for them. Fails only when out
/// of memory.
pub fn listing_faults(alloc: Global, text: &[u8]) -> Result<Vec<ListingFault>, NoMemory>
    ensures { IfOk result (λ faults. faults.items ≡ faults_of text.now) }
{
    let mut lines = lines_of(alloc, text)?;
    let mut faults = Vec::new(alloc);
    let mut last = 0;
    for _ in 0..MOST_READINGS {
        let Some(fault) = fault_in_lines(alloc, lines.as_slice())? else {
            return Ok(faults);
        };
        tell(&mut faults, last, fault)?;
        leave_out(lines.as_mut_slice(), last, fault.line);
        last = fault.line;
    }
    Ok(faults)
}
