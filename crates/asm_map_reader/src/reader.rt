//! Reading a map.
#![tactic(auto, unfolding(crate::specs::Reading::finished))]

ghost use Rattle.asm_map_reader.specs.Drafts.{Gives, draft_parts};
ghost use Rattle.asm_map_reader.specs.Reading.{finished, map_meaning};

use crate::draft::{Counts, Draft, Stage, empty_draft};
use crate::fault::MapFault;
use crate::source::Source;
use std::alloc::Global;

/// Where the instructions come from, where the last line was read; else the next line, which is
/// missing.
fn finished<'a>(draft: Draft<'a>, number: usize) -> Result<Vec<Source<'a>>, MapFault>
    ensures { Gives result (finished number (draft_parts draft.entry)) }
{
    match draft.stage {
        Stage::Ended | Stage::Closed => Ok(draft.sources),
        Stage::Head | Stage::Body => Err(MapFault::Line(number)),
    }
}

/// Reads the map of a program of so many instructions and harts: where each of its instructions
/// comes from. The first line that is none of a map, or none of this program's, is a fault.
pub fn read_map<'a>(
    alloc: Global,
    text: &'a [u8],
    counts: Counts,
) -> Result<Vec<Source<'a>>, MapFault>
    ensures { Gives result (map_meaning counts text.now) }
{
    let mut draft = empty_draft(alloc);
    let mut number = 1;
    for line in text.split(|byte| *byte == b'\n') {
        match draft.with_text(counts, line) {
            Ok(()) => number += 1,
            Err(fault) => return Err(fault.at(number)),
        }
    }
    finished(draft, number)
}
