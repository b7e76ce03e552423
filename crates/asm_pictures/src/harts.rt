//! The harts of a program, one after another.
#![tactic(auto, unfolding(crate::proofs::Unfold::harts))]

ghost use Rattle.std.specs.Prelude.{◌≡◌, map};
ghost use Rattle.asm_files.specs.Faults.{GivesAll};
ghost use Rattle.asm_files.specs.Steps.{Leaves};
ghost use Rattle.asm_files.specs.Requests.{hart_request_parts};
ghost use Rattle.asm_starts.specs.Values.{scene_parts};
ghost use Rattle.asm_pictures.specs.Harts.{
  exits_in,
  hart_number,
  hart_put,
  harts_of,
  opened_parts,
};

use asm_files::{AssemblyFault, HartRequest};
use asm_starts::{HartNote, Scene, has_exit, note_of, open_start};
use cheri_model::HartImage;
use std::alloc::Global;

/// The harts so far, and where memory ends that is taken.
#[derive(Drop)]
pub struct Opened<'a> {
    pub images: Vec<HartImage>,
    pub notes: Vec<HartNote<'a>>,
    pub memory_end: u64,
}

/// Whether one of these harts is given the exit.
pub fn exits_in(requests: &[HartRequest]) -> bool
    ensures { result ≡ exits_in (map hart_request_parts requests.now) }
{
    for request in requests {
        if has_exit(request.words.as_slice()) {
            return true;
        }
    }
    false
}

/// The number of the next hart. An image has at most 8.
fn hart_number(count: usize) -> u8
    ensures { result ≡ hart_number count }
{
    if count > 255 { 255 } else { count as u8 }
}

impl<'a> Opened<'a> {
    /// One more hart, behind the stacks of those before it.
    fn put(&mut self, scene: Scene<'_>, request: &HartRequest<'a>) -> Result<(), AssemblyFault>
        ensures { Leaves result (opened_parts self.new) (hart_put (scene_parts scene.entry)
            (hart_request_parts request.now) (opened_parts self.old)) }
    {
        let (file, number) = (request.file, hart_number(self.images.len()));
        let words = request.words.as_slice();
        let start = match open_start(scene, number, self.memory_end, request.line, words) {
            Ok(start) => start,
            Err(fault) => return Err(AssemblyFault { file, fault }),
        };
        let note = note_of(&start);
        self.memory_end = start.hart.memory_end;
        self.images.push(start.hart.image)?;
        self.notes.push(note)?;
        Ok(())
    }
}

/// The harts of these requests, in memory that is taken up to an address. Fails at the first word
/// that can't be done.
pub fn open_harts<'a>(
    alloc: Global,
    scene: Scene<'_>,
    memory_end: u64,
    requests: &[HartRequest<'a>],
) -> Result<Opened<'a>, AssemblyFault>
    ensures { GivesAll opened_parts result
        (harts_of (scene_parts scene.entry) memory_end (map hart_request_parts requests.now)) }
{
    let mut opened = Opened {
        images: Vec::new(alloc),
        notes: Vec::new(alloc),
        memory_end,
    };
    for request in requests {
        opened.put(scene, request)?;
    }
    Ok(opened)
}
