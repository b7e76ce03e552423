//! The map of a listing's program.

ghost use Rattle.std.specs.Prelude.{◌≡◌, IfErr, IfOk};
ghost use Rattle.inputs.specs.Files.{AreBytesOf};
ghost use Rattle.explain_program.specs.Mapped.{
  GivesSources,
  IsMapUnread,
  counts_of,
  shown_sources,
};

use crate::faults::{Fault, OwnFault};
use asm_map_reader::{Counts, MapFault, Source, read_map};
use cheri_model::Image;
use inputs::{FileFault, Files, InputFault};
use listings::read_listing;
use std::alloc::Global;

/// The bytes of a map's file.
pub(crate) fn read_map_text<F: Files>(files: &mut F, name: &str) -> Result<Vec<u8>, Fault>
    ensures bytes { IfOk result (λ bytes. AreBytesOf (F.bytes_of files.old name.now) bytes.items) }
    ensures refused { IfErr result (IsMapUnread (F.bytes_of files.old name.now)) }
    ensures kept { F.bytes_of files.new ≡ F.bytes_of files.old }
{
    match files.read(name, u64::MAX) {
        Ok(bytes) => Ok(bytes),
        Err(FileFault::CannotRead) => Err(Fault::Own(OwnFault::CannotReadMap)),
        Err(FileFault::NoMemory) => Err(Fault::Input(InputFault::NoMemory)),
    }
}

/// What the map of an image's program has to have.
fn counts_of(image: &Image) -> Counts
    ensures { result ≡ counts_of image.now }
{
    Counts {
        instructions: image.program().len(),
        harts: image.harts().len(),
    }
}

/// What the map of a listing's program says that its instructions come from. The listing is judged
/// before the map.
pub(crate) fn sources_of<'m>(
    alloc: Global,
    listing: &[u8],
    map: &'m [u8],
) -> Result<Vec<Source<'m>>, Fault>
    ensures { GivesSources result (shown_sources listing.now map.now) }
{
    let image = match read_listing(alloc, listing) {
        Ok(image) => image,
        Err(fault) => return Err(Fault::Input(InputFault::from(fault))),
    };
    match read_map(alloc, map, counts_of(&image)) {
        Ok(sources) => Ok(sources),
        Err(MapFault::Line(line)) => Err(Fault::Own(OwnFault::Map(line))),
        Err(MapFault::NoMemory) => Err(Fault::Input(InputFault::NoMemory)),
    }
}
