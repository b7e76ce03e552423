//! The texts that a request names: a listing, and the map of its program, if one is named.

ghost use Rattle.std.specs.Prelude.{◌≡◌, Ok, IfOk, IfErr, option_map};
ghost use Rattle.inputs.specs.Files.{AreBytesOf};
ghost use Rattle.listing_maps.specs.Names.{sources_parts};
ghost use Rattle.listings.specs.Meaning.{listing_meaning};
ghost use Rattle.explore_program.specs.Listings.{
  GivesImage,
  GivesSources,
  IsMapUnread,
  bytes_in,
  mapped_image_of,
  sources_in,
  sources_meant,
};

use crate::faults::{Fault, OwnFault};
use asm_map_reader::{MapFault, Source};
use cheri_model::Image;
use inputs::{FileFault, Files, InputFault};
use listing_maps::read_sources;
use listings::read_listing;
use std::alloc::Global;

/// The text of a listing, and what its map, if there is one, says that its instructions come from.
#[derive(Clone, Copy)]
pub struct Listed<'t> {
    pub text: &'t [u8],
    pub sources: Option<&'t [Source<'t>]>,
}

/// What the texts of a listing and its map mean: the image, and what the map says that the image's
/// instructions come from.
#[derive(Drop)]
pub struct MappedImage<'t> {
    pub image: Image,
    pub sources: Option<Vec<Source<'t>>>,
}

/// The bytes of a map's file.
#[tactic(auto)]
pub fn read_map_text<F: Files>(files: &mut F, name: &str) -> Result<Vec<u8>, Fault>
    ensures bytes { IfOk result (λ bytes. AreBytesOf (F.bytes_of files.old name.now) bytes.items) }
    ensures refused { IfErr result (IsMapUnread (F.bytes_of files.old name.now)) }
    ensures kept { F.bytes_of files.new ≡ F.bytes_of files.old }
{
    match files.read(name, u64::MAX) {
        Ok(bytes) => Ok(bytes),
        Err(FileFault::CannotRead) => Err(Fault::Own(OwnFault::CannotReadMap)),
        Err(FileFault::NoMemory) => Err(Fault::Input(InputFault::NoMemory)),
    }
}

/// What the map of an image's program, if there is one, says that its instructions come from.
fn read_map<'t>(
    alloc: Global,
    image: &Image,
    map: Option<&'t [u8]>,
) -> Result<Option<Vec<Source<'t>>>, Fault>
    ensures { GivesSources result (sources_meant image.now (option_map bytes_in map.entry)) }
{
    let Some(map) = map else {
        return Ok(None);
    };
    match read_sources(alloc, image, map) {
        Ok(sources) => Ok(Some(sources)),
        Err(MapFault::Line(line)) => Err(Fault::Own(OwnFault::Map(line))),
        Err(MapFault::NoMemory) => Err(Fault::Input(InputFault::NoMemory)),
    }
}

/// What the texts of a listing and, if there is one, of its map mean. The listing is judged before
/// the map.
pub fn read_mapped_image<'t>(
    alloc: Global,
    listing: &[u8],
    map: Option<&'t [u8]>,
) -> Result<MappedImage<'t>, Fault>
    ensures meaning { IfOk result (λ mapped. listing_meaning listing.now ≡ Ok mapped.image) }
    ensures whole { GivesImage result
        (mapped_image_of listing.now (option_map bytes_in map.entry)) }
{
    let image = match read_listing(alloc, listing) {
        Ok(image) => image,
        Err(fault) => return Err(Fault::Input(InputFault::from(fault))),
    };
    let sources = read_map(alloc, &image, map)?;
    Ok(MappedImage { image, sources })
}

impl<'t> MappedImage<'t> {
    /// What the map says, if there is one.
    pub fn sources(&self) -> Option<&[Source<'t>]>
        ensures { option_map sources_parts result ≡ option_map sources_in self.now.sources }
    {
        match &self.sources {
            Some(sources) => Some(sources.as_slice()),
            None => None,
        }
    }
}
