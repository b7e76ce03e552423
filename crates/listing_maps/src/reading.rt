//! Reading the map of a listing's program.

ghost use Rattle.std.specs.Prelude.{◌≡◌};
ghost use Rattle.asm_map_reader.specs.Drafts.{Gives};
ghost use Rattle.listing_maps.specs.Reading.{counts_of, sources_of};

use asm_map_reader::{Counts, MapFault, Source, read_map};
use cheri_model::Image;
use std::alloc::Global;

/// What the map of an image's program has to have.
fn counts_of(image: &Image) -> Counts
    ensures { result ≡ counts_of image.now }
{
    Counts {
        instructions: image.program().len(),
        harts: image.harts().len(),
    }
}

/// Where the map of an image's program says that its instructions come from. The first line that is
/// none of a map, or none of this program's, is a fault.
pub fn read_sources<'m>(
    alloc: Global,
    image: &Image,
    map: &'m [u8],
) -> Result<Vec<Source<'m>>, MapFault>
    ensures { Gives result (sources_of image.now map.now) }
{
    read_map(alloc, map, counts_of(image))
}
