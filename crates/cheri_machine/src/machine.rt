//! What an open handle owns.

ghost use Rattle.std.specs.Prelude.{◌≤◌, length};
ghost use Rattle.listings.specs.Meaning.{listing_limit};

use cores::Core;

/// A machine, and the listing that opened it.
#[derive(Drop)]
pub struct Machine {
    pub core: Core,
    pub listing: Vec<u8>,
    ghost fits: { length listing.items ≤ listing_limit },
}
