//! The numbers that code and definitions share, each by its numeral. Definitions take them from the
//! code, so that a wrong one would be wrong on both sides; these laws hold them to what the
//! documents say.

ghost use Rattle.std.specs.Prelude.{◌≡◌};
ghost use Rattle.listings.specs.declared.draft.TheConstants.{BYTES_LIMIT, RAM_SIZE};
ghost use Rattle.listings.specs.declared.reader.TheConstants.{LISTING_LIMIT};

/// The most bytes of a listing and of one `.bytes` line, and the bytes of RAM where no line says
/// how many.
pub fn limits()
    ensures listing { LISTING_LIMIT ≡ 1048576 }
    ensures bytes { BYTES_LIMIT ≡ 4096 }
    ensures ram { RAM_SIZE ≡ 4096 }
{}
