//! How much of a listing is read, by its numeral: the definitions take the number from the code, so
//! that a wrong one would be wrong on both sides.

ghost use Rattle.std.specs.Prelude.{◌≡◌};
ghost use Rattle.inputs.specs.declared.reading.TheConstants.{LISTING_READ};

/// One byte more than a listing may have.
pub fn limits()
    ensures listing { LISTING_READ ≡ 1048577 }
{}
