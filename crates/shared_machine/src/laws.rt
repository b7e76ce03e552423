//! The number that code and definitions share, by its numeral. Definitions take it from the code,
//! so that a wrong one would be wrong on both sides; this law holds it to what the documents say.

ghost use Rattle.std.specs.Prelude.{◌≡◌};
ghost use Rattle.shared_machine.specs.declared.watching.pair.TheConstants.{PLACES};

/// The places for watches.
pub fn limits()
    ensures places { PLACES ≡ 8 }
{}
