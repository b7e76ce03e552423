//! The numbers that code and contracts share, each by its numeral.

ghost use Rattle.std.specs.Prelude.{◌≡◌};
ghost use Rattle.sinks.specs.declared.pieces.TheConstants.{PART, PIECE};

/// The most bytes of one put, and the room that is made for a part.
pub fn limits()
    ensures piece { PIECE ≡ 65536 }
    ensures part { PART ≡ 8192 }
{}
