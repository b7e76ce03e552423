//! The numbers that code and contracts share, each by its numeral: the definitions take them from
//! the code, so that a wrong one would be wrong on both sides.

ghost use Rattle.std.specs.Prelude.{◌≡◌, ◌+◌, ◌^◌};
ghost use Rattle.number_lines.specs.declared.numbers.TheConstants.{GREATEST_ADDRESS, GREATEST_WORD};

/// The greatest address, and the greatest word of a value.
pub fn limits()
    ensures address { GREATEST_ADDRESS + 1 ≡ 2 ^ 64 }
    ensures word { GREATEST_WORD + 1 ≡ 2 ^ 128 }
{}
