//! The numbers that code and contracts share, each by its numeral.

ghost use Rattle.std.specs.Prelude.{◌≡◌};
ghost use Rattle.report_lines.specs.declared.digits.TheConstants.{MOST_DIGITS};

/// The digits of a top, which may be 2^64.
pub fn most_digits()
    ensures { MOST_DIGITS ≡ 17 }
{}
