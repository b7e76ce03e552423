//! The numbers that code and definitions share, each by its numeral. Definitions take them from the
//! code, so that a wrong one would be wrong on both sides; these laws hold them to what the
//! documents say.

ghost use Rattle.std.specs.Prelude.{◌≡◌};
ghost use Rattle.sim_program.specs.declared.races.TheConstants.{LOOKS};

/// How often a watched race is looked at.
pub fn limits()
    ensures looks { LOOKS ≡ 100 }
{}
