//! Numbers of more than 64 bits in hexadecimal.

ghost use Rattle.std.specs.Prelude.{◌^◌, ◌<◌, ◌++◌, Some, false};
ghost use Rattle.std.specs.Fmt.{digits};

use std::fmt;
use std::fmt::Display;

/// A top, as a number of at most 68 bits.
#[derive(Clone, Copy)]
pub struct Top {
    pub number: u128,
    ghost below: { number < 2 ^ 68 },
}

impl fmt::Display for Top {
    ghost output = { λ top. Some (digits 16 false top.number) };

    fn fmt<W: fmt::Write>(&self, f: &mut fmt::Formatter<W>) -> fmt::Result {
        if self.number < 1 << 64 {
            write!(f, "{:x}", self.number as u64)
        } else {
            Parts {
                above: (self.number / 16) as u64,
                last: (self.number % 16) as u64,
            }
            .fmt(f)
        }
    }
}

/// All digits but the last one, and that one.
#[derive(Clone, Copy)]
struct Parts {
    above: u64,
    last: u64,
}

impl fmt::Display for Parts {
    ghost output = { λ parts. Some (digits 16 false parts.above ++ digits 16 false parts.last) };

    fn fmt<W: fmt::Write>(&self, f: &mut fmt::Formatter<W>) -> fmt::Result {
        write!(f, "{:x}{:x}", self.above, self.last)
    }
}
