//! Arrays of words and of ranges, for callers to whom a call costs more than its work.

ghost use Rattle.std.specs.Prelude.{◌≡◌, ◌++◌, length, take, drop, map, min};
ghost use Rattle.cheri_caps.specs.Structs.{read_bounds, rounded_range};

use crate::ranges::cheri_caps_round;
use crate::structs::{CheriBounds, CheriRange, CheriRounded, CheriWord};
use crate::words::cheri_caps_bounds;

/// The bounds that words are read with, as by `bounds`: of as many words as both arrays have
/// places for. The other places of `out` stay as they are.
#[unsafe(no_mangle)]
pub extern "C" fn cheri_caps_bounds_of(words: &[CheriWord], out: &mut [CheriBounds]) -> usize
    ensures count { result ≡ min (length words.now) (length out.old) }
    ensures filled { out.new ≡ map read_bounds (take result words.now) ++ drop result out.old }
{
    let count = words.len().min(out.len());
    for i in 0..count {
        out[i] = cheri_caps_bounds(words[i].upper, words[i].addr);
    }
    count
}

/// The roundings of ranges, as by `round`: of as many ranges as both arrays have places for. The
/// other places of `out` stay as they are.
#[unsafe(no_mangle)]
pub extern "C" fn cheri_caps_round_of(ranges: &[CheriRange], out: &mut [CheriRounded]) -> usize
    ensures count { result ≡ min (length ranges.now) (length out.old) }
    ensures filled { out.new ≡ map rounded_range (take result ranges.now) ++ drop result out.old }
{
    let count = ranges.len().min(out.len());
    for i in 0..count {
        out[i] = cheri_caps_round(ranges[i].base, ranges[i].len);
    }
    count
}
