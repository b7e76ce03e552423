//! What is asked of runs.

ghost use Rattle.std.specs.Prelude.{◌≡◌, ◌↔◌, IsTrue};
ghost use Rattle.sample_merges.specs.Merged.{AskTheSame};

use sample_draws::Drawing;
use sample_slices::Slice;

/// Whether the same sweeps may come.
fn have_same_sweeps(one: &Drawing, other: &Drawing) -> bool
    ensures { IsTrue result ↔ (other.now.sweeps ≡ one.now.sweeps) }
{
    one.sweeps() == other.sweeps()
}

/// Whether orders are drawn alike.
fn are_alike(one: &Drawing, other: &Drawing) -> bool
    ensures { IsTrue result ↔ (other.now ≡ one.now) }
{
    if one.seed() != other.seed() {
        return false;
    }
    if one.length() != other.length() {
        return false;
    }
    if one.depth() != other.depth() {
        return false;
    }
    have_same_sweeps(one, other)
}

/// Whether the same is asked of the runs of two slices.
pub fn ask_the_same(one: &Slice, other: &Slice) -> bool
    ensures { IsTrue result ↔ AskTheSame one.now other.now }
{
    if one.is_checked() != other.is_checked() {
        return false;
    }
    if one.items() != other.items() {
        return false;
    }
    are_alike(one.drawing(), other.drawing())
}
