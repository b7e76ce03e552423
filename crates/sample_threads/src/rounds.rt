//! Runs that are counted in rounds, each cut into parts.

ghost use Rattle.std.specs.Prelude.{◌≡◌, ◌<◌};
ghost use Rattle.sample_threads.specs.Rounds.{cut_at};

use cheri_model::Image;
use explore_properties::Property;
use sample_draws::Drawing;

/// Runs of an image, and the properties to look at in each.
#[derive(Clone, Copy)]
pub struct Runs<'r, 'a> {
    pub image: &'r Image,
    pub drawing: &'r Drawing,
    pub properties: &'r [Property<'a>],
    /// The number of the first.
    pub first: u64,
    /// How many they are.
    pub count: u64,
}

/// About how many operations a thread takes in a round.
const OPERATIONS: u64 = 50_000_000;

/// A round: how many runs were counted before it, how many threads count in it, and how many runs
/// each of them, as long as there are some left.
#[derive(Clone, Copy)]
pub(crate) struct Round {
    pub done: u64,
    pub each: u64,
    pub parts: u16,
}

impl Round {
    /// The round after so many runs of `count`, by so many threads, where a run takes at most
    /// `length` operations.
    pub(crate) fn next(done: u64, count: u64, length: u32, parts: u16) -> Round
        requires left { done < count }
        requires some { 0 < parts }
        ensures done { result.done ≡ done }
        ensures parts { result.parts ≡ parts }
        ensures some { 0 < result.each }
    {
        let most = (OPERATIONS / u64::from(length.max(1))).max(1);
        let each = (count - done).div_ceil(u64::from(parts)).max(1);
        Round {
            done,
            each: each.min(most),
            parts,
        }
    }

    /// How many of `count` runs come before a part.
    pub(crate) fn cut_at(self, count: u64, part: u64) -> u64
        ensures { result ≡ cut_at self.done self.each count part }
    {
        let more = self.each.saturating_mul(part);
        count.min(self.done.saturating_add(more))
    }
}
