//! How orders are drawn.
#![tactic(auto, unfolding(crate::proofs::Unfold::drawing))]

ghost use Rattle.std.specs.Prelude.{◌≡◌, ◌≤◌, ◌↔◌, false, true, None, IfSome};
ghost use Rattle.sample_draws.specs.Drawings.{is_drawing, are_ranges, is_depth};

use cheri_model::ADDRESS_SPACE;
use schedules::SweepRange;
use std::marker::Model;

/// The greatest seed.
pub const MAX_SEED: u32 = 16_777_215;

/// The greatest number of a run.
pub const MAX_RUN: u64 = 99_999_999_999;

/// The most operations that a run may have.
pub const MAX_LENGTH: u32 = 100_000;

/// The greatest depth.
pub const MAX_DEPTH: u8 = 16;

/// The most sweeps that may come.
pub const MAX_SWEEPS: usize = 16;

/// How orders are drawn: all that the order of a run depends on, but for the image and the run's
/// number. It has a seed of at most 16,777,215; the most operations of a run, from 1 to 100,000;
/// the depth, from 1 to 16, where harts have priorities; and at most 16 ranges that may be swept.
#[derive(Drop)]
pub struct Drawing {
    seed: u32,
    length: u32,
    depth: Option<u8>,
    sweeps: Vec<SweepRange>,
}

impl Model for Drawing {
    ghost use Rattle.std.specs.Prelude.{◌≡◌, true};
    ghost use Rattle.sample_draws.specs.Drawings.{DrawingParts, is_drawing};

    ghost Value = { DrawingParts };

    ghost view = { λ d. record {
      seed = d.seed;
      length = d.length;
      depth = d.depth;
      sweeps = d.sweeps.items;
    } };

    ghost invariant = { λ d. is_drawing (record {
      seed = d.seed;
      length = d.length;
      depth = d.depth;
      sweeps = d.sweeps.items;
    }) ≡ true };
}

/// Whether a depth is from 1 to 16, where one is given.
fn is_depth(depth: Option<u8>) -> bool
    ensures { result ≡ is_depth depth }
{
    match depth {
        None => true,
        Some(depth) => (1..=MAX_DEPTH).contains(&depth),
    }
}

/// Whether each of these ranges can be swept.
fn are_ranges(ranges: &[SweepRange]) -> bool
    ensures { result ≡ are_ranges ranges.now }
{
    for range in ranges {
        if u128::from(range.lo) > range.hi || range.hi > ADDRESS_SPACE {
            return false;
        }
    }
    true
}

impl Drawing {
    /// The drawing of these parts. `None` exactly where one of them is outside its limits. Takes no
    /// memory.
    pub fn new(
        seed: u32,
        length: u32,
        depth: Option<u8>,
        sweeps: Vec<SweepRange>,
    ) -> Option<Drawing>
        ensures parts { IfSome result (λ drawing. drawing ≡ record {
          seed = seed;
          length = length;
          depth = depth;
          sweeps = sweeps.items;
        }) }
        ensures none { (result ≡ None) ↔ (is_drawing (record {
          seed = seed;
          length = length;
          depth = depth;
          sweeps = sweeps.items;
        }) ≡ false) }
    {
        if seed > MAX_SEED {
            return None;
        }
        if !(1..=MAX_LENGTH).contains(&length) {
            return None;
        }
        if !is_depth(depth) {
            return None;
        }
        if sweeps.len() > MAX_SWEEPS {
            return None;
        }
        if !are_ranges(sweeps.as_slice()) {
            return None;
        }
        Some(Drawing {
            seed,
            length,
            depth,
            sweeps,
        })
    }

    /// The seed.
    pub fn seed(&self) -> u32
        ensures value { result ≡ self.now.seed }
        ensures drawing { is_drawing self.now ≡ true }
    {
        self.seed
    }

    /// The most operations that a run may have.
    pub fn length(&self) -> u32
        ensures { result ≡ self.now.length }
    {
        self.length
    }

    /// The depth, where harts have priorities.
    pub fn depth(&self) -> Option<u8>
        ensures { result ≡ self.now.depth }
    {
        self.depth
    }

    /// The sweeps that may come.
    pub fn sweeps(&self) -> &[SweepRange]
        ensures { result.now ≡ self.now.sweeps }
    {
        self.sweeps.as_slice()
    }
}
