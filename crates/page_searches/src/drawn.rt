//! How a page says that orders are drawn by chance: by plain numbers.
#![tactic(auto, using(crate::proofs::Limits::limits), unfolding(crate::specs::Drawn::is_drawn))]

ghost use Rattle.std.specs.Prelude.{◌≡◌, ◌≤◌, None, IfSome, false, true};
ghost use Rattle.page_searches.specs.Drawn.{depth_of, drawing_of, is_drawn};

use sample_draws::Drawing;
use std::alloc::Global;

/// The most runs of one question.
pub const MOST_RUNS: u32 = 1_000_000;

/// Runs with the numbers from 0 on, in orders that are drawn by chance.
#[derive(Clone, Copy, Debug, PartialEq, Eq)]
pub struct Drawn {
    /// How many runs, from 1 to 1,000,000.
    pub runs: u32,
    /// The seed, at most 16,777,215.
    pub seed: u32,
    /// The most operations of a run, from 1 to 100,000.
    pub length: u32,
    /// The depth, from 1 to 16, where harts have priorities; 0 where each step is drawn.
    pub depth: u32,
}

/// The depth that a number means; `None` where it is past all depths.
fn depth_of(depth: u32) -> Option<Option<u8>>
    ensures some { IfSome result (λ meant. meant ≡ depth_of depth) }
    ensures none { result ≡ None → 256 ≤ depth }
{
    if depth == 0 {
        return Some(None);
    }
    match u8::try_from(depth) {
        Ok(depth) => Some(Some(depth)),
        Err(_) => None,
    }
}

impl Drawn {
    /// How the orders are drawn. `None` exactly where a number is outside its limits.
    pub fn drawing(self, alloc: Global) -> Option<Drawing>
        ensures drawing { IfSome result (λ drawing. drawing ≡ drawing_of self) }
        ensures some { IfSome result (λ drawing. is_drawn self ≡ true) }
        ensures none { result ≡ None → is_drawn self ≡ false }
    {
        if !(1..=MOST_RUNS).contains(&self.runs) {
            return None;
        }
        let depth = depth_of(self.depth)?;
        Drawing::new(self.seed, self.length, depth, Vec::new(alloc))
    }
}
