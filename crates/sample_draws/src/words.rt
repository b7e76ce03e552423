//! The generator of a run, and what its words draw.
#![tactic(auto, unfolding(crate::proofs::Unfold::words))]

ghost use Rattle.std.specs.Prelude.{◌≡◌, ◌<◌, ◌≤◌, ◌^◌};
ghost use Rattle.sample_draws.specs.Words.{generator_of, next_word, share, drawn};

use crate::drawing::{MAX_RUN, MAX_SEED};
use rand_core::SeedableRng;
use rand_core::utils::NextWord;
use rand_xoshiro::Xoshiro256PlusPlus;
use std::marker::Model;

/// How many bits of the number of a run's generator are the run's own.
const RUN_BITS: u32 = 40;

/// The words of one run.
#[derive(Drop)]
pub struct Words {
    generator: Xoshiro256PlusPlus,
}

impl Model for Words {
    ghost use Rattle.std.specs.Prelude.{ℕ, List};

    ghost Value = { List ℕ };

    ghost view = { λ w. w.generator };
}

/// The number below `count` that a word draws.
pub fn share(word: u64, count: u32) -> u32
    ensures value { result ≡ share word count }
    ensures below { 0 < count → result < count }
{
    ((u128::from(word) * u128::from(count)) >> 64) as u32
}

impl Words {
    /// Those of the run with this number, of this seed. Generators of different runs are made of
    /// different numbers.
    pub fn of_run(seed: u32, run: u64) -> Words
        requires seed { seed ≤ MAX_SEED }
        requires run { run ≤ MAX_RUN }
        ensures { result ≡ generator_of seed run }
    {
        let number = (u64::from(seed) << RUN_BITS) + run;
        Words {
            generator: Xoshiro256PlusPlus::seed_from_u64(number),
        }
    }

    /// The next word.
    pub fn next(&mut self) -> u64
        ensures { (result, self.new) ≡ next_word self.old }
    {
        self.generator.next_word()
    }

    /// A number below `count`.
    pub fn draw(&mut self, count: u32) -> u32
        ensures value { (result, self.new) ≡ drawn count self.old }
        ensures below { 0 < count → result < count }
    {
        let word = self.next();
        share(word, count)
    }
}
