//! What draws the order of a run, and the operation that is chosen next.
#![tactic(auto, unfolding(crate::proofs::Unfold::draws))]

ghost use Rattle.std.specs.Prelude.{◌≡◌, ◌<◌, ◌≤◌, ◌^◌, All, length, option_map, IfSome, IfOk};
ghost use Rattle.sample_draws.specs.Draws.{draws_of_run, operation_word, is_sweep_word};
ghost use Rattle.sample_draws.specs.Draws.{drawn_rate, drawn_priorities, swept_range, stepping};
ghost use Rattle.sample_draws.specs.Draws.{chosen, begun, done};
ghost use Rattle.sample_draws.specs.Priorities.{after_changes, swept};

use crate::drawing::{Drawing, MAX_LENGTH, MAX_RUN, MAX_SWEEPS};
use crate::priorities::Priorities;
use crate::words::{Words, share};
use cheri_model::{MAX_HARTS, Op};
use hart::Hart;
use schedules::SweepRange;
use std::alloc::{AllocError, Global};
use std::marker::Model;

/// Sweeps come at one place in 2^2, 2^3, .., 2^11: so many rates.
pub const SWEEP_RATES: u32 = 10;

/// The power of two of the greatest rate.
pub const GREATEST_RATE: u32 = 2;

/// What draws the order of a run: its words, how rare sweeps are, and the harts' priorities, where
/// they have some.
#[derive(Drop)]
pub struct Draws {
    words: Words,
    one_in: u64,
    /// In a box, since they keep a hart, and most runs have none.
    priorities: Option<Box<Priorities>>,
}

impl Model for Draws {
    ghost use Rattle.std.specs.Prelude.{◌<◌, option_map};
    ghost use Rattle.sample_draws.specs.Draws.{DrawParts};

    ghost Value = { DrawParts };

    ghost view = { λ d. record {
      words = d.words;
      one_in = d.one_in;
      priorities = option_map (λ priorities. priorities.value) d.priorities;
    } };

    ghost invariant = { λ d. 0 < d.one_in };
}

/// How rare sweeps are, where some may come.
fn draw_rate(sweeps: &[SweepRange], words: &mut Words) -> u64
    ensures value { (result, words.new) ≡ drawn_rate sweeps.now words.old }
    ensures some { 0 < result }
{
    if sweeps.is_empty() {
        return 1;
    }
    1 << (GREATEST_RATE + words.draw(SWEEP_RATES))
}

/// The priorities of harts, where a depth is given. Fails only when out of memory.
fn draw_priorities(
    alloc: Global,
    drawing: &Drawing,
    harts: usize,
    words: &mut Words,
) -> Result<Option<Box<Priorities>>, AllocError>
    requires some { 1 ≤ harts }
    requires few { harts ≤ MAX_HARTS }
    ensures { IfOk result (λ drawn. (option_map (λ priorities. priorities.value) drawn, words.new)
        ≡ drawn_priorities drawing.now.depth drawing.now.length harts words.old) }
{
    // Its clause says what the parts of a drawing are.
    let _seed = drawing.seed();
    match drawing.depth() {
        None => Ok(None),
        Some(depth) => {
            let priorities = Priorities::draw(harts, depth, drawing.length(), words);
            Ok(Some(Box::new(alloc, priorities)?))
        }
    }
}

/// The range that a word draws.
fn swept_range(word: u64, sweeps: &[SweepRange]) -> SweepRange
    requires some { 0 < length sweeps.now }
    requires few { length sweeps.now < 2 ^ 32 }
    ensures { result ≡ swept_range word sweeps.now }
{
    sweeps[share(word, sweeps.len() as u32) as usize]
}

/// Whether the word of an operation makes it a sweep.
fn is_sweep_word(word: u64, one_in: u64, sweeps: &[SweepRange]) -> bool
    requires { 0 < one_in }
    ensures { result ≡ is_sweep_word word one_in sweeps.now }
{
    if sweeps.is_empty() {
        return false;
    }
    word % one_in == 0
}

impl Draws {
    /// What draws the order of the run with this number, of so many harts. Fails only when out of
    /// memory, and only where a depth is given.
    pub fn of_run(
        alloc: Global,
        drawing: &Drawing,
        harts: usize,
        run: u64,
    ) -> Result<Draws, AllocError>
        requires some { 1 ≤ harts }
        requires few { harts ≤ MAX_HARTS }
        requires run { run ≤ MAX_RUN }
        ensures { IfOk result (λ draws. draws ≡ draws_of_run drawing.now harts run) }
    {
        let mut words = Words::of_run(drawing.seed(), run);
        let one_in = draw_rate(drawing.sweeps(), &mut words);
        let priorities = draw_priorities(alloc, drawing, harts, &mut words)?;
        Ok(Draws {
            words,
            one_in,
            priorities,
        })
    }

    /// The word of the next operation, 0 where none is needed.
    fn operation_word(&mut self, sweeps: &[SweepRange]) -> u64
        ensures word { result ≡ (operation_word sweeps.now self.old).0 }
        ensures words { self.new
            ≡ record self.old { words = (operation_word sweeps.now self.old).1 } }
    {
        if sweeps.is_empty() && self.priorities.is_some() {
            return 0;
        }
        self.words.next()
    }

    /// A sweep comes.
    fn sweep(&mut self)
        ensures { self.new
            ≡ record self.old { priorities = option_map swept self.old.priorities } }
    {
        if let Some(priorities) = &mut self.priorities {
            priorities.sweep();
        }
    }

    /// The hart that steps, one of those that run.
    fn stepping(&mut self, word: u64, running: &[u8]) -> u8
        requires some { 0 < length running.now }
        requires short { length running.now ≤ MAX_HARTS }
        requires harts { All (λ hart. hart < MAX_HARTS) running.now }
        ensures hart { result ≡ stepping word running.now self.old.priorities }
        ensures draws { self.new ≡ record self.old {
          priorities = option_map (after_changes running.now) self.old.priorities;
        } }
    {
        match &mut self.priorities {
            None => running[share(word, running.len() as u32) as usize],
            Some(priorities) => priorities.choose(running),
        }
    }

    /// The next operation: one of these sweeps, or a step of one of the harts that run.
    #[inline(always)]
    pub fn choose(&mut self, sweeps: &[SweepRange], running: &[u8]) -> Op
        requires few { length sweeps.now ≤ MAX_SWEEPS }
        requires some { 0 < length running.now }
        requires short { length running.now ≤ MAX_HARTS }
        requires harts { All (λ hart. hart < MAX_HARTS) running.now }
        ensures { (result, self.new) ≡ chosen sweeps.now running.now self.old }
    {
        let word = self.operation_word(sweeps);
        if !is_sweep_word(word, self.one_in, sweeps) {
            return Op::Step(self.stepping(word, running));
        }
        self.sweep();
        let range = swept_range(word, sweeps);
        Op::Sweep {
            lo: range.lo,
            hi: range.hi,
        }
    }

    /// A hart is about to step.
    pub fn begin_step(&mut self, hart: u8, before: &Hart)
        requires { hart < MAX_HARTS }
        ensures { self.new ≡ begun hart before.now self.old }
    {
        if let Some(priorities) = &mut self.priorities {
            priorities.begin_step(hart, before);
        }
    }

    /// The hart that was about to step has stepped: it is so, and memory was changed or was not.
    pub fn end_step(&mut self, after: &Hart, changed: bool)
        requires { IfSome self.old.priorities (λ p. p.steps < MAX_LENGTH) }
        ensures { self.new ≡ done after.now changed self.old }
    {
        if let Some(priorities) = &mut self.priorities {
            priorities.end_step(after, changed);
        }
    }
}
