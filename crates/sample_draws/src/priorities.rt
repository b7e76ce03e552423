//! Harts by random priorities: which one steps next, and what its step changes of that.
#![tactic(auto, unfolding(crate::proofs::Unfold::priorities))]

ghost use Rattle.std.specs.Prelude.{◌≡◌, ℕ, ◌+◌, ◌<◌, ◌≤◌, ◌^◌, true, if◌then◌else◌, All};
ghost use Rattle.std.specs.Prelude.{slice_set, Some};
ghost use Rattle.sample_draws.specs.Priorities.{first_priorities, after_changes, first_of};
ghost use Rattle.sample_draws.specs.Priorities.{going_on, followed, waiting_after, ends_patience};
ghost use Rattle.sample_draws.specs.Priorities.{is_cycle_within, about_to_step, ended, swept};

use crate::cycles::Cycle;
use crate::drawing::{MAX_DEPTH, MAX_LENGTH};
use crate::ranks::{Changes, Ranks, change_ranks, drawn_places, drawn_ranks, first};
use crate::words::Words;
use cheri_model::MAX_HARTS;
use hart::Hart;
use std::marker::Model;

/// The steps in succession after which a hart becomes last.
pub const PATIENCE: u32 = 100;

/// The latest hart: its steps since another's, or since it became last, and whether they have
/// brought it back.
#[derive(Clone, Copy)]
pub struct Succession {
    pub hart: u8,
    pub steps: u32,
    pub cycle: Cycle,
}

/// Harts with priorities that change at places drawn before the first step. A hart whose steps have
/// brought it back to a state that it had waits until memory changes.
#[derive(Drop)]
pub struct Priorities {
    harts: u32,
    ranks: Ranks,
    changes: Changes,
    /// The next rank that is later than all.
    last: u32,
    steps: u32,
    waiting: [bool; 8],
    succession: Option<Succession>,
}

impl Model for Priorities {
    ghost use Rattle.std.specs.Prelude.{◌≡◌, true};
    ghost use Rattle.sample_draws.specs.Priorities.{PriorityParts, is_priorities};

    ghost Value = { PriorityParts };

    ghost view = { λ p. record {
      harts = p.harts;
      ranks = p.ranks;
      changes = p.changes.items;
      last = p.last;
      steps = p.steps;
      waiting = p.waiting;
      succession = p.succession;
    } };

    ghost invariant = { λ p. is_priorities (record {
      harts = p.harts;
      ranks = p.ranks;
      changes = p.changes.items;
      last = p.last;
      steps = p.steps;
      waiting = p.waiting;
      succession = p.succession;
    }) ≡ true };
}

impl Succession {
    /// A hart is about to step: it goes on where it is the latest.
    fn begin(&mut self, hart: u8, before: &Hart)
        ensures { self.new ≡ going_on hart before.now (Some self.old) }
    {
        if self.hart != hart {
            self.hart = hart;
            self.steps = 0;
            self.cycle.mark(before, 1);
        }
    }

    /// The hart has stepped: it waits where that has brought it back, and memory that was changed
    /// lets all go on.
    fn follow(&mut self, after: &Hart, changed: bool, waiting: &mut [bool; 8])
        requires hart { self.old.hart < MAX_HARTS }
        requires since { self.old.cycle.since < self.old.cycle.span }
        requires span { self.old.cycle.span < 2 ^ 31 }
        ensures latest { self.new
            ≡ record self.old { cycle = followed changed after.now self.old.cycle } }
        ensures waiting { waiting.new ≡ waiting_after changed after.now self.old waiting.old }
        ensures within { (steps : ℕ) → is_cycle_within steps self.old.cycle ≡ true
            → is_cycle_within (steps + 1) self.new.cycle ≡ true }
    {
        if changed {
            *waiting = [false; 8];
            self.cycle.mark(after, 1);
        } else if self.cycle.is_back(after) {
            waiting[usize::from(self.hart)] = true;
        } else {
            self.cycle.go_on(after);
        }
    }

    /// Counts a step, after which the hart becomes last where its patience ends.
    fn count(&mut self, ranks: &mut Ranks, last: &mut u32)
        requires hart { self.old.hart < MAX_HARTS }
        requires steps { self.old.steps < PATIENCE }
        requires last { last.old < 2 ^ 31 }
        ensures latest { self.new
            ≡ record self.old { steps = if ends_patience self.old then 0 else self.old.steps + 1 } }
        ensures ranks { ranks.new ≡ if ends_patience self.old
            then slice_set ranks.old self.old.hart last.old else ranks.old }
        ensures last { last.new ≡ if ends_patience self.old then last.old + 1 else last.old }
        ensures few { self.new.steps < PATIENCE }
        ensures next { last.new ≤ last.old + 1 }
    {
        self.steps += 1;
        if self.steps == PATIENCE {
            self.steps = 0;
            ranks[usize::from(self.hart)] = *last;
            *last += 1;
        }
    }
}

impl Priorities {
    /// Those of a run of so many harts, before its first step: the harts' ranks and the change
    /// points are drawn.
    pub fn draw(harts: usize, depth: u8, length: u32, words: &mut Words) -> Priorities
        requires some { 1 ≤ harts }
        requires few { harts ≤ MAX_HARTS }
        requires depth { 1 ≤ depth }
        requires shallow { depth ≤ MAX_DEPTH }
        ensures { (result, words.new) ≡ first_priorities harts depth length words.old }
    {
        let ranks = drawn_ranks(harts, words);
        let changes = drawn_places(usize::from(depth - 1), length, words);
        Priorities {
            harts: harts as u32,
            ranks,
            changes,
            last: harts as u32 + u32::from(depth - 1),
            steps: 0,
            waiting: [false; 8],
            succession: None,
        }
    }

    /// The hart that steps next, one of those that run, after the change points at this step.
    pub fn choose(&mut self, running: &[u8]) -> u8
        requires { All (λ hart. hart < MAX_HARTS) running.now }
        ensures hart { result ≡ first_of running.now (after_changes running.now self.old) }
        ensures changed { self.new ≡ after_changes running.now self.old }
    {
        change_ranks(
            &mut self.ranks,
            &self.waiting,
            running,
            self.changes.as_slice(),
            self.steps,
            self.harts,
        );
        first(&self.ranks, &self.waiting, running)
    }

    /// A hart is about to step.
    pub fn begin_step(&mut self, hart: u8, before: &Hart)
        requires { hart < MAX_HARTS }
        ensures { self.new ≡ about_to_step hart before.now self.old }
    {
        match &mut self.succession {
            Some(latest) => latest.begin(hart, before),
            None => self.succession = Some(Succession {
                hart,
                steps: 0,
                cycle: Cycle::from(before),
            }),
        }
    }

    /// The hart that was about to step has stepped: it is so, and memory was changed or was not.
    pub fn end_step(&mut self, after: &Hart, changed: bool)
        requires { self.old.steps < MAX_LENGTH }
        ensures { self.new ≡ ended after.now changed self.old }
    {
        if let Some(latest) = &mut self.succession {
            self.steps += 1;
            latest.follow(after, changed, &mut self.waiting);
            latest.count(&mut self.ranks, &mut self.last);
        }
    }

    /// After a sweep no hart waits.
    pub fn sweep(&mut self)
        ensures { self.new ≡ swept self.old }
    {
        self.waiting = [false; 8];
        self.succession = None;
    }
}
