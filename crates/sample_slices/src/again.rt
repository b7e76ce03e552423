//! First runs, which are drawn and run again.
#![tactic(auto, unfolding(crate::proofs::Unfold::again))]

ghost use Rattle.std.specs.Prelude.{◌≡◌, ◌≤◌, IfOk, IfSome, OnOk, length};
ghost use Rattle.cheri_model.specs.runs.Image.{opening_memory};
ghost use Rattle.sample_runs.specs.Runs.{run_end};
ghost use Rattle.sample_tallies.specs.Counts.{entry_of};
ghost use Rattle.sample_texts.specs.SampleParts.{IsTold};
ghost use Rattle.serde_json.specs.View.{view as data_of};
ghost use Rattle.sample_tallies.specs.Claims.{claimed as tally_of};
ghost use Rattle.sample_slices.specs.Claimed.{does_decide, end_by, has_trapped, leaves_trap};
ghost use Rattle.sample_slices.specs.Claimed.{runs_in, same_end, seen_in, seen_of};
ghost use Rattle.sample_slices.specs.Members.{Steps};

use crate::fault::LineFault;
use crate::members::number_in;
use crate::numbers::Numbers;
use cheri_model::{Image, NoMemory, Status};
use explore_properties::Property;
use sample_checks::deciding_order;
use sample_draws::{Drawing, MAX_RUN};
use sample_runs::{RunEnd, Runner};
use sample_tallies::{Claims, Seen, Tally, TrapSeen};
use serde_json::Value;
use std::alloc::Global;
use std::marker::Model;

/// What first runs are drawn and run again by. Contracts see the image, how orders are drawn, and
/// the numbers of the runs.
#[derive(Drop)]
pub(crate) struct Again<'d> {
    alloc: Global,
    runner: Runner,
    drawing: &'d Drawing,
    numbers: &'d Numbers,
}

impl<'d> Model for Again<'d> {
    ghost use Rattle.sample_slices.specs.Claimed.{AgainParts};

    ghost Value = { AgainParts };

    ghost view = { λ a. record {
      image = a.runner.image;
      drawing = a.drawing.now;
      numbers = a.numbers.now.spans;
    } };
}

/// How many runs.
pub(crate) fn runs_in(value: &Value) -> Option<u64>
    ensures { result ≡ runs_in (data_of value.now) }
{
    number_in(value, "runs", MAX_RUN + 1)
}

/// Whether runs that end so end like others.
fn is_end(end: RunEnd, other: RunEnd) -> bool
    ensures { result ≡ same_end end other }
{
    match (end, other) {
        (RunEnd::Ended, RunEnd::Ended) => true,
        (RunEnd::Hung, RunEnd::Hung) => true,
        (RunEnd::Cut, RunEnd::Cut) => true,
        _ => false,
    }
}

/// Whether a hart has trapped for this cause.
fn has_trapped(status: Status, cause: u8) -> bool
    ensures { result ≡ has_trapped status cause }
{
    match status {
        Status::Running => false,
        Status::Halted => false,
        Status::Trapped(trap) => trap.cause == cause,
    }
}

impl<'d> Again<'d> {
    /// By an image, how orders are drawn, and the numbers of the runs. Fails only when out of
    /// memory, as all calls here that say nothing else.
    pub fn open(
        alloc: Global,
        image: &Image,
        drawing: &'d Drawing,
        numbers: &'d Numbers,
    ) -> Result<Again<'d>, NoMemory>
        ensures { IfOk result (λ again. again ≡ record {
          image = image.now;
          drawing = drawing.now;
          numbers = numbers.now.spans;
        }) }
    {
        let runner = Runner::open(alloc, image)?;
        Ok(Again {
            alloc,
            runner,
            drawing,
            numbers,
        })
    }

    /// The allocator.
    pub fn alloc(&self) -> Global {
        self.alloc
    }

    /// The numbers of the runs.
    pub fn numbers(&self) -> &Numbers
        ensures { result.now.spans ≡ self.now.numbers }
    {
        self.numbers
    }

    /// A tally of these claims, of no trap and no end.
    pub fn tally_of(&self, claims: Claims) -> Tally
        ensures sum { result.sum ≡ tally_of claims }
        ensures harts { result.harts ≡ length self.now.image.harts }
        ensures granules { result.granules
            ≡ length (opening_memory self.now.image.ram self.now.image.granules) }
    {
        // Its clause says that there are at most 8 harts.
        let image = self.runner.image();
        let _granules = image.granules();
        let harts = image.harts().len();
        let granules = self.runner.memory().opening().granule_count();
        Tally::of_claims(self.alloc, harts, granules, claims)
    }

    /// So many runs, and the first of them.
    pub fn seen_of(&self, runs: u64, value: &Value) -> Option<Seen>
        ensures seen { result ≡ seen_of self.now.numbers runs (data_of value.now) }
        ensures within { IfSome result (λ seen. seen.first ≤ MAX_RUN) }
    {
        let first = number_in(value, "first", MAX_RUN)?;
        if runs < 1 {
            return None;
        }
        if runs > self.numbers.count() {
            return None;
        }
        if !self.numbers.has(first) {
            return None;
        }
        Some(Seen { runs, first })
    }

    /// How many runs, and the first of them.
    pub fn seen_in(&self, value: &Value) -> Option<Seen>
        ensures seen { result ≡ seen_in self.now.numbers (data_of value.now) }
        ensures within { IfSome result (λ seen. seen.first ≤ MAX_RUN) }
    {
        let runs = runs_in(value)?;
        self.seen_of(runs, value)
    }

    /// Whether a run ends so.
    pub fn ends_so(&mut self, end: RunEnd, run: u64) -> Result<bool, NoMemory>
        requires { run ≤ MAX_RUN }
        ensures ends { IfOk result (λ ends.
            ends ≡ same_end (run_end self.old.image self.old.drawing run) end) }
        ensures same { self.new ≡ self.old }
    {
        let run = self.runner.run(self.alloc, self.drawing, run)?;
        Ok(is_end(run.end, end))
    }

    /// Whether the first run leaves a trap.
    pub fn leaves_trap(&mut self, trap: TrapSeen) -> Result<bool, NoMemory>
        requires { trap.seen.first ≤ MAX_RUN }
        ensures leaves { IfOk result (λ leaves. leaves ≡ leaves_trap self.old (entry_of trap)) }
        ensures same { self.new ≡ self.old }
    {
        self.runner.run(self.alloc, self.drawing, trap.seen.first)?;
        let harts = self.runner.harts();
        let number = trap.place.hart;
        if number < harts.len() {
            Ok(has_trapped(harts[number].status(), trap.place.cause))
        } else {
            Ok(false)
        }
    }

    /// Whether a run decides a property.
    pub fn decides(&mut self, property: &Property<'_>, seen: Seen) -> Result<bool, NoMemory>
        requires { seen.first ≤ MAX_RUN }
        ensures decides { IfOk result (λ decides.
            decides ≡ does_decide self.old property.now seen) }
        ensures same { self.new ≡ self.old }
    {
        let runner = &mut self.runner;
        let part = deciding_order(self.alloc, runner, self.drawing, property, seen.first)?;
        match part {
            Some(_) => Ok(true),
            None => Ok(false),
        }
    }

    /// Adds the end to which the first run comes, where it comes to one. Fails else only when out
    /// of memory or of numbers, or where a count reaches 2^64.
    pub fn add_end(&mut self, seen: Seen, tally: &mut Tally) -> Result<(), LineFault>
        requires drawn { seen.first ≤ MAX_RUN }
        requires told { IsTold self.old.image tally.old }
        ensures sum { Steps result tally.new.sum (end_by self.old seen tally.old.sum) }
        ensures told { OnOk result (IsTold self.old.image tally.new) }
        ensures same { self.new ≡ self.old }
    {
        let run = self.runner.run(self.alloc, self.drawing, seen.first)?;
        if !is_end(run.end, RunEnd::Ended) {
            return Err(LineFault::Form);
        }
        // Its clause says that memory has as many granules as at first.
        let _opening = self.runner.memory().opening();
        let harts = self.runner.harts();
        tally.claim_end(self.alloc, harts, self.runner.memory().ram(), seen)?;
        Ok(())
    }
}
