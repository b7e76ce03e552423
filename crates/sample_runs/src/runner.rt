//! A machine that runs in orders drawn by chance, one run after another.
#![tactic(auto, unfolding(crate::proofs::Unfold::runner))]

ghost use Rattle.std.specs.Prelude.{◌≡◌, ◌<◌, ◌≤◌, length, map, false, true, None, IfSome, IfOk};
ghost use Rattle.std.specs.Prelude.{OnOk};
ghost use Rattle.cheri_model.specs.runs.Image.{opening_memory};
ghost use Rattle.cheri_model.specs.runs.Machine.{opening_state, state_after_one, may_take};
ghost use Rattle.cheri_model.specs.runs.Machine.{state_after_step, swept_state};
ghost use Rattle.cheri_model.specs.runs.Sweeps.{swept_hart};
ghost use Rattle.cheri_model.specs.runs.Authority.{IsLawfulState};
ghost use Rattle.sample_draws.specs.Draws.{chosen};
ghost use Rattle.sample_draws.specs.Orders.{running_harts, is_over, first_moment, next_moment};
ghost use Rattle.sample_draws.specs.Orders.{told};
ghost use Rattle.sample_draws.specs.Orders.{run_from, drawn_run, drawn_order, last_state};
ghost use Rattle.sample_runs.specs.Runners.{state_of, moment_of, steps_of};
ghost use Rattle.sample_runs.specs.Runs.{end_in, run_end, run_length, StaysHung};

use crate::memory::RunMemory;
use cheri_model::{Image, Op};
use cores::{BootFault, Core};
use hart::Hart;
use sample_draws::{Drawing, Draws, MAX_LENGTH, MAX_RUN};
use sample_steps::list_running;
use std::alloc::{AllocError, Global};
use std::marker::Model;

/// How a run ended.
#[derive(Clone, Copy, Debug, PartialEq, Eq)]
pub enum RunEnd {
    /// No hart runs.
    Ended,
    /// It has as many operations as it may have, and those harts that run go round for ever.
    Hung,
    /// It has as many operations as it may have.
    Cut,
}

/// How a run ended, and how many operations it took.
#[derive(Clone, Copy, Debug, PartialEq, Eq)]
pub struct Run {
    pub end: RunEnd,
    pub length: u32,
}

/// The machine of an image, which runs again and again from its opening state.
#[derive(Drop)]
pub struct Runner {
    image: Image,
    /// The harts before the first step.
    opened: Vec<Hart>,
    harts: Vec<Hart>,
    memory: RunMemory,
}

impl Model for Runner {
    ghost use Rattle.sample_runs.specs.Runners.{RunnerParts, IsRunner};

    ghost Value = { RunnerParts };

    ghost view = { λ r. record {
      image = r.image;
      harts = r.harts.items;
      memory = r.memory;
    } };

    ghost invariant = { λ r. IsRunner r.image r.opened.items r.harts.items r.memory };
}

/// A core of an image before its first operation.
fn opened(alloc: Global, image: &Image) -> Result<Core, AllocError>
    ensures opening { IfOk result (λ core. core.state ≡ opening_state image.now) }
    ensures lawful { IfOk result (λ core. IsLawfulState (opening_state image.now)) }
{
    match Core::boot(alloc, image.copy(alloc)?, 1) {
        Ok(core) => Ok(core),
        Err(BootFault::NoMemory) => Err(AllocError),
        Err(BootFault::Limit) => unreachable!("1 is a lawful limit"),
    }
}

/// Sweeps these harts.
fn sweep_harts(harts: &mut [Hart], lo: u64, hi: u128)
    ensures { harts.new ≡ map (swept_hart lo hi) harts.old }
{
    for hart in harts.iter_mut() {
        hart.sweep(lo, hi);
    }
}

impl Runner {
    /// The machine of an image. Fails only when out of memory.
    pub fn open(alloc: Global, image: &Image) -> Result<Runner, AllocError>
        ensures { IfOk result (λ runner. runner.image ≡ image.now) }
    {
        let core = opened(alloc, image)?;
        let view = core.view();
        let harts = Vec::from_slice(alloc, view.harts)?;
        let memory = RunMemory::new(alloc, view.ram)?;
        Ok(Runner {
            image: image.copy(alloc)?,
            opened: Vec::from_slice(alloc, view.harts)?,
            harts,
            memory,
        })
    }

    /// The image.
    pub fn image(&self) -> &Image
        ensures { result.now ≡ self.now.image }
    {
        &self.image
    }

    /// The harts now.
    pub fn harts(&self) -> &[Hart]
        ensures harts { result.now ≡ self.now.harts }
        ensures count { length self.now.harts ≡ length self.now.image.harts }
    {
        self.harts.as_slice()
    }

    /// The memory now.
    pub fn memory(&self) -> &RunMemory
        ensures memory { result.now ≡ self.now.memory }
        ensures opening { self.now.memory.opening
            ≡ opening_memory self.now.image.ram self.now.image.granules }
    {
        &self.memory
    }

    /// Brings the machine back to its opening state, and gives what draws the order of the run with
    /// this number. Fails only when out of memory, as all calls here.
    fn begin(&mut self, alloc: Global, drawing: &Drawing, run: u64) -> Result<Draws, AllocError>
        requires { run ≤ MAX_RUN }
        ensures image { self.new.image ≡ self.old.image }
        ensures moment { IfOk result (λ draws.
            moment_of self.new draws ≡ first_moment self.old.image drawing.now run) }
        ensures lawful { IfOk result (λ draws. IsLawfulState (opening_state self.old.image)) }
    {
        // Its clause says that there are from 1 to 8 harts.
        let _granules = self.image.granules();
        self.memory.bring_back(alloc)?;
        self.harts.copy_from_slice(self.opened.as_slice());
        Draws::of_run(alloc, drawing, self.image.harts().len(), run)
    }

    /// Steps a hart, and tells it to what draws the operations after it.
    #[inline(always)]
    fn step(&mut self, number: u8, draws: &mut Draws)
        requires hart { number < length self.old.harts }
        requires steps { steps_of draws.old.priorities < MAX_LENGTH }
        ensures image { self.new.image ≡ self.old.image }
        ensures state { state_of self.new
            ≡ state_after_step self.old.image (state_of self.old) number }
        ensures draws { draws.new
            ≡ told (Op.Step number) (state_of self.old) (state_of self.new) draws.old }
    {
        // Its clause says that there are at most 8 harts.
        let _granules = self.image.granules();
        let hart = &mut self.harts[usize::from(number)];
        draws.begin_step(number, hart);
        let changed = self.memory.step(self.image.program(), hart);
        draws.end_step(hart, changed);
    }

    /// Sweeps all harts, and memory.
    fn sweep(&mut self, lo: u64, hi: u128)
        ensures image { self.new.image ≡ self.old.image }
        ensures state { state_of self.new ≡ swept_state lo hi (state_of self.old) }
    {
        sweep_harts(&mut self.harts, lo, hi);
        self.memory.sweep(lo, hi);
    }

    /// Takes an operation, and tells it to what draws those after it.
    #[inline(always)]
    fn take(&mut self, op: Op, draws: &mut Draws)
        requires may { may_take (state_of self.old) op ≡ true }
        requires steps { steps_of draws.old.priorities < MAX_LENGTH }
        ensures image { self.new.image ≡ self.old.image }
        ensures state { state_of self.new
            ≡ state_after_one self.old.image (state_of self.old) op }
        ensures draws { draws.new ≡ told op (state_of self.old) (state_of self.new) draws.old }
    {
        match op {
            Op::Step(number) => self.step(number, draws),
            Op::Sweep { lo, hi } => self.sweep(lo, hi),
        }
    }

    /// Takes the operation that is chosen next, unless no hart runs. Inlined into the loops of
    /// runs.
    #[inline(always)]
    fn advance(&mut self, drawing: &Drawing, draws: &mut Draws) -> Option<Op>
        requires { steps_of draws.old.priorities < MAX_LENGTH }
        ensures image { self.new.image ≡ self.old.image }
        ensures over { result ≡ None → is_over (state_of self.old) ≡ true }
        ensures same { result ≡ None → moment_of self.new draws.new ≡ moment_of self.old draws.old }
        ensures on { IfSome result (λ op. is_over (state_of self.old) ≡ false) }
        ensures chosen { IfSome result (λ op. op ≡ (chosen drawing.now.sweeps
            (running_harts (state_of self.old)) draws.old).0) }
        ensures next { IfSome result (λ op. moment_of self.new draws.new
            ≡ next_moment self.old.image (state_of self.old) (chosen drawing.now.sweeps
            (running_harts (state_of self.old)) draws.old)) }
    {
        // Its clause says what the parts of a drawing are, and the next one how many harts there
        // are.
        let _seed = drawing.seed();
        let _granules = self.image.granules();
        let running = list_running(self.harts.as_slice());
        if running.as_slice().is_empty() {
            return None;
        }
        let op = draws.choose(drawing.sweeps(), running.as_slice());
        self.take(op, draws);
        Some(op)
    }

    /// Runs on until no hart runs or the run has as many operations as it may have, and says how
    /// many it took.
    fn run_on(&mut self, drawing: &Drawing, draws: &mut Draws) -> u32
        requires { steps_of draws.old.priorities ≡ 0 }
        ensures image { self.new.image ≡ self.old.image }
        ensures state { state_of self.new ≡ (run_from self.old.image drawing.now drawing.now.length
            (moment_of self.old draws.old)).1.state }
        ensures count { result ≡ length (run_from self.old.image drawing.now drawing.now.length
            (moment_of self.old draws.old)).0 }
    {
        // Its clause says how large the parts of a drawing are.
        let _seed = drawing.seed();
        let mut left = drawing.length();
        while left > 0 {
            match self.advance(drawing, draws) {
                None => return drawing.length() - left,
                Some(_) => {}
            }
            left -= 1;
        }
        drawing.length()
    }

    /// How the run ended that has come to this state.
    fn end(&mut self) -> RunEnd
        ensures value { result ≡ end_in self.old.image (state_of self.old) }
        ensures same { self.new ≡ self.old }
    {
        // Its clause says that there are at most 8 harts.
        let _granules = self.image.granules();
        if list_running(self.harts.as_slice()).as_slice().is_empty() {
            return RunEnd::Ended;
        }
        if self
            .memory
            .all_stay(self.image.program(), self.harts.as_slice())
        {
            RunEnd::Hung
        } else {
            RunEnd::Cut
        }
    }

    /// Makes the run with this number, from the opening state on, and says how it ended.
    pub fn run(&mut self, alloc: Global, drawing: &Drawing, run: u64) -> Result<Run, AllocError>
        requires { run ≤ MAX_RUN }
        ensures image { self.new.image ≡ self.old.image }
        ensures state { OnOk result (state_of self.new
            ≡ last_state self.old.image drawing.now run) }
        ensures end { IfOk result (λ r. r.end ≡ run_end self.old.image drawing.now run) }
        ensures length { IfOk result (λ r.
            r.length ≡ run_length self.old.image drawing.now run) }
        ensures hung { IfOk result (λ r. r.end ≡ RunEnd.Hung →
            StaysHung self.old.image (last_state self.old.image drawing.now run)) }
    {
        let mut draws = self.begin(alloc, drawing, run)?;
        let length = self.run_on(drawing, &mut draws);
        let end = self.end();
        Ok(Run { end, length })
    }

    /// Makes the run with this number again, and gives its order.
    pub fn order(
        &mut self,
        alloc: Global,
        drawing: &Drawing,
        run: u64,
    ) -> Result<Vec<Op>, AllocError>
        requires { run ≤ MAX_RUN }
        ensures image { self.new.image ≡ self.old.image }
        ensures state { OnOk result (state_of self.new
            ≡ last_state self.old.image drawing.now run) }
        ensures order { IfOk result (λ order.
            order.items ≡ drawn_order self.old.image drawing.now run) }
    {
        // Its clause says how large the parts of a drawing are.
        let _seed = drawing.seed();
        let mut draws = self.begin(alloc, drawing, run)?;
        let mut order = Vec::new(alloc);
        let mut left = drawing.length();
        while left > 0 {
            match self.advance(drawing, &mut draws) {
                None => return Ok(order),
                Some(op) => order.push(op)?,
            }
            left -= 1;
        }
        Ok(order)
    }
}
