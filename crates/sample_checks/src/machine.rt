//! A machine that replays orders, each from its opening state.
#![tactic(auto, unfolding(crate::proofs::Unfold::operation))]

ghost use Rattle.std.specs.Prelude.{◌≡◌, ◌<◌, true, length, map, IfOk, OnOk};
ghost use Rattle.cheri_model.specs.runs.Machine.{opening_state, state_after_one, may_take};
ghost use Rattle.cheri_model.specs.runs.Machine.{state_after_step, swept_state};
ghost use Rattle.cheri_model.specs.runs.Replay.{is_legal};
ghost use Rattle.cheri_model.specs.runs.Sweeps.{swept_hart};
ghost use Rattle.cheri_model.specs.runs.Authority.{IsLawfulState};
ghost use Rattle.sample_runs.specs.Runners.{state_of};
ghost use Rattle.sample_checks.specs.Deciding.{decides, decided_after};

use crate::shown::{Shown, decides_when};
use cheri_model::{Image, Op};
use cores::{BootFault, Core};
use explore_properties::Claim;
use hart::Hart;
use sample_runs::RunMemory;
use std::alloc::{AllocError, Global};
use std::marker::Model;

/// The machine of an image, which takes one order after another from its opening state.
#[derive(Drop)]
pub(crate) struct Machine {
    image: Image,
    /// The harts before the first operation.
    opened: Vec<Hart>,
    harts: Vec<Hart>,
    memory: RunMemory,
}

impl Model for Machine {
    ghost use Rattle.sample_runs.specs.Runners.{RunnerParts, IsRunner};

    ghost Value = { RunnerParts };

    ghost view = { λ m. record {
      image = m.image;
      harts = m.harts.items;
      memory = m.memory;
    } };

    ghost invariant = { λ m. IsRunner m.image m.opened.items m.harts.items m.memory };
}

/// A core of an image before its first operation.
fn opened(alloc: Global, image: &Image) -> Result<Core, AllocError>
    ensures opening { IfOk result (λ core. core.state ≡ opening_state image.now) }
    ensures lawful { IfOk result (λ core. IsLawfulState (opening_state image.now)) }
{
    match Core::boot(alloc, image.copy(alloc)?, 1) {
        Ok(core) => Ok(core),
        Err(BootFault::NoMemory) => Err(AllocError),
        Err(BootFault::Limit) => unreachable!("1 is a lawful limit"),
    }
}

/// Sweeps these harts.
fn sweep_harts(harts: &mut [Hart], lo: u64, hi: u128)
    ensures { harts.new ≡ map (swept_hart lo hi) harts.old }
{
    for hart in harts.iter_mut() {
        hart.sweep(lo, hi);
    }
}

impl Machine {
    /// The machine of an image. Fails only when out of memory.
    pub(crate) fn open(alloc: Global, image: &Image) -> Result<Machine, AllocError>
        ensures { IfOk result (λ machine. machine.image ≡ image.now) }
    {
        let core = opened(alloc, image)?;
        let view = core.view();
        let harts = Vec::from_slice(alloc, view.harts)?;
        let memory = RunMemory::new(alloc, view.ram)?;
        Ok(Machine {
            image: image.copy(alloc)?,
            opened: Vec::from_slice(alloc, view.harts)?,
            harts,
            memory,
        })
    }

    /// Brings the machine back to its opening state. Fails only when out of memory.
    fn begin(&mut self, alloc: Global) -> Result<(), AllocError>
        ensures image { self.new.image ≡ self.old.image }
        ensures state { OnOk result (state_of self.new ≡ opening_state self.old.image) }
    {
        self.memory.bring_back(alloc)?;
        self.harts.copy_from_slice(self.opened.as_slice());
        Ok(())
    }

    /// Steps a hart.
    fn step(&mut self, number: u8)
        requires { number < length self.old.harts }
        ensures image { self.new.image ≡ self.old.image }
        ensures state { state_of self.new
            ≡ state_after_step self.old.image (state_of self.old) number }
    {
        let hart = &mut self.harts[usize::from(number)];
        self.memory.step(self.image.program(), hart);
    }

    /// Sweeps all harts, and memory.
    fn sweep(&mut self, lo: u64, hi: u128)
        ensures image { self.new.image ≡ self.old.image }
        ensures state { state_of self.new ≡ swept_state lo hi (state_of self.old) }
    {
        sweep_harts(&mut self.harts, lo, hi);
        self.memory.sweep(lo, hi);
    }

    /// Takes an operation.
    fn take(&mut self, op: Op)
        requires { may_take (state_of self.old) op ≡ true }
        ensures image { self.new.image ≡ self.old.image }
        ensures state { state_of self.new
            ≡ state_after_one self.old.image (state_of self.old) op }
    {
        match op {
            Op::Step(number) => self.step(number),
            Op::Sweep { lo, hi } => self.sweep(lo, hi),
        }
    }

    /// Whether its state decides a claim.
    fn decides(&self, claim: &Claim) -> bool
        ensures { result ≡ decides claim.now (state_of self.now) }
    {
        // Its clause says that there are at most 8 harts.
        let _granules = self.image.granules();
        let shown = Shown {
            harts: self.harts.as_slice(),
            ram: self.memory.ram(),
        };
        match claim {
            Claim::Holds(when, condition) => decides_when(shown, *when, condition),
            Claim::Ends => false,
            Claim::EndsFairly => false,
        }
    }

    /// After how many of its operations an order first leads to a state that decides a claim. Fails
    /// only when out of memory.
    pub(crate) fn decided_after(
        &mut self,
        alloc: Global,
        claim: &Claim,
        order: &[Op],
    ) -> Result<Option<usize>, AllocError>
        requires { is_legal self.old.image (opening_state self.old.image) order.now ≡ true }
        ensures image { self.new.image ≡ self.old.image }
        ensures value { IfOk result (λ after.
            after ≡ decided_after self.old.image claim.now order.now) }
    {
        self.begin(alloc)?;
        for done in 0..order.len() {
            if self.decides(claim) {
                return Ok(Some(done));
            }
            self.take(order[done]);
        }
        let last = self.decides(claim);
        Ok(last.then_some(order.len()))
    }
}
