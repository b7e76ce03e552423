//! The core that is followed.

ghost use Rattle.std.specs.Prelude.{◌≡◌, ◌↔◌, ◌<◌, [], IfOk, IfErr, OnOk, OnErr, Err, None, false};
ghost use Rattle.std.specs.Prelude.{length, ◌++◌, ◌∷◌};
ghost use Rattle.cap_model.specs.values.Capability.{Capability};
ghost use Rattle.cap_model.specs.values.CapValue.{valid};
ghost use Rattle.cheri_model.specs.runs.Replay.{operations_of};
ghost use Rattle.cheri_model.specs.steps.HartStep.{hart_step};
ghost use Rattle.cheri_model.specs.runs.Machine.{hart_at};
ghost use Rattle.cores.specs.Cores.{IsCore, opening_core, is_limit, refused, applied, core_after};
ghost use Rattle.hart.specs.View.{state_of};
ghost use Rattle.origins.specs.OriginLaw.{HasOrigin};
ghost use Rattle.origins.specs.Places.{value_in};
ghost use Rattle.following.specs.Faults.{IsSweepFault};
ghost use Rattle.following.specs.Following.{
  IsFollowed,
  origins_now,
  next_facts,
  next_swept,
  answered_step,
  IsPlaceOf,
  TellsTrap,
  TellsLoss,
};
ghost use Rattle.cheri_model.specs.declared.operation.Event.TheVariants as event;
ghost use Rattle.facts.specs.TrapsLaw.{ReadsRegisters};
ghost use Rattle.facts.specs.SweepLaw.{HaveRegisters, AreTagsLost};

use crate::fault::SweepFault;
use cheri_model::{Image, Instr, NoMemory, Op, Outcome};
use cores::{BootFault, Core, StepFault};
use facts::{Moment, StepFacts, after_step, before_step, flows_of_step, swept_places};
use hart::{Hart, View, hart_in};
use origins::{OriginTable, Place};
use std::alloc::Global;
use std::marker::Model;
use tagged_mem::Ram;

/// A core that is followed: each operation answers its facts. It holds no more than one event's.
#[derive(Drop)]
pub struct Follower {
    core: Core,
    origins: OriginTable,
}

impl Model for Follower {
    ghost use Rattle.cores.specs.Cores.{CoreParts};

    ghost Value = { CoreParts };

    ghost use Rattle.following.specs.Faults.{IsSweepFault};
    ghost use Rattle.following.specs.Following.{IsFollowed};

    ghost view = { λ f. f.core };

    ghost invariant = { λ f. IsFollowed f.core f.origins };
}

/// A table for a core before its first operation, in which each place is its own origin.
fn opening_table(alloc: Global, core: &Core) -> Result<OriginTable, NoMemory>
    requires core { IsCore core.now }
    requires fresh { core.now.trace ≡ [] }
    ensures { IfOk result (λ table. IsFollowed core.now table) }
{
    let view = core.view();
    // The granules' clause says that an image has few harts, and the count's that memory has few
    // granules.
    let _granules = view.image.granules();
    let harts = view.harts.len() as u8;
    OriginTable::open(alloc, harts, view.ram.granule_count() as u32)
}

/// A hart of a core.
fn hart_of(core: &Core, number: u8) -> &Hart
    requires { number < length core.now.state.harts }
    ensures { result.now ≡ hart_at core.now.state number }
{
    let view = core.view();
    hart_in(view.harts, usize::from(number))
}

/// Its program.
fn program_of(core: &Core) -> &[Instr]
    ensures { result.now ≡ core.now.image.program }
{
    core.view().image.program()
}

/// Its memory.
fn ram_of(core: &Core) -> &Ram
    ensures { result.now ≡ core.now.state.memory }
{
    core.view().ram
}

/// A step that is not refused; fills in its facts.
fn follow_step(core: &mut Core, origins: &mut OriginTable, number: u8, facts: &mut StepFacts)
    requires accepted { refused core.old (Op.Step number) ≡ None }
    requires followed { IsFollowed core.old origins.old }
    ensures facts { facts.new ≡ next_facts core.old number }
    ensures registers { ReadsRegisters core.old.image.program (hart_at core.old.state number) }
    ensures after { core.new ≡ core_after core.old (Op.Step number) }
    ensures followed_on { IsFollowed core.new origins.new }
{
    let hart = hart_of(core, number);
    let memory = ram_of(core);
    let before = Moment {
        number,
        hart,
        ram: memory,
        origins,
    };
    let seen = before_step(program_of(core), before, facts);
    let outcome = stepped(core, number);
    let after = hart_of(core, number);
    let now = ram_of(core);
    origins.follow(number, flows_of_step(&seen, outcome, now));
    let later = Moment {
        number,
        hart: after,
        ram: now,
        origins,
    };
    after_step(&seen, outcome, later, facts);
}

/// The places whose tag a sweep clears.
fn swept_of(alloc: Global, core: &Core, lo: u64, hi: u128) -> Result<Vec<Place>, NoMemory>
    requires { IsCore core.now }
    ensures places { IfOk result (λ places. places.items ≡ next_swept core.now lo hi) }
    ensures registers { OnOk result (HaveRegisters core.now.state.harts) }
{
    let view = core.view();
    // The granules' clause says that the image has few harts.
    let _granules = view.image.granules();
    swept_places(alloc, view.harts, view.ram, lo, hi)
}

/// A sweep that is not refused; it moves no value.
fn follow_sweep(core: &mut Core, origins: &OriginTable, lo: u64, hi: u128)
    requires accepted { refused core.old (Op.Sweep lo hi) ≡ None }
    requires followed { IsFollowed core.old origins.now }
    ensures after { core.new ≡ core_after core.old (Op.Sweep lo hi) }
    ensures followed_on { IsFollowed core.new origins.now }
{
    match core.sweep(lo, hi) {
        Ok(_) => {}
        Err(_) => unreachable!("the sweep is not refused"),
    }
}

/// A step that is not refused, and how it ended.
fn stepped(core: &mut Core, number: u8) -> Outcome
    requires { refused core.old (Op.Step number) ≡ None }
    ensures outcome { result ≡ (hart_step core.old.image.program (hart_at core.old.state number)
        core.old.state.memory).outcome }
    ensures after { core.new ≡ core_after core.old (Op.Step number) }
    ensures core { IsCore core.new }
{
    match core.step(number) {
        Ok(entry) => entry.outcome,
        Err(_) => unreachable!("the step is not refused"),
    }
}

impl Follower {
    /// The machine of an image before its first step, with room for a trace of `limit` events; each
    /// value is its own origin. Fails with `Limit` exactly where the limit is not from 1 to
    /// 100,000, and otherwise only when out of memory.
    pub fn boot(alloc: Global, image: Image, limit: u32) -> Result<Follower, BootFault>
        ensures opened { IfOk result (λ follower. follower ≡ opening_core image limit) }
        ensures limit { (result ≡ Err BootFault.Limit) ↔ (is_limit limit ≡ false) }
    {
        let core = Core::boot(alloc, image, limit)?;
        match opening_table(alloc, &core) {
            Ok(origins) => Ok(Follower { core, origins }),
            Err(_) => Err(BootFault::NoMemory),
        }
    }

    /// Why this operation would be refused, if it would be.
    pub fn refusal(&self, op: Op) -> Option<StepFault>
        ensures { result ≡ refused self.now op }
    {
        self.core.refusal(op)
    }

    /// One step of this hart, whose facts are put in the place of others: they tell a trap and a
    /// lost tag exactly where there was one, and each for a reason that holds before the step. It
    /// is refused exactly where `refusal` says so, and then nothing changes. Takes no memory.
    pub fn step(&mut self, hart: u8, facts: &mut StepFacts) -> Result<(), StepFault>
        ensures answered { result ≡ answered_step self.old hart }
        ensures facts { OnOk result (facts.new ≡ next_facts self.old hart) }
        ensures traps { OnOk result (TellsTrap self.old hart facts.new) }
        ensures losses { OnOk result (TellsLoss self.old hart facts.new) }
        ensures kept { OnErr result (facts.new ≡ facts.old) }
        ensures applied { self.new ≡ applied self.old (Op.Step hart) }
    {
        match self.core.refusal(Op::Step(hart)) {
            Some(fault) => Err(fault),
            None => {
                follow_step(&mut self.core, &mut self.origins, hart, facts);
                Ok(())
            }
        }
    }

    /// Clears the tag of every capability whose base lies from `lo` up to, not including, `hi`, and
    /// gives the places that had one, in the order of the harts, PCC first, and then the granules:
    /// those that lose their tag, as many as the event counts. It is refused exactly where
    /// `refusal` says so, and otherwise fails only when out of memory; then nothing changes.
    pub fn sweep(&mut self, alloc: Global, lo: u64, hi: u128) -> Result<Vec<Place>, SweepFault>
        ensures places { IfOk result (λ places. places.items ≡ next_swept self.old lo hi) }
        ensures lost { IfOk result (λ places.
            AreTagsLost self.old.state self.new.state places.items) }
        ensures counted { IfOk result (λ places. self.new.trace
            ≡ self.old.trace ++ event.Sweep (length places.items) lo hi ∷ []) }
        ensures after { OnOk result (self.new ≡ core_after self.old (Op.Sweep lo hi)) }
        ensures err { IfErr result (λ fault. IsSweepFault self.old lo hi fault) }
        ensures kept { OnErr result (self.new ≡ self.old) }
    {
        if let Some(fault) = self.core.refusal(Op::Sweep { lo, hi }) {
            return Err(SweepFault::Refused(fault));
        }
        match swept_of(alloc, &self.core, lo, hi) {
            Ok(places) => {
                follow_sweep(&mut self.core, &self.origins, lo, hi);
                Ok(places)
            }
            Err(_) => Err(SweepFault::NoMemory),
        }
    }

    /// What is shown of the machine now.
    pub fn view(&self) -> View<'_>
        ensures image { result.image.now ≡ self.now.image }
        ensures entries { result.entries.now ≡ self.now.trace }
        ensures state { state_of result ≡ self.now.state }
    {
        self.core.view()
    }

    /// The place of the opening state that what is in a place came from.
    pub fn origin(&self, place: Place) -> Place
        requires { IsPlaceOf self.now place }
        ensures { result ≡ origins_now self.now place }
    {
        self.origins.origin(place)
    }

    /// The law of origins at this moment: each tagged value lies within the initial capability that
    /// its origin names.
    pub fn origins_hold(&self)
        ensures { (place : Place) (c : Capability) → value_in self.now.state place ≡ valid c →
            HasOrigin self.now.image (operations_of self.now.trace) place c }
    {
        let _replay = self.core.view();
    }
}
