//! The core of the machine: an image, the trace of what ran, and the state, which is always the
//! replay of that trace.
#![tactic(auto, unfolding(crate::proofs::Unfold::cores))]

ghost use Rattle.std.specs.Prelude.{◌≡◌, ◌↔◌, ◌<◌, ◌≤◌, [], ◌∷◌, ◌++◌};
ghost use Rattle.std.specs.Prelude.{length, vec_len, vec_capacity, false};
ghost use Rattle.std.specs.Prelude.{IfOk, OnOk, OnErr, Err, None};
ghost use Rattle.cheri_model.specs.runs.Authority.{EachOfState, IsConfined, IsMonotone};
ghost use Rattle.cheri_model.specs.runs.Machine.{entry_of, event_of};
ghost use Rattle.cheri_model.specs.runs.Machine.{swept_state, cleared};
ghost use Rattle.cheri_model.specs.runs.Replay.{IsReplay};
ghost use Rattle.cheri_model.specs.steps.HartStep.{hart_step};
ghost use Rattle.cap_model.specs.results.Addresses.{address_of};
ghost use Rattle.cap_model.specs.results.Swept.{is_in_sweep};
ghost use Rattle.hart.specs.View.{state_of};
ghost use Rattle.cores.specs.Cores.{CoreParts, IsCore, opening_core, is_limit, refused};
ghost use Rattle.cores.specs.Cores.{answered, answered_step, core_after, applied};

use crate::faults::{BootFault, StepFault};
use crate::opening::{copied_ram, opening_harts, opening_ram};
use crate::sweeps::{refusal_of_sweep, sweep_harts};
use cheri_model::{Entry, Event, Image, Instr, NoMemory, Op, Status};
use hart_step::{Hart, View, step};
use std::alloc::Global;
use std::marker::Model;
use tagged_mem::Ram;

/// The greatest limit that a trace may have, in events.
pub const GREATEST_TRACE_LIMIT: u32 = 100_000;

/// A machine of one thread. Its state is the replay of its trace from its image, at every moment,
/// and every tagged capability in it lies within one that the image gave.
#[derive(Debug, Drop)]
pub struct Core {
    image: Image,
    limit: u32,
    trace: Vec<Event>,
    harts: Vec<Hart>,
    ram: Ram,
}

impl Model for Core {
    ghost use Rattle.hart.specs.View.{state_of};
    ghost use Rattle.cores.specs.Cores.{CoreParts};

    ghost Value = { CoreParts };

    ghost use Rattle.std.specs.Prelude.{◌≤◌, vec_capacity};
    ghost use Rattle.hart.specs.View.{state_of};
    ghost use Rattle.cores.specs.Cores.{IsCore, parts_of_core};

    ghost view = { λ c. parts_of_core c.image c.limit c.trace.items c.harts.items c.ram };

    ghost invariant = { λ c.
        IsCore (parts_of_core c.image c.limit c.trace.items c.harts.items c.ram)
        × (c.limit ≤ vec_capacity c.trace) };
}

impl Core {
    /// The machine of an image before its first step, with room for a trace of `limit` events.
    /// Fails with `Limit` exactly where the limit is not from 1 to 100,000, and otherwise only when
    /// out of memory.
    pub fn boot(alloc: Global, image: Image, limit: u32) -> Result<Core, BootFault>
        ensures opened { IfOk result (λ core. core ≡ opening_core image limit) }
        ensures limit { (result ≡ Err BootFault.Limit) ↔ (is_limit limit ≡ false) }
        ensures core { IfOk result (λ core. IsCore core) }
    {
        if !(1..=GREATEST_TRACE_LIMIT).contains(&limit) {
            return Err(BootFault::Limit);
        }
        let trace = Vec::with_capacity(alloc, limit as usize)?;
        let harts = opening_harts(alloc, image.harts())?;
        let ram = opening_ram(alloc, &image)?;
        Ok(Core {
            image,
            limit,
            trace,
            harts,
            ram,
        })
    }

    /// A core of the same image, limit, trace and state, with room for the rest of its trace. Fails
    /// only when out of memory.
    pub fn copy(&self, alloc: Global) -> Result<Core, NoMemory>
        ensures same { IfOk result (λ copy. copy ≡ self.now) }
        ensures core { IfOk result (λ copy. IsCore copy) }
    {
        let mut trace = Vec::with_capacity(alloc, self.limit as usize)?;
        trace.extend_from_slice(self.trace.as_slice())?;
        Ok(Core {
            image: self.image.copy(alloc)?,
            limit: self.limit,
            trace,
            harts: Vec::from_slice(alloc, self.harts.as_slice())?,
            ram: copied_ram(alloc, &self.ram)?,
        })
    }

    /// The most events that its trace may have.
    pub fn limit(&self) -> u32
        ensures { result ≡ self.now.limit }
    {
        self.limit
    }

    /// Why this operation would be refused, if it would be: the first fault that applies.
    pub fn refusal(&self, op: Op) -> Option<StepFault>
        ensures value { result ≡ refused self.now op }
        ensures core { IsCore self.now }
    {
        let events = self.trace.len();
        match op {
            Op::Step(hart) => refusal_of_step(self.harts.as_slice(), events, self.limit, hart),
            Op::Sweep { lo, hi } => refusal_of_sweep(events, self.limit, lo, hi),
        }
    }

    /// One step of this hart. It is refused exactly where `refusal` says so, and then nothing
    /// changes; otherwise the trace grows by the entry that is answered. Takes no memory.
    pub fn step(&mut self, hart: u8) -> Result<Entry, StepFault>
        ensures answered { result ≡ answered_step self.old hart }
        ensures ok { OnOk result (self.new ≡ core_after self.old (Op.Step hart)) }
        ensures err { OnErr result (self.new ≡ self.old) }
        ensures applied { self.new ≡ applied self.old (Op.Step hart) }
        ensures core { IsCore self.new }
        ensures confined { IsConfined self.new.image self.new.state }
        ensures monotone { IsMonotone self.new.image self.new.trace self.new.state }
    {
        match self.refusal(Op::Step(hart)) {
            Some(fault) => Err(fault),
            None => Ok(self.take(hart)),
        }
    }

    /// Clears the tag of every capability whose base lies from `lo` up to, not including, `hi`: in
    /// the registers and PCCs of all harts, stopped ones too, and in memory. It is refused exactly
    /// where `refusal` says so, and then nothing changes; otherwise the trace grows by the event
    /// that is answered, which counts the tags cleared. Takes no memory.
    pub fn sweep(&mut self, lo: u64, hi: u128) -> Result<Event, StepFault>
        ensures answered { result ≡ answered self.old (Op.Sweep lo hi) }
        ensures event { IfOk result (λ event.
            event ≡ Event.Sweep (cleared lo hi self.old.state) lo hi) }
        ensures swept { OnOk result (self.new.state ≡ swept_state lo hi self.old.state) }
        ensures none_left { OnOk result
            (EachOfState (λ v. is_in_sweep lo hi v ≡ false) self.new.state) }
        ensures ok { OnOk result (self.new ≡ core_after self.old (Op.Sweep lo hi)) }
        ensures err { OnErr result (self.new ≡ self.old) }
        ensures applied { self.new ≡ applied self.old (Op.Sweep lo hi) }
        ensures core { IsCore self.new }
        ensures confined { IsConfined self.new.image self.new.state }
        ensures monotone { IsMonotone self.new.image self.new.trace self.new.state }
    {
        match self.refusal(Op::Sweep { lo, hi }) {
            Some(fault) => Err(fault),
            None => Ok(self.clear(lo, hi)),
        }
    }

    /// One operation: a step or a sweep, with the event that it adds to the trace. Takes no memory.
    /// Inlined, so that an operation and an event, which are wider than a step's number and entry,
    /// are not passed through memory for each step.
    #[inline(always)]
    pub fn apply(&mut self, op: Op) -> Result<Event, StepFault>
        ensures answered { result ≡ answered self.old op }
        ensures ok { OnOk result (self.new ≡ core_after self.old op) }
        ensures err { OnErr result (self.new ≡ self.old) }
        ensures applied { self.new ≡ applied self.old op }
        ensures core { IsCore self.new }
        ensures confined { IsConfined self.new.image self.new.state }
        ensures monotone { IsMonotone self.new.image self.new.trace self.new.state }
    {
        match op {
            Op::Step(hart) => Ok(Event::Step(self.step(hart)?)),
            Op::Sweep { lo, hi } => self.sweep(lo, hi),
        }
    }

    /// What is shown of the machine now. This is the headline, for whoever looks: the registers,
    /// memory and tags shown are those of the replay of the shown trace from the stored image, the
    /// trace is the replay's events, and every tagged capability is granted by the initial ones,
    /// and by those that any prefix of the trace left. Takes no memory.
    pub fn view(&self) -> View<'_>
        ensures image { result.image.now ≡ self.now.image }
        ensures entries { result.entries.now ≡ self.now.trace }
        ensures state { state_of result ≡ self.now.state }
        ensures replay { IsReplay self.now.image self.now.trace self.now.state }
        ensures confined { IsConfined self.now.image self.now.state }
        ensures monotone { IsMonotone self.now.image self.now.trace self.now.state }
    {
        View {
            image: &self.image,
            entries: self.trace.as_slice(),
            harts: self.harts.as_slice(),
            ram: &self.ram,
        }
    }

    /// A step of a hart that is not refused.
    fn take(&mut self, hart: u8) -> Entry
        requires { refused self.old (Op.Step hart) ≡ None }
        ensures entry { result ≡ entry_of self.old.image self.old.state hart }
        ensures after { self.new ≡ core_after self.old (Op.Step hart) }
        ensures core { IsCore self.new }
    {
        let program = self.image.program();
        let place = &mut self.harts[usize::from(hart)];
        let entry = step_hart(program, place, &mut self.ram, hart);
        append(&mut self.trace, Event::Step(entry));
        entry
    }

    /// A sweep that is not refused.
    fn clear(&mut self, lo: u64, hi: u128) -> Event
        requires { refused self.old (Op.Sweep lo hi) ≡ None }
        ensures event { result ≡ event_of self.old.image self.old.state (Op.Sweep lo hi) }
        ensures after { self.new ≡ core_after self.old (Op.Sweep lo hi) }
        ensures core { IsCore self.new }
    {
        // the granules' contract says that the image has at most eight harts, and the size's that
        // memory has few tags, so that the count fits
        let _granules = self.image.granules();
        let _size = self.ram.size();
        let in_harts = sweep_harts(&mut self.harts, lo, hi);
        let in_memory = self.ram.sweep(lo, hi);
        let event = Event::Sweep {
            lo,
            hi,
            cleared: in_harts + in_memory,
        };
        append(&mut self.trace, event);
        event
    }
}

/// Why a step of a hart would be refused, where the trace has this many events.
fn refusal_of_step(harts: &[Hart], events: usize, limit: u32, hart: u8) -> Option<StepFault>
    ensures { (core : CoreParts) → core.state.harts ≡ harts.now → length core.trace ≡ events
        → core.limit ≡ limit → result ≡ refused core (Op.Step hart) }
{
    let number = usize::from(hart);
    if number >= harts.len() {
        return Some(StepFault::NoSuchHart);
    }
    if events >= limit as usize {
        return Some(StepFault::TraceFull);
    }
    match harts[number].status() {
        Status::Running => None,
        Status::Halted | Status::Trapped(_) => Some(StepFault::HartStopped),
    }
}

/// Adds an event to a trace that has room for it.
fn append(trace: &mut Vec<Event>, event: Event)
    requires { vec_len trace.old < vec_capacity trace.old }
    ensures items { trace.new.items ≡ trace.old.items ++ event ∷ [] }
    ensures capacity { vec_capacity trace.old ≤ vec_capacity trace.new }
{
    trace.push(event).unwrap();
}

/// Steps a hart in place, and gives the entry of the step.
fn step_hart(program: &[Instr], hart: &mut Hart, ram: &mut Ram, number: u8) -> Entry
    ensures hart { hart.new ≡ (hart_step program.now hart.old ram.old).hart }
    ensures memory { ram.new ≡ (hart_step program.now hart.old ram.old).memory }
    ensures entry { result ≡ record {
      hart = number;
      pc = address_of hart.old.pcc;
      outcome = (hart_step program.now hart.old ram.old).outcome;
    } }
{
    let pc = hart.pcc().addr();
    let outcome = step(program, hart, ram);
    Entry {
        hart: number,
        pc,
        outcome,
    }
}
