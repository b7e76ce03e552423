//! The core under a machine: alone until the first watch, and then two copies of it. Beside it the
//! keeper of the order of its operations.

ghost use Rattle.std.specs.Prelude.{◌≡◌, [], None, IfOk, OnOk, OnErr, Err, true, false};
ghost use Rattle.cheri_model.specs.runs.Replay.{operation_of, operations_of};
ghost use Rattle.cores.specs.Cores.{core_after, refused};
ghost use Rattle.shared_machine.specs.Machines.{unwatched};
ghost use Rattle.shared_machine.specs.Names.{order_named};
ghost use Rattle.shared_machine.specs.Watches.{watch_of};

use crate::faults::WatchFault;
use crate::shares::Naming;
use crate::watching::copies::OrderOf;
use crate::watching::pair::Pair;
use crate::watching::watch::{Receipt, Watch};
use cheri_model::{Event, NoMemory, Op};
use cores::Core;
use seen_order::{Blank, Keeper};
use std::alloc::Global;
use std::marker::Model;
use std::sync::Wait;

/// Where a machine's core is.
#[derive(Drop)]
pub enum Stage<J: Naming> {
    /// Nobody has watched it yet.
    Alone(Core),
    /// Watchers read two copies of it.
    Copied(Pair<J>),
}

/// A core that one thread steps, and that others may watch. Contracts see the core, and whether
/// it is in two copies.
#[derive(Drop)]
pub struct Watched<J: Naming> {
    stage: Stage<J>,
    keeper: Keeper<OrderOf<J>>,
    alloc: Global,
}

impl<J: Naming> Model for Watched<J> {
    ghost use Rattle.shared_machine.specs.Machines.{MachineParts};

    ghost Value = { MachineParts };

    ghost use Rattle.std.specs.Prelude.{◌≡◌};
    ghost use Rattle.cheri_model.specs.runs.Replay.{operations_of};
    ghost use Rattle.shared_machine.specs.Machines.{machine_at};

    ghost view = { λ w. machine_at w.stage };

    ghost invariant = { λ w. ((machine_at w.stage).core.image ≡ J.image)
        × (w.keeper ≡ operations_of (machine_at w.stage).core.trace) };
}

impl<J: Naming> Watched<J> {
    /// The core, and the keeper of its order.
    pub fn open(alloc: Global, core: Core, blank: Blank) -> Watched<J>
        requires name { blank ≡ order_named J.names }
        requires image { core.image ≡ J.image }
        ensures { result ≡ unwatched core }
    {
        let mut keeper = blank.named::<OrderOf<J>>();
        add_all::<J>(&mut keeper, core.view().entries);
        Watched {
            stage: Stage::Alone(core),
            keeper,
            alloc,
        }
    }

    /// The core.
    pub fn core(&self) -> &Core
        ensures core { result.now ≡ self.now.core }
        ensures image { self.now.core.image ≡ J.image }
    {
        match &self.stage {
            Stage::Alone(core) => core,
            Stage::Copied(pair) => pair.core(),
        }
    }

    /// Takes an operation that is not refused, and shows it to watchers. Fails only when out of
    /// memory, and then nothing changes. Waits for a watcher that still looks at the other copy.
    pub fn take<R: Wait>(&mut self, rt: &R, op: Op) -> Result<(), NoMemory>
        requires { refused self.old.core op ≡ None }
        ensures ok { OnOk result (self.new.core ≡ core_after self.old.core op) }
        ensures err { OnErr result (self.new.core ≡ self.old.core) }
        ensures copied { self.new.is_copied ≡ self.old.is_copied }
    {
        match &mut self.stage {
            Stage::Alone(core) => {
                let _event = core.apply(op);
                self.keeper.add(op);
                Ok(())
            }
            Stage::Copied(pair) => pair.take(rt, op, &mut self.keeper),
        }
    }

    /// A watch of the machine, which has seen its trace of now. Fails with `NoPlace` where no place
    /// is free, and with `NoMemory` where the first one finds none for two copies of the core; then
    /// nothing changes.
    pub fn watch(&mut self) -> Result<Watch<J>, WatchFault>
        ensures watch { IfOk result (λ watch.
            watch ≡ watch_of self.old.core.image self.old.core.trace) }
        ensures same { self.new.core ≡ self.old.core }
        ensures copied { OnOk result (self.new.is_copied ≡ true) }
        ensures unchanged { OnErr result (self.new ≡ self.old) }
        ensures place { result ≡ Err WatchFault.NoPlace → self.old.is_copied ≡ true }
        ensures memory { result ≡ Err WatchFault.NoMemory → self.old.is_copied ≡ false }
    {
        let receipt = self.receipt();
        match &self.stage {
            Stage::Copied(pair) => pair.watch(receipt),
            Stage::Alone(core) => {
                let pair = Pair::of(self.alloc, core, &self.keeper.seen())?;
                match pair.watch(receipt) {
                    Ok(watch) => {
                        self.stage = Stage::Copied(pair);
                        Ok(watch)
                    }
                    // New copies have all their places, though no contract says so.
                    Err(_) => Err(WatchFault::NoMemory),
                }
            }
        }
    }

    /// A receipt for the trace of now.
    pub fn receipt(&self) -> Receipt<J>
        ensures { result ≡ self.now.core.trace }
    {
        Receipt::of_core(self.core(), self.keeper.seen())
    }

    /// The core, once nobody looks at a copy of it.
    pub fn close<R: Wait>(self, rt: &R) -> Core
        ensures core { result ≡ self.core }
        ensures image { self.core.image ≡ J.image }
    {
        let Watched {
            stage,
            keeper: _,
            alloc: _,
        } = self;
        match stage {
            Stage::Alone(core) => core,
            Stage::Copied(pair) => pair.close(rt),
        }
    }
}

/// Adds the operations of these events to an order that is empty.
#[tactic(auto, unfolding(cheri_model::specs::runs::Replay::operations_of))]
fn add_all<J: Naming>(keeper: &mut Keeper<OrderOf<J>>, events: &[Event])
    requires { keeper.old ≡ [] }
    ensures { keeper.new ≡ operations_of events.now }
{
    for event in events {
        keeper.add(operation_of(*event));
    }
}

/// The operation that an event records.
fn operation_of(event: Event) -> Op
    ensures { result ≡ operation_of event }
{
    match event {
        Event::Step(entry) => Op::Step(entry.hart),
        Event::Sweep { lo, hi, cleared: _ } => Op::Sweep { lo, hi },
    }
}
