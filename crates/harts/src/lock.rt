//! A machine that threads share.

ghost use Rattle.std.specs.Prelude.{◌≡◌, ◌≢◌, ◌↔◌, ◌+◌, IfOk, OnOk, OnErr, Err, false};
ghost use Rattle.std.specs.Sync.Mutex.{mutex_guard_value};
ghost use Rattle.cheri_model.specs.runs.Replay.{operation_of};
ghost use Rattle.cheri_model.specs.runs.Sweeps.{is_range};
ghost use Rattle.cores.specs.Cores.{IsCore};

use cheri_model::{Event, Op};
use cores::StepFault;
use shared_machine::{Machine, Naming, Sweeper, Watch, WatchFault};
use std::marker::Model;
use std::sync::{Mutex, MutexGuard, Wait};
use std::thread;

/// How often a thread asks for the lock, giving way to others in between, before it sleeps.
const TRIES: u32 = 1_000;

/// A machine under a lock. Contracts see its image. Each time that the lock is got, the machine is
/// a core of that image: its state is the replay of its trace.
#[derive(Drop)]
pub struct Shared<J: Naming> {
    machine: Mutex<Machine<J>>,
}

impl<J: Naming> Model for Shared<J> {
    ghost use Rattle.cheri_model.specs.runs.Image.{ImageParts};

    ghost Value = { ImageParts };

    ghost view = { λ _. J.image };
}

impl<J: Naming> Shared<J> {
    /// Puts a machine under a lock.
    pub fn new(machine: Machine<J>) -> Shared<J>
        ensures { result ≡ machine.core.image }
    {
        Shared {
            machine: Mutex::new(machine),
        }
    }

    /// Waits for the lock, and lends the machine until the guard is dropped. A step is far shorter
    /// than it takes to send a thread to sleep and to wake it, so a thread asks a number of times
    /// before it sleeps.
    pub fn lock<'a, R: Wait>(&'a self, rt: &R) -> MutexGuard<'a, Machine<J>>
        ensures image { (mutex_guard_value result).core.image ≡ self.now }
        ensures core { IsCore (mutex_guard_value result).core }
    {
        let guard = match self.try_often() {
            Some(guard) => guard,
            None => self.machine.lock(rt),
        };
        // The contract of `refusal` says that this is a core, whose state is the replay of its
        // trace.
        let _refusal = guard.core().refusal(Op::Step(0));
        guard
    }

    /// The lock, if it is free one of a number of times.
    fn try_often(&self) -> Option<MutexGuard<'_, Machine<J>>> {
        for _ in 0..TRIES {
            if let Some(guard) = self.machine.try_lock() {
                return Some(guard);
            }
            thread::yield_now();
        }
        None
    }

    /// Waits for the lock, and gives a watch of the machine, which needs it no more. Fails as
    /// `Machine::watch` does.
    pub fn watch<R: Wait>(&self, rt: &R) -> Result<Watch<J>, WatchFault>
        ensures image { IfOk result (λ watch. watch.image ≡ self.now) }
    {
        self.lock(rt).watch()
    }

    /// Sweeps the machine once, in one hold of the lock, as `Machine::sweep` does: stopped harts,
    /// too.
    pub fn sweep<R: Wait>(
        &self,
        rt: &R,
        sweeper: &mut Sweeper<J>,
        lo: u64,
        hi: u128,
    ) -> Result<Event, StepFault>
        ensures event { IfOk result (λ event. operation_of event ≡ Op.Sweep lo hi) }
        ensures range { (result ≡ Err StepFault.BadRange) ↔ (is_range lo hi ≡ false) }
        ensures of_no_hart { (result ≢ Err StepFault.NoSuchHart)
            × (result ≢ Err StepFault.HartStopped) }
        ensures counted { OnOk result (sweeper.new ≡ sweeper.old + 1) }
        ensures kept { OnErr result (sweeper.new ≡ sweeper.old) }
    {
        self.lock(rt).sweep(rt, sweeper, lo, hi)
    }

    /// The machine, once no thread shares it.
    pub fn into_machine(self) -> Machine<J>
        ensures image { result.core.image ≡ self }
        ensures core { IsCore result.core }
    {
        let machine = self.machine.into_inner();
        // As above: that this is a core.
        let _refusal = machine.core().refusal(Op::Step(0));
        machine
    }
}
