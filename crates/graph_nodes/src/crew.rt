//! Who does the parts of a work: one thread, or several side by side.

ghost use Rattle.std.specs.Prelude.{◌≡◌};
ghost use Rattle.graph_nodes.specs.Tasks.{IsDone, IsReady};

use crate::tasks::Task;
use std::snapshot::Snapshot;
use std::thread;
use std::thread::{Promise, PromisedHandle, Threads};

/// Who does tasks: one thread, or several side by side.
pub trait Crew {
    ghost use Rattle.std.specs.Prelude.{◌≡◌};
    ghost use Rattle.graph_nodes.specs.Tasks.{IsDone, IsReady};
    ghost use Rattle.graph_nodes.specs.declared.tasks.Task.{Task};

    /// A task that was begun.
    type Begun: Drop;

    /// The task that was begun.
    ghost is_of: { Self.Begun → Task → Type 0 };

    /// How many threads it has beside the one that calls it.
    fn helpers(&self) -> u8;

    /// Begins a task.
    fn start(&self, task: Task) -> Self::Begun
        requires { IsReady task }
        ensures { is_of result task };

    /// Waits until it is done.
    fn finish(&self, begun: Self::Begun) -> Task
        ensures { (task : Task) → is_of begun task → IsDone task result };
}

/// One thread, which does each task when it is begun.
#[derive(Clone, Copy, Drop)]
pub struct Alone;

impl Crew for Alone {
    ghost use Rattle.graph_nodes.specs.Tasks.{IsDone};

    type Begun = Task;

    ghost is_of = { λ begun task. IsDone task begun };

    fn helpers(&self) -> u8 {
        0
    }

    fn start(&self, task: Task) -> Task {
        task.done()
    }

    fn finish(&self, begun: Task) -> Task {
        begun
    }
}

/// The promise that a thread leaves a task done.
#[derive(Drop)]
pub struct DoneOf(Snapshot<Task>);

impl Promise<Task> for DoneOf {
    ghost use Rattle.graph_nodes.specs.Tasks.{IsDone};

    ghost kept_by = { λ promise result. IsDone promise.0.value result };
}

/// A task that was begun: it is done here, or a thread does it.
#[derive(Drop)]
pub enum Begun {
    Here(Task),
    There(PromisedHandle<Task, DoneOf>),
}

/// The largest number of threads beside the one that calls.
const MOST_HELPERS: u16 = 15;

/// So many threads, with the one that calls it, of which at most 15 help.
#[derive(Clone, Copy)]
pub struct Team<'r, R> {
    pub rt: &'r R,
    pub threads: u16,
}

impl<R: Threads> Crew for Team<'_, R> {
    ghost use Rattle.graph_nodes.specs.Crews.{IsBegun};

    type Begun = Begun;

    ghost is_of = { λ begun task. IsBegun begun task };

    fn helpers(&self) -> u8 {
        self.threads.saturating_sub(1).min(MOST_HELPERS) as u8
    }

    fn start(&self, task: Task) -> Begun {
        let promise = DoneOf(Snapshot::of(&task));
        let work = move || -> Task
            requires { IsReady task }
            ensures { IsDone task result }
        { task.done() };
        match thread::spawn_with(self.rt, promise, work) {
            Ok(handle) => Begun::There(handle),
            // No thread could be had, so it is done here.
            Err(refused) => Begun::Here((refused.value)()),
        }
    }

    fn finish(&self, begun: Begun) -> Task {
        match begun {
            Begun::Here(task) => task,
            Begun::There(handle) => handle.join(self.rt),
        }
    }
}
