//! Reports of how far a search is.

ghost use Rattle.std.specs.Prelude.{◌≡◌};

use graph_nodes::{Alone, Crew, Task};

/// What takes reports of how far a search is, and helps with it.
pub trait Progress: Crew {
    /// So many nodes were found. A search reports before it follows the edges of each 4,096th node.
    fn report(&mut self, found: u32);
}

/// Drops all reports.
#[derive(Clone, Copy, Drop)]
pub struct NoProgress;

impl Progress for NoProgress {
    fn report(&mut self, _found: u32) {}
}

/// Counts the reports, and keeps the latest.
#[derive(Clone, Copy, Drop)]
pub struct CountedProgress {
    pub reports: u32,
    pub found: u32,
}

impl Progress for CountedProgress {
    fn report(&mut self, found: u32)
        ensures { self.new.found ≡ found }
    {
        self.reports = self.reports.saturating_add(1);
        self.found = found;
    }
}

impl Crew for NoProgress {
    ghost use Rattle.graph_nodes.specs.Tasks.{IsDone};

    type Begun = Task;

    ghost is_of = { λ begun task. IsDone task begun };

    fn helpers(&self) -> u8 {
        Alone.helpers()
    }

    fn start(&self, task: Task) -> Task {
        Alone.start(task)
    }

    fn finish(&self, begun: Task) -> Task {
        Alone.finish(begun)
    }
}

impl Crew for CountedProgress {
    ghost use Rattle.graph_nodes.specs.Tasks.{IsDone};

    type Begun = Task;

    ghost is_of = { λ begun task. IsDone task begun };

    fn helpers(&self) -> u8 {
        Alone.helpers()
    }

    fn start(&self, task: Task) -> Task {
        Alone.start(task)
    }

    fn finish(&self, begun: Task) -> Task {
        Alone.finish(begun)
    }
}
