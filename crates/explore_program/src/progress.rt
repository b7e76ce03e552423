//! Reports of long searches, and who does them.

ghost use Rattle.std.specs.Prelude.{◌≡◌, ◌⊎◌, Some, IfSome};
ghost use Rattle.explore_program.specs.Progress.{counted_word, progress_text};
ghost use Rattle.explore_program.specs.Progress.{IsDue, IsQuiet, IsTold};

use graph_nodes::{Crew, Task};
use graph_search::Progress;
use printing::write_line;
use std::fmt;
use std::io::Write;
use std::time::{Clock, Instant};

/// What is counted of a search, or of a sample.
#[derive(Clone, Copy, Debug, PartialEq, Eq)]
pub enum Counted {
    States,
    Runs,
}

impl Counted {
    /// The word for it.
    fn word(self) -> &'static str
        ensures { result.now ≡ counted_word self }
    {
        match self {
            Counted::States => "states",
            Counted::Runs => "runs",
        }
    }
}

/// How many seconds a search says nothing after a report, and before the first one.
pub const SILENCE: u64 = 1;

/// How many there are so far.
#[derive(Clone, Copy)]
struct Found {
    counted: Counted,
    count: u32,
}

impl fmt::Display for Found {
    ghost output = { λ s. Some (progress_text s.counted s.count) };

    fn fmt<W: fmt::Write>(&self, f: &mut fmt::Formatter<W>) -> fmt::Result {
        write!(f, "{} {}", self.counted.word(), self.count)
    }
}

/// Reports on a terminal how many states were found, or runs made, at most once a second. Where the
/// clock fails, it reports nothing. A crew does the search.
#[derive(Drop)]
pub struct TerminalProgress<'a, C, E, K> {
    clock: &'a C,
    err: E,
    counted: Counted,
    last: Option<Instant>,
    crew: K,
}

impl<'a, C: Clock, E: Write, K: Crew> TerminalProgress<'a, C, E, K> {
    /// Reports on `err`, which is a terminal: for the first time a second from now.
    pub fn new(clock: &'a C, err: E, counted: Counted, crew: K) -> TerminalProgress<'a, C, E, K>
        ensures { result.err ≡ err }
    {
        let last = Instant::now(clock).ok();
        TerminalProgress {
            clock,
            err,
            counted,
            last,
            crew,
        }
    }

    /// The time, where a report is due.
    fn due(&self) -> Option<Instant>
        ensures { IfSome result (IsDue self.now.last) }
    {
        let last = self.last?;
        let now = Instant::now(self.clock).ok()?;
        if now.duration_since(last).as_secs() < SILENCE {
            None
        } else {
            Some(now)
        }
    }
}

impl<C: Clock, E: Write, K: Crew> Crew for TerminalProgress<'_, C, E, K> {
    type Begun = K::Begun;

    ghost is_of = { K.is_of };

    fn helpers(&self) -> u8 {
        self.crew.helpers()
    }

    fn start(&self, task: Task) -> K::Begun {
        self.crew.start(task)
    }

    fn finish(&self, begun: K::Begun) -> Task {
        self.crew.finish(begun)
    }
}

impl<C: Clock, E: Write, K: Crew> Progress for TerminalProgress<'_, C, E, K> {
    fn report(&mut self, found: u32)
        ensures { IsQuiet self.old.last self.new.last
            (E.contents self.old.err) (E.contents self.new.err)
            ⊎ IsTold self.old.counted found self.old.last self.new.last
            (E.contents self.old.err) (E.contents self.new.err) }
    {
        match self.due() {
            None => {}
            Some(now) => {
                self.last = Some(now);
                let _ = write_line(
                    &mut self.err,
                    Found {
                        counted: self.counted,
                        count: found,
                    },
                );
            }
        }
    }
}

/// Reports nothing. A crew does the search.
#[derive(Drop)]
pub struct QuietProgress<K> {
    pub crew: K,
}

impl<K: Crew> Crew for QuietProgress<K> {
    type Begun = K::Begun;

    ghost is_of = { K.is_of };

    fn helpers(&self) -> u8 {
        self.crew.helpers()
    }

    fn start(&self, task: Task) -> K::Begun {
        self.crew.start(task)
    }

    fn finish(&self, begun: K::Begun) -> Task {
        self.crew.finish(begun)
    }
}

impl<K: Crew> Progress for QuietProgress<K> {
    fn report(&mut self, _found: u32) {}
}
