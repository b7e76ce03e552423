//! Reports of long searches, by a clock that a test sets.

use crate::common::assert_bytes;
use explore_program::{Counted, TerminalProgress};
use graph_nodes::Alone;
use graph_search::Progress;
use std::alloc::Global;
use std::cell::Cell;
use std::io;
use std::time::{Clock, Duration};

/// A clock that a test sets, in milliseconds; it cannot be read at 0.
#[derive(Drop)]
struct Stopwatch {
    time: Cell<u64>,
}

impl Clock for Stopwatch {
    fn monotonic(&self) -> io::Result<Duration> {
        match self.time.get() {
            0 => Err(io::Error::from(io::ErrorKind::Unsupported)),
            time => Ok(Duration::from_millis(time)),
        }
    }

    fn since_1970(&self) -> io::Result<Duration> {
        self.monotonic()
    }
}

/// What a clock that begins at a time makes of reports that come at these, each of so many states
/// or runs.
fn reported(alloc: Global, counted: Counted, begin: u64, reports: &[(u64, u32)]) -> Vec<u8> {
    let clock = Stopwatch {
        time: Cell::new(begin),
    };
    let mut err = Vec::new(alloc);
    {
        let mut progress = TerminalProgress::new(&clock, &mut err, counted, Alone);
        for (time, found) in reports {
            clock.time.set(*time);
            progress.report(*found);
        }
    }
    err
}

/// In a terminal a line is written at most once a second, and none where the clock fails.
#[test]
fn searches_are_reported(rt: HostRuntime) {
    let reports = [
        (5_999, 1),
        (6_000, 2),
        (6_999, 3),
        (0, 4),
        (7_500, 5),
        (8_499, 6),
        (8_500, 7),
    ];
    let rows = [
        (Counted::States, 5_000, "states 2\nstates 5\nstates 7\n"),
        (Counted::Runs, 5_000, "runs 2\nruns 5\nruns 7\n"),
        (Counted::States, 0, ""),
    ];
    for (counted, begin, lines) in rows {
        let told = reported(rt.alloc(), counted, begin, &reports);
        assert_bytes(&rt, told.as_slice(), lines);
    }
}
