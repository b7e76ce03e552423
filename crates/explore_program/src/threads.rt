//! How many threads share a work.

ghost use Rattle.std.specs.Prelude.{◌<◌, ◌≤◌, IfSome};

use std::thread::{self, Threads};

/// The most threads where their number is not given.
const MAX_THREADS: u16 = 256;

/// So many threads as there are processors.
fn processors<R: Threads>(rt: &R) -> u16
    ensures { 0 < result }
{
    match thread::available_parallelism(rt) {
        Ok(count) => u16::try_from(count.get())
            .unwrap_or(MAX_THREADS)
            .clamp(1, MAX_THREADS),
        Err(_) => 1,
    }
}

/// By how many threads a work is done.
pub fn threads_for<R: Threads>(rt: &R, jobs: Option<u16>) -> u16
    requires { IfSome jobs (λ jobs. 1 ≤ jobs) }
    ensures { 0 < result }
{
    match jobs {
        Some(jobs) => jobs,
        None => processors(rt),
    }
}
