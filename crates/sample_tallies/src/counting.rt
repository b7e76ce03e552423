//! Counting runs.

ghost use Rattle.std.specs.Prelude.{◌≡◌, ◌≤◌, ◌+◌, length, IfOk};
ghost use Rattle.cheri_model.specs.runs.Image.{opening_memory};
ghost use Rattle.sample_tallies.specs.Tallies.{tally, numbers_from};

use crate::tally::Tally;
use cheri_model::Image;
use sample_draws::{Drawing, MAX_RUN};
use sample_runs::Runner;
use std::alloc::{AllocError, Global};

/// The tally of so many runs, from the one with this number on. Fails only when out of memory, or
/// of numbers for states.
pub fn count_runs(
    alloc: Global,
    image: &Image,
    drawing: &Drawing,
    first: u64,
    count: u64,
) -> Result<Tally, AllocError>
    requires { first + count ≤ MAX_RUN + 1 }
    ensures sum { IfOk result (λ counted.
        counted.sum ≡ tally image.now drawing.now (numbers_from first count)) }
    ensures harts { IfOk result (λ counted. counted.harts ≡ length image.now.harts) }
    ensures granules { IfOk result (λ counted.
        counted.granules ≡ length (opening_memory image.now.ram image.now.granules)) }
{
    // Its clause says that there are at most 8 harts.
    let _granules = image.granules();
    let mut runner = Runner::open(alloc, image)?;
    let granules = runner.memory().opening().granule_count();
    let mut counted = Tally::new(alloc, image.harts().len(), granules);
    for done in 0..count {
        let number = first + done;
        let run = runner.run(alloc, drawing, number)?;
        let memory = runner.memory();
        // Its clause says that memory has as many granules as at first.
        let _opening = memory.opening();
        counted.note(alloc, number, run, runner.harts(), memory)?;
    }
    Ok(counted)
}
