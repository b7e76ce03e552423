//! Counting by many threads.

ghost use Rattle.std.specs.Prelude.{◌≡◌, ◌<◌, ◌≤◌, ℕ, ◌+◌, length, slice_index_or, vec_len};
ghost use Rattle.std.specs.Prelude.{IfOk};
ghost use Rattle.std.specs.Result.{IsOkAnd};
ghost use Rattle.cheri_model.specs.runs.Image.{opening_memory};
ghost use Rattle.sample_tallies.specs.Tallies.{tally, numbers_from};
ghost use Rattle.sample_checks.specs.Checks.{decided_in};
ghost use Rattle.sample_threads.specs.Rounds.{Counts, CountsPart, IsAlike, IsSum, cut_at};

use crate::rounds::{Round, Runs};
use cheri_model::Image;
use graph_search::Progress;
use sample_checks::{Checked, count_checked};
use sample_draws::MAX_RUN;
use sample_runs::Runner;
use shown_states::Loaded;
use std::alloc::{AllocError, Global};
use std::thread;
use std::thread::Threads;

/// Counts a part of a round.
fn count_part(
    alloc: Global,
    runs: &Runs<'_, '_>,
    round: Round,
    part: u64,
) -> Result<Checked, AllocError>
    requires numbers { runs.now.first + runs.now.count ≤ MAX_RUN + 1 }
    requires done { round.done ≤ runs.now.count }
    requires part { part < round.parts }
    ensures { IfOk result (CountsPart runs.now round part) }
{
    let from = round.cut_at(runs.count, part);
    let to = round.cut_at(runs.count, part + 1);
    let first = runs.first + from;
    count_checked(
        alloc,
        runs.image,
        runs.drawing,
        runs.properties,
        first,
        to - from,
    )
}

/// Counts the parts of a round, each in a thread of its own where there is more than one.
fn count_parts<R: Threads + Sync>(
    rt: &R,
    alloc: Global,
    runs: &Runs<'_, '_>,
    round: Round,
) -> Result<Vec<Result<Checked, AllocError>>, AllocError>
    requires numbers { runs.now.first + runs.now.count ≤ MAX_RUN + 1 }
    requires done { round.done ≤ runs.now.count }
    ensures count { IfOk result (λ parts. vec_len parts ≡ round.parts) }
    ensures each { IfOk result (λ parts. (i : ℕ) (d : _) → i < round.parts →
        IfOk (slice_index_or parts.items i d) (CountsPart runs.now round i)) }
{
    let count = usize::from(round.parts);
    thread::map_indices(
        rt,
        alloc,
        count,
        &move |part| { count_part(alloc, runs, round, part as u64) },
    )
}

/// Adds a part, if it could be counted.
fn with_part(
    alloc: Global,
    sum: Checked,
    part: &Result<Checked, AllocError>,
    blank: &mut Loaded,
) -> Result<Checked, AllocError>
    requires alike { IfOk part.now (IsAlike sum) }
    requires harts { length blank.old.harts ≡ sum.harts }
    requires granules { length blank.old.memory ≡ sum.granules }
    ensures sum { IfOk result (λ both. IsOkAnd part.now (λ other. IsSum sum other both)) }
    ensures harts { length blank.new.harts ≡ sum.harts }
    ensures granules { length blank.new.memory ≡ sum.granules }
{
    match part {
        Ok(part) => sum.add(alloc, part, blank),
        Err(_) => Err(AllocError),
    }
}

/// Counts a round, and adds it to what was counted before.
fn with_round<R: Threads + Sync>(
    rt: &R,
    alloc: Global,
    runs: &Runs<'_, '_>,
    round: Round,
    before: Checked,
    blank: &mut Loaded,
) -> Result<Checked, AllocError>
    requires numbers { runs.now.first + runs.now.count ≤ MAX_RUN + 1 }
    requires done { round.done ≤ runs.now.count }
    requires before { Counts runs.now round.done before }
    requires harts { length blank.old.harts ≡ before.harts }
    requires granules { length blank.old.memory ≡ before.granules }
    ensures sum { IfOk result (Counts runs.now
        (cut_at round.done round.each runs.now.count round.parts)) }
    ensures harts { length blank.new.harts ≡ before.harts }
    ensures granules { length blank.new.memory ≡ before.granules }
{
    let counted = count_parts(rt, alloc, runs, round)?;
    let parts = counted.as_slice();
    let mut sum = before;
    for part in 0..parts.len() {
        sum = with_part(alloc, sum, &parts[part], blank)?;
    }
    Ok(sum)
}

/// A state as large as those of an image.
fn blank_state(alloc: Global, image: &Image) -> Result<Loaded, AllocError>
    ensures harts { IfOk result (λ blank. length blank.harts ≡ length image.now.harts) }
    ensures granules { IfOk result (λ blank. length blank.memory
        ≡ length (opening_memory image.now.ram image.now.granules)) }
{
    let runner = Runner::open(alloc, image)?;
    // Its clause says that memory has as many granules as at first.
    let _opening = runner.memory().opening();
    Loaded::new(alloc, runner.harts(), runner.memory().ram())
}

/// No run.
fn no_runs(alloc: Global, runs: &Runs<'_, '_>) -> Result<Checked, AllocError>
    requires { runs.now.first ≤ MAX_RUN + 1 }
    ensures { IfOk result (Counts runs.now 0) }
{
    count_checked(
        alloc,
        runs.image,
        runs.drawing,
        runs.properties,
        runs.first,
        0,
    )
}

/// So many runs, as they are reported.
fn reported(done: u64) -> u32 {
    u32::try_from(done).unwrap_or(u32::MAX)
}

/// What runs give, and which of them decide each property, counted by so many threads, which
/// changes nothing of the answer. How many runs are counted is reported now and then. Fails only
/// when out of memory or of numbers for states, or where a count reaches 2^64.
pub fn count_all<R: Threads + Sync, P: Progress>(
    rt: &R,
    alloc: Global,
    runs: &Runs<'_, '_>,
    threads: u16,
    progress: &mut P,
) -> Result<Checked, AllocError>
    requires numbers { runs.now.first + runs.now.count ≤ MAX_RUN + 1 }
    requires threads { 0 < threads }
    ensures sum { IfOk result (λ checked. checked.sum ≡ tally runs.now.image.now
        runs.now.drawing.now (numbers_from runs.now.first runs.now.count)) }
    ensures decided { IfOk result (λ checked. checked.decided ≡ decided_in runs.now.image.now
        runs.now.drawing.now runs.now.properties.now
        (numbers_from runs.now.first runs.now.count)) }
    ensures harts { IfOk result (λ checked.
        checked.harts ≡ length runs.now.image.now.harts) }
    ensures granules { IfOk result (λ checked. checked.granules
        ≡ length (opening_memory runs.now.image.now.ram runs.now.image.now.granules)) }
{
    let mut blank = blank_state(alloc, runs.image)?;
    let mut sum = no_runs(alloc, runs)?;
    let mut done = 0;
    while done < runs.count {
        let round = Round::next(done, runs.count, runs.drawing.length(), threads);
        sum = with_round(rt, alloc, runs, round, sum, &mut blank)?;
        done = round.cut_at(runs.count, u64::from(threads));
        progress.report(reported(done));
    }
    Ok(sum)
}
