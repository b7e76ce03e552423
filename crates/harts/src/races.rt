//! Races: one worker for each hart of an image, in threads of their own.

ghost use Rattle.std.specs.Prelude.{◌≡◌, ◌≢◌, ◌↔◌, [], length, map, All, false, IfOk, Ok, Err};
ghost use Rattle.std.specs.Prelude.{MatchResult, vec_len};
ghost use Rattle.cheri_model.specs.runs.Replay.{IsReplay};
ghost use Rattle.cores.specs.Cores.{is_limit};
ghost use Rattle.harts.specs.Reports.{AreReports, KeepsTurns};

use crate::calls::Calls;
use crate::faults::RunFault;
use crate::gates::Gate;
use crate::lock::Shared;
use crate::viewers::{Nobody, Onlooker, Viewer};
use crate::workers::{HartReport, hart_loop};
use cheri_model::{Image, NoMemory};
use cores::{BootFault, Core};
use shared_machine::{Blanks, Machine, Naming, Share};
use std::alloc::Global;
use std::marker::Brand;
use std::sync::Wait;
use std::thread;
use std::thread::{Promise, PromisedHandle, Scope, Threads};

/// Runs the harts of an image in threads of their own, each in up to this many turns, and joins
/// them. Answers the core that they left and a report for each hart, in hart order, whose steps are
/// the hart's own in the core's trace. Fails with `Boot` and `Limit` exactly where the limit is
/// not from 1 to 100,000; with `Spawn` where a worker could not be started, after those that were
/// are joined; with `ImageDiffers` where the machine that is left is not of the given image and
/// limit; and when out of memory, with `Boot` and `NoMemory` while the machine is booted and
/// with `NoMemory` after that.
pub fn run_harts<G: Gate + Sync, R: Threads + Wait + Sync>(
    rt: &R,
    alloc: Global,
    image: Image,
    turns: u32,
    limit: u32,
    gate: &G,
) -> Result<(Core, Vec<HartReport>), RunFault>
    ensures limit { (result ≡ Err (RunFault.Boot BootFault.Limit)) ↔ (is_limit limit ≡ false) }
    ensures image { IfOk result (λ run. run.0.image ≡ image) }
    ensures room { IfOk result (λ run. run.0.limit ≡ limit) }
    ensures replay { IfOk result (λ run. IsReplay run.0.image run.0.trace run.0.state) }
    ensures reports { IfOk result (λ run.
        AreReports turns run.0.trace (length image.harts) run.1.items) }
{
    let race = Race { turns, limit, gate };
    boot_and_race(rt, alloc, image, race, None::<&mut Nobody>)
}

/// Runs the harts of an image as `run_harts` does, while the calling thread has the viewer look on
/// once, from when the workers are started until it gives its watch back. Where no watch is given,
/// the viewer is not called.
pub fn run_watched<G: Gate + Sync, V: Viewer, R: Threads + Wait + Sync>(
    rt: &R,
    alloc: Global,
    image: Image,
    turns: u32,
    limit: u32,
    gate: &G,
    viewer: &mut V,
) -> Result<(Core, Vec<HartReport>), RunFault>
    ensures limit { (result ≡ Err (RunFault.Boot BootFault.Limit)) ↔ (is_limit limit ≡ false) }
    ensures image { IfOk result (λ run. run.0.image ≡ image) }
    ensures room { IfOk result (λ run. run.0.limit ≡ limit) }
    ensures replay { IfOk result (λ run. IsReplay run.0.image run.0.trace run.0.state) }
    ensures reports { IfOk result (λ run.
        AreReports turns run.0.trace (length image.harts) run.1.items) }
{
    let race = Race { turns, limit, gate };
    boot_and_race(rt, alloc, image, race, Some(viewer))
}

/// What a race is run with: how many turns each hart has at most, how many events the trace has
/// room for, and the gate that is asked before each turn.
#[derive(Drop)]
struct Race<'a, G> {
    turns: u32,
    limit: u32,
    gate: &'a G,
}

/// Boots an image and races its harts. Only where there is a viewer, a watch is asked for and it
/// looks on through it.
fn boot_and_race<G: Gate + Sync, V: Viewer, R: Threads + Wait + Sync>(
    rt: &R,
    alloc: Global,
    image: Image,
    race: Race<'_, G>,
    viewer: Option<&mut V>,
) -> Result<(Core, Vec<HartReport>), RunFault>
    ensures limit { (result ≡ Err (RunFault.Boot BootFault.Limit))
        ↔ (is_limit race.entry.limit ≡ false) }
    ensures image { IfOk result (λ run. run.0.image ≡ image) }
    ensures room { IfOk result (λ run. run.0.limit ≡ race.entry.limit) }
    ensures replay { IfOk result (λ run. IsReplay run.0.image run.0.trace run.0.state) }
    ensures reports { IfOk result (λ run.
        AreReports race.entry.turns run.0.trace (length image.harts) run.1.items) }
{
    let limit = race.limit;
    let core = Core::boot(alloc, image, limit)?;
    let (core, reports) = race_harts::<Brand, G, V, R>(
        rt,
        alloc,
        core,
        race,
        viewer,
        Blanks::new(),
    )?;
    if core.limit() != limit {
        return Err(RunFault::ImageDiffers);
    }
    Ok((core, reports))
}

/// Races the harts of a core that was just booted.
fn race_harts<J: Naming + Send + Sync, G: Gate + Sync, V: Viewer, R: Threads + Wait + Sync>(
    rt: &R,
    alloc: Global,
    core: Core,
    race: Race<'_, G>,
    viewer: Option<&mut V>,
    blanks: Blanks,
) -> Result<(Core, Vec<HartReport>), RunFault>
    requires names { blanks ≡ J.names }
    requires image { core.image ≡ J.image }
    requires start { core.trace ≡ [] }
    ensures limit { result ≢ Err (RunFault.Boot BootFault.Limit) }
    ensures image { IfOk result (λ run. run.0.image ≡ J.image) }
    ensures replay { IfOk result (λ run. IsReplay run.0.image run.0.trace run.0.state) }
    ensures reports { IfOk result (λ run.
        AreReports race.entry.turns run.0.trace (length J.image.harts) run.1.items) }
{
    let given = core.view().image.copy(alloc)?;
    let (machine, shares, sweeper) = Machine::<J>::open(alloc, core, blanks)?;
    let shared = Shared::new(machine);
    let work = Work {
        rt,
        shared: &shared,
        gate: race.gate,
    };
    let onlooker = Onlooker::of(viewer, &shared, rt);
    let raced = race_all(&work, alloc, race.turns, shares, onlooker);
    match raced {
        Err(fault) => {
            let _core = shared.into_machine().close(rt, Vec::new(alloc), sweeper);
            Err(fault)
        }
        Ok((reports, shares)) => {
            let core = shared.into_machine().close(rt, shares, sweeper);
            if core.view().image != &given {
                return Err(RunFault::ImageDiffers);
            }
            Ok((core, reports))
        }
    }
}

/// The reports and the shares of workers for each of these shares, which have counted nothing yet.
fn race_all<J: Naming + Send + Sync, G: Gate + Sync, V: Viewer, R: Threads + Wait + Sync>(
    work: &Work<'_, J, G, R>,
    alloc: Global,
    turns: u32,
    shares: Vec<Share<J>>,
    onlooker: Option<Onlooker<'_, J, V>>,
) -> Result<(Vec<HartReport>, Vec<Share<J>>), RunFault>
    requires { All (λ share. share.amount ≡ 0) shares.items }
    ensures fault { result ≢ Err (RunFault.Boot BootFault.Limit) }
    ensures harts { IfOk result (λ all.
        map (λ r. r.hart) all.0.items ≡ map (λ s. s.hart) shares.items) }
    ensures counted { IfOk result (λ all.
        all.1.items ≡ map (λ r. record { hart = r.hart; amount = r.steps }) all.0.items) }
    ensures within_turns { IfOk result (λ all. All (KeepsTurns turns) all.0.items) }
{
    let worked = work_all(work, alloc, turns, shares, onlooker)?;
    let reports = reports_of(alloc, worked.as_slice())?;
    let shares = shares_back(alloc, worked)?;
    Ok((reports, shares))
}

/// What every worker of a race is lent.
#[derive(Drop)]
struct Work<'a, J: Naming, G, R> {
    rt: &'a R,
    shared: &'a Shared<J>,
    gate: &'a G,
}

/// What a worker hands back.
#[derive(Drop)]
struct Worked<J: Naming> {
    report: HartReport,
    share: Share<J>,
}

/// The promise that a worker's report and share are of this hart, that the share has counted just
/// the steps of the report, and that the hart had this many turns.
#[derive(Clone, Copy)]
struct OfHart {
    hart: u8,
    turns: u32,
}

impl<J: Naming> Promise<Worked<J>> for OfHart {
    ghost use Rattle.std.specs.Prelude.{◌≡◌};
    ghost use Rattle.harts.specs.Reports.{KeepsTurns};

    ghost kept_by = { λ p w. (w.report.hart ≡ p.hart)
        × (w.share ≡ record { hart = p.hart; amount = w.report.steps })
        × KeepsTurns p.turns w.report };
}

/// Starts a worker for each of these shares, which have counted nothing yet, and joins them all.
fn work_all<J: Naming + Send + Sync, G: Gate + Sync, V: Viewer, R: Threads + Wait + Sync>(
    work: &Work<'_, J, G, R>,
    alloc: Global,
    turns: u32,
    shares: Vec<Share<J>>,
    onlooker: Option<Onlooker<'_, J, V>>,
) -> Result<Vec<Worked<J>>, RunFault>
    requires { All (λ share. share.amount ≡ 0) shares.items }
    ensures fault { result ≢ Err (RunFault.Boot BootFault.Limit) }
    ensures harts { IfOk result (λ all.
        map (λ w. w.report.hart) all.items ≡ map (λ s. s.hart) shares.items) }
    ensures counted { IfOk result (λ all. All
        (λ w. w.share ≡ record { hart = w.report.hart; amount = w.report.steps }) all.items) }
    ensures within_turns { IfOk result (λ all. All (λ w. KeepsTurns turns w.report) all.items) }
{
    let done = Vec::with_capacity(alloc, shares.len())?;
    thread::scope(
        thread::scope_env(),
        work.rt,
        move |scope| -> Result<Vec<Worked<J>>, RunFault>
            requires none { All (λ share. share.amount ≡ 0) shares.items }
            requires done { done.items ≡ [] }
            ensures fault { result ≢ Err (RunFault.Boot BootFault.Limit) }
            ensures harts { IfOk result (λ all.
                map (λ w. w.report.hart) all.items ≡ map (λ s. s.hart) shares.items) }
            ensures counted { IfOk result (λ all. All
                (λ w. w.share ≡ record { hart = w.report.hart; amount = w.report.steps })
                all.items) }
            ensures within_turns { IfOk result (λ all.
                All (λ w. KeepsTurns turns w.report) all.items) }
        { work_rest(scope, work, turns, shares, done, onlooker) },
    )
}

/// Starts a worker for the last of these shares, then those for the others, has the viewer look on,
/// and joins the workers in hart order.
fn work_rest<'s, E, J: Naming + Send + Sync, G: Gate + Sync, V: Viewer, R: Threads + Wait + Sync>(
    scope: &Scope<'s, E>,
    work: &'s Work<'_, J, G, R>,
    turns: u32,
    shares: Vec<Share<J>>,
    done: Vec<Worked<J>>,
    onlooker: Option<Onlooker<'_, J, V>>,
) -> Result<Vec<Worked<J>>, RunFault>
    requires none { All (λ share. share.amount ≡ 0) shares.items }
    requires done { done.items ≡ [] }
    ensures fault { result ≢ Err (RunFault.Boot BootFault.Limit) }
    ensures harts { IfOk result (λ all.
        map (λ w. w.report.hart) all.items ≡ map (λ s. s.hart) shares.items) }
    ensures counted { IfOk result (λ all. All
        (λ w. w.share ≡ record { hart = w.report.hart; amount = w.report.steps }) all.items) }
    ensures within_turns { IfOk result (λ all. All (λ w. KeepsTurns turns w.report) all.items) }
{
    let mut shares = shares;
    let Some(share) = shares.pop() else {
        if let Some(onlooker) = onlooker {
            onlooker.look_on();
        }
        return Ok(done);
    };
    let worker = start_one(scope, work, turns, share)?;
    let mut all = work_rest(scope, work, turns, shares, done, onlooker)?;
    let Ok(()) = all.push(worker.join(work.rt)) else {
        return Err(RunFault::NoMemory);
    };
    Ok(all)
}

/// Starts the worker of a share that has counted nothing yet.
fn start_one<'s, E, J: Naming + Send + Sync, G: Gate + Sync, R: Threads + Wait + Sync>(
    scope: &Scope<'s, E>,
    work: &'s Work<'_, J, G, R>,
    turns: u32,
    share: Share<J>,
) -> Result<PromisedHandle<Worked<J>, OfHart>, RunFault>
    requires { share.amount ≡ 0 }
    ensures { MatchResult result
        (λ worker. worker.promise ≡ record { hart = share.hart; turns = turns })
        (λ fault. fault ≡ RunFault.Spawn) }
{
    let promise = OfHart {
        hart: share.hart(),
        turns,
    };
    let job = move || -> Worked<J>
        requires { share.amount ≡ 0 }
        ensures hart { result.report.hart ≡ share.hart }
        ensures share { result.share
            ≡ record { hart = share.hart; amount = result.report.steps } }
        ensures within_turns { KeepsTurns turns result.report }
    { work_one(work, turns, share) };
    started(scope.spawn_with(promise, job))
}

/// A worker that was started, or the fault of one that was not.
fn started<T, E: Drop>(spawned: Result<T, E>) -> Result<T, RunFault>
    ensures worker { MatchResult result
        (λ worker. spawned ≡ Ok worker) (λ fault. fault ≡ RunFault.Spawn) }
{
    match spawned {
        Ok(worker) => Ok(worker),
        Err(_) => Err(RunFault::Spawn),
    }
}

/// The loop of one hart, whose share has counted nothing yet.
#[tactic(auto, unfolding(crate::specs::Reports::KeepsTurns))]
fn work_one<J: Naming, G: Gate, R: Wait>(
    work: &Work<'_, J, G, R>,
    turns: u32,
    share: Share<J>,
) -> Worked<J>
    requires { share.amount ≡ 0 }
    ensures hart { result.report.hart ≡ share.hart }
    ensures share { result.share ≡ record { hart = share.hart; amount = result.report.steps } }
    ensures within_turns { KeepsTurns turns result.report }
{
    let mut calls = Calls::none();
    let (report, share) = hart_loop(work.rt, work.shared, turns, work.gate, &mut calls, share);
    Worked { report, share }
}

/// The reports of what workers handed back.
fn reports_of<J: Naming>(alloc: Global, worked: &[Worked<J>]) -> Result<Vec<HartReport>, NoMemory>
    ensures { IfOk result (λ reports. reports.items ≡ map (λ w. w.report) worked.now) }
{
    worked.iter().map(|w| w.report).collect(alloc)
}

/// The shares of what workers handed back.
fn shares_back<J: Naming>(alloc: Global, worked: Vec<Worked<J>>) -> Result<Vec<Share<J>>, NoMemory>
    ensures { IfOk result (λ shares. shares.items ≡ map (λ w. w.share) worked.items) }
{
    worked.into_iter().map(|w| w.share).collect(alloc)
}
