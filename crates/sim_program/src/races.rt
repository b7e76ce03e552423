//! The race of a listing's harts, and the report of what they left.
#![tactic(auto, using(crate::proofs::RaceLemmas::races))]

ghost use Rattle.std.specs.Prelude.{◌≡◌, ◌≤◌, ◌↔◌, ℕ, List, Option, length, IfOk, IfErr, Err};
ghost use Rattle.std.specs.Prelude.{false, true};
ghost use Rattle.cheri_model.specs.runs.Replay.{IsReplay};
ghost use Rattle.cores.specs.Cores.{is_limit};
ghost use Rattle.harts.specs.Reports.{AreReports};
ghost use Rattle.report_lines.specs.Texts.{line};
ghost use Rattle.printing.specs.Endings.{HasWhole};
ghost use Rattle.reports.specs.Report.{report};
ghost use Rattle.sinks.specs.Sinks.{TakesPrefix};
ghost use Rattle.sim_program.specs.Endings.{Fails, stop_of};
ghost use Rattle.sim_program.specs.Races.{HasLooks, IsRace, IsRaceAnswer, looks_text};

use crate::ended::Ended;
use crate::faults::{Fault, race_fault};
use cheri_model::Image;
use cores::{BootFault, Core, GREATEST_TRACE_LIMIT};
use harts::{Calls, Gate, HartReport, RunFault, Turn, Viewer, run_harts, run_watched};
use printing::write_line;
use reports::write_report;
use shared_machine::{Naming, Watch};
use sinks::Sink;
use std::alloc::Global;
use std::io::Write;
use std::marker::Model;
use std::sync::Wait;
use std::thread::Threads;
use std::{fmt, thread};

/// A gate that every hart goes through in each of its turns.
#[derive(Clone, Copy)]
struct OpenGate;

impl Gate for OpenGate {
    ghost made = { λ calls. calls };

    fn before(&self, calls: &mut Calls, hart: u8, turn: u32) -> Turn {
        calls.before(hart, turn, Turn::Go)
    }

    fn after(&self, calls: &mut Calls, hart: u8, turn: u32) {
        calls.after(hart, turn);
    }
}

/// How often the viewer of a watched race looks.
const LOOKS: u32 = 100;

/// A viewer that looks a number of times, and keeps how many of its looks showed the machine.
#[derive(Drop)]
struct Looker {
    looks: u32,
}

impl Model for Looker {
    ghost use Rattle.std.specs.Prelude.{ℕ};

    ghost Value = { ℕ };

    ghost use Rattle.std.specs.Prelude.{◌≤◌};
    ghost use Rattle.sim_program.specs.declared.races.TheConstants.{LOOKS};

    ghost view = { λ looker. looker.looks };

    ghost invariant = { λ looker. looker.looks ≤ LOOKS };
}

impl Looker {
    /// A viewer that has not looked yet.
    fn new() -> Looker {
        Looker { looks: 0 }
    }

    /// How many looks of its last view showed the machine.
    fn looks(&self) -> u32
        ensures value { result ≡ self.now }
        ensures most { result ≤ LOOKS }
    {
        self.looks
    }
}

impl Viewer for Looker {
    fn view<J: Naming>(&mut self, watch: Watch<J>) -> Watch<J> {
        let (watch, looks) = look_often(watch);
        self.looks = looks;
        watch
    }
}

/// Looks a number of times through a watch, and counts the looks that showed the machine.
pub fn look_often<J: Naming>(watch: Watch<J>) -> (Watch<J>, u32)
    ensures { result.1 ≤ LOOKS }
{
    let mut watch = watch;
    let mut looks = 0u32;
    for look in 0..LOOKS {
        match watch.look() {
            Ok(shown) => {
                looks += 1;
                watch = shown.end();
            }
            Err(back) => watch = back,
        }
        thread::yield_now();
    }
    (watch, looks)
}

/// How many looks a viewer got, as it is told.
#[derive(Clone, Copy)]
struct Looks(u32);

impl fmt::Display for Looks {
    ghost use Rattle.std.specs.Prelude.{Some};

    ghost output = { λ looks. Some (looks_text looks.0) };

    fn fmt<W: fmt::Write>(&self, f: &mut fmt::Formatter<W>) -> fmt::Result {
        write!(f, "watch looks={}", self.0)
    }
}

/// Writes how many looks a viewer got, whether the line is taken or not.
pub fn write_looks<E: Write>(err: &mut E, looks: u32)
    ensures { TakesPrefix
        (E.contents err.old) (E.contents err.new) (line (looks_text looks)) }
{
    let _ = write_line(err, Looks(looks));
}

/// How a race ends: with the looks of its viewer, where it was watched.
fn race_end(watch: bool, looker: &Looker) -> Ended
    ensures { HasLooks watch result }
{
    if watch {
        Ended::Watched(looker.looks())
    } else {
        Ended::Done
    }
}

/// Races the harts of an image, each in up to this many turns. The viewer looks on only where the
/// race is watched: a race that nobody watches needs one copy of the machine.
fn raced<R: Threads + Wait + Sync>(
    rt: &R,
    alloc: Global,
    image: Image,
    turns: u32,
    watch: bool,
    looker: &mut Looker,
) -> Result<(Core, Vec<HartReport>), RunFault>
    ensures limit { (result ≡ Err (RunFault.Boot BootFault.Limit))
        ↔ (is_limit GREATEST_TRACE_LIMIT ≡ false) }
    ensures image { IfOk result (λ run. run.0.image ≡ image) }
    ensures replay { IfOk result (λ run. IsReplay run.0.image run.0.trace run.0.state) }
    ensures reports { IfOk result (λ run.
        AreReports turns run.0.trace (length image.harts) run.1.items) }
{
    if watch {
        run_watched(
            rt,
            alloc,
            image,
            turns,
            GREATEST_TRACE_LIMIT,
            &OpenGate,
            looker,
        )
    } else {
        run_harts(rt, alloc, image, turns, GREATEST_TRACE_LIMIT, &OpenGate)
    }
}

/// Races the harts of an image, each in up to this many turns.
fn run_race<R: Threads + Wait + Sync>(
    rt: &R,
    alloc: Global,
    image: Image,
    turns: u32,
    watch: bool,
    looker: &mut Looker,
) -> Result<Core, Fault>
    ensures race { IfOk result (λ core. IsRace image turns
        (report core.image core.trace core.state)) }
    ensures refused { IfErr result (λ fault.
        (at : Option (List ℕ)) → Fails (IsRaceAnswer image turns) true fault at at) }
{
    match raced(rt, alloc, image, turns, watch, looker) {
        Ok((core, _reports)) => Ok(core),
        Err(refused) => Err(race_fault(refused)),
    }
}

/// Races the harts of an image, each in up to this many turns, and writes the report of what they
/// left. Where the race is watched, a viewer looks on meanwhile.
pub fn write_race<S: Sink, R: Threads + Wait + Sync>(
    rt: &R,
    alloc: Global,
    image: Image,
    turns: u32,
    watch: bool,
    sink: &mut S,
) -> Result<Ended, Fault>
    ensures written { IfOk result (λ end. HasWhole (IsRaceAnswer image turns) (stop_of end)
        (S.written sink.old) (S.written sink.new)) }
    ensures looks { IfOk result (HasLooks watch) }
    ensures failed { IfErr result (λ fault. Fails (IsRaceAnswer image turns) true fault
        (S.written sink.old) (S.written sink.new)) }
    ensures identity { S.identity sink.new ≡ S.identity sink.old }
{
    let mut looker = Looker::new();
    let core = run_race(rt, alloc, image, turns, watch, &mut looker)?;
    write_report(alloc, core.view(), sink)?;
    Ok(race_end(watch, &looker))
}
