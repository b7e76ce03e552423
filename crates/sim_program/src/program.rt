//! The program: runs one command, or reports why it failed.
#![tactic(auto, using(crate::proofs::ProgramLemmas::endings))]

ghost use Rattle.std.specs.Prelude.{None, ◌≡◌, ◌≢◌, ◌≤◌, ◌⊎◌, IfOk, IfErr, Err, Some, false, true};
ghost use Rattle.command_line.specs.Requests.{asked, asked_by, Check, Run, Race};
ghost use Rattle.grammar.specs.Tokens.{texts};
ghost use Rattle.number_lines.specs.Numbers.{range_answer, word_answer};
ghost use Rattle.printing.specs.Endings.{HasWhole};
ghost use Rattle.program_io.specs.Faults.{no_memory};
ghost use Rattle.program_io.specs.declared.fault.Fault.TheVariants.{Usage};
ghost use Rattle.sim_program.specs.Endings.{Fails, IsRunEnd, stop_of};
ghost use Rattle.sim_program.specs.Program.{command_line, IsAnswer, IsEndOf, IsNumbersAnswer};
ghost use Rattle.sim_program.specs.Program.{Concludes, FailsWith, StderrGets, is_in_pieces};
ghost use Rattle.sim_program.specs.Races.{HasLooks};

use crate::answers::check_text;
use crate::ended::Ended;
use crate::faults::{Fault, OwnFault, number_fault};
use crate::races::{write_looks, write_race};
use crate::runs::write_run;
use command_line::{Format, Request, parse};
use inputs::{Files, command_args, read_image, read_texts};
use number_lines::{range_line, word_line};
use printing::give_back;
use program_io::{finish, report_fault};
use sinks::{Sink, ToWrite, put_whole};
use std::alloc::{AllocError, Global};
use std::io::Write;
use std::sync::Wait;
use std::thread::Threads;

/// `check LISTING`.
fn check<F: Files, S: Sink>(
    alloc: Global,
    listing: &str,
    files: &mut F,
    sink: &mut S,
) -> Result<Ended, Fault>
    ensures written { IfOk result (λ end. HasWhole
        (IsAnswer (F.bytes_of files.old) (Some (Check listing.now))) (stop_of end)
        (S.written sink.old) (S.written sink.new)) }
    ensures end { IfOk result IsRunEnd }
    ensures failed { IfErr result (λ fault. Fails
        (IsAnswer (F.bytes_of files.old) (Some (Check listing.now))) false fault
        (S.written sink.old) (S.written sink.new)) }
    ensures identity { S.identity sink.new ≡ S.identity sink.old }
{
    let image = read_image(alloc, files, listing)?;
    put_whole(sink, check_text(alloc, &image)?.as_bytes())?;
    Ok(Ended::Done)
}

/// `run LISTING --order FILE [--json]`: both files are read before either is judged.
fn run<F: Files, S: Sink>(
    alloc: Global,
    listing: &str,
    order: &str,
    form: Format,
    files: &mut F,
    sink: &mut S,
) -> Result<Ended, Fault>
    ensures written { IfOk result (λ end. HasWhole
        (IsAnswer (F.bytes_of files.old) (Some (Run listing.now order.now form))) (stop_of end)
        (S.written sink.old) (S.written sink.new)) }
    ensures end { IfOk result IsRunEnd }
    ensures failed { IfErr result (λ fault. Fails
        (IsAnswer (F.bytes_of files.old) (Some (Run listing.now order.now form))) true fault
        (S.written sink.old) (S.written sink.new)) }
    ensures identity { S.identity sink.new ≡ S.identity sink.old }
{
    let texts = read_texts(files, listing, order)?;
    write_run(
        alloc,
        form,
        texts.listing.as_slice(),
        texts.order.as_slice(),
        sink,
    )
}

/// What `race` is asked for: the file of the listing, the most turns of a hart, and whether a
/// viewer looks on.
#[derive(Clone, Copy)]
struct RaceAsked<'a> {
    listing: &'a str,
    turns: u32,
    watch: bool,
}

/// `race LISTING --turns N [--watch]`: done, whatever stopped the harts.
fn race<F: Files, S: Sink, R: Threads + Wait + Sync>(
    rt: &R,
    alloc: Global,
    asked: RaceAsked<'_>,
    files: &mut F,
    sink: &mut S,
) -> Result<Ended, Fault>
    ensures written { IfOk result (λ end. HasWhole (IsAnswer (F.bytes_of files.old)
        (Some (Race asked.entry.listing.now asked.entry.turns asked.entry.watch))) (stop_of end)
        (S.written sink.old) (S.written sink.new)) }
    ensures looks { IfOk result (HasLooks asked.entry.watch) }
    ensures failed { IfErr result (λ fault. Fails (IsAnswer (F.bytes_of files.old)
        (Some (Race asked.entry.listing.now asked.entry.turns asked.entry.watch))) true fault
        (S.written sink.old) (S.written sink.new)) }
    ensures identity { S.identity sink.new ≡ S.identity sink.old }
{
    let image = read_image(alloc, files, asked.listing)?;
    write_race(rt, alloc, image, asked.turns, asked.watch, sink)
}

/// `bounds BASE LEN`.
fn bounds<S: Sink>(alloc: Global, base: &str, len: &str, sink: &mut S) -> Result<Ended, Fault>
    ensures written { IfOk result (λ end. HasWhole
        (IsNumbersAnswer (range_answer base.now len.now)) (stop_of end)
        (S.written sink.old) (S.written sink.new)) }
    ensures end { IfOk result IsRunEnd }
    ensures failed { IfErr result (λ fault. Fails (IsNumbersAnswer (range_answer base.now len.now))
        false fault (S.written sink.old) (S.written sink.new)) }
    ensures identity { S.identity sink.new ≡ S.identity sink.old }
{
    let line = match range_line(alloc, base.as_bytes(), len.as_bytes()) {
        Ok(line) => line,
        Err(refused) => return Err(number_fault(refused)),
    };
    put_whole(sink, line.as_bytes())?;
    Ok(Ended::Done)
}

/// `decode WORD`.
fn decode<S: Sink>(alloc: Global, word: &str, sink: &mut S) -> Result<Ended, Fault>
    ensures written { IfOk result (λ end. HasWhole (IsNumbersAnswer (word_answer word.now))
        (stop_of end) (S.written sink.old) (S.written sink.new)) }
    ensures end { IfOk result IsRunEnd }
    ensures failed { IfErr result (λ fault. Fails (IsNumbersAnswer (word_answer word.now)) false
        fault (S.written sink.old) (S.written sink.new)) }
    ensures identity { S.identity sink.new ≡ S.identity sink.old }
{
    let fields = match word_line(alloc, word.as_bytes()) {
        Ok(fields) => fields,
        Err(refused) => return Err(number_fault(refused)),
    };
    put_whole(sink, fields.as_bytes())?;
    Ok(Ended::Done)
}

/// The arguments of the command line, of which the program's name is the first.
fn args_of<'a>(alloc: Global, args: &'a [String]) -> Result<Vec<&'a str>, AllocError>
    ensures { IfOk result (λ all. texts all.items ≡ command_line args.now) }
{
    command_args(alloc, "cheri_sim", args)
}

/// Does what a command line asks for.
fn obey<F: Files, S: Sink, R: Threads + Wait + Sync>(
    rt: &R,
    alloc: Global,
    request: Request<'_>,
    files: &mut F,
    sink: &mut S,
) -> Result<Ended, Fault>
    ensures written { IfOk result (λ end. HasWhole
        (IsAnswer (F.bytes_of files.old) (Some (asked_by request.entry))) (stop_of end)
        (S.written sink.old) (S.written sink.new)) }
    ensures end { IfOk result (IsEndOf (Some (asked_by request.entry))) }
    ensures failed { IfErr result (λ fault. Fails
        (IsAnswer (F.bytes_of files.old) (Some (asked_by request.entry)))
        (is_in_pieces (Some (asked_by request.entry))) fault
        (S.written sink.old) (S.written sink.new)) }
    ensures identity { S.identity sink.new ≡ S.identity sink.old }
{
    match request {
        Request::Check { listing } => check(alloc, listing, files, sink),
        Request::Run {
            listing,
            order,
            form,
        } => run(alloc, listing, order, form, files, sink),
        Request::Race {
            listing,
            turns,
            watch,
        } => {
            let asked = RaceAsked {
                listing,
                turns,
                watch,
            };
            race(rt, alloc, asked, files, sink)
        }
        Request::Bounds { base, len } => bounds(alloc, base, len, sink),
        Request::Decode { word } => decode(alloc, word, sink),
    }
}

/// Does what the arguments ask for. The command line is judged first.
fn answer<F: Files, S: Sink, R: Threads + Wait + Sync>(
    rt: &R,
    alloc: Global,
    args: &[String],
    files: &mut F,
    sink: &mut S,
) -> Result<Ended, Fault>
    ensures written { IfOk result (λ end. HasWhole
        (IsAnswer (F.bytes_of files.old) (asked (command_line args.now))) (stop_of end)
        (S.written sink.old) (S.written sink.new)) }
    ensures end { IfOk result (IsEndOf (asked (command_line args.now))) }
    ensures failed { IfErr result (λ fault. Fails
        (IsAnswer (F.bytes_of files.old) (asked (command_line args.now)))
        (is_in_pieces (asked (command_line args.now))) fault
        (S.written sink.old) (S.written sink.new)) }
    ensures nothing { asked (command_line args.now) ≡ None
        → (result ≡ Err Usage) ⊎ (result ≡ Err no_memory) }
    ensures identity { S.identity sink.new ≡ S.identity sink.old }
{
    let args = args_of(alloc, args)?;
    let request = parse(alloc, args.as_slice())?;
    obey(rt, alloc, request, files, sink)
}

/// The exit status of a command that ended so: 0, or that of the fault, which is reported. A step
/// that was refused is such a fault. The looks of a watched race are written to `err`.
fn conclude<E: Write>(err: &mut E, ended: Result<Ended, Fault>) -> u8
    ensures { Concludes ended result (E.contents err.old) (E.contents err.new) }
{
    match ended {
        Ok(Ended::Done) => 0,
        Ok(Ended::Watched(looks)) => {
            write_looks(err, looks);
            0
        }
        Ok(Ended::Stopped(place, fault)) => {
            report_fault(err, Fault::Own(OwnFault::Step(place, fault)))
        }
        Err(fault) => report_fault(err, fault),
    }
}

/// Does what the arguments of a command line ask for, which are those after the program's name, and
/// gives the exit status: 0 where it was done, 1 where a number, a text or a step was refused, 2
/// where the command line was, and 3 for every other fault. With status 0 `out` got the whole
/// answer and `err` nothing, or after a watched race the line of the looks (`watch looks=N`, N at
/// most 100) or a prefix of it where a write failed. With any other status `err` gets the one
/// line of the fault. A write to `err` that fails does not change the status. Only a race starts
/// threads and waits.
pub fn perform<F: Files, O: Write, E: Write, R: Threads + Wait + Sync>(
    rt: &R,
    alloc: Global,
    args: &[String],
    files: &mut F,
    out: &mut O,
    err: &mut E,
) -> u8
    ensures status { result ≤ 3 }
    ensures printed { result ≡ 0 → HasWhole
        (IsAnswer (F.bytes_of files.old) (asked (command_line args.now))) None
        (O.contents out.old) (O.contents out.new) }
    ensures stderr { result ≡ 0 → StderrGets (asked (command_line args.now))
        (E.contents err.old) (E.contents err.new) }

    // With any other status there is a fault that has this status, what it says is so, and `err`
    // got its line, or a prefix of it where a write failed.
    ensures failed { result ≢ 0 → FailsWith (F.bytes_of files.old)
        (asked (command_line args.now)) result (O.contents out.old) (O.contents out.new)
        (E.contents err.old) (E.contents err.new) }
    ensures nothing { asked (command_line args.now) ≡ None → (result ≡ 2) ⊎ (result ≡ 3) }
{
    let mut sink = ToWrite::new(out);
    let answered = answer(rt, alloc, args, files, &mut sink);
    let ended = finish(&mut sink, answered);
    give_back(sink);
    conclude(err, ended)
}
