//! The program: explains one run, or reports why it failed.
#![tactic(auto, using(crate::proofs::ProgramLemmas::endings))]

ghost use Rattle.std.specs.Prelude.{◌≡◌, ◌≢◌, ◌≤◌, ◌⊎◌, IfErr, IfOk, Err, None, Some, option_map};
ghost use Rattle.explain_line.specs.Requests.{explain_asked, explain_asked_by};
ghost use Rattle.printing.specs.Endings.{FailsBy, HasWhole};
ghost use Rattle.program_io.specs.Faults.{no_memory};
ghost use Rattle.program_io.specs.declared.fault.Fault.TheVariants.{Usage};
ghost use Rattle.explain_program.specs.Faults.{failure_of};
ghost use Rattle.explain_program.specs.Program.{command_line, IsAnswer, Concludes, FailsWith};
ghost use Rattle.explain_program.specs.Program.{IsMapAnswer, IsMapped};

use crate::explaining::write_asked;
use crate::faults::{Fault, OwnFault};
use crate::mapped::{read_map_text, sources_of};
use cores::StepFault;
use explain_line::{ExplainRequest, explain_request};
use inputs::{Files, command_args, read_texts};
use printing::give_back;
use program_io::{finish, report_fault};
use sinks::{Sink, ToWrite};
use std::alloc::Global;
use std::io::Write;

/// Explains a listing in an order by the map of the listing's program. The listing is judged before
/// the map, and the map before the order.
fn explain_by<S: Sink>(
    alloc: Global,
    request: ExplainRequest<'_>,
    map: &[u8],
    listing: &[u8],
    order: &[u8],
    sink: &mut S,
) -> Result<Option<(usize, StepFault)>, Fault>
    ensures printed { IfOk result (λ end. HasWhole
        (IsMapped map.now (explain_asked_by request.entry) listing.now order.now) end
        (S.written sink.old) (S.written sink.new)) }
    ensures failed { IfErr result (λ fault. FailsBy (failure_of fault)
        (IsMapped map.now (explain_asked_by request.entry) listing.now order.now) fault
        (S.written sink.old) (S.written sink.new)) }
    ensures identity { S.identity sink.new ≡ S.identity sink.old }
{
    let sources = sources_of(alloc, listing, map)?;
    write_asked(
        alloc,
        request,
        Some(sources.as_slice()),
        listing,
        order,
        sink,
    )
}

/// Explains a listing in an order, by the map that a request names, if it names one.
fn explain_texts<F: Files, S: Sink>(
    alloc: Global,
    request: ExplainRequest<'_>,
    files: &mut F,
    listing: &[u8],
    order: &[u8],
    sink: &mut S,
) -> Result<Option<(usize, StepFault)>, Fault>
    ensures printed { IfOk result (λ end. HasWhole
        (IsMapAnswer (option_map (F.bytes_of files.old) (explain_asked_by request.entry).map)
        (explain_asked_by request.entry) listing.now order.now) end
        (S.written sink.old) (S.written sink.new)) }
    ensures failed { IfErr result (λ fault. FailsBy (failure_of fault)
        (IsMapAnswer (option_map (F.bytes_of files.old) (explain_asked_by request.entry).map)
        (explain_asked_by request.entry) listing.now order.now) fault
        (S.written sink.old) (S.written sink.new)) }
    ensures identity { S.identity sink.new ≡ S.identity sink.old }
{
    match request.map {
        None => write_asked(alloc, request, None, listing, order, sink),
        Some(name) => {
            let map = read_map_text(files, name)?;
            explain_by(alloc, request, map.as_slice(), listing, order, sink)
        }
    }
}

/// Explains what a request asks for.
fn explain<F: Files, S: Sink>(
    alloc: Global,
    request: ExplainRequest<'_>,
    files: &mut F,
    sink: &mut S,
) -> Result<Option<(usize, StepFault)>, Fault>
    ensures printed { IfOk result (λ end. HasWhole
        (IsAnswer (F.bytes_of files.old) (Some (explain_asked_by request.entry))) end
        (S.written sink.old) (S.written sink.new)) }
    ensures failed { IfErr result (λ fault. FailsBy (failure_of fault)
        (IsAnswer (F.bytes_of files.old) (Some (explain_asked_by request.entry))) fault
        (S.written sink.old) (S.written sink.new)) }
    ensures identity { S.identity sink.new ≡ S.identity sink.old }
{
    let texts = read_texts(files, request.listing, request.order)?;
    let (listing, order) = (texts.listing.as_slice(), texts.order.as_slice());
    explain_texts(alloc, request, files, listing, order, sink)
}

/// Does what the arguments ask for. The command line is judged first. Answers the step that was
/// refused, if one was.
fn answer<F: Files, S: Sink>(
    alloc: Global,
    args: &[String],
    files: &mut F,
    sink: &mut S,
) -> Result<Option<(usize, StepFault)>, Fault>
    ensures printed { IfOk result (λ end. HasWhole
        (IsAnswer (F.bytes_of files.old) (explain_asked (command_line args.now))) end
        (S.written sink.old) (S.written sink.new)) }
    ensures failed { IfErr result (λ fault. FailsBy (failure_of fault)
        (IsAnswer (F.bytes_of files.old) (explain_asked (command_line args.now))) fault
        (S.written sink.old) (S.written sink.new)) }
    ensures nothing { explain_asked (command_line args.now) ≡ None
        → (result ≡ Err Usage) ⊎ (result ≡ Err no_memory) }
    ensures identity { S.identity sink.new ≡ S.identity sink.old }
{
    let args = command_args(alloc, "cheri_explain", args)?;
    let request = explain_request(alloc, args.as_slice())?;
    explain(alloc, request, files, sink)
}

/// The exit status of a command that ended so: 0, or that of the fault, which is reported. A step
/// that was refused is such a fault.
fn conclude<E: Write>(err: &mut E, ended: Result<Option<(usize, StepFault)>, Fault>) -> u8
    ensures { Concludes ended result (E.contents err.old) (E.contents err.new) }
{
    match ended {
        Ok(None) => 0,
        Ok(Some((place, fault))) => report_fault(err, Fault::Own(OwnFault::Step(place, fault))),
        Err(fault) => report_fault(err, fault),
    }
}

/// Does what the arguments of a command line ask for, which are those after the program's name, and
/// gives the exit status: 0 where the whole explanation was printed, 1 where a text or a step was
/// refused or a page has too many events, 2 where the command line was, and 3 for every other
/// fault. With status 0 `out` got the whole answer and `err` nothing. With any other status `err`
/// gets the one line of the fault; where a step was refused, after the explanation of the steps
/// before it. A write to `err` that fails does not change the status.
pub fn perform<F: Files, O: Write, E: Write>(
    alloc: Global,
    args: &[String],
    files: &mut F,
    out: &mut O,
    err: &mut E,
) -> u8
    ensures status { result ≤ 3 }
    ensures printed { result ≡ 0 → HasWhole
        (IsAnswer (F.bytes_of files.old) (explain_asked (command_line args.now))) None
        (O.contents out.old) (O.contents out.new) }
    ensures stderr { result ≡ 0 → E.contents err.new ≡ E.contents err.old }

    // With any other status there is a fault that has this status, what it says is so, and `err`
    // got its line, or a prefix of it where a write failed.
    ensures failed { result ≢ 0 → FailsWith (F.bytes_of files.old)
        (explain_asked (command_line args.now)) result (O.contents out.old) (O.contents out.new)
        (E.contents err.old) (E.contents err.new) }
    ensures nothing { explain_asked (command_line args.now) ≡ None
        → (result ≡ 2) ⊎ (result ≡ 3) }
{
    let mut sink = ToWrite::new(out);
    let answered = answer(alloc, args, files, &mut sink);
    let ended = finish(&mut sink, answered);
    give_back(sink);
    conclude(err, ended)
}
