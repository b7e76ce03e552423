//! The program: assembles files, or reports why it failed.
#![tactic(auto, using(crate::proofs::ProgramLemmas::endings))]

ghost use Rattle.std.specs.Prelude.{◌≡◌, ◌≢◌, ◌≤◌, ◌⊎◌, IfErr, IfOk, Err, None, Some};
ghost use Rattle.asm_line.specs.Requests.{asm_asked, asm_asked_by};
ghost use Rattle.printing.specs.Endings.{FailsBy, HasWhole};
ghost use Rattle.program_io.specs.Faults.{no_memory};
ghost use Rattle.program_io.specs.declared.fault.Fault.TheVariants.{Usage};
ghost use Rattle.asm_program.specs.Faults.{failure_of};
ghost use Rattle.asm_program.specs.Program.{command_line, Concludes, IsAnswer, FailsWith};

use crate::answers::write_assembled;
use crate::faults::Fault;
use crate::texts::read_all;
use asm_line::asm_request;
use inputs::{Files, command_args};
use printing::give_back;
use program_io::{finish, report_fault};
use sinks::{Sink, ToWrite};
use std::alloc::Global;
use std::io::Write;

/// Does what the arguments ask for. The command line is judged first, and then all files are read.
fn answer<F: Files, S: Sink>(
    alloc: Global,
    args: &[String],
    files: &mut F,
    sink: &mut S,
) -> Result<(), Fault>
    ensures printed { IfOk result (λ end. HasWhole
        (IsAnswer (F.bytes_of files.old) (asm_asked (command_line args.now))) end
        (S.written sink.old) (S.written sink.new)) }
    ensures failed { IfErr result (λ fault. FailsBy (failure_of fault)
        (IsAnswer (F.bytes_of files.old) (asm_asked (command_line args.now))) fault
        (S.written sink.old) (S.written sink.new)) }
    ensures nothing { asm_asked (command_line args.now) ≡ None
        → (result ≡ Err Usage) ⊎ (result ≡ Err no_memory) }
    ensures identity { S.identity sink.new ≡ S.identity sink.old }
{
    let args = command_args(alloc, "cheri_asm", args)?;
    let request = asm_request(alloc, args.as_slice())?;
    let texts = read_all(alloc, files, request.files.as_slice())?;
    write_assembled(alloc, &request, texts.as_slice(), sink)
}

/// The exit status of a command that ended so: 0, or that of the fault, which is reported.
fn conclude<E: Write>(err: &mut E, ended: Result<(), Fault>) -> u8
    ensures { Concludes ended result (E.contents err.old) (E.contents err.new) }
{
    match ended {
        Ok(()) => 0,
        Err(fault) => report_fault(err, fault),
    }
}

/// Does what the arguments of a command line ask for, which are those after the program's name, and
/// gives the exit status: 0 where the listing or the map was printed, 1 where the assembly was
/// refused, 2 where the command line was, and 3 for every other fault. With any other status than 0
/// `err` gets the one line of the fault, and nothing was printed, but where a write failed.
pub fn perform<F: Files, O: Write, E: Write>(
    alloc: Global,
    args: &[String],
    files: &mut F,
    out: &mut O,
    err: &mut E,
) -> u8
    ensures status { result ≤ 3 }
    ensures printed { result ≡ 0 → HasWhole
        (IsAnswer (F.bytes_of files.old) (asm_asked (command_line args.now))) tt
        (O.contents out.old) (O.contents out.new) }
    ensures stderr { result ≡ 0 → E.contents err.new ≡ E.contents err.old }

    // With any other status there is a fault that has this status, what it says is so, and `err`
    // got its line, or a prefix of it where a write failed.
    ensures failed { result ≢ 0 → FailsWith (F.bytes_of files.old)
        (asm_asked (command_line args.now)) result (O.contents out.old) (O.contents out.new)
        (E.contents err.old) (E.contents err.new) }
    ensures nothing { asm_asked (command_line args.now) ≡ None → (result ≡ 2) ⊎ (result ≡ 3) }
{
    let mut sink = ToWrite::new(out);
    let answered = answer(alloc, args, files, &mut sink);
    let ended = finish(&mut sink, answered);
    give_back(sink);
    conclude(err, ended)
}
