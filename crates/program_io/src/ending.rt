//! The end of a program: its answer is flushed, and a fault is reported.
#![tactic(auto, using(crate::proofs::EndingLemmas::flushed))]

ghost use Rattle.std.specs.Prelude.{◌≡◌, IfSome};
ghost use Rattle.report_lines.specs.Texts.{line};
ghost use Rattle.sinks.specs.Sinks.{TakesPrefix};
ghost use Rattle.program_io.specs.Endings.{IsFlushed};
ghost use Rattle.program_io.specs.Faults.{status_of, text_of};

use crate::fault::{Fault, ProgramFault};
use printing::write_line;
use sinks::ToWrite;
use std::io::Write;

/// Ends an answer: one that was written whole is flushed.
pub fn finish<O: Write, End: Copy, Own: Copy>(
    sink: &mut ToWrite<'_, O>,
    answered: Result<End, Fault<Own>>,
) -> Result<End, Fault<Own>>
    ensures flushed { IsFlushed answered result
        (O.contents sink.old.writer.now) (O.contents sink.new.writer.now) }
    ensures same { sink.new.writer.ghost_name ≡ sink.old.writer.ghost_name }
{
    match answered {
        Ok(end) => match sink.flush() {
            Ok(()) => Ok(end),
            Err(_) => Err(Fault::CannotWrite),
        },
        Err(fault) => Err(fault),
    }
}

/// Reports a fault in one line, and gives its status, whether the line was taken or not.
pub fn report_fault<E: Write, Own: ProgramFault>(err: &mut E, fault: Fault<Own>) -> u8
    ensures status { result ≡ status_of Own.refusal fault }
    ensures told { IfSome (text_of Own.output fault) (λ text.
        TakesPrefix (E.contents err.old) (E.contents err.new) (line text)) }
{
    let _ = write_line(err, fault);
    fault.status()
}
