//! The lines of a state: those of its harts and of its memory. They need no trace.
#![tactic(auto, unfolding(crate::specs::Report::hart_lines))]

ghost use Rattle.std.specs.Prelude.{◌≡◌, ◌+◌, ◌++◌, OnOk, string_bytes};
ghost use Rattle.report_lines.specs.Lines.{granule_line};
ghost use Rattle.report_lines.specs.Texts.{numbered};
ghost use Rattle.reports.specs.Report.{hart_lines, register_lines};
ghost use Rattle.sinks.specs.Sinks.{TakesAllBut, TakesPrefix};
ghost use Rattle.sinks.specs.WriteFaults.{failures_of};

use cheri_model::{NoMemory, Reg};
use hart::Hart;
use report_lines::{write_granule_line, write_pcc_line, write_register_line, write_status_line};
use sinks::{Sink, WriteFault, make_room};
use tagged_mem::Ram;

/// Appends the lines of the registers c1 to c31.
fn write_registers(out: &mut String, hart: &Hart) -> Result<(), NoMemory>
    ensures { OnOk result (string_bytes out.new
        ≡ string_bytes out.old ++ register_lines hart.now 1 31) }
{
    for number in 1..32 {
        write_register_line(out, number, hart.register(Reg::new(number)))?;
    }
    Ok(())
}

/// Appends the lines of a hart.
fn write_hart(out: &mut String, number: usize, hart: &Hart) -> Result<(), NoMemory>
    ensures { OnOk result (string_bytes out.new
        ≡ string_bytes out.old ++ hart_lines number hart.now) }
{
    write_status_line(out, number, hart.status())?;
    write_pcc_line(out, hart.pcc())?;
    write_registers(out, hart)
}

/// Writes the lines of the harts, after what is kept in `out`. Whenever another part might not fit,
/// what is kept is put to the sink; the rest stays in `out`.
pub fn put_harts<S: Sink>(out: &mut String, sink: &mut S, harts: &[Hart]) -> Result<(), WriteFault>
    ensures whole { OnOk result (TakesAllBut (S.written sink.old) (S.written sink.new)
        (string_bytes out.new) (string_bytes out.old ++ numbered hart_lines 0 harts.now)) }
    ensures prefix { TakesPrefix (S.written sink.old) (S.written sink.new)
        (string_bytes out.old ++ numbered hart_lines 0 harts.now) }
    ensures failures { S.failures sink.new ≡ S.failures sink.old + failures_of result }
    ensures identity { S.identity sink.new ≡ S.identity sink.old }
{
    for (number, hart) in harts.iter().enumerate() {
        write_hart(out, number, hart)?;
        make_room(out, sink)?;
    }
    Ok(())
}

/// Writes the lines of the granules, as `put_harts` those of the harts.
pub fn put_granules<S: Sink>(out: &mut String, sink: &mut S, ram: &Ram) -> Result<(), WriteFault>
    ensures whole { OnOk result (TakesAllBut (S.written sink.old) (S.written sink.new)
        (string_bytes out.new) (string_bytes out.old ++ numbered granule_line 0 ram.now)) }
    ensures prefix { TakesPrefix (S.written sink.old) (S.written sink.new)
        (string_bytes out.old ++ numbered granule_line 0 ram.now) }
    ensures failures { S.failures sink.new ≡ S.failures sink.old + failures_of result }
    ensures identity { S.identity sink.new ≡ S.identity sink.old }
{
    for number in 0..ram.granule_count() {
        write_granule_line(out, number, ram.granule(number))?;
        make_room(out, sink)?;
    }
    Ok(())
}
