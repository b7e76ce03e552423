//! The run of two texts, a listing and an order, to the report of what ran.

ghost use Rattle.std.specs.Prelude.{◌≡◌, ◌+◌, IfOk, IfErr, false};
ghost use Rattle.simulation.specs.Simulation.{IsRunUnwritten, IsRunWritten, run_of_texts};
ghost use Rattle.simulation.specs.Simulation.{core_report, is_reported, failures_of_run, report_of};

use crate::faults::SimFault;
use crate::run_text::{RunText, run_and_write};
use cores::{Core, StepFault};
use reports::{Sink, write_report};
use sinks::WriteFault;
use std::alloc::Global;

/// The report of a run.
#[derive(Clone, Copy)]
struct Report;

impl RunText for Report {
    ghost text = { λ _ _ core. core_report core };

    fn write<S: Sink>(
        &self,
        alloc: Global,
        _listing: &[u8],
        core: &Core,
        sink: &mut S,
    ) -> Result<(), WriteFault> {
        write_report(alloc, core.view(), sink)
    }
}

/// Runs the machine of a listing in an order, with a trace of at most `limit` events, and writes
/// its report, as [`run_and_write`](crate::run_and_write) does any text of a run.
pub fn simulate<S: Sink>(
    alloc: Global,
    listing: &[u8],
    order: &[u8],
    limit: u32,
    out: &mut S,
) -> Result<Option<(usize, StepFault)>, SimFault>
    ensures shown { IfOk result (IsRunWritten (run_of_texts listing.now order.now limit)
        report_of (S.written out.old) (S.written out.new)) }
    ensures refused { IfErr result (IsRunUnwritten (run_of_texts listing.now order.now limit)
        report_of (S.written out.old) (S.written out.new)) }
    ensures untouched { IfErr result (λ fault. is_reported fault ≡ false → out.new ≡ out.old) }
    ensures failures { S.failures out.new ≡ S.failures out.old + failures_of_run result }
    ensures identity { S.identity out.new ≡ S.identity out.old }
{
    run_and_write(alloc, listing, order, limit, &Report, out)
}
