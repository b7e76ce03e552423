//! The run of two texts, a listing and an order, to the JSON report of what ran.

ghost use Rattle.std.specs.Prelude.{◌≡◌, ◌+◌, IfOk, IfErr, false};
ghost use Rattle.simulation.specs.Simulation.{IsRunUnwritten, IsRunWritten, run_of_texts};
ghost use Rattle.simulation.specs.Simulation.{core_json, is_reported, failures_of_run, json_of};

use crate::faults::SimFault;
use crate::run_text::{RunText, run_and_write};
use cores::{Core, StepFault};
use reports::{Sink, put_whole, write_json};
use sinks::WriteFault;
use std::alloc::Global;

/// The JSON report of a run, in one line.
#[derive(Clone, Copy)]
struct JsonReport;

impl RunText for JsonReport {
    ghost text = { λ _ _ core. core_json core };

    fn write<S: Sink>(
        &self,
        alloc: Global,
        _listing: &[u8],
        core: &Core,
        sink: &mut S,
    ) -> Result<(), WriteFault> {
        write_json(alloc, core.view(), sink)?;
        put_whole(sink, b"\n")?;
        Ok(())
    }
}

/// As [`simulate`](crate::simulate), with a JSON report in one line.
pub fn simulate_json<S: Sink>(
    alloc: Global,
    listing: &[u8],
    order: &[u8],
    limit: u32,
    out: &mut S,
) -> Result<Option<(usize, StepFault)>, SimFault>
    ensures shown { IfOk result (IsRunWritten (run_of_texts listing.now order.now limit)
        json_of (S.written out.old) (S.written out.new)) }
    ensures refused { IfErr result (IsRunUnwritten (run_of_texts listing.now order.now limit)
        json_of (S.written out.old) (S.written out.new)) }
    ensures untouched { IfErr result (λ fault. is_reported fault ≡ false → out.new ≡ out.old) }
    ensures failures { S.failures out.new ≡ S.failures out.old + failures_of_run result }
    ensures identity { S.identity out.new ≡ S.identity out.old }
{
    run_and_write(alloc, listing, order, limit, &JsonReport, out)
}
