//! The run of two texts, written in the form that was asked for.
#![tactic(auto, using(crate::proofs::RunLemmas::runs))]

ghost use Rattle.std.specs.Prelude.{◌≡◌, IfOk, IfErr, false, true};
ghost use Rattle.std.specs.Io.KnownBytes.{Appends};
ghost use Rattle.sinks.specs.Sinks.{TakesPrefix};
ghost use Rattle.simulation.specs.Simulation.{IsRefusedRun, IsRunAnd, is_reported};
ghost use Rattle.printing.specs.Endings.{HasWhole};
ghost use Rattle.program_io.specs.Runs.{longest_run};
ghost use Rattle.sim_program.specs.Endings.{Fails, IsRunEnd, ended_at, stop_of};
ghost use Rattle.sim_program.specs.Runs.{IsRunAnswer, report_in};

use crate::ended::Ended;
use crate::faults::Fault;
use command_line::Format;
use cores::{GREATEST_TRACE_LIMIT, StepFault};
use simulation::{SimFault, simulate, simulate_json};
use sinks::Sink;
use std::alloc::Global;

/// Runs a listing in an order, and writes its report in this form.
#[tactic(auto, unfolding(crate::specs::Runs::report_in))]
fn simulate_in<S: Sink>(
    alloc: Global,
    form: Format,
    listing: &[u8],
    order: &[u8],
    sink: &mut S,
) -> Result<Option<(usize, StepFault)>, SimFault>
    ensures shown { IfOk result (λ end.
        IsRunAnd (longest_run listing.now order.now) (λ run. (run.1 ≡ end)
        × Appends (S.written sink.old) (S.written sink.new) (report_in form run))) }
    ensures refused { IfErr result (λ fault.
        IsRefusedRun (longest_run listing.now order.now)
        (λ run. TakesPrefix (S.written sink.old) (S.written sink.new) (report_in form run)) fault) }
    ensures untouched { IfErr result (λ fault. is_reported fault ≡ false → sink.new ≡ sink.old) }
    ensures identity { S.identity sink.new ≡ S.identity sink.old }
{
    match form {
        Format::Text => simulate(alloc, listing, order, GREATEST_TRACE_LIMIT, sink),
        Format::Json => simulate_json(alloc, listing, order, GREATEST_TRACE_LIMIT, sink),
    }
}

/// How a run ends: at the step that was refused, if one was.
fn ended_at(refused: Option<(usize, StepFault)>) -> Ended
    ensures { result ≡ ended_at refused }
{
    match refused {
        None => Ended::Done,
        Some((place, fault)) => Ended::Stopped(place, fault),
    }
}

/// Runs a listing in an order, and writes its report in this form while it is made.
pub fn write_run<S: Sink>(
    alloc: Global,
    form: Format,
    listing: &[u8],
    order: &[u8],
    sink: &mut S,
) -> Result<Ended, Fault>
    ensures written { IfOk result (λ end.
        HasWhole (IsRunAnswer form listing.now order.now) (stop_of end)
        (S.written sink.old) (S.written sink.new)) }
    ensures end { IfOk result IsRunEnd }
    ensures failed { IfErr result (λ fault.
        Fails (IsRunAnswer form listing.now order.now) true fault
        (S.written sink.old) (S.written sink.new)) }
    ensures identity { S.identity sink.new ≡ S.identity sink.old }
{
    let refused = simulate_in(alloc, form, listing, order, sink)?;
    Ok(ended_at(refused))
}
