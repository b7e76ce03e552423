//! The loop of one hart: its turns, each one hold of the machine's lock.

ghost use Rattle.std.specs.Prelude.{◌≡◌, ◌≢◌, ◌+◌, ◌≤◌, ◌<◌, ℕ, OnOk, OnErr, Err};
ghost use Rattle.cores.specs.declared.faults.StepFault.{StepFault};
ghost use Rattle.std.specs.Prelude.{◌∷◌, []};
ghost use Rattle.harts.specs.Calls.{AreCalls, AreLast};
ghost use Rattle.harts.specs.Reports.{IsReason, goes_on};
ghost use Rattle.harts.specs.declared.gates.Call.TheVariants.{Before};
ghost use Rattle.harts.specs.declared.gates.Turn.TheVariants.{Go};

use crate::calls::Calls;
use crate::gates::{Gate, Turn};
use crate::lock::Shared;
use cheri_model::{Entry, Outcome};
use cores::StepFault;
use shared_machine::{Naming, Share};
use std::sync::Wait;

/// Why a hart's loop ended.
#[derive(Clone, Copy, Debug, PartialEq, Eq)]
pub enum Why {
    /// All its turns were taken.
    Turns,
    /// The gate ended it.
    Gate,
    /// Its last step halted or trapped.
    Stopped,
    /// A step was refused.
    Refused(StepFault),
}

/// What a hart's loop did: how many steps it took, and why it ended.
#[derive(Clone, Copy, Debug, PartialEq, Eq)]
pub struct HartReport {
    pub hart: u8,
    pub steps: u32,
    pub why: Why,
}

/// Steps the share's hart in up to this many turns. Each turn asks the gate, steps in one hold of
/// the lock, and tells the gate when the lock is free again. Ends before a turn that the gate ends,
/// after a step that halts or traps, and at a step that is refused, of which the gate is not told.
/// A hart is refused as stopped only before its first step. The share has counted just the steps of
/// the report, and the calls are just those of its turns.
pub fn hart_loop<J: Naming, G: Gate, R: Wait>(
    rt: &R,
    shared: &Shared<J>,
    turns: u32,
    gate: &G,
    calls: &mut Calls,
    share: Share<J>,
) -> (HartReport, Share<J>)
    ensures hart { result.0.hart ≡ share.hart }
    ensures share { result.1
        ≡ record { hart = share.hart; amount = share.amount + result.0.steps } }
    ensures turns { result.0.steps ≤ turns }
    ensures why { IsReason turns result.0.steps result.0.why }
    ensures calls { AreCalls (G.made calls.old) (G.made calls.new)
        share.hart result.0.steps result.0.why }
{
    let mut share = share;
    let hart = share.hart();
    for turn in 0..turns {
        match gate.before(calls, hart, turn) {
            Turn::End => return (report(hart, turn, Why::Gate), share),
            Turn::Go => {}
        }
        match step_once(rt, shared, &mut share) {
            Err(fault) => return (report(hart, turn, why_refused(turn, fault)), share),
            Ok(entry) => {
                gate.after(calls, hart, turn);
                if !goes_on(entry.outcome) {
                    return (report(hart, turn + 1, Why::Stopped), share);
                }
            }
        }
    }
    (report(hart, turns, Why::Turns), share)
}

/// Whether a hart goes on after a step that ended so.
fn goes_on(outcome: Outcome) -> bool
    ensures { result ≡ goes_on outcome }
{
    match outcome {
        Outcome::Done => true,
        Outcome::Halt | Outcome::Trap(_) => false,
    }
}

/// Why a loop ends at a step that is refused after so many steps. A hart that is stopped after
/// steps of its own was stopped by the last of them: nobody else has its share.
fn why_refused(steps: u32, fault: StepFault) -> Why
    requires hart_exists { fault ≢ StepFault.NoSuchHart }
    requires steps { fault ≢ StepFault.BadRange }
    ensures why { (turns : ℕ) → steps < turns → IsReason turns steps result }
    ensures calls { (hart : ℕ) → AreLast hart steps result (Before hart steps Go ∷ []) }
{
    match fault {
        StepFault::HartStopped if steps > 0 => Why::Stopped,
        _ => Why::Refused(fault),
    }
}

/// A hart's report.
fn report(hart: u8, steps: u32, why: Why) -> HartReport
    ensures hart { result.hart ≡ hart }
    ensures steps { result.steps ≡ steps }
    ensures why { result.why ≡ why }
{
    HartReport { hart, steps, why }
}

/// One step of the share's hart, in one hold of the lock.
fn step_once<J: Naming, R: Wait>(
    rt: &R,
    shared: &Shared<J>,
    share: &mut Share<J>,
) -> Result<Entry, StepFault>
    ensures counted { OnOk result (share.new
        ≡ record { hart = share.old.hart; amount = share.old.amount + 1 }) }
    ensures kept { OnErr result (share.new ≡ share.old) }
    ensures hart_exists { result ≢ Err StepFault.NoSuchHart }
    ensures steps { result ≢ Err StepFault.BadRange }
{
    shared.lock(rt).step(rt, share)
}
