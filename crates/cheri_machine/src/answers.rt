//! What calls answer: structs by what they mean.

ghost use Rattle.std.specs.Prelude.{◌≡◌, ◌/◌, ◌%◌, ◌^◌};
ghost use Rattle.cheri_machine.specs.Machines.{
  event_struct,
  hart_struct,
  no_event,
  no_hart_struct,
  no_value,
  status_of_fault,
  taken,
  value_struct,
};

use crate::status;
use crate::structs::{CheriEvent, CheriHart, CheriValue};
use cap_ops::Cap;
use cheri_model::{Entry, Event, Outcome, Status};
use cores::StepFault;

/// An answer without an event.
pub(crate) fn no_event(status: u32) -> CheriEvent
    ensures { result ≡ no_event status }
{
    CheriEvent {
        status,
        cleared: 0,
        kind: 0,
        hart: 0,
        outcome: 0,
        cause: 0,
        reg: 0,
        pc: 0,
        lo: 0,
        hi: 0,
        hi_high: 0,
    }
}

/// An answer without a value.
pub(crate) fn no_value(status: u32) -> CheriValue
    ensures { result ≡ no_value status }
{
    CheriValue {
        addr: 0,
        upper: 0,
        tag: false,
        status,
    }
}

/// An answer without a hart.
pub(crate) fn no_hart(status: u32) -> CheriHart
    ensures { result ≡ no_hart_struct status }
{
    CheriHart {
        status,
        state: 0,
        cause: 0,
        reg: 0,
    }
}

/// A step.
fn step_struct(entry: Entry) -> CheriEvent
    ensures { result ≡ event_struct (Event.Step entry) }
{
    let (outcome, cause, reg) = match entry.outcome {
        Outcome::Done => (0, 0, 0),
        Outcome::Halt => (1, 0, 0),
        Outcome::Trap(trap) => (2, trap.cause, trap.reg),
    };
    CheriEvent {
        status: status::DONE,
        cleared: 0,
        kind: 1,
        hart: entry.hart,
        outcome,
        cause,
        reg,
        pc: entry.pc,
        lo: 0,
        hi: 0,
        hi_high: 0,
    }
}

/// The halves of a number, the lower one first.
fn halves(number: u128) -> (u64, u64)
    ensures low { result.0 ≡ number % 2 ^ 64 }
    ensures high { result.1 ≡ number / 2 ^ 64 }
{
    (
        (number & 0xffff_ffff_ffff_ffff) as u64,
        (number >> 64) as u64,
    )
}

/// A sweep.
fn sweep_struct(cleared: u32, lo: u64, hi: u128) -> CheriEvent
    ensures { result ≡ event_struct (Event.Sweep cleared lo hi) }
{
    let (hi, hi_high) = halves(hi);
    CheriEvent {
        status: status::DONE,
        cleared,
        kind: 2,
        hart: 0,
        outcome: 0,
        cause: 0,
        reg: 0,
        pc: 0,
        lo,
        hi,
        hi_high,
    }
}

/// An event.
pub(crate) fn event_struct(event: Event) -> CheriEvent
    ensures { result ≡ event_struct event }
{
    match event {
        Event::Step(entry) => step_struct(entry),
        Event::Sweep { cleared, lo, hi } => sweep_struct(cleared, lo, hi),
    }
}

/// The status of a refused operation.
fn status_of(fault: StepFault) -> u32
    ensures { result ≡ status_of_fault fault }
{
    match fault {
        StepFault::NoSuchHart => status::NO_SUCH_HART,
        StepFault::TraceFull => status::TRACE_FULL,
        StepFault::HartStopped => status::HART_STOPPED,
        StepFault::NoMemory => status::NO_MEMORY,
        StepFault::BadRange => status::BAD_RANGE,
    }
}

/// An operation's event, or why it is refused.
pub(crate) fn taken(answer: Result<Event, StepFault>) -> CheriEvent
    ensures { result ≡ taken answer }
{
    match answer {
        Ok(event) => event_struct(event),
        Err(fault) => no_event(status_of(fault)),
    }
}

/// A value.
pub(crate) fn value_struct(value: Cap) -> CheriValue
    ensures { result ≡ value_struct value }
{
    CheriValue {
        addr: value.addr(),
        upper: value.high(),
        tag: value.tag(),
        status: status::DONE,
    }
}

/// Whether a hart runs.
pub(crate) fn hart_struct(hart: Status) -> CheriHart
    ensures { result ≡ hart_struct hart }
{
    let (state, cause, reg) = match hart {
        Status::Running => (0, 0, 0),
        Status::Halted => (1, 0, 0),
        Status::Trapped(trap) => (2, trap.cause, trap.reg),
    };
    CheriHart {
        status: status::DONE,
        state,
        cause,
        reg,
    }
}
