//! Outcomes, statuses and events as texts.

#![tactic(auto, using(crate::proofs::Unfold::lengths), unfolding(crate::proofs::Unfold::event_texts))]

ghost use Rattle.std.specs.Prelude.{◌≡◌, ◌<◌, ◌++◌, OnOk, Some, string_bytes};
ghost use Rattle.std.specs.Fmt.{DisplaysOnOk};
ghost use Rattle.cheri_model.specs.declared.operation.Event.TheVariants as event;
ghost use Rattle.report_lines.specs.EventText.{cause_text, done_text, event_text, outcome_text};
ghost use Rattle.report_lines.specs.EventText.{status_text};
ghost use Rattle.report_lines.specs.declared.event_text.TheConstants.{FIRST_LONG_NUMBER};

use crate::digits::{Hex, put_before};
use cheri_model::{Entry, Event, NoMemory, Outcome, Status, Trap};
use itoa::{Buffer, Integer, write_digits};
use std::fmt;
use text_numbers::{BUFFER, Hex64, word_digits};

/// A trap's cause and register.
#[derive(Clone, Copy)]
struct Cause(Trap);

impl fmt::Display for Cause {
    ghost output = { λ c. Some (cause_text c.0) };

    fn fmt<W: fmt::Write>(&self, f: &mut fmt::Formatter<W>) -> fmt::Result {
        let Trap { cause, reg } = self.0;
        write!(f, " cause={cause} reg={reg}")
    }
}

/// How a step ended.
#[derive(Clone, Copy)]
pub struct OutcomeText(pub Outcome);

impl fmt::Display for OutcomeText {
    ghost output = { λ o. Some (outcome_text o.0) };

    fn fmt<W: fmt::Write>(&self, f: &mut fmt::Formatter<W>) -> fmt::Result {
        match self.0 {
            Outcome::Done => f.write_str("done"),
            Outcome::Halt => f.write_str("halt"),
            Outcome::Trap(trap) => write!(f, "trap{}", Cause(trap)),
        }
    }
}

/// Whether a hart runs.
#[derive(Clone, Copy)]
pub struct StatusText(pub Status);

impl fmt::Display for StatusText {
    ghost output = { λ s. Some (status_text s.0) };

    fn fmt<W: fmt::Write>(&self, f: &mut fmt::Formatter<W>) -> fmt::Result {
        match self.0 {
            Status::Running => f.write_str("running"),
            Status::Halted => f.write_str("halted"),
            Status::Trapped(trap) => write!(f, "trapped{}", Cause(trap)),
        }
    }
}

/// A step with a smaller number has a line that fits `itoa`'s buffer. No trace is longer.
const FIRST_LONG_NUMBER: usize = 1_000_000;

/// A step that was done, with its number in the trace: the hart, and the address of its PCC before
/// the step.
#[derive(Clone, Copy)]
struct DoneStep {
    number: usize,
    hart: u8,
    pc: u64,
    ghost short: { number < FIRST_LONG_NUMBER },
}

/// Written into `itoa`'s buffer as one piece: a report has up to 100,000 of them.
impl Integer for DoneStep {
    const MAX_STR_LEN: usize = 40;

    ghost MAX_STR_LEN = { 40 };

    ghost text = { λ s. done_text s.number s.hart s.pc };

    fn write(self, buf: &mut [u8; BUFFER]) -> usize {
        let end = put_before(buf, BUFFER, b" done");
        let end = put_before(buf, end, &word_digits(self.pc));
        let end = put_before(buf, end, b" pc=");
        let hart = write_digits(u64::from(self.hart), buf, end);
        let end = put_before(buf, hart, b" hart=");
        write_digits(self.number as u64, buf, end)
    }
}

/// Appends a step after its number.
fn write_step(out: &mut String, number: usize, entry: &Entry) -> Result<(), NoMemory>
    ensures { OnOk result (string_bytes out.new
        ≡ string_bytes out.old ++ event_text number (event.Step entry.now)) }
{
    let Entry { hart, pc, outcome } = *entry;
    if outcome == Outcome::Done {
        if number < FIRST_LONG_NUMBER {
            return out.push_str(Buffer::new().format(DoneStep { number, hart, pc }));
        }
    }
    let (pc, outcome) = (Hex64(pc), OutcomeText(outcome));
    write!(out, "{number} hart={hart} pc={pc} {outcome}")
}

/// Appends a sweep after its number.
fn write_sweep(
    out: &mut String,
    number: usize,
    lo: u64,
    hi: u128,
    cleared: u32,
) -> Result<(), NoMemory>
    ensures { OnOk result (string_bytes out.new
        ≡ string_bytes out.old ++ event_text number (event.Sweep cleared lo hi)) }
{
    let (lo, hi) = (Hex64(lo), Hex::of_top(hi));
    write!(out, "{number} sweep lo={lo} hi={hi} cleared={cleared}")
}

/// Appends an event of a trace after its number.
pub fn write_event(out: &mut String, number: usize, event: &Event) -> Result<(), NoMemory>
    ensures { OnOk result (string_bytes out.new
        ≡ string_bytes out.old ++ event_text number event.now) }
{
    match event {
        Event::Step(entry) => write_step(out, number, entry),
        Event::Sweep { lo, hi, cleared } => write_sweep(out, number, *lo, *hi, *cleared),
    }
}
