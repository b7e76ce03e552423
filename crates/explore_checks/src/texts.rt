//! Verdicts as text.
#![tactic(auto, unfolding(crate::proofs::Unfold::texts))]

ghost use Rattle.std.specs.Prelude.{◌≡◌, ◌++◌, OnOk, string_bytes};
ghost use Rattle.explore_checks.specs.CheckTexts.{
  lasso_words,
  line_of,
  order_words,
  property_line,
  run_words,
  verdict_word,
};
ghost use Rattle.explore_checks.specs.CheckParts.{check_lines, first_line};
ghost use Rattle.report_lines.specs.Texts.{numbered};

use crate::head::Head;
use cheri_model::{NoMemory, Op};
use explore_verdicts::{PropertyVerdict, Verdict};
use order_texts::write_order;
use reduced_texts::write_reduced_line;
use reductions::LeftOut;
use report_lines::write_image_line;
use shown_states::write_states_line;
use std::alloc::Global;

/// What is known of a property, in a word.
pub(crate) fn verdict_word(verdict: &Verdict) -> &'static str
    ensures { result.now ≡ verdict_word verdict.now }
{
    match verdict {
        Verdict::Holds => "holds",
        Verdict::HoldsAfter(_) => "holds",
        Verdict::Violated => "violated",
        Verdict::ViolatedAfter(_) => "violated",
        Verdict::ViolatedBy(_) => "violated",
        Verdict::Unknown => "unknown",
    }
}

/// Appends the order that leads to the state which decides.
fn write_order_words(out: &mut String, order: &[Op]) -> Result<(), NoMemory>
    ensures { OnOk result (string_bytes out.new
        ≡ string_bytes out.old ++ order_words order.now) }
{
    out.push_str(" order=")?;
    write_order(out, order)
}

/// Appends it with the loop of that state.
fn write_lasso_words(out: &mut String, order: &[Op], cycle: &[Op]) -> Result<(), NoMemory>
    ensures { OnOk result (string_bytes out.new ≡ string_bytes out.old
        ++ lasso_words order.now cycle.now) }
{
    write_order_words(out, order)?;
    out.push_str(" loop=")?;
    write_order(out, cycle)
}

/// Appends the run that decides, if there is one.
fn write_run_words(out: &mut String, verdict: &Verdict) -> Result<(), NoMemory>
    ensures { OnOk result (string_bytes out.new
        ≡ string_bytes out.old ++ run_words verdict.now) }
{
    match verdict {
        Verdict::HoldsAfter(order) => write_order_words(out, order.as_slice()),
        Verdict::ViolatedAfter(order) => write_order_words(out, order.as_slice()),
        Verdict::ViolatedBy(lasso) => {
            write_lasso_words(out, lasso.order.as_slice(), lasso.cycle.as_slice())
        }
        Verdict::Holds => Ok(()),
        Verdict::Violated => Ok(()),
        Verdict::Unknown => Ok(()),
    }
}

/// Appends the line of a property.
fn write_property(out: &mut String, told: &PropertyVerdict<'_, '_>) -> Result<(), NoMemory>
    ensures { OnOk result (string_bytes out.new
        ≡ string_bytes out.old ++ property_line told.now) }
{
    let word = verdict_word(&told.verdict);
    write!(out, "line {} {word}", told.property.line())?;
    write_run_words(out, &told.verdict)?;
    writeln!(out, " | {}", told.property.text())
}

/// Appends the lines of properties.
fn write_properties(out: &mut String, told: &[PropertyVerdict<'_, '_>]) -> Result<(), NoMemory>
    ensures { OnOk result (string_bytes out.new
        ≡ string_bytes out.old ++ numbered line_of 0 told.now) }
{
    for property in told {
        write_property(out, property)?;
    }
    Ok(())
}

/// The first line, with the answer's version.
fn first_line(reduced: Option<LeftOut>) -> &'static str
    ensures { result.now ≡ first_line reduced }
{
    match reduced {
        Some(_) => "cheri-sim check 2\n",
        None => "cheri-sim check 1\n",
    }
}

/// Appends the whole text.
pub(crate) fn write_text(
    alloc: Global,
    out: &mut String,
    head: Head<'_>,
    told: &[PropertyVerdict<'_, '_>],
) -> Result<(), NoMemory>
    ensures { OnOk result (string_bytes out.new ≡ string_bytes out.old
        ++ check_lines head.entry.reduced head.entry.complete head.entry.image.now
        head.entry.states told.now) }
{
    out.push_str(first_line(head.reduced))?;
    write_image_line(out, head.image)?;
    write_reduced_line(alloc, out, head.reduced)?;
    write_states_line(out, head.complete, head.states)?;
    write_properties(out, told)?;
    out.push_str("end\n")
}
