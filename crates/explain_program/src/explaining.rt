//! The explanation of two texts, written in the form that was asked for.
#![tactic(auto, using(crate::proofs::ExplainLemmas::prints))]

ghost use Rattle.std.specs.Prelude.{◌≡◌, IfOk, IfErr, option_map};
ghost use Rattle.printing.specs.Endings.{FailsBy, HasWhole};
ghost use Rattle.explain_line.specs.declared.requests.ExplainFormat.TheVariants as forms;
ghost use Rattle.explain_program.specs.Explaining.{IsExplained, IsListed, Sources, selection_of};
ghost use Rattle.explanations.specs.InstructionLines.{shown_sources};
ghost use Rattle.explain_program.specs.Faults.{failure_of};

use crate::faults::{Fault, OwnFault};
use asm_map_reader::Source;
use cores::StepFault;
use explain_line::{ExplainFormat, ExplainRequest, Filter as Words};
use explained_page::{PageEnd, write_page};
use explanations::{Explanation, Filter, Format, Selection, explain_mapped};
use sinks::Sink;
use std::alloc::Global;

/// The events of a range that `--only` shows.
fn selection_of(first: u32, last: u32, words: Words) -> Selection
    ensures { result ≡ selection_of first last words }
{
    let filter = match words {
        Words::All => Filter::All,
        Words::Traps => Filter::Traps,
        Words::Clears => Filter::Clears,
        Words::TrapsOrClears => Filter::TrapsOrClears,
    };
    Selection {
        first,
        last,
        filter,
    }
}

/// Writes an explanation while it is made. Answers the step that was refused, if one was.
fn write_listed<S: Sink>(
    alloc: Global,
    listing: &[u8],
    order: &[u8],
    text: &Explanation<'_>,
    sink: &mut S,
) -> Result<Option<(usize, StepFault)>, Fault>
    ensures printed { IfOk result (λ end. HasWhole
        (IsListed text.now.format (option_map shown_sources text.now.sources)
        listing.now order.now text.now.selection) end
        (S.written sink.old) (S.written sink.new)) }
    ensures failed { IfErr result (λ fault. FailsBy (failure_of fault)
        (IsListed text.now.format (option_map shown_sources text.now.sources)
        listing.now order.now text.now.selection) fault
        (S.written sink.old) (S.written sink.new)) }
    ensures identity { S.identity sink.new ≡ S.identity sink.old }
{
    let refused = explain_mapped(alloc, listing, order, text, sink)?;
    Ok(refused)
}

/// Writes a page while it is made. Answers the step that was refused, if one was.
fn write_paged<S: Sink>(
    alloc: Global,
    listing: &[u8],
    order: &[u8],
    first: u32,
    last: u32,
    sink: &mut S,
) -> Result<Option<(usize, StepFault)>, Fault>
    ensures printed { (sources : Sources) → IfOk result (λ end. HasWhole
        (IsExplained forms.Page sources first last listing.now order.now) end
        (S.written sink.old) (S.written sink.new)) }
    ensures failed { (sources : Sources) → IfErr result (λ fault. FailsBy (failure_of fault)
        (IsExplained forms.Page sources first last listing.now order.now) fault
        (S.written sink.old) (S.written sink.new)) }
    ensures identity { S.identity sink.new ≡ S.identity sink.old }
{
    let end = write_page(alloc, listing, order, first, last, sink)?;
    match end {
        PageEnd::TooLong => Err(Fault::Own(OwnFault::TooLong)),
        PageEnd::Written(refused) => Ok(refused),
    }
}

/// Explains a listing in an order in the form that is asked for, by what a map says that its
/// instructions come from, if there is one. Answers the step that was refused, if one was.
pub fn write_asked<S: Sink>(
    alloc: Global,
    request: ExplainRequest<'_>,
    sources: Option<&[Source<'_>]>,
    listing: &[u8],
    order: &[u8],
    sink: &mut S,
) -> Result<Option<(usize, StepFault)>, Fault>
    ensures printed { IfOk result (λ end. HasWhole (IsExplained request.entry.form
        (option_map shown_sources sources.entry)
        request.entry.first request.entry.last listing.now order.now) end
        (S.written sink.old) (S.written sink.new)) }
    ensures failed { IfErr result (λ fault. FailsBy (failure_of fault) (IsExplained
        request.entry.form (option_map shown_sources sources.entry)
        request.entry.first request.entry.last listing.now order.now) fault
        (S.written sink.old) (S.written sink.new)) }
    ensures identity { S.identity sink.new ≡ S.identity sink.old }
{
    let (first, last) = (request.first, request.last);
    match request.form {
        ExplainFormat::Text(words) => {
            let text = Explanation {
                selection: selection_of(first, last, words),
                format: Format::Text,
                sources,
            };
            write_listed(alloc, listing, order, &text, sink)
        }
        ExplainFormat::Json(words) => {
            let text = Explanation {
                selection: selection_of(first, last, words),
                format: Format::Json,
                sources,
            };
            write_listed(alloc, listing, order, &text, sink)
        }
        ExplainFormat::Page => write_paged(alloc, listing, order, first, last, sink),
    }
}
