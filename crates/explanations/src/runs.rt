//! The run of two texts, a listing and an order, to what is said of it.

ghost use Rattle.std.specs.Prelude.{◌≡◌, ◌+◌, IfOk, IfErr, false, option_map};
ghost use Rattle.simulation.specs.Simulation.{IsRunUnwritten, IsRunWritten, run_of_texts};
ghost use Rattle.simulation.specs.Simulation.{is_reported, failures_of_run};
ghost use Rattle.cores.specs.declared.cores.TheConstants.{GREATEST_TRACE_LIMIT};
ghost use Rattle.explanations.specs.ExplainedRuns.{explained, explained_core, mapped};
ghost use Rattle.explanations.specs.InstructionLines.{mapped_lines, shown_sources};

use crate::lines::InstructionLines;
use crate::selection::Selection;
use crate::text::write_text;
use crate::whole_json::write_json;
use asm_map_reader::Source;
use cores::{Core, GREATEST_TRACE_LIMIT, StepFault};
use listings::instruction_lines;
use simulation::{RunText, SimFault, run_and_write};
use sinks::{Sink, WriteFault};
use std::alloc::Global;

/// How an explanation is written.
#[derive(Clone, Copy)]
pub enum Format {
    /// Lines for a reader.
    Text,
    /// One object, for scripts.
    Json,
}

/// The explanation of the events of a run that are selected.
#[derive(Clone, Copy)]
pub struct Explanation<'a> {
    pub selection: Selection,
    pub format: Format,
    /// What instructions come from, where a map is there.
    pub sources: Option<&'a [Source<'a>]>,
}

impl<'a> RunText for Explanation<'a> {
    ghost text = { λ e listing core. explained_core e.format
        (mapped_lines (option_map shown_sources e.sources) listing) e.selection core };

    #[tactic(auto, unfolding(crate::specs::ExplainedRuns::explained_core))]
    fn write<S: Sink>(
        &self,
        alloc: Global,
        listing: &[u8],
        core: &Core,
        sink: &mut S,
    ) -> Result<(), WriteFault> {
        let numbers = instruction_lines(alloc, listing)?;
        let lines = InstructionLines::new(&numbers, self.sources);
        match self.format {
            Format::Text => write_text(alloc, core, &lines, self.selection, sink),
            Format::Json => write_json(alloc, core, &lines, self.selection, sink),
        }
    }
}

/// Runs the machine of a listing in an order and explains the events that are selected: what each
/// read, found, left and set, why it trapped, and why a tag was lost. It judges both texts, and
/// answers, as [`simulation::run_and_write`] does with the longest trace.
pub fn explain<S: Sink>(
    alloc: Global,
    listing: &[u8],
    order: &[u8],
    selection: Selection,
    format: Format,
    out: &mut S,
) -> Result<Option<(usize, StepFault)>, SimFault>
    ensures shown { IfOk result (IsRunWritten
        (run_of_texts listing.now order.now GREATEST_TRACE_LIMIT)
        (explained format listing.now selection) (S.written out.old) (S.written out.new)) }
    ensures refused { IfErr result (IsRunUnwritten
        (run_of_texts listing.now order.now GREATEST_TRACE_LIMIT)
        (explained format listing.now selection) (S.written out.old) (S.written out.new)) }
    ensures untouched { IfErr result (λ fault. is_reported fault ≡ false → out.new ≡ out.old) }
    ensures failures { S.failures out.new ≡ S.failures out.old + failures_of_run result }
    ensures identity { S.identity out.new ≡ S.identity out.old }
{
    let text = Explanation {
        selection,
        format,
        sources: None,
    };
    run_and_write(alloc, listing, order, GREATEST_TRACE_LIMIT, &text, out)
}

/// Runs the machine of a listing in an order and explains it as [`explain`] does, by what a map
/// says that the listing's instructions come from, if there is one.
pub fn explain_mapped<S: Sink>(
    alloc: Global,
    listing: &[u8],
    order: &[u8],
    text: &Explanation<'_>,
    out: &mut S,
) -> Result<Option<(usize, StepFault)>, SimFault>
    ensures shown { IfOk result (IsRunWritten
        (run_of_texts listing.now order.now GREATEST_TRACE_LIMIT)
        (mapped text.now.format (option_map shown_sources text.now.sources) listing.now
        text.now.selection) (S.written out.old) (S.written out.new)) }
    ensures refused { IfErr result (IsRunUnwritten
        (run_of_texts listing.now order.now GREATEST_TRACE_LIMIT)
        (mapped text.now.format (option_map shown_sources text.now.sources) listing.now
        text.now.selection) (S.written out.old) (S.written out.new)) }
    ensures untouched { IfErr result (λ fault. is_reported fault ≡ false → out.new ≡ out.old) }
    ensures failures { S.failures out.new ≡ S.failures out.old + failures_of_run result }
    ensures identity { S.identity out.new ≡ S.identity out.old }
{
    run_and_write(alloc, listing, order, GREATEST_TRACE_LIMIT, text, out)
}
