//! The numbers of runs.
#![tactic(auto, unfolding(report_lines::specs::JsonText::item_text))]

ghost use Rattle.std.specs.Prelude.{◌≡◌, ◌++◌, IfOk, OnOk, string_bytes};
ghost use Rattle.serde_json.specs.View.{view as data_of};
ghost use Rattle.report_lines.specs.Texts.{numbered};
ghost use Rattle.sample_texts.specs.SampleData.{span_data};
ghost use Rattle.sample_texts.specs.SampleJson.{span_part};

use cheri_model::NoMemory;
use report_lines::write_comma;
use shown_states::Format;

/// Runs with the numbers from `first` to `last`.
#[derive(Clone, Copy, Debug, PartialEq, Eq)]
pub struct Span {
    pub first: u64,
    pub last: u64,
}

/// Appends a span of a list, by its place there.
fn write_span(format: Format, out: &mut String, place: usize, span: Span) -> Result<(), NoMemory>
    ensures { OnOk result (string_bytes out.new
        ≡ string_bytes out.old ++ span_part format place span) }
{
    write_comma(out, place > 0)?;
    match format {
        Format::Text => write!(out, "{}..{}", span.first, span.last),
        Format::Json => write!(out, "[{},{}]", span.first, span.last),
    }
}

/// Appends spans.
pub(crate) fn write_spans(format: Format, out: &mut String, spans: &[Span]) -> Result<(), NoMemory>
    ensures { OnOk result (string_bytes out.new
        ≡ string_bytes out.old ++ numbered (span_part format) 0 spans.now) }
{
    for (place, span) in spans.iter().enumerate() {
        write_span(format, out, place, *span)?;
    }
    Ok(())
}
