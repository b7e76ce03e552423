//! The whole answer.

ghost use Rattle.std.specs.Prelude.{◌≡◌, ◌++◌, IfOk, OnOk, length, string_bytes};
ghost use Rattle.cheri_model.specs.runs.Image.{opening_memory};
ghost use Rattle.sample_tallies.specs.Within.{IsWithin};
ghost use Rattle.sample_texts.specs.SampleData.{sample_text};
ghost use Rattle.sample_texts.specs.SampleJson.{sample_whole};
ghost use Rattle.sample_texts.specs.SampleParts.{IsTold, drawn_of, sampled_of};

use crate::lines::write_text;
use crate::members::write_json;
use crate::redrawn::Orders;
use crate::sampled::Sampled;
use cheri_model::NoMemory;
use shown_states::Format;
use std::alloc::Global;

/// Appends the whole answer.
fn write_answer(
    format: Format,
    out: &mut String,
    orders: &mut Orders<'_>,
    sampled: Sampled<'_, '_>,
) -> Result<(), NoMemory>
    requires told { IsTold orders.old.image sampled.tally.now }
    requires drawn { orders.old ≡ drawn_of (sampled_of sampled) }
    ensures { OnOk result (string_bytes out.new
        ≡ string_bytes out.old ++ sample_whole format (sampled_of sampled.entry)) }
{
    match format {
        Format::Text => write_text(out, orders, sampled),
        Format::Json => write_json(out, orders, sampled),
    }
}

/// What is told of runs in drawn orders. Fails only when out of memory or of numbers, or where the
/// runs of a row of values reach 2^64.
pub fn sample_text(
    alloc: Global,
    format: Format,
    sampled: Sampled<'_, '_>,
) -> Result<String, NoMemory>
    requires harts { sampled.tally.now.harts ≡ length sampled.image.now.harts }
    requires granules { sampled.tally.now.granules ≡ length
        (opening_memory sampled.image.now.ram sampled.image.now.granules) }
    requires within { IsWithin sampled.tally.now.sum }
    ensures { IfOk result (λ text. string_bytes text
        ≡ sample_text format (sampled_of sampled.entry)) }
{
    let mut orders = Orders::open(alloc, sampled.image, sampled.drawing)?;
    let mut out = String::new(alloc);
    write_answer(format, &mut out, &mut orders, sampled)?;
    Ok(out)
}
