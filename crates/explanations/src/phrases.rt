//! What reasons are made of: a text and then a number or a place, or these the other way round.

ghost use Rattle.std.specs.Prelude.{◌≡◌, ◌++◌, OnOk, codes, decimal, string_bytes};
ghost use Rattle.report_lines.specs.Texts.{◌+++◌};
ghost use Rattle.explanations.specs.Names.{spot_name};
ghost use Rattle.explanations.specs.Reasons.{h64, h65};

use crate::names::write_spot;
use cheri_model::NoMemory;
use itoa::Buffer;
use origins::Spot;
use report_lines::{Hex, Hex64};

/// Appends a place, and what is said of it.
pub(crate) fn write_of(out: &mut String, name: Spot, text: &str) -> Result<(), NoMemory>
    ensures { OnOk result (string_bytes out.new
        ≡ string_bytes out.old ++ (spot_name name +++ text.now)) }
{
    write_spot(out, name)?;
    out.push_str(text)
}

/// Appends a text and a place.
pub(crate) fn write_after(out: &mut String, text: &str, name: Spot) -> Result<(), NoMemory>
    ensures { OnOk result (string_bytes out.new
        ≡ string_bytes out.old ++ (text.now +++ spot_name name)) }
{
    out.push_str(text)?;
    write_spot(out, name)
}

/// Appends a text and an address.
pub(crate) fn write_address(out: &mut String, text: &str, address: u64) -> Result<(), NoMemory>
    ensures { OnOk result (string_bytes out.new
        ≡ string_bytes out.old ++ (text.now +++ h64 address)) }
{
    out.push_str(text)?;
    out.push_str(Buffer::new().format(Hex64(address)))
}

/// Appends a text and a number that may be 2^64.
pub(crate) fn write_top(out: &mut String, text: &str, top: u128) -> Result<(), NoMemory>
    ensures { OnOk result (string_bytes out.new
        ≡ string_bytes out.old ++ (text.now +++ h65 top)) }
{
    out.push_str(text)?;
    out.push_str(Buffer::new().format(Hex::of_top(top)))
}

/// Appends a text and a number in decimal.
pub(crate) fn write_decimal(out: &mut String, text: &str, number: u64) -> Result<(), NoMemory>
    ensures { OnOk result (string_bytes out.new
        ≡ string_bytes out.old ++ (text.now +++ decimal number)) }
{
    out.push_str(text)?;
    out.push_str(Buffer::new().format(number))
}

/// Appends how many bytes are accessed, and where.
pub(crate) fn write_bytes_at(out: &mut String, bytes: u64, address: u64) -> Result<(), NoMemory>
    ensures { OnOk result (string_bytes out.new ≡ string_bytes out.old
        ++ (decimal bytes +++ codes " bytes at " +++ h64 address)) }
{
    out.push_str(Buffer::new().format(bytes))?;
    write_address(out, " bytes at ", address)
}

/// Appends bounds, after a text and with one between them.
pub(crate) fn write_bounds(
    out: &mut String,
    text: &str,
    base: u64,
    between: &str,
    top: u128,
) -> Result<(), NoMemory>
    ensures { OnOk result (string_bytes out.new ≡ string_bytes out.old
        ++ (text.now +++ h64 base +++ between.now +++ h65 top)) }
{
    write_address(out, text, base)?;
    write_top(out, between, top)
}

/// Appends that a number is above its limit, after a text.
pub(crate) fn write_above(
    out: &mut String,
    text: &str,
    number: u128,
    limit: u128,
) -> Result<(), NoMemory>
    ensures { OnOk result (string_bytes out.new ≡ string_bytes out.old
        ++ (text.now +++ h65 number +++ codes " is above " +++ h65 limit)) }
{
    write_top(out, text, number)?;
    write_top(out, " is above ", limit)
}

/// Appends a place, what is said of it, and another place.
pub(crate) fn write_pair(
    out: &mut String,
    name: Spot,
    text: &str,
    other: Spot,
) -> Result<(), NoMemory>
    ensures { OnOk result (string_bytes out.new ≡ string_bytes out.old
        ++ (spot_name name +++ text.now +++ spot_name other)) }
{
    write_of(out, name, text)?;
    write_spot(out, other)
}
