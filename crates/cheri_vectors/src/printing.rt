//! The text of the vectors, and its printing.
#![tactic(auto, unfolding(crate::specs::Vectors::vectors))]

ghost use Rattle.std.specs.Prelude.{◌≡◌, ◌++◌, IfOk, OnOk, codes, string_bytes};
ghost use Rattle.std.specs.Io.KnownBytes.{Appends};
ghost use Rattle.cheri_vectors.specs.Texts.{rows_below};
ghost use Rattle.cheri_vectors.specs.Words.{bit_row, corner_row};
ghost use Rattle.cheri_vectors.specs.Ranges.{power_row, corner_range_row};
ghost use Rattle.cheri_vectors.specs.Addresses.{address_row};
ghost use Rattle.cheri_vectors.specs.Values.{value_row};
ghost use Rattle.cheri_vectors.specs.Vectors.{field_names, head, vectors};

use crate::addresses::{ADDRESS_ROWS, push_address_row};
use crate::ranges::{CORNER_RANGE_ROWS, POWER_ROWS, push_corner_range_row, push_power_row};
use crate::values::{VALUE_ROWS, push_value_row};
use crate::words::{BIT_ROWS, CORNER_ROWS, push_bit_row, push_corner_row};
use std::alloc::{AllocError, Global};
use std::io;
use std::io::Write;

/// How many rows there are.
const ROWS: usize = BIT_ROWS
    + CORNER_ROWS
    + POWER_ROWS
    + CORNER_RANGE_ROWS
    + ADDRESS_ROWS
    + VALUE_ROWS;

/// Appends the lines that say which fields a row of each kind has.
fn push_field_names(out: &mut String) -> Result<(), AllocError>
    ensures { OnOk result (string_bytes out.new ≡ string_bytes out.old ++ field_names) }
{
    out.push_str("# word upper addr base top perms type flag reserved ie e capability\n")?;
    out.push_str("# range base len rounded-base rounded-top b t ie e exact crrl cram\n")?;
    out.push_str("# address upper addr new-addr kept\n")?;
    out.push_str("# value operation tag upper addr tag upper addr tag upper addr\n")?;
    Ok(())
}

/// Appends the lines before the rows.
fn push_head(out: &mut String) -> Result<(), AllocError>
    ensures { OnOk result (string_bytes out.new ≡ string_bytes out.old ++ head) }
{
    out.push_str("cheri-caps vectors 1\n")?;
    push_field_names(out)?;
    let rows = ROWS;
    writeln!(out, "rows {rows}")?;
    Ok(())
}

/// Appends the rows of null and of each single bit.
fn push_bit_rows(out: &mut String) -> Result<(), AllocError>
    ensures { OnOk result (string_bytes out.new
        ≡ string_bytes out.old ++ rows_below bit_row BIT_ROWS) }
{
    for n in 0..BIT_ROWS {
        push_bit_row(out, n)?;
    }
    Ok(())
}

/// Appends the rows of words with bounds at the quarters.
fn push_corner_rows(out: &mut String) -> Result<(), AllocError>
    ensures { OnOk result (string_bytes out.new
        ≡ string_bytes out.old ++ rows_below corner_row CORNER_ROWS) }
{
    for n in 0..CORNER_ROWS {
        push_corner_row(out, n)?;
    }
    Ok(())
}

/// Appends the rows of lengths at powers of 2.
fn push_power_rows(out: &mut String) -> Result<(), AllocError>
    ensures { OnOk result (string_bytes out.new
        ≡ string_bytes out.old ++ rows_below power_row POWER_ROWS) }
{
    for n in 0..POWER_ROWS {
        push_power_row(out, n)?;
    }
    Ok(())
}

/// Appends the rows of ranges at the ends of an exponent.
fn push_corner_range_rows(out: &mut String) -> Result<(), AllocError>
    ensures { OnOk result (string_bytes out.new
        ≡ string_bytes out.old ++ rows_below corner_range_row CORNER_RANGE_ROWS) }
{
    for n in 0..CORNER_RANGE_ROWS {
        push_corner_range_row(out, n)?;
    }
    Ok(())
}

/// Appends the rows of addresses.
fn push_address_rows(out: &mut String) -> Result<(), AllocError>
    ensures { OnOk result (string_bytes out.new
        ≡ string_bytes out.old ++ rows_below address_row ADDRESS_ROWS) }
{
    for n in 0..ADDRESS_ROWS {
        push_address_row(out, n)?;
    }
    Ok(())
}

/// Appends the rows of values.
fn push_value_rows(out: &mut String) -> Result<(), AllocError>
    ensures { OnOk result (string_bytes out.new
        ≡ string_bytes out.old ++ rows_below value_row VALUE_ROWS) }
{
    for n in 0..VALUE_ROWS {
        push_value_row(out, n)?;
    }
    Ok(())
}

/// The text of the vectors. Fails only when out of memory.
fn vectors_text(alloc: Global) -> Result<String, AllocError>
    ensures { IfOk result (λ text. string_bytes text ≡ vectors) }
{
    let mut out = String::new(alloc);
    push_head(&mut out)?;
    push_bit_rows(&mut out)?;
    push_corner_rows(&mut out)?;
    push_power_rows(&mut out)?;
    push_corner_range_rows(&mut out)?;
    push_address_rows(&mut out)?;
    push_value_rows(&mut out)?;
    out.push_str("end\n")?;
    Ok(out)
}

/// Prints the vectors. Where it answers `Ok`, the output got just their text.
pub fn print_vectors<O: Write>(alloc: Global, out: &mut O) -> io::Result<()>
    ensures { OnOk result (Appends (O.contents out.old) (O.contents out.new) vectors) }
{
    let text = vectors_text(alloc)?;
    out.write_all(text.as_bytes())?;
    out.flush()
}
