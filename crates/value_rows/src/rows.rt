//! Rows: a call's name and its numbers.

use crate::calls::{changed, made, number, push_read};
use crate::memory::push_memory;
use crate::numbers::{Numbers, numbers_of};
use crate::printing::{push_made, push_number, push_value};
use std::alloc::Global;
use tagged_mem::{MemFault, Ram};

/// Appends what a call answers.
fn push_call(
    alloc: Global,
    ram: &mut Ram,
    out: &mut String,
    name: &str,
    n: &Numbers,
) -> Result<(), MemFault> {
    if let Some(made) = made(name, n) {
        push_made(out, made)?;
    } else if let Some(value) = changed(name, n) {
        push_value(out, value)?;
    } else if let Some(number) = number(name, n) {
        push_number(out, number)?;
    } else if !push_read(out, name, n)? && !push_memory(alloc, ram, out, name, n)? {
        out.push_str("no such call")?;
    }
    Ok(())
}

/// Appends the answer to a row, or the row itself where it is a comment.
fn push_answer(alloc: Global, ram: &mut Ram, out: &mut String, row: &str) -> Result<(), MemFault> {
    let (name, words) = row.split_once(' ').unwrap_or((row, ""));
    if name.is_empty() || name == "#" {
        out.push_str(row)?;
        return Ok(());
    }
    match numbers_of(words) {
        Some(numbers) => push_call(alloc, ram, out, name, &numbers),
        None => {
            out.push_str("no numbers")?;
            Ok(())
        }
    }
}

/// The answers to these rows, a line for each. Fails only when out of memory.
pub fn answers(alloc: Global, rows: &str) -> Result<String, MemFault> {
    let mut out = String::new(alloc);
    let mut ram = Ram::new(alloc, 16)?;
    for row in rows.lines() {
        push_answer(alloc, &mut ram, &mut out, row)?;
        out.push_str("\n")?;
    }
    Ok(out)
}
