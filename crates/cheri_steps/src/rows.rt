//! Vectors as lines of words: each case with its number, and what the step leaves.

use crate::cases::case_of;
use crate::json::push_json;
use crate::steps::{After, step_of};
use cap_ops::Cap;
use cheri_model::Outcome;
use std::alloc::{AllocError, Global};
use tagged_mem::MemFault;

/// Appends a value: its tag, its upper half and its address.
fn push_value(out: &mut String, value: Cap) -> Result<(), AllocError> {
    let tag = u8::from(value.tag());
    let (upper, addr) = (value.high(), value.addr());
    write!(out, " {tag} {upper:x} {addr:x}")?;
    Ok(())
}

/// How a step ended: 0, 1 where it halted, 2 where it trapped, then the cause and the register.
pub fn ending(outcome: Outcome) -> (u8, u8, u8) {
    match outcome {
        Outcome::Done => (0, 0, 0),
        Outcome::Halt => (1, 0, 0),
        Outcome::Trap(trap) => (2, trap.cause, trap.reg),
    }
}

/// Appends a case's line and what the step leaves.
fn push_row(out: &mut String, number: u64, line: &str, left: After) -> Result<(), AllocError> {
    let (outcome, cause, reg) = ending(left.outcome);
    write!(out, "step {number} {line} {outcome} {cause:x} {reg:x}")?;
    push_value(out, left.result)?;
    push_value(out, left.pcc)?;
    push_value(out, left.granule)?;
    out.push_str("\n")
}

/// The first line, what the fields are, and the number of rows.
fn push_head(out: &mut String, rows: u64) -> Result<(), AllocError> {
    out.push_str("cheri-steps vectors 1\n")?;
    out.push_str("# step number name cd c1 c2 imm code granules")?;
    out.push_str(" pcc(tag upper addr) first(3) second(3) place granule(3)")?;
    out.push_str(" outcome cause reg result(3) pcc(3) granule(3)\n")?;
    write!(out, "rows {rows}\n")?;
    Ok(())
}

/// Appends a row for each case, and counts them.
fn push_rows(alloc: Global, out: &mut String, cases: &str, is_json: bool) -> Result<u64, MemFault> {
    let mut number = 0u64;
    for line in cases.lines() {
        let Some(case) = case_of(line) else { continue };
        number = number.wrapping_add(1);
        let left = step_of(alloc, &case)?;
        if is_json {
            push_json(out, number, line, &case, left)?;
        } else {
            push_row(out, number, line, left)?;
        }
    }
    Ok(number)
}

/// The vectors of these cases, a line each. Lines that are no cases are left out. Fails only when
/// out of memory.
pub fn vectors(alloc: Global, cases: &str, is_json: bool) -> Result<String, MemFault> {
    let mut rows = String::new(alloc);
    let count = push_rows(alloc, &mut rows, cases, is_json)?;
    if is_json {
        return Ok(rows);
    }
    let mut out = String::new(alloc);
    push_head(&mut out, count)?;
    out.push_str(rows.as_str())?;
    out.push_str("end\n")?;
    Ok(out)
}
