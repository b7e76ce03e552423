//! Vectors as lines of JSON, each an object. Numbers of more than 32 bits are texts in hexadecimal.

use crate::cases::Case;
use crate::rows::ending;
use crate::steps::After;
use cap_ops::Cap;
use std::alloc::AllocError;

/// Appends a member that is a value: its word of 128 bits, and its tag.
fn push_value(out: &mut String, name: &str, value: Cap) -> Result<(), AllocError> {
    let tag = if value.tag() { "true" } else { "false" };
    let (upper, addr) = (value.high(), value.addr());
    write!(out, ",\"{name}\":")?;
    out.push_str("{\"word\":\"")?;
    write!(out, "{upper:016x}{addr:016x}")?;
    write!(out, "\",\"tag\":{tag}")?;
    out.push_str("}")
}

/// Appends what the step finds.
fn push_case(out: &mut String, number: u64, line: &str, case: &Case) -> Result<(), AllocError> {
    let (name, _) = line.split_once(' ').unwrap_or((line, ""));
    let operands = case.operands;
    let (cd, c1, c2, imm) = (operands.cd, operands.c1, operands.c2, operands.number);
    let (code, granules, place) = (case.code, case.granules, case.place);
    out.push_str("{")?;
    write!(
        out,
        "\"row\":{number},\"name\":\"{name}\",\"cd\":{cd},\"c1\":{c1},\"c2\":{c2}"
    )?;
    write!(
        out,
        ",\"imm\":\"{imm:x}\",\"code\":{code},\"granules\":{granules},\"place\":{place}"
    )?;
    push_value(out, "pcc", case.pcc)?;
    push_value(out, "first", case.first)?;
    push_value(out, "second", case.second)?;
    push_value(out, "granule", case.granule)
}

/// Appends a case and what the step leaves as an object on a line.
pub fn push_json(
    out: &mut String,
    number: u64,
    line: &str,
    case: &Case,
    left: After,
) -> Result<(), AllocError> {
    push_case(out, number, line, case)?;
    let (outcome, cause, reg) = ending(left.outcome);
    write!(
        out,
        ",\"outcome\":{outcome},\"cause\":{cause},\"reg\":{reg}"
    )?;
    push_value(out, "result", left.result)?;
    push_value(out, "pcc_after", left.pcc)?;
    push_value(out, "granule_after", left.granule)?;
    out.push_str("}\n")
}
