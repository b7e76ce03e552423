//! Answers as text.

use bitflags::Flags;
use cap_ops::{Cap, MakeFault};
use cheri_model::ADDRESS_SPACE;
use std::alloc::AllocError;
use tagged_mem::Ram;

/// Appends a value: its tag, its upper half and its address.
pub fn push_value(out: &mut String, value: Cap) -> Result<(), AllocError> {
    let tag = u8::from(value.tag());
    let (upper, addr) = (value.high(), value.addr());
    write!(out, "{tag} {upper:016x}_{addr:016x}")?;
    Ok(())
}

/// Appends a value, or the number of the fault that stands in its place.
pub fn push_made(out: &mut String, made: Result<Cap, MakeFault>) -> Result<(), AllocError> {
    match made {
        Ok(value) => push_value(out, value),
        Err(fault) => push_fault(out, fault.number()),
    }
}

/// Appends the number of a fault.
pub fn push_fault(out: &mut String, number: u8) -> Result<(), AllocError> {
    write!(out, "fault {number}")?;
    Ok(())
}

/// Appends a number.
pub fn push_number(out: &mut String, number: u64) -> Result<(), AllocError> {
    write!(out, "{number:x}")?;
    Ok(())
}

/// Appends a base and a top.
pub fn push_bounds(out: &mut String, base: u64, top: u128) -> Result<(), AllocError> {
    let above = (top / ADDRESS_SPACE) as u64;
    let below = (top % ADDRESS_SPACE) as u64;
    write!(out, "{base:x} {above:x}_{below:x}")?;
    Ok(())
}

/// Appends what is read off a value: the permissions, the object type as it is shown and as it is
/// stored, the flag, the length, the offset, whether it is sealed, and the bounds.
pub fn push_reading(out: &mut String, value: Cap) -> Result<(), AllocError> {
    let (perms, shown) = (value.perm().bits(), value.otype());
    let stored = value.object_type().number();
    let (flag, len) = (value.flags(), value.len());
    let (offset, sealed) = (value.offset(), u8::from(value.sealed()));
    write!(out, "{perms:x} {shown:x} {stored:x} {flag:x} {len:x}")?;
    write!(out, " {offset:x} {sealed} ")?;
    let (base, top) = value.bounds();
    push_bounds(out, base, top)
}

/// Appends each granule in which two memories of one size differ, as the second has it.
pub fn push_changes(out: &mut String, old: &Ram, new: &Ram) -> Result<(), AllocError> {
    for k in 0..new.granule_count() {
        let value = new.granule(k);
        if k >= old.granule_count() || old.granule(k) != value {
            write!(out, " [{k:x}: ")?;
            push_value(out, value)?;
            out.push_str("]")?;
        }
    }
    Ok(())
}
