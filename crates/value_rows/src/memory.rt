//! Calls on memory, which keeps what the rows before stored.

use crate::numbers::{Numbers, low, low_half, value};
use crate::printing::{push_changes, push_fault, push_number, push_value};
use cheri_model::Width;
use std::alloc::Global;
use tagged_mem::{MemFault, Ram};

/// The width of so many bytes: eight where there is none of so many.
fn width_of(bytes: u128) -> Width {
    match bytes {
        1 => Width::Byte,
        2 => Width::Half,
        4 => Width::Word,
        _ => Width::Double,
    }
}

/// Makes memory of so many bytes, and appends its size and how many granules it has, or the fault.
fn make_ram(alloc: Global, ram: &mut Ram, out: &mut String, bytes: u32) -> Result<(), MemFault> {
    match Ram::new(alloc, bytes) {
        Ok(made) => {
            let (size, count) = (made.size(), made.granule_count());
            write!(out, "{size:x} {count:x}")?;
            *ram = made;
        }
        Err(MemFault::Size) => push_fault(out, MemFault::Size.number())?,
        Err(fault) => return Err(fault),
    }
    Ok(())
}

/// Appends what a call reads of memory. Whether a call has this name.
fn push_loaded(ram: &Ram, out: &mut String, name: &str, n: &Numbers) -> Result<bool, MemFault> {
    match name {
        "fits" => push_number(out, u64::from(ram.fits(low(n[0]), low(n[1]))))?,
        "load" => {
            let (width, addr) = (width_of(n[0]), low(n[1]));
            if ram.fits(addr, width.bytes()) {
                push_number(out, ram.load(addr, width))?;
            } else {
                out.push_str("outside")?;
            }
        }
        "load_cap" => {
            if ram.fits(low(n[0]), 16) {
                push_value(out, ram.load_cap(low(n[0])))?;
            } else {
                out.push_str("outside")?;
            }
        }
        _ => return Ok(false),
    }
    Ok(true)
}

/// Appends what a call that changes memory answers. Whether a call has this name.
fn push_stored(ram: &mut Ram, out: &mut String, name: &str, n: &Numbers) -> Result<bool, MemFault> {
    let (addr, held) = (low(n[0]), value(n[1], n[2], n[3]));
    match name {
        "store" => {
            let (width, addr) = (width_of(n[0]), low(n[1]));
            if ram.fits(addr, width.bytes()) {
                ram.store(addr, width, low(n[2]));
                out.push_str("stored")?;
            } else {
                out.push_str("outside")?;
            }
        }
        "store_cap" => {
            if ram.fits(addr, 16) {
                ram.store_cap(addr, held);
                out.push_str("stored")?;
            } else {
                out.push_str("outside")?;
            }
        }
        "swap_cap" => {
            if ram.fits(addr, 16) {
                push_value(out, ram.swap_cap(addr, held))?;
            } else {
                out.push_str("outside")?;
            }
        }
        "sweep" => {
            let cleared = ram.sweep(addr, n[1]);
            write!(out, "{cleared:x}")?;
        }
        _ => return Ok(false),
    }
    Ok(true)
}

/// Appends what a call on memory answers, with each granule that it changed. Whether a call has
/// this name.
pub fn push_memory(
    alloc: Global,
    ram: &mut Ram,
    out: &mut String,
    name: &str,
    n: &Numbers,
) -> Result<bool, MemFault> {
    if name == "ram" {
        make_ram(alloc, ram, out, low_half(n[0]))?;
        return Ok(true);
    }
    if push_loaded(ram, out, name, n)? {
        return Ok(true);
    }
    let old = ram.copy(alloc)?;
    let is_call = push_stored(ram, out, name, n)?;
    push_changes(out, &old, ram)?;
    Ok(is_call)
}
