//! Reasons in words: why a tag was lost, and why a step trapped.
#![tactic(auto, unfolding(crate::proofs::Unfold::reasons))]

ghost use Rattle.std.specs.Prelude.{◌≡◌, ◌++◌, OnOk, codes, decimal, string_bytes};
ghost use Rattle.report_lines.specs.Texts.{◌+++◌};
ghost use Rattle.explanations.specs.Reasons.{
  permission_set,
  lacks,
  sealed,
  outside,
  outside_region,
};
ghost use Rattle.explanations.specs.Reasons.{type_outside, why_text, trap_why_text};

use crate::phrases::{
    write_above, write_address, write_after, write_bounds, write_bytes_at, write_decimal, write_of,
    write_pair,
};
use bitflags::Flags;
use cheri_model::{NoMemory, OType, Perms};
use facts::{TrapWhy, Why};
use itoa::Buffer;
use notation::write_permission_names;
use origins::Spot;
use report_lines::{Hex64, write_type};

/// Appends that a register is sealed, and with which object type.
fn write_sealed(out: &mut String, name: Spot, otype: OType) -> Result<(), NoMemory>
    ensures { OnOk result (string_bytes out.new ≡ string_bytes out.old ++ sealed name otype) }
{
    write_of(out, name, " is sealed (")?;
    write_type(out, otype)?;
    out.push_str(")")
}

/// Appends how large the region is that an address is outside of.
fn write_power(out: &mut String, power: u32) -> Result<(), NoMemory>
    ensures { OnOk result (string_bytes out.new ≡ string_bytes out.old
        ++ (codes " is outside the representable region of 2^" +++ decimal power)) }
{
    out.push_str(" is outside the representable region of 2^")?;
    out.push_str(Buffer::new().format(power))?;
    Ok(())
}

/// Appends that an address is outside the representable region of a capability.
fn write_outside_region(
    out: &mut String,
    address: u64,
    power: u32,
    start: u64,
) -> Result<(), NoMemory>
    ensures { OnOk result (string_bytes out.new
        ≡ string_bytes out.old ++ outside_region address power start) }
{
    write_address(out, "address ", address)?;
    write_power(out, power)?;
    write_address(out, " bytes at ", start)?;
    Ok(())
}

/// Appends that an object type is outside the bounds of the authority to seal or unseal with it.
fn write_type_outside(
    out: &mut String,
    otype: u64,
    base: u64,
    top: u128,
    authority: Spot,
) -> Result<(), NoMemory>
    ensures { OnOk result (string_bytes out.new
        ≡ string_bytes out.old ++ type_outside otype base top authority) }
{
    write_address(out, "type ", otype)?;
    write_bounds(out, " is not in ", base, " ", top)?;
    write_after(out, " of ", authority)?;
    Ok(())
}

/// Appends that bytes are outside the bounds of a register.
fn write_outside(
    out: &mut String,
    bytes: u64,
    address: u64,
    base: u64,
    top: u128,
    name: Spot,
) -> Result<(), NoMemory>
    ensures { OnOk result (string_bytes out.new
        ≡ string_bytes out.old ++ outside bytes address base top name) }
{
    write_bytes_at(out, bytes, address)?;
    write_bounds(out, " are not in ", base, " ", top)?;
    write_after(out, " of ", name)?;
    Ok(())
}

/// The set that has the permission with this number alone.
fn permission_set(number: u32) -> Perms
    ensures { result.0 ≡ permission_set number }
{
    let bits = if number < 32 { 1 << number } else { 0 };
    Perms::from_bits_retain(bits)
}

/// Appends that a register lacks the permission with this number.
fn write_lacks(out: &mut String, name: Spot, permission: u32) -> Result<(), NoMemory>
    ensures { OnOk result (string_bytes out.new ≡ string_bytes out.old ++ lacks name permission) }
{
    write_of(out, name, " has no ")?;
    write_permission_names(out, permission_set(permission))
}

/// Appends that a word has permissions that its source lacks.
fn write_more(
    out: &mut String,
    name: Spot,
    permissions: Perms,
    source: Spot,
) -> Result<(), NoMemory>
    ensures { OnOk result (string_bytes out.new
        ≡ string_bytes out.old ++ why_text (Why.MorePermissions name permissions source)) }
{
    write_of(out, name, " has ")?;
    write_permission_names(out, permissions)?;
    write_after(out, " that ", source)?;
    out.push_str(" lacks")
}

/// Appends that a base is below its limit.
fn write_base_below(out: &mut String, base: u64, limit: u64) -> Result<(), NoMemory>
    ensures { OnOk result (string_bytes out.new
        ≡ string_bytes out.old ++ why_text (Why.BaseBelow base limit)) }
{
    write_address(out, "base ", base)?;
    write_address(out, " is below ", limit)
}

/// Appends that a number is no object type with which CSeal seals.
fn write_type_above(out: &mut String, otype: u64) -> Result<(), NoMemory>
    ensures { OnOk result (string_bytes out.new
        ≡ string_bytes out.old ++ why_text (Why.TypeAbove otype)) }
{
    write_address(out, "type ", otype)?;
    out.push_str(" is above 262139")?;
    Ok(())
}

/// Appends that the object type of an authority is not that of what is sealed.
fn write_type_differs(
    out: &mut String,
    otype: u64,
    authority: Spot,
    sealed: OType,
) -> Result<(), NoMemory>
    ensures { OnOk result (string_bytes out.new
        ≡ string_bytes out.old ++ why_text (Why.TypeDiffers otype authority sealed)) }
{
    write_address(out, "type ", otype)?;
    write_after(out, " of ", authority)?;
    write_decimal(out, " is not ", u64::from(sealed.number()))
}

/// Appends why a tag was lost.
pub(crate) fn write_why(out: &mut String, why: Why) -> Result<(), NoMemory>
    ensures { OnOk result (string_bytes out.new ≡ string_bytes out.old ++ why_text why) }
{
    match why {
        Why::AskedFor => out.push_str("asked for"),
        Why::UpperReplaced => out.push_str("upper half replaced"),
        Why::Sealed { name, otype } => write_sealed(out, name, otype),
        Why::OutsideRegion {
            address,
            power,
            start,
        } => write_outside_region(out, address, power, start),
        Why::BaseBelow { base, limit } => write_base_below(out, base, limit),
        Why::EndAbove { end, limit } => write_above(out, "end ", end, limit),
        Why::Rounds { base, top } => write_bounds(out, "rounds to ", base, " ", top),
        Why::Lacks { name, permission } => write_lacks(out, name, permission),
        Why::Untagged { name } => write_of(out, name, " is untagged"),
        Why::TypeOutside {
            otype,
            base,
            top,
            authority,
        } => write_type_outside(out, otype, base, top, authority),
        Why::TypeAbove { otype } => write_type_above(out, otype),
        Why::NotSealed { name } => write_of(out, name, " is not sealed"),
        Why::Sentry { name } => write_of(out, name, " is sealed as sentry"),
        Why::TypeDiffers {
            otype,
            authority,
            sealed,
        } => write_type_differs(out, otype, authority, sealed),
        Why::ReservedBits { name } => write_of(out, name, " has reserved bits"),
        Why::TopAbove { top, limit } => write_above(out, "top ", top, limit),
        Why::BaseAboveTop { base, top } => write_bounds(out, "base ", base, " is above top ", top),
        Why::MorePermissions {
            name,
            permissions,
            source,
        } => write_more(out, name, permissions, source),
        Why::NotAligned { alignment } => {
            write_address(out, "bounds are no multiples of ", alignment)
        }
        Why::DataStored => out.push_str("data over a capability"),
    }
}

/// Appends that an address is no multiple of how many bytes are accessed.
fn write_misaligned(out: &mut String, address: u64, bytes: u64) -> Result<(), NoMemory>
    ensures { OnOk result (string_bytes out.new
        ≡ string_bytes out.old ++ trap_why_text (TrapWhy.Misaligned address bytes)) }
{
    out.push_str(Buffer::new().format(Hex64(address)))?;
    write_decimal(out, " is no multiple of ", bytes)
}

/// Appends that bytes are not in RAM.
fn write_not_in_ram(out: &mut String, bytes: u64, address: u64) -> Result<(), NoMemory>
    ensures { OnOk result (string_bytes out.new
        ≡ string_bytes out.old ++ trap_why_text (TrapWhy.NotInRam bytes address)) }
{
    write_bytes_at(out, bytes, address)?;
    out.push_str(" are not in RAM")
}

/// Appends that the object types of code and data differ.
fn write_types_differ(out: &mut String, code: OType, data_type: OType) -> Result<(), NoMemory>
    ensures { OnOk result (string_bytes out.new
        ≡ string_bytes out.old ++ trap_why_text (TrapWhy.TypesDiffer code data_type)) }
{
    write_decimal(out, "types ", u64::from(code.number()))?;
    write_decimal(out, " and ", u64::from(data_type.number()))?;
    out.push_str(" differ")
}

/// Appends why a step trapped.
pub(crate) fn write_trap_why(out: &mut String, why: TrapWhy) -> Result<(), NoMemory>
    ensures { OnOk result (string_bytes out.new ≡ string_bytes out.old ++ trap_why_text why) }
{
    match why {
        TrapWhy::Untagged { name } => write_of(out, name, " is untagged"),
        TrapWhy::Sealed { name, otype } => write_sealed(out, name, otype),
        TrapWhy::NotInvocable { name } => write_of(out, name, " is not sealed with a type"),
        TrapWhy::Lacks { name, permission } => write_lacks(out, name, permission),
        TrapWhy::HasExecute { name } => write_of(out, name, " has execute"),
        TrapWhy::LacksStoreCap { name, stored } => {
            write_pair(out, name, " has no store_cap for a tagged ", stored)
        }
        TrapWhy::LacksStoreLocal { name, stored } => {
            write_pair(out, name, " has no store_local for a local ", stored)
        }
        TrapWhy::Outside {
            bytes,
            address,
            base,
            top,
            name,
        } => write_outside(out, bytes, address, base, top, name),
        TrapWhy::Misaligned { address, bytes } => write_misaligned(out, address, bytes),
        TrapWhy::NotInRam { bytes, address } => write_not_in_ram(out, bytes, address),
        TrapWhy::NoInstruction { address } => write_address(out, "no instruction at ", address),
        TrapWhy::TypesDiffer { code, data } => write_types_differ(out, code, data),
    }
}
