//! Numbers and capabilities in memory.
#![tactic(auto, unfolding(crate::proofs::Unfold::stores))]

ghost use Rattle.std.specs.Prelude.{◌≡◌};
ghost use Rattle.asm_files.specs.Steps.{Leaves, each_from};
ghost use Rattle.asm_late.specs.Late.{late_parts};
ghost use Rattle.asm_places.specs.Places.{places_parts};
ghost use Rattle.asm_places.specs.Capabilities.{objects_parts};
ghost use Rattle.asm_data.specs.Data.{
  capability_for,
  capability_stored,
  number_for,
  number_stored,
  zero_or_section,
};

use asm_code::Site;
use asm_files::AssemblyFault;
use asm_layout::ChunkKind;
use asm_memory::{is_in_width, put_capability, put_number};
use asm_places::{Objects, Places};
use asm_statements::Operand;
use asm_tokens::AsmFaultKind;
use asm_values::Value;
use cheri_model::Value as Word;
use std::alloc::Global;
use tagged_mem::Ram;

/// The bytes of a capability.
const CAPABILITY: u8 = 16;

/// In zeros a value is the number 0. Fails with `Section` where it is another one.
fn zero_or_section(value: Value) -> Result<u64, AsmFaultKind>
    ensures { result ≡ zero_or_section value }
{
    match value {
        Value::Number(0) => Ok(0),
        _ => Err(AsmFaultKind::Section),
    }
}

/// The number of a width that a value is in a chunk of a kind, a place its address. Fails with
/// `Range` where it is out of the width's range, and with `Section`.
fn number_for(places: Places, kind: ChunkKind, width: u8, value: Value) -> Result<u64, AsmFaultKind>
    ensures { result ≡ number_for (places_parts places.entry) kind width value }
{
    if kind.rank() == ChunkKind::Zeros.rank() {
        return zero_or_section(value);
    }
    let number = places.address_of(value)?;
    if is_in_width(width, number) {
        Ok(number)
    } else {
        Err(AsmFaultKind::Range)
    }
}

/// The capability that a value is in a chunk of a kind, a number the integer.
fn capability_for(objects: Objects, kind: ChunkKind, value: Value) -> Result<Word, AsmFaultKind>
    ensures { result ≡ capability_for (objects_parts objects.entry) kind value }
{
    if kind.rank() == ChunkKind::Zeros.rank() {
        let zero = zero_or_section(value)?;
        return Ok(Word::raw(u128::from(zero)));
    }
    objects.capability_of(value)
}

/// Stores one of a statement's numbers of a width.
fn store_number(
    alloc: Global,
    site: Site,
    width: u8,
    item: usize,
    ram: &mut Ram,
) -> Result<(), AssemblyFault>
    ensures { (operand : Operand) → Leaves result ram.new (number_stored (late_parts
        site.entry.late)
        site.entry.file site.entry.number width item operand ram.old) }
{
    let value = site.value(alloc, item, width, item)?;
    let number = number_for(site.late.places(), site.kind(), width, value);
    let number = site.number_or(item, number)?;
    put_number(ram, site.address(width, item), width, number);
    Ok(())
}

/// Stores a statement's numbers of a width, one for each operand.
pub(crate) fn store_numbers(
    alloc: Global,
    site: Site,
    width: u8,
    operands: &[Operand],
    ram: &mut Ram,
) -> Result<(), AssemblyFault>
    ensures { Leaves result ram.new (each_from (number_stored (late_parts site.entry.late)
        site.entry.file site.entry.number width) 0 operands.now ram.old) }
{
    for (item, _operand) in operands.iter().enumerate() {
        store_number(alloc, site, width, item, ram)?;
    }
    Ok(())
}

/// Stores one of a statement's capabilities.
fn store_capability(
    alloc: Global,
    site: Site,
    item: usize,
    ram: &mut Ram,
) -> Result<(), AssemblyFault>
    ensures { (operand : Operand) → Leaves result ram.new (capability_stored (late_parts
        site.entry.late)
        site.entry.file site.entry.number item operand ram.old) }
{
    let value = site.value(alloc, item, CAPABILITY, item)?;
    let capability = match capability_for(site.late.objects(), site.kind(), value) {
        Ok(capability) => capability,
        Err(kind) => return Err(site.fault(item, kind)),
    };
    put_capability(ram, site.address(CAPABILITY, item), capability);
    Ok(())
}

/// Stores a statement's capabilities, one for each operand.
pub(crate) fn store_capabilities(
    alloc: Global,
    site: Site,
    operands: &[Operand],
    ram: &mut Ram,
) -> Result<(), AssemblyFault>
    ensures { Leaves result ram.new (each_from (capability_stored (late_parts site.entry.late)
        site.entry.file site.entry.number) 0 operands.now ram.old) }
{
    for (item, _operand) in operands.iter().enumerate() {
        store_capability(alloc, site, item, ram)?;
    }
    Ok(())
}
