//! Writing the canonical listing of an image.
#![tactic(auto, unfolding(crate::proofs::Unfold::canon))]

ghost use Rattle.std.specs.Prelude.{
  ◌≡◌,
  ◌++◌,
  ◌<◌,
  ◌^◌,
  ℕ,
  List,
  [],
  ◌∷◌,
  OnOk,
  IfOk,
  if◌then◌else◌,
  string_bytes,
  codes,
  length,
  false,
};
ghost use Rattle.hex.specs.Hex.{encode_lower};
ghost use Rattle.cap_model.specs.values.CapValue.{parts_of};
ghost use Rattle.cheri_model.specs.runs.ImageRules.{is_listed};
ghost use Rattle.canonical.specs.Listable.{ReadsBack};
ghost use Rattle.canonical.specs.Canon.{
  perms_text,
  type_text,
  cap_text,
  each,
  granule_line,
  setting_text,
  register_line,
  register_lines,
  hart_lines,
  program_line,
  canon,
};

use bitflags::Flags;
use cap_ops::Cap;
use cheri_model::{
    HartImage, Image, Instr, NoMemory, OType, Perms, SENTRY_TYPE, UNSEALED_TYPE, Value,
};
use notation::{InstructionText, write_permission_names};
use std::alloc::Global;

/// Appends a permission set.
fn write_perms(out: &mut String, perms: Perms) -> Result<(), NoMemory>
    ensures { OnOk result (string_bytes out.new ≡ string_bytes out.old ++ perms_text perms.0) }
{
    if perms.bits() == Perms::ALL.bits() {
        out.push_str("all")
    } else if perms.bits() == 0 {
        out.push_str("none")
    } else {
        write_permission_names(out, perms)
    }
}

/// Appends an object type, unless it is unsealed.
fn write_type(out: &mut String, otype: OType) -> Result<(), NoMemory>
    ensures { OnOk result (string_bytes out.new ≡ string_bytes out.old ++ type_text otype) }
{
    match otype.number() {
        UNSEALED_TYPE => {}
        SENTRY_TYPE => out.push_str(" sentry")?,
        number => write!(out, " {number}")?,
    }
    Ok(())
}

/// Appends what `make_sealed` would make the capability of.
fn write_cap(out: &mut String, cap: Cap) -> Result<(), NoMemory>
    ensures { OnOk result (string_bytes out.new ≡ string_bytes out.old ++ cap_text (parts_of cap)) }
{
    let (base, top) = cap.bounds();
    let len = top.saturating_sub(u128::from(base));
    write!(out, "0x{base:x} {len} 0x{:x} ", cap.addr())?;
    write_perms(out, cap.perm())?;
    write_type(out, cap.object_type())?;
    Ok(())
}

/// Appends bytes as pairs of hexadecimal digits.
fn write_bytes(alloc: Global, out: &mut String, bytes: &[u8]) -> Result<(), NoMemory>
    ensures { OnOk result (string_bytes out.new ≡ string_bytes out.old ++ encode_lower bytes.now) }
{
    let digits = hex::encode(alloc, bytes)?;
    out.push_str(digits.as_str())
}

/// Appends the line of a granule.
fn write_granule(alloc: Global, out: &mut String, addr: u64, value: Value) -> Result<(), NoMemory>
    ensures { OnOk result (string_bytes out.new
        ≡ string_bytes out.old ++ granule_line (addr, value)) }
{
    if value.tag() {
        write!(out, ".cap 0x{addr:x} ")?;
        write_cap(out, Cap::of_value(value))?;
    } else {
        write!(out, ".bytes 0x{addr:x} ")?;
        write_bytes(alloc, out, &value.addr().to_le_bytes())?;
        write_bytes(alloc, out, &value.upper().to_le_bytes())?;
    }
    out.push_str("\n")?;
    Ok(())
}

/// Appends what a register is set to.
fn write_setting(alloc: Global, out: &mut String, value: Value) -> Result<(), NoMemory>
    ensures { OnOk result (string_bytes out.new ≡ string_bytes out.old ++ setting_text value) }
{
    if value.tag() {
        out.push_str("cap ")?;
        write_cap(out, Cap::of_value(value))?;
    } else if value.upper() == 0 {
        write!(out, "int {}", value.addr())?;
    } else {
        write!(out, "word 0x{:x}", value.upper())?;
        write_bytes(alloc, out, &value.addr().to_be_bytes())?;
    }
    Ok(())
}

/// Appends the line of a register, if it is not null.
fn write_register(
    alloc: Global,
    out: &mut String,
    number: usize,
    value: Value,
) -> Result<(), NoMemory>
    ensures { OnOk result (string_bytes out.new
        ≡ string_bytes out.old ++ register_line number value) }
{
    if value.tag() || value.bits() != 0 {
        write!(out, ".set c{number} ")?;
        write_setting(alloc, out, value)?;
        out.push_str("\n")?;
    }
    Ok(())
}

/// Appends the lines of the registers c1 to c31.
fn write_registers(alloc: Global, out: &mut String, values: &[Value]) -> Result<(), NoMemory>
    requires { length values.now < 2 ^ 32 }
    ensures { OnOk result (string_bytes out.new
        ≡ string_bytes out.old ++ register_lines 1 values.now) }
{
    for (place, value) in values.iter().enumerate() {
        write_register(alloc, out, place + 1, *value)?;
    }
    Ok(())
}

/// Appends the lines of a hart.
fn write_hart(alloc: Global, out: &mut String, hart: &HartImage) -> Result<(), NoMemory>
    ensures { OnOk result (string_bytes out.new ≡ string_bytes out.old ++ hart_lines hart.now) }
{
    out.push_str(".hart ")?;
    write_cap(out, Cap::of_value(hart.pcc))?;
    out.push_str("\n")?;
    write_registers(alloc, out, &hart.regs)
}

/// Appends the lines of the granules.
fn write_granules(
    alloc: Global,
    out: &mut String,
    granules: &[(u64, Value)],
) -> Result<(), NoMemory>
    ensures { OnOk result (string_bytes out.new
        ≡ string_bytes out.old ++ each granule_line granules.now) }
{
    for (addr, value) in granules {
        write_granule(alloc, out, *addr, *value)?;
    }
    Ok(())
}

/// Appends the lines of the harts.
fn write_harts(alloc: Global, out: &mut String, harts: &[HartImage]) -> Result<(), NoMemory>
    ensures { OnOk result (string_bytes out.new
        ≡ string_bytes out.old ++ each hart_lines harts.now) }
{
    for hart in harts {
        write_hart(alloc, out, hart)?;
    }
    Ok(())
}

/// Appends the line of an instruction.
fn write_instruction(out: &mut String, instr: Instr) -> Result<(), NoMemory>
    ensures { OnOk result (string_bytes out.new ≡ string_bytes out.old ++ program_line instr) }
{
    writeln!(out, "{}", InstructionText(instr.form()))?;
    Ok(())
}

/// Appends the lines of the instructions.
fn write_instructions(out: &mut String, program: &[Instr]) -> Result<(), NoMemory>
    ensures { OnOk result (string_bytes out.new
        ≡ string_bytes out.old ++ each program_line program.now) }
{
    for instr in program {
        write_instruction(out, *instr)?;
    }
    Ok(())
}

/// Appends the lines of an image.
fn write_image(alloc: Global, out: &mut String, image: &Image) -> Result<(), NoMemory>
    ensures { OnOk result (string_bytes out.new ≡ string_bytes out.old ++ canon image.now) }
{
    writeln!(out, ".ram {}", image.ram())?;
    write_granules(alloc, out, image.granules())?;
    write_harts(alloc, out, image.harts())?;
    write_instructions(out, image.program())
}

/// The canonical listing of an image: RAM's size, the granules, the harts with their registers, and
/// the program, one line each. Fails only when out of memory. Where some listing means the image,
/// and the canonical one is not too long for a listing, it means the image again. No listing makes
/// a tagged capability with flag 1, or a PCC that is untagged or sealed.
#[tactic(auto, using(crate::proofs::Rulesets::back))]
pub fn write_listing(alloc: Global, image: &Image) -> Result<String, NoMemory>
    ensures canonical { IfOk result (λ text. string_bytes text ≡ canon image.now) }
    ensures reads_back { IfOk result (λ text. ReadsBack image.now (string_bytes text)) }
{
    let mut out = String::new(alloc);
    write_image(alloc, &mut out, image)?;
    Ok(out)
}
