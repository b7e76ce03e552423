//! The instructions that leave a constant in a register.
#![tactic(auto, using(crate::proofs::Levels::levels), unfolding(crate::proofs::Unfold::constants))]

ghost use Rattle.std.specs.Prelude.{◌≡◌, ◌++◌, OnOk, false};
ghost use Rattle.cheri_model.specs.runs.Replay.{IsPrefixOf};
ghost use Rattle.asm_expansions.specs.Constants.{
  word_constant,
  is_word,
  upper,
  upper_place,
  upper_rest,
  placed,
  constant,
  li,
};

use crate::immediates::{high_bits, low_part, rest, signed};
use cheri_model::{Instr, Reg};
use std::alloc::AllocError;

/// How often the upper part of a constant is taken off it.
pub(crate) const LEVELS: u8 = 3;

/// Whether a constant is one of 32 bits with a sign.
pub(crate) fn is_word(bits: u64) -> bool
    ensures { result ≡ is_word bits }
{
    bits < 1 << 31 || bits >= 0xFFFF_FFFF_8000_0000
}

/// A constant without its low part.
fn upper(bits: u64) -> u64
    ensures { result ≡ upper bits }
{
    bits.wrapping_add(2048) / 4096 * 4096
}

/// The place of the lowest 1 of a constant's upper part.
fn upper_place(bits: u64) -> u8
    requires { is_word bits ≡ false }
    ensures { result ≡ upper_place bits }
{
    upper(bits).trailing_zeros() as u8
}

/// What a constant's upper part is from that place on, with its sign.
pub(crate) fn upper_rest(bits: u64) -> u64
    requires { is_word bits ≡ false }
    ensures { result ≡ upper_rest bits }
{
    let part = upper(bits);
    (part.cast_signed() >> part.trailing_zeros()).cast_unsigned()
}

/// Appends the instructions for a constant of 32 bits.
fn write_word(out: &mut Vec<Instr>, rd: Reg, bits: u64) -> Result<(), AllocError>
    ensures written { OnOk result (out.new.items ≡ out.old.items ++ word_constant rd bits) }
    ensures kept { IsPrefixOf out.old.items out.new.items }
{
    let (imm, low) = (high_bits(bits), low_part(bits));
    if imm == 0 {
        return Ok(out.push(Instr::Addiw {
            cd: rd,
            c1: Reg::new(0),
            imm: low,
        })?);
    }
    out.push(Instr::Lui { cd: rd, imm })?;
    if rest(bits) == 0 && rd.number() != 0 {
        return Ok(());
    }
    Ok(out.push(Instr::Addiw {
        cd: rd,
        c1: rd,
        imm: low,
    })?)
}

/// Appends the instructions that put the rest of a constant's upper part in its place, and add the
/// low part.
fn write_placed(out: &mut Vec<Instr>, rd: Reg, bits: u64) -> Result<(), AllocError>
    requires { is_word bits ≡ false }
    ensures written { OnOk result (out.new.items ≡ out.old.items ++ placed rd bits) }
    ensures kept { IsPrefixOf out.old.items out.new.items }
{
    let amount = upper_place(bits);
    out.push(Instr::Slli {
        cd: rd,
        c1: rd,
        amount,
    })?;
    if rest(bits) == 0 {
        return Ok(());
    }
    Ok(out.push(Instr::Addi {
        cd: rd,
        c1: rd,
        imm: low_part(bits),
    })?)
}

/// Appends the instructions for a constant, of which at most so many levels are taken.
fn write_levels(out: &mut Vec<Instr>, levels: u8, rd: Reg, bits: u64) -> Result<(), AllocError>
    ensures written { OnOk result (out.new.items ≡ out.old.items ++ constant levels rd bits) }
    ensures kept { IsPrefixOf out.old.items out.new.items }
{
    if levels == 0 || is_word(bits) {
        return write_word(out, rd, bits);
    }
    write_levels(out, levels - 1, rd, upper_rest(bits))?;
    write_placed(out, rd, bits)?;
    Ok(())
}

/// Appends the instructions that leave a constant in a register. Fails only when out of memory, and
/// then some of them may be there.
pub(crate) fn write_constant(out: &mut Vec<Instr>, rd: Reg, n: i64) -> Result<(), AllocError>
    ensures written { OnOk result (out.new.items ≡ out.old.items ++ li rd n) }
    ensures kept { IsPrefixOf out.old.items out.new.items }
{
    match signed(n) {
        Some(imm) => Ok(out.push(Instr::Addi {
            cd: rd,
            c1: Reg::new(0),
            imm,
        })?),
        None => write_levels(out, LEVELS, rd, n.cast_unsigned()),
    }
}
