//! What an instruction of assembly becomes.
#![tactic(auto, unfolding(crate::specs::Expansions::instrs_of))]

ghost use Rattle.std.specs.Prelude.{◌≡◌, ◌++◌, length, OnOk};
ghost use Rattle.cheri_model.specs.runs.Replay.{IsPrefixOf};
ghost use Rattle.asm_expansions.specs.Expansions.{instrs_of};

use crate::constants::write_constant;
use cheri_model::{Instr, Reg};
use std::alloc::AllocError;

/// The instructions that an instruction of assembly stands for.
#[derive(Clone, Copy)]
pub enum Expansion {
    /// One instruction.
    One(Instr),
    /// Two, one after the other.
    Two(Instr, Instr),
    /// Those that leave a constant in a register.
    Constant(Reg, i64),
}

impl Expansion {
    /// Appends the instructions. Fails only when out of memory, and then some of them may be there.
    pub fn write(self, out: &mut Vec<Instr>) -> Result<(), AllocError>
        ensures written { OnOk result (out.new.items ≡ out.old.items ++ instrs_of self) }
        ensures kept { IsPrefixOf out.old.items out.new.items }
    {
        match self {
            Expansion::One(first) => Ok(out.push(first)?),
            Expansion::Two(first, second) => {
                out.push(first)?;
                Ok(out.push(second)?)
            }
            Expansion::Constant(rd, n) => write_constant(out, rd, n),
        }
    }
}
