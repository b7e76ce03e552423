//! The exit: what a hart's first function returns to.
#![tactic(auto, unfolding(crate::specs::Exits::exit))]

ghost use Rattle.std.specs.Prelude.{◌≡◌, ◌++◌, OnOk};
ghost use Rattle.asm_instructions.specs.Exits.{exit};

use cheri_model::{Instr, Reg};
use std::alloc::AllocError;

/// Appends the guard, a jump through null, which traps where code runs on past its end; and then
/// the exit, which halts the hart. Fails only when out of memory, and then some of it may be there.
pub fn push_exit(code: &mut Vec<Instr>) -> Result<(), AllocError>
    ensures { OnOk result (code.new.items ≡ code.old.items ++ exit) }
{
    code.push(Instr::CJalr {
        cd: Reg::new(0),
        c1: Reg::new(0),
        imm: 0,
    })?;
    Ok(code.push(Instr::Ecall)?)
}
