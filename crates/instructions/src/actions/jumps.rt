//! The branches and CInvoke, and the addresses of targets.
#![tactic(auto, unfolding(crate::proofs::Unfold::jumps))]

ghost use Rattle.std.specs.Prelude.{◌≡◌};
ghost use Rattle.cheri_model.specs.steps.Actions.{action, address_of_target};
ghost use Rattle.cheri_model.specs.instructions.Form.{branch_instr};
ghost use Rattle.cheri_model.specs.declared.instr.Instr.TheVariants.{CInvoke};
ghost use Rattle.instructions.specs.Actions.{action_of};

use crate::actions::Action;
use crate::actions::memory::even;
use crate::integers::is_less_signed;
use cheri_model::form::BranchOp;
use cheri_model::{CODE_BASE, INSTRUCTION_BYTES, Reg, Target};
use hart::Hart;

/// The address of an instruction.
pub fn address_of_target(target: Target) -> u64
    ensures { result ≡ address_of_target target }
{
    CODE_BASE + INSTRUCTION_BYTES * u64::from(target.number())
}

/// What a branch asks for.
#[inline(always)]
pub fn branch_action(op: BranchOp, c1: Reg, c2: Reg, target: Target, hart: &Hart) -> Action
    ensures { action_of result ≡ action (branch_instr op c1 c2 target) hart.now }
{
    let (a, b) = (hart.register(c1).addr(), hart.register(c2).addr());
    let taken = match op {
        BranchOp::Beq => a == b,
        BranchOp::Bne => a != b,
        BranchOp::Blt => is_less_signed(a, b),
        BranchOp::Bge => !is_less_signed(a, b),
        BranchOp::Bltu => a < b,
        BranchOp::Bgeu => a >= b,
    };
    Action::Branch {
        taken,
        target: address_of_target(target),
    }
}

/// What CInvoke asks for.
#[inline(always)]
pub fn invoke_action(c1: Reg, c2: Reg, hart: &Hart) -> Action
    ensures { action_of result ≡ action (CInvoke c1 c2) hart.now }
{
    Action::Invoke {
        c1,
        c2,
        target: even(hart.register(c1).addr()),
    }
}
