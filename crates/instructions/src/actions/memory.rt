//! The loads and stores, and CJALR, which has a load's operands.
#![tactic(auto, unfolding(crate::proofs::Unfold::accesses))]

ghost use Rattle.std.specs.Prelude.{◌≡◌};
ghost use Rattle.cheri_model.specs.steps.Actions.{action, even};
ghost use Rattle.cheri_model.specs.instructions.Form.{load_instr, store_instr};
ghost use Rattle.cheri_model.specs.declared.instr.Instr.TheVariants.{AmoSwapC};
ghost use Rattle.instructions.specs.Actions.{action_of};

use crate::actions::Action;
use crate::integers::immediate;
use cheri_model::form::{LoadOp, StoreOp};
use cheri_model::{Reg, Width};
use hart::Hart;

/// The address with bit 0 cleared, as jumps take it.
pub fn even(addr: u64) -> u64
    ensures { result ≡ even addr }
{
    addr / 2 * 2
}

/// What a load, or CJALR, asks for.
#[inline(always)]
pub fn load_action(op: LoadOp, cd: Reg, c1: Reg, imm: i16, hart: &Hart) -> Action
    ensures { action_of result ≡ action (load_instr op cd c1 imm) hart.now }
{
    let offset = immediate(imm);
    let addr = hart.register(c1).addr().wrapping_add(offset);
    let load = |width, signed| Action::Load {
        cd,
        c1,
        addr,
        width,
        signed,
    };
    match op {
        LoadOp::Lb => load(Width::Byte, true),
        LoadOp::Lbu => load(Width::Byte, false),
        LoadOp::Lh => load(Width::Half, true),
        LoadOp::Lhu => load(Width::Half, false),
        LoadOp::Lw => load(Width::Word, true),
        LoadOp::Lwu => load(Width::Word, false),
        LoadOp::Ld => load(Width::Double, false),
        LoadOp::Lc => Action::LoadCap { cd, c1, addr },
        LoadOp::CJalr => Action::JumpThrough {
            cd,
            c1,
            is_entry: offset == 0,
            target: even(addr),
        },
    }
}

/// What a store asks for.
#[inline(always)]
pub fn store_action(op: StoreOp, c2: Reg, c1: Reg, imm: i16, hart: &Hart) -> Action
    ensures { action_of result ≡ action (store_instr op c2 c1 imm) hart.now }
{
    let addr = hart.register(c1).addr().wrapping_add(immediate(imm));
    let value = hart.register(c2);
    let number = value.addr();
    let store = |width| Action::Store {
        c1,
        addr,
        width,
        number,
    };
    match op {
        StoreOp::Sb => store(Width::Byte),
        StoreOp::Sh => store(Width::Half),
        StoreOp::Sw => store(Width::Word),
        StoreOp::Sd => store(Width::Double),
        StoreOp::Sc => Action::StoreCap { c1, addr, value },
    }
}

/// What AMOSWAP.C asks for.
#[inline(always)]
pub fn swap_action(cd: Reg, c2: Reg, c1: Reg, hart: &Hart) -> Action
    ensures { action_of result ≡ action (AmoSwapC cd c2 c1) hart.now }
{
    Action::Swap {
        cd,
        c1,
        addr: hart.register(c1).addr(),
        value: hart.register(c2),
    }
}
