//! A step of a hart, and the granule that it changes.
#![tactic(auto, unfolding(crate::proofs::Unfold::stores))]

ghost use Rattle.std.specs.Prelude.{◌≡◌, ◌<◌, List, length, slice_set, None, IfSome, is_some};
ghost use Rattle.cap_model.specs.values.CapValue.{CapValue};
ghost use Rattle.cheri_model.specs.steps.Actions.{action, at};
ghost use Rattle.cheri_model.specs.steps.HartStep.{hart_step};
ghost use Rattle.sample_draws.specs.Orders.{is_changed};
ghost use Rattle.sample_steps.specs.Writes.{stored_at, store_address};

use cap_ops::Cap;
use cheri_model::{CODE_BASE, GRANULE_BYTES, INSTRUCTION_BYTES, Instr, RAM_BASE, Reg};
use hart::Hart;
use hart_step::step;
use instructions::immediate;
use sample_draws::same_value;
use tagged_mem::Ram;

/// The address at an offset from a register.
fn at(hart: &Hart, c1: Reg, imm: i16) -> u64
    ensures { result ≡ at hart.now c1 imm }
{
    hart.register(c1).addr().wrapping_add(immediate(imm))
}

/// The address that an instruction stores at, if it stores. Most don't, which their kind says: no
/// register is read for them.
fn stored_at(instr: Instr, hart: &Hart) -> Option<u64>
    ensures { result ≡ stored_at (action instr hart.now) }
{
    match instr {
        Instr::Sb { c1, imm, .. } => Some(at(hart, c1, imm)),
        Instr::Sh { c1, imm, .. } => Some(at(hart, c1, imm)),
        Instr::Sw { c1, imm, .. } => Some(at(hart, c1, imm)),
        Instr::Sd { c1, imm, .. } => Some(at(hart, c1, imm)),
        Instr::Sc { c1, imm, .. } => Some(at(hart, c1, imm)),
        Instr::AmoSwapC { c1, .. } => Some(hart.register(c1).addr()),
        _ => None,
    }
}

/// The address that the next step of a hart stores at, if its instruction stores, whether or not
/// the fetch and the access can pass their checks: a step that traps changes no memory.
fn store_address(program: &[Instr], hart: &Hart) -> Option<u64>
    ensures { result ≡ store_address program.now hart.now }
{
    let number = hart.pcc().addr().saturating_sub(CODE_BASE) / INSTRUCTION_BYTES;
    match program.get(number as usize) {
        Some(instr) => stored_at(*instr, hart),
        None => None,
    }
}

/// The granule that the next step of a hart may change, in a memory of so many.
fn store_place(program: &[Instr], hart: &Hart, granules: usize) -> Option<usize>
    ensures stays { (memory : List CapValue) → length memory ≡ granules → result ≡ None
        → (hart_step program.now hart.now memory).memory ≡ memory }
    ensures one { IfSome result (λ k. (memory : List CapValue) → length memory ≡ granules
        → (v : CapValue)
        × ((hart_step program.now hart.now memory).memory ≡ slice_set memory k v)) }
    ensures within { IfSome result (λ k. k < granules) }
{
    match store_address(program, hart) {
        None => None,
        Some(addr) => {
            let number = addr.saturating_sub(RAM_BASE) / u64::from(GRANULE_BYTES);
            if number < granules as u64 {
                Some(number as usize)
            } else {
                None
            }
        }
    }
}

/// What a step changed in memory: the granule, and the value that it had.
#[derive(Clone, Copy)]
pub struct Change {
    pub granule: usize,
    pub value: Cap,
}

/// Replaces a granule.
pub fn put_granule(ram: &mut Ram, granule: usize, value: Cap)
    requires { granule < length ram.old }
    ensures { ram.new ≡ slice_set ram.old granule value }
{
    // Its clause says how large a memory may be.
    let _count = ram.granule_count();
    ram.store_cap(RAM_BASE + u64::from(GRANULE_BYTES) * granule as u64, value);
}

/// Steps a hart in place, and says what that changed in memory. Inlined, since most steps change
/// nothing.
#[inline(always)]
pub fn step_hart(program: &[Instr], hart: &mut Hart, ram: &mut Ram) -> Option<Change>
    ensures hart { hart.new ≡ (hart_step program.now hart.old ram.old).hart }
    ensures memory { ram.new ≡ (hart_step program.now hart.old ram.old).memory }
    ensures changed { is_changed ram.old ram.new ≡ is_some result }
    ensures same { result ≡ None → ram.new ≡ ram.old }
    ensures within { IfSome result (λ change. change.granule < length ram.new) }
    ensures back { IfSome result (λ change.
        slice_set ram.new change.granule change.value ≡ ram.old) }
{
    match store_place(program, hart, ram.granule_count()) {
        None => {
            let _outcome = step(program, hart, ram);
            None
        }
        Some(granule) => {
            let value = ram.granule(granule);
            let _outcome = step(program, hart, ram);
            if same_value(value, ram.granule(granule)) {
                return None;
            }
            Some(Change { granule, value })
        }
    }
}
