//! The check of a fetch: whether the instruction at PCC may run.
#![tactic(auto, unfolding(crate::proofs::Unfold::fetches))]

ghost use Rattle.std.specs.Prelude.{
  ◌≡◌,
  ◌-◌,
  ◌*◌,
  ◌/◌,
  ◌^◌,
  ◌<◌,
  ◌≤◌,
  IfErr,
  IfOk,
  OnOk,
  length,
  slice_index_or,
  true,
  Ok,
  Err,
};
ghost use Rattle.cap_model.specs.values.CapValue.{parts_of};
ghost use Rattle.cheri_model.specs.steps.Checks.{first_failing, fetch_table, is_in_code};
ghost use Rattle.cheri_model.specs.steps.HartStep.{instruction_at};
ghost use Rattle.cap_model.specs.results.Addresses.{address_of, in_bounds, is_open};

use crate::checks::{check, first_failing, outside, sealed, unaligned, untagged, without};
use cap_ops::Cap;
use cheri_model::permission::EXECUTE;
use cheri_model::{CODE_BASE, INSTRUCTION_BYTES, Instr, Trap};

/// Whether an address is the place of an instruction, in a program of this many.
fn is_in_code(count: usize, addr: u64) -> bool
    ensures { result ≡ is_in_code count addr }
{
    addr >= CODE_BASE && (addr - CODE_BASE) / INSTRUCTION_BYTES < count as u64
}

/// The first check of a fetch that fails, in a program of `count` instructions.
fn fetch_check(pcc: Cap, count: usize) -> Result<(), Trap>
    ensures { result ≡ first_failing (fetch_table pcc count) }
{
    let pc = pcc.addr();
    first_failing(&[
        untagged(pcc, Trap::PCC),
        sealed(pcc, Trap::PCC),
        without(pcc, EXECUTE, Trap::EXECUTE, Trap::PCC),
        outside(pcc, pc, INSTRUCTION_BYTES, Trap::PCC),
        unaligned(pc, INSTRUCTION_BYTES, Trap::PCC),
        check(!is_in_code(count, pc), Trap::FETCH, Trap::PCC),
    ])
}

/// The instruction with this number.
fn instruction(program: &[Instr], number: usize) -> Instr
    requires { number < length program.now }
    ensures { result ≡ slice_index_or program.now number Instr.Ecall }
{
    program[number]
}

/// The instruction at PCC, or the trap of the first check of its fetch that fails. After a fetch
/// PCC is open and has the instruction in its bounds.
pub fn fetch(program: &[Instr], pcc: Cap) -> Result<Instr, Trap>
    ensures fetched { OnOk result (first_failing (fetch_table pcc (length program.now)) ≡ Ok tt) }
    ensures open { OnOk result (is_open pcc ≡ true) }
    ensures within { OnOk result (in_bounds pcc (address_of pcc) 4 ≡ true) }
    ensures instruction { IfOk result (λ i. i ≡ instruction_at program.now (address_of pcc)) }
    ensures trap { IfErr result (λ t.
        first_failing (fetch_table pcc (length program.now)) ≡ Err t) }
{
    fetch_check(pcc, program.len())?;
    let number = (pcc.addr() - CODE_BASE) / INSTRUCTION_BYTES;
    Ok(instruction(program, number as usize))
}
