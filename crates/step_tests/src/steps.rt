//! Rows of one step: an instruction, the registers and the memory before it, and what it leaves.
//! The expected values were computed by a model that follows the definitions over whole numbers.
//! Each row begins with the reason why it is there.

use cap_ops::Cap;
use cheri_model::{Instr, Outcome, Reg, Status, Trap};
use hart_step::{Hart, step};
use samples::{Given, hart_at, made};
use std::alloc::Global;
use std::process::Abort;
use std::test::Fail;
use tagged_mem::Ram;

mod machines;
mod unlisted;
mod worked;

/// The cause and the register of a trap; 0 and 0 where there is none.
type Trapped = (u8, u8);

/// A hart whose PCC covers the first four instructions of a program, with these values in c5 and
/// c6.
fn hart_with(first: Given, second: Given) -> Result<Hart, Fail> {
    let mut hart = hart_at(made(0x1000_0000, 16, 0x1000_0000, 0x6)?);
    hart.put(Reg::new(5), first.cap()?);
    hart.put(Reg::new(6), second.cap()?);
    Ok(hart)
}

/// RAM of this many bytes.
fn ram(rt: &impl Abort, alloc: Global, bytes: u32) -> Ram {
    Ram::new(alloc, bytes).expect(rt, "the size is one that RAM may have")
}

/// The trap of an outcome.
fn trapped(outcome: Outcome) -> Trapped {
    match outcome {
        Outcome::Trap(trap) => (trap.cause, trap.reg),
        _ => (0, 0),
    }
}

/// What a step leaves: the hart, the one granule of a memory of 16 bytes, and the trap.
#[derive(Clone, Copy)]
struct Stepped {
    hart: Hart,
    granule: Cap,
    trap: Trapped,
}

/// One step of a program of one instruction.
fn after(rt: &impl Abort, alloc: Global, instr: Instr, hart: Hart, granule: Cap) -> Stepped {
    let mut memory = ram(rt, alloc, 16);
    assert!(rt; memory.fits(0x8000_0000, 16));
    memory.store_cap(0x8000_0000, granule);
    let mut hart = hart;
    let outcome = step(&[instr], &mut hart, &mut memory);
    assert!(rt; memory.fits(0x8000_0000, 16));
    Stepped {
        hart,
        granule: memory.load_cap(0x8000_0000),
        trap: trapped(outcome),
    }
}

/// An ECALL traps at its fetch, and changes nothing but the status.
fn fetch_traps(rt: &impl Abort, alloc: Global, why: &str, hart: Hart, cause: u8) {
    let left = after(rt, alloc, Instr::Ecall, hart, Cap::null());
    assert_eq!(rt; left.trap, (cause, 32), "{why}");
    let mut wanted = hart;
    wanted.set_status(Status::Trapped(Trap { cause, reg: 32 }));
    assert_eq!(rt; left.hart, wanted, "{why}");
    assert_eq!(rt; left.granule, Cap::null(), "{why}");
}
