//! One step of a case, by the machine's own step.

use crate::cases::Case;
use crate::numbers::register;
use crate::operands::instr_of;
use cap_ops::Cap;
use cheri_model::{GRANULE_BYTES, HartImage, Instr, Outcome, RAM_BASE, Value};
use hart::Hart;
use hart_step::step;
use std::alloc::Global;
use tagged_mem::{MemFault, Ram};

/// The most places that a case's code has.
const MOST_CODE: usize = 64;

/// The most granules that a case's RAM has.
const MOST_GRANULES: u64 = 64;

/// What a step leaves: how it ended, the value of cd, PCC, and the case's granule.
#[derive(Clone, Copy)]
pub struct After {
    pub outcome: Outcome,
    pub result: Cap,
    pub pcc: Cap,
    pub granule: Cap,
}

/// The hart of a case: c2, then c1, where they are one register; the others are null.
fn hart_of(case: &Case) -> Hart {
    let null = Value::raw(0);
    let mut hart = Hart::open(&HartImage {
        pcc: case.pcc.value(),
        regs: [null; 31],
    });
    hart.put(register(case.operands.c2), case.second);
    hart.put(register(case.operands.c1), case.first);
    hart
}

/// RAM of at least one granule and at most 64.
fn ram_of(alloc: Global, case: &Case) -> Result<Ram, MemFault> {
    let granules = case.granules.clamp(1, MOST_GRANULES) as u32;
    let mut ram = Ram::new(alloc, granules * GRANULE_BYTES)?;
    let addr = RAM_BASE + 16 * (case.place % MOST_GRANULES);
    if ram.fits(addr, u64::from(GRANULE_BYTES)) {
        ram.store_cap(addr, case.granule);
    }
    Ok(ram)
}

/// What RAM has at a granule's number; null where there is none.
fn granule_of(ram: &Ram, place: u64) -> Cap {
    let number = (place % MOST_GRANULES) as usize;
    if number < ram.granule_count() {
        ram.granule(number)
    } else {
        Cap::null()
    }
}

/// What one step makes of a case.
pub fn step_of(alloc: Global, case: &Case) -> Result<After, MemFault> {
    let program: [Instr; MOST_CODE] = [instr_of(case.mnemonic, case.operands); MOST_CODE];
    let count = case.code.min(MOST_CODE as u64) as usize;
    let mut hart = hart_of(case);
    let mut ram = ram_of(alloc, case)?;
    let outcome = step(&program[..count], &mut hart, &mut ram);
    Ok(After {
        outcome,
        result: hart.register(register(case.operands.cd)),
        pcc: hart.pcc(),
        granule: granule_of(&ram, case.place),
    })
}
