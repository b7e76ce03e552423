//! Worked rows of more than one step.

use super::{after, fetch_traps, hart_with, ram};
use cap_ops::Cap;
use cheri_model::{Instr, Reg};
use hart_step::step;
use samples::{Given, K, Tagged, hart_at, made, tagged_word};
use std::alloc::Global;
use std::process::Abort;
use std::test::Fail;

/// The first sixteen bytes of RAM, with Global and Load, and the word of that.
const WITH_GLOBAL: Given = Given::Open(0x8000_0000, 16, 0x8000_0000, 0x5);

const TAGGED: Tagged = Tagged(true, 0x0005_0000_0405_8004, 0x8000_0000);

/// What two harts leave that swap c6 with one granule, one after the other: c7 of both, and the
/// granule.
fn swapped(
    rt: &impl Abort,
    alloc: Global,
    first: Given,
    second: Given,
) -> Result<[Tagged; 3], Fail> {
    let (cd, c1, c2) = (Reg::new(7), Reg::new(5), Reg::new(6));
    let mut first = hart_with(K, first)?;
    let mut second = hart_with(K, second)?;
    let program = [Instr::AmoSwapC { cd, c2, c1 }, Instr::Ecall];
    let mut memory = ram(rt, alloc, 16);
    let _first = step(&program, &mut first, &mut memory);
    let _second = step(&program, &mut second, &mut memory);
    assert!(rt; memory.fits(0x8000_0000, 16));
    let granule = memory.load_cap(0x8000_0000);
    Ok([
        tagged_word(first.register(cd)),
        tagged_word(second.register(cd)),
        tagged_word(granule),
    ])
}

/// The second hart takes what the first one left, in either order.
#[test]
fn harts_swap_one_granule(rt: HostRuntime) -> Result<(), Fail> {
    let (null, one) = (Tagged(false, 0, 0), Tagged(false, 0, 1));
    let left = swapped(&rt, rt.alloc(), Given::Int(1), WITH_GLOBAL)?;
    assert_eq!(rt; left, [null, one, TAGGED]);
    let left = swapped(&rt, rt.alloc(), WITH_GLOBAL, Given::Int(1))?;
    assert_eq!(rt; left, [null, TAGGED, one]);
    Ok(())
}

/// After the only instruction PCC is out of its bounds, or at no instruction.
#[test]
fn the_end_of_a_program_traps(rt: HostRuntime) -> Result<(), Fail> {
    let (cd, c1) = (Reg::new(6), Reg::new(0));
    let rows = [
        ("the end of the bounds", 4, 8),
        ("the end of the program", 8, 11),
    ];
    for (why, len, cause) in rows {
        let hart = hart_at(made(0x1000_0000, len, 0x1000_0000, 0x2)?);
        let instr = Instr::Addi { cd, c1, imm: 1 };
        let left = after(&rt, rt.alloc(), instr, hart, Cap::null());
        assert_eq!(rt; left.trap, (0, 0), "{why}");
        fetch_traps(&rt, rt.alloc(), why, left.hart, cause);
    }
    Ok(())
}
