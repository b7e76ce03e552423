//! The flows of instructions, and a table of origins that follows them.

use cheri_model::{Instr, Reg};
use origins::{Flow, OriginTable, Place, Spot, StepFlows, flows};
use std::test::Fail;

fn flow(set: Spot, source: Spot) -> Flow {
    Flow { set, source }
}

#[test]
fn instructions_name_their_sources(rt: HostRuntime) -> Result<(), Fail> {
    let (c0, c5, c6, c7) = (Reg::new(0), Reg::new(5), Reg::new(6), Reg::new(7));
    let into_c5 = |source| StepFlows::One(flow(Spot::Register(5), source));
    let granule = Spot::Granule(2);
    let rows = [
        (
            "a copy",
            Instr::CMove { cd: c5, c1: c6 },
            into_c5(Spot::Register(6)),
        ),
        (
            "a rebuilt value is of its authority",
            Instr::CBuildCap {
                cd: c5,
                c1: c6,
                c2: c7,
            },
            into_c5(Spot::Register(6)),
        ),
        (
            "nothing is kept in c0",
            Instr::CMove { cd: c0, c1: c6 },
            StepFlows::Nothing,
        ),
        (
            "a number",
            Instr::Add {
                cd: c5,
                c1: c6,
                c2: c7,
            },
            StepFlows::Nothing,
        ),
        (
            "a number that is stored",
            Instr::Sd {
                c2: c5,
                c1: c6,
                imm: 0,
            },
            StepFlows::Nothing,
        ),
        (
            "an address of PCC",
            Instr::AuiPcc { cd: c5, imm: 1 },
            into_c5(Spot::Pcc),
        ),
        (
            "a capability that is loaded",
            Instr::Lc {
                cd: c5,
                c1: c6,
                imm: 32,
            },
            into_c5(granule),
        ),
        (
            "a capability that is stored",
            Instr::Sc {
                c2: c7,
                c1: c6,
                imm: 32,
            },
            StepFlows::One(flow(granule, Spot::Register(7))),
        ),
        (
            "a swap",
            Instr::AmoSwapC {
                cd: c5,
                c2: c7,
                c1: c6,
            },
            StepFlows::Two(
                flow(granule, Spot::Register(7)),
                flow(Spot::Register(5), granule),
            ),
        ),
        (
            "a jump, and its link",
            Instr::CJalr {
                cd: c5,
                c1: c6,
                imm: 0,
            },
            StepFlows::Two(
                flow(Spot::Pcc, Spot::Register(6)),
                flow(Spot::Register(5), Spot::Pcc),
            ),
        ),
        (
            "an invoked pair",
            Instr::CInvoke { c1: c6, c2: c7 },
            StepFlows::Two(
                flow(Spot::Pcc, Spot::Register(6)),
                flow(Spot::Register(31), Spot::Register(7)),
            ),
        ),
    ];
    for (why, instr, expected) in rows {
        assert_eq!(rt; flows(&instr, 0x8000_0020), expected, "{why}");
    }
    Ok(())
}

#[test]
fn tables_follow_swaps(rt: HostRuntime) -> Result<(), Fail> {
    let mut origins = OriginTable::open(rt.alloc(), 2, 4)?;
    let register = Place::RegisterOf { hart: 1, number: 5 };
    assert_eq!(rt; origins.origin(register), register);
    let stored = Flow {
        set: Spot::Granule(3),
        source: Spot::Register(5),
    };
    let loaded = Flow {
        set: Spot::Register(5),
        source: Spot::Granule(3),
    };
    origins.follow(1, StepFlows::Two(stored, loaded));
    assert_eq!(rt; origins.origin(register), Place::GranuleOf(3));
    assert_eq!(rt; origins.origin(Place::GranuleOf(3)), register);
    let other = Place::RegisterOf { hart: 0, number: 5 };
    assert_eq!(rt; origins.origin(other), other);
    Ok(())
}
