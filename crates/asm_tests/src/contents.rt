//! Numbers in memory, and instructions with the numbers of their operands.

use asm_expansions::Operation;
use asm_instructions::{Origin, expansion_for, fill_gaps};
use asm_memory::{is_in_width, listed_granules, put_fill, put_number};
use asm_names::Relocation;
use cheri_model::Reg;
use cheri_model::form::{LoadOp, UpperOp};
use notation::InstructionText;
use std::alloc::Global;
use std::fmt::Write;
use std::process::Abort;
use std::test::Fail;
use tagged_mem::Ram;

#[test]
fn numbers_have_their_ranges(rt: HostRuntime) -> Result<(), Fail> {
    for (width, number, want) in [
        (1, -129, false),
        (1, -128, true),
        (1, 255, true),
        (1, 256, false),
        (2, -32_769, false),
        (2, -32_768, true),
        (2, 65_535, true),
        (2, 65_536, false),
        (4, -2_147_483_649, false),
        (4, -2_147_483_648, true),
        (4, 4_294_967_295, true),
        (4, 4_294_967_296, false),
        (8, i64::MIN, true),
        (8, -1, true),
    ] {
        let got = is_in_width(width, number.cast_unsigned());
        assert_eq!(rt; got, want, "{number} in {width}");
    }
    Ok(())
}

#[test]
fn memory_has_what_is_put(rt: HostRuntime) -> Result<(), Fail> {
    let alloc = rt.alloc();
    let mut ram = Ram::new(alloc, 4_096)?;
    for (addr, width, number) in [
        (0x8000_0000, 4, 17),
        (0x8000_0004, 4, 3),
        (0x8000_0008, 2, 0x1234_ABCD),
        (0x8000_000A, 1, u64::MAX),
        (0x8000_0FFE, 4, 5),
        (0x7FFF_FFFE, 4, 5),
    ] {
        put_number(&mut ram, addr, width, number);
    }
    put_fill(alloc, &mut ram, 0x8000_0FFE, 2, 0x55)?;
    put_fill(alloc, &mut ram, 0x8000_0FFE, 3, 0x66)?;
    let want = [17, 0, 0, 0, 3, 0, 0, 0, 0xCD, 0xAB, 0xFF, 0, 0, 0, 0, 0];
    assert!(rt; ram.bytes().starts_with(want.as_slice()));
    assert!(rt; ram.bytes().ends_with([0, 0x55, 0x55].as_slice()));
    let granules = listed_granules(alloc, &ram, 4_096)?;
    let mut addresses = Vec::new(alloc);
    for (addr, _) in &granules {
        addresses.push(*addr)?;
    }
    assert_eq!(rt; addresses.as_slice(), [0x8000_0000, 0x8000_0FF0].as_slice());
    assert_eq!(rt; listed_granules(alloc, &ram, 4_080)?.len(), 1);
    Ok(())
}

/// The instructions of an operation with the number of its operand; `4 Range` and the like where
/// there are none.
fn meaning(
    alloc: Global,
    operation: &Operation,
    relocation: Option<Relocation>,
    number: i64,
) -> Result<String, Fail> {
    let mut out = String::new(alloc);
    let mut instrs = Vec::new(alloc);
    match expansion_for(operation, relocation, number.cast_unsigned()) {
        Ok(expansion) => expansion.write(&mut instrs)?,
        Err(kind) => write!(out, "{kind}")?,
    }
    for instr in &instrs {
        if !out.is_empty() {
            write!(out, "; ")?;
        }
        write!(out, "{}", InstructionText(instr.form()))?;
    }
    Ok(out)
}

/// Whether an operation with each number has its instructions.
fn check_meanings(
    rt: &impl Abort,
    alloc: Global,
    operation: &Operation,
    rows: &[(Option<Relocation>, i64, &str)],
) -> Result<(), Fail> {
    for (relocation, number, want) in rows {
        let got = meaning(alloc, operation, *relocation, *number)?;
        assert_eq!(rt; got.as_str(), *want, "of {number}");
    }
    Ok(())
}

/// Numbers of `auipcc ca1`.
const UPPER: &[(Option<Relocation>, i64, &str)] = &[
    (
        Some(Relocation::CaptabPcrelHi),
        0x6FFF_FFFC,
        "auipcc c11, 458752",
    ),
    (Some(Relocation::PcrelHi), -0x801, "auipcc c11, 1048575"),
    (Some(Relocation::PcrelHi), 0x7FFF_F800, "4 Range"),
    (Some(Relocation::Hi), 5, "8 Expression"),
];

/// Numbers of `clc ca1, ..(ca1)`.
const LOWER: &[(Option<Relocation>, i64, &str)] = &[
    (Some(Relocation::PcrelLo), 0x6FFF_FFFC, "lc c11, -4(c11)"),
    (Some(Relocation::PcrelLo), 0x7FF, "lc c11, 2047(c11)"),
    (Some(Relocation::PcrelLo), 0x800, "lc c11, -2048(c11)"),
    (Some(Relocation::PcrelLo), -0x801, "lc c11, 2047(c11)"),
    (None, 2_048, "4 Range"),
];

#[test]
fn distances_are_in_two_parts(rt: HostRuntime) -> Result<(), Fail> {
    let upper = Operation::Upper(UpperOp::AuiPcc, Reg::new(11));
    check_meanings(&rt, rt.alloc(), &upper, UPPER)?;
    let lower = Operation::Load(LoadOp::Lc, Reg::new(11), Reg::new(11));
    check_meanings(&rt, rt.alloc(), &lower, LOWER)
}

#[test]
fn gaps_belong_to_what_is_behind(rt: HostRuntime) -> Result<(), Fail> {
    let origin = Origin {
        file: 1,
        line: 7,
        statement: Some(3),
    };
    let gap = Origin {
        file: 1,
        line: 7,
        statement: None,
    };
    let got = fill_gaps(rt.alloc(), &[None, None, Some(origin), Some(origin)])?;
    assert_eq!(rt; got.as_slice(), [gap, gap, origin, origin].as_slice());
    Ok(())
}
