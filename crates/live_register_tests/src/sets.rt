//! The sets of two programs, as the model in `bench/explore/models` has them.

ghost use Rattle.std.specs.Prelude.{◌<◌};

use cap_model::Perms;
use cap_ops::Cap;
use cheri_model::{CODE_BASE, HartImage, Instr, Reg, Target, Value};
use hart::Hart;
use live_registers::{LiveRegisters, RegisterSet};
use std::alloc::Global;
use std::test::Fail;

/// A register.
fn c(number: u8) -> Reg
    requires { number < 32 }
{
    Reg::new(number)
}

/// A number is loaded until it isn't 0, and the tries are counted; then the number is stored, a sum
/// made, and a procedure called, which swaps and returns.
fn waiting() -> [Instr; 11] {
    [
        Instr::Addi {
            cd: c(5),
            c1: c(0),
            imm: 3,
        },
        Instr::Addi {
            cd: c(6),
            c1: c(6),
            imm: 1,
        },
        Instr::Ld {
            cd: c(7),
            c1: c(8),
            imm: 0,
        },
        Instr::Beq {
            c1: c(7),
            c2: c(0),
            target: Target::new(1),
        },
        Instr::CMove {
            cd: c(9),
            c1: c(10),
        },
        Instr::Add {
            cd: c(11),
            c1: c(5),
            c2: c(7),
        },
        Instr::Sd {
            c2: c(7),
            c1: c(9),
            imm: 8,
        },
        Instr::CJal {
            cd: c(1),
            target: Target::new(9),
        },
        Instr::Ecall,
        Instr::AmoSwapC {
            cd: c(12),
            c2: c(13),
            c1: c(8),
        },
        Instr::CJalr {
            cd: c(0),
            c1: c(1),
            imm: 0,
        },
    ]
}

/// A loop in which a number and c0 are all that is read.
fn looping() -> [Instr; 3] {
    [
        Instr::Addi {
            cd: c(5),
            c1: c(0),
            imm: 3,
        },
        Instr::Bne {
            c1: c(5),
            c2: c(0),
            target: Target::new(0),
        },
        Instr::Ecall,
    ]
}

/// The registers that matter to a hart at an instruction, but c0: bit n says whether cn does.
fn mask_at(live: &LiveRegisters, number: usize) -> Result<u32, Fail>
    requires { number < 1000 }
{
    let addr = CODE_BASE + 4 * number as u64;
    let pcc = Cap::make(CODE_BASE, 4000, addr, Perms::ALL).or(Err("no code"))?;
    let set = live.set_of(&Hart::open(&HartImage {
        pcc: pcc.value(),
        regs: [Value::raw(0); 31],
    }));
    let mut mask = 0;
    for number in 1..32 {
        if set.has(Reg::new(number)) {
            mask |= 1 << number;
        }
    }
    Ok(mask)
}

/// Whether these are the registers that matter before each instruction of a program.
fn are_masks(
    alloc: Global,
    program: &[Instr],
    asked: RegisterSet,
    masks: &[u32],
) -> Result<bool, Fail> {
    let live = LiveRegisters::guess(alloc, program, asked)?;
    for (number, mask) in masks.iter().enumerate() {
        if number >= 1000 || mask_at(&live, number)? != *mask {
            return Ok(false);
        }
    }
    Ok(true)
}

#[test]
fn sets_are_those_of_the_model(rt: HostRuntime) -> Result<(), Fail> {
    let none = RegisterSet::none();
    let nothing_asked = [
        9472, 9472, 9472, 9600, 9600, 10112, 10112, 10112, 0, 10114, 10114,
    ];
    assert!(rt; are_masks(rt.alloc(), &waiting(), none, &nothing_asked)?);
    let tries_asked = [
        9536, 9536, 9536, 9664, 9664, 10176, 10176, 10176, 64, 10178, 10178,
    ];
    assert!(rt; are_masks(rt.alloc(), &waiting(), none.with(c(6)), &tries_asked)?);
    assert!(rt; are_masks(rt.alloc(), &looping(), none, &[0, 32, 0])?);
    Ok(())
}
