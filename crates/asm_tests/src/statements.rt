//! Statements: the instructions that they mean, and their faults.

ghost use Rattle.std.specs.Prelude.{Err, None};

use asm_expressions::{LookUp, Node, value_of};
use asm_statements::{Body, Statement, read_statements};
use asm_tokens::{AsmFault, AsmFaultKind, read_tokens};
use asm_values::Value;
use notation::InstructionText;
use std::alloc::Global;
use std::fmt::Write;
use std::io;
use std::process::Abort;
use std::test::Fail;

/// Names that have no values.
struct Nameless;

impl LookUp for Nameless {
    type Fault = ();

    ghost named = { λ _ _. Err tt };

    ghost apart = { λ _ _ _. None };

    fn value(&self, _node: Node) -> Result<Value, ()> {
        Err(())
    }

    fn distance(&self, _to: u32, _from: u32) -> Option<u64> {
        None
    }
}

/// The first fault of a text's statements.
fn first_fault(alloc: Global, text: &str) -> Result<Option<AsmFault>, Fail> {
    let Ok(tokens) = read_tokens(alloc, text.as_bytes()) else {
        return Ok(None);
    };
    for statement in &read_statements(alloc, &tokens)? {
        if statement.fault.is_some() {
            return Ok(statement.fault);
        }
    }
    Ok(None)
}

/// The value of a statement's operand, 0 without one.
fn value(alloc: Global, statement: &Statement) -> i64 {
    if statement.nodes.is_empty() {
        return 0;
    }
    match value_of(alloc, &Nameless, &statement.nodes) {
        Ok(Value::Number(number)) => number.cast_signed(),
        _ => -1,
    }
}

/// The instructions of a text that is one instruction of assembly.
fn meaning(alloc: Global, text: &str) -> Result<String, Fail> {
    let mut out = String::new(alloc);
    let mut instrs = Vec::new(alloc);
    let Ok(tokens) = read_tokens(alloc, text.as_bytes()) else {
        return Ok(out);
    };
    for statement in &read_statements(alloc, &tokens)? {
        if let Body::Instruction(_, Some(operation)) = statement.body {
            if let Some(expansion) = operation.expand(value(alloc, statement)) {
                expansion.write(&mut instrs)?;
            }
        }
    }
    for instr in &instrs {
        if !out.is_empty() {
            write!(out, "; ")?;
        }
        write!(out, "{}", InstructionText(instr.form()))?;
    }
    Ok(out)
}

/// Instructions of assembly, each with the machine's instructions.
const MEANINGS: &[(&str, &str)] = &[
    ("add a0, a1, a2", "add c10, c11, c12"),
    ("addi a0,a1,'A'", "addi c10, c11, 65"),
    ("sll a0, a1, a2", "sll c10, c11, c12"),
    ("sra a0, a1, a2", "sra c10, c11, c12"),
    ("srli a0, a1, 2", "srli c10, c11, 2"),
    ("sraw a0, a1, 3", "sraiw c10, c11, 3"),
    ("sltiu a0, a1, 5", "sltiu c10, c11, 5"),
    ("andi a0, a1, 1", "andi c10, c11, 1"),
    ("clb a0, (ca1)", "lb c10, 0(c11)"),
    ("cld a0, -8(c31)", "ld c10, -8(c31)"),
    ("sd a0, 8(csp)", "sd c10, 8(c2)"),
    ("sd.cap a0, 0(ca1)", "sd c10, 0(c11)"),
    ("cjalr ca0", "cjalr c1, 0(c10)"),
    ("cjr ca0", "cjalr c0, 0(c10)"),
    ("scall", "ecall"),
    ("fence rw, w", "addi c0, c0, 0"),
    ("neg a0, a1", "sub c10, c0, c11"),
    ("zext.h a0, a1", "slli c10, c11, 48; srli c10, c10, 48"),
    ("sgt a0, a1, a2", "slt c10, c12, c11"),
    ("li a0, 2048", "lui c10, 1; addiw c10, c10, -2048"),
    ("li a0, 3 << 1 | 1", "addi c10, c0, 7"),
    ("cgetsealed a0, ca1", "cgetsealed c10, c11"),
    ("ccleartag ca0, ca0", "ccleartag c10, c10"),
    ("csetaddr ca0, ca1, a2", "csetaddr c10, c11, c12"),
    ("csetboundsimm ca0, ca1, 0", "csetboundsimm c10, c11, 0"),
    ("cunseal ca0, ca1, ca2", "cunseal c10, c11, c12"),
    ("cinvoke ca0, ca1", "cinvoke c10, c11"),
];

/// Texts with the line, the column and the kind of their first fault.
const FAULTS: &[(&str, usize, usize, AsmFaultKind)] = &[
    ("ADD A0, a0, a0", 1, 5, AsmFaultKind::Operand),
    ("nop a0", 1, 5, AsmFaultKind::Operand),
    ("clw a0, 4(ca0", 1, 14, AsmFaultKind::Operand),
    ("ccall a, b, c", 1, 8, AsmFaultKind::Operand),
    ("cincoffset ca0", 1, 15, AsmFaultKind::Operand),
    (".globl 5", 1, 8, AsmFaultKind::Operand),
    (".data\n.byte 1 2", 2, 9, AsmFaultKind::Operand),
    (".section .x,\"aq\"", 1, 13, AsmFaultKind::Operand),
    ("add a0, ca1, a2", 1, 9, AsmFaultKind::Register),
    ("cmove ca0, a1", 1, 12, AsmFaultKind::Register),
    ("jr ra", 1, 4, AsmFaultKind::Register),
    ("li ca0, 5", 1, 4, AsmFaultKind::Register),
    ("crrl ca0, a0", 1, 6, AsmFaultKind::Register),
    ("camoswap.c ca0, ca1, (a2)", 1, 23, AsmFaultKind::Register),
];

/// Whether each text means its instructions.
fn check_meanings(rt: &impl Abort, alloc: Global, rows: &[(&str, &str)]) -> Result<(), Fail> {
    for (text, want) in rows {
        let got = meaning(alloc, text)?;
        assert_eq!(rt; got.as_str(), *want, "of {text}");
    }
    Ok(())
}

/// Whether each text has its fault.
fn check_faults(
    rt: &impl Abort,
    alloc: Global,
    rows: &[(&str, usize, usize, AsmFaultKind)],
) -> Result<(), Fail> {
    for (text, line, column, kind) in rows {
        let fault = first_fault(alloc, text)?;
        let got = fault.map(|fault| (fault.place.line, fault.place.column, fault.kind));
        assert_eq!(rt; got, Some((*line, *column, *kind)), "of {text}");
    }
    Ok(())
}

#[test]
fn instructions_mean_the_machine_s(rt: HostRuntime) -> Result<(), Fail> {
    check_meanings(&rt, rt.alloc(), MEANINGS)
}

#[test]
fn faults_are_at_their_tokens(rt: HostRuntime) -> Result<(), Fail> {
    check_faults(&rt, rt.alloc(), FAULTS)
}
