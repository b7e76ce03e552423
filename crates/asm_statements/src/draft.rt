//! A statement as far as it was read.
#![tactic(auto, unfolding(crate::proofs::Unfold::drafts))]

ghost use Rattle.std.specs.Prelude.{◌≡◌, OnOk};
ghost use Rattle.asm_statements.specs.Drafts.{
  empty_registers,
  empty_parts,
  parts_of,
  registers_with,
  with_body,
  with_operand,
  with_register,
};

use crate::statement::{Body, Operand, Role};
use asm_expressions::Node;
use asm_names::Relocation;
use cheri_model::Reg;
use std::alloc::{AllocError, Global};

/// The registers of an instruction as they are written, at most three of them.
#[derive(Clone, Copy, Debug, PartialEq, Eq)]
pub struct Registers {
    pub count: u8,
    pub first: Reg,
    pub second: Reg,
    pub third: Reg,
}

impl Registers {
    /// None.
    fn new() -> Registers
        ensures { result ≡ empty_registers }
    {
        Registers {
            count: 0,
            first: Reg::new(0),
            second: Reg::new(0),
            third: Reg::new(0),
        }
    }

    /// These and one more.
    fn with(self, register: Reg) -> Registers
        ensures { result ≡ registers_with self register }
    {
        match self.count {
            0 => Registers {
                count: 1,
                first: register,
                second: self.second,
                third: self.third,
            },
            1 => Registers {
                count: 2,
                first: self.first,
                second: register,
                third: self.third,
            },
            _ => Registers {
                count: 3,
                first: self.first,
                second: self.second,
                third: register,
            },
        }
    }
}

/// What was read of a statement.
#[derive(Drop)]
pub(crate) struct Draft {
    pub(crate) body: Body,
    pub(crate) registers: Registers,
    pub(crate) operands: Vec<Operand>,
    pub(crate) nodes: Vec<Node>,
}

impl Draft {
    /// Nothing.
    pub(crate) fn new(alloc: Global) -> Draft
        ensures { parts_of result ≡ empty_parts }
    {
        Draft {
            body: Body::Nothing,
            registers: Registers::new(),
            operands: Vec::new(alloc),
            nodes: Vec::new(alloc),
        }
    }

    /// Says what the statement is.
    pub(crate) fn set_body(&mut self, body: Body)
        ensures { parts_of self.new ≡ with_body body (parts_of self.old) }
    {
        self.body = body;
    }

    /// Adds a register.
    pub(crate) fn add_register(&mut self, register: Reg)
        ensures { parts_of self.new ≡ with_register register (parts_of self.old) }
    {
        self.registers = self.registers.with(register);
    }

    /// Adds an operand whose first token has this number, and whose nodes are those since the last.
    pub(crate) fn add_operand(
        &mut self,
        role: Role,
        relocation: Option<Relocation>,
        first: usize,
    ) -> Result<(), AllocError>
        ensures { OnOk result (parts_of self.new
            ≡ with_operand role relocation first (parts_of self.old)) }
    {
        let end = self.nodes.len();
        self.operands.push(Operand {
            role,
            relocation,
            first,
            end,
        })?;
        Ok(())
    }
}
