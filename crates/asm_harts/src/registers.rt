//! The registers of a hart that something sets.
#![tactic(auto, unfolding(crate::proofs::Unfold::registers))]

ghost use Rattle.std.specs.Prelude.{◌≡◌, ◌<◌};
ghost use Rattle.asm_harts.specs.Registers.{no_registers, is_set, with_register, or_register};

use cheri_model::{Reg, Value};

/// The registers c1 to c31: what they hold, and which of them something sets. The others are null.
#[derive(Clone, Copy, Debug)]
pub struct Registers {
    pub values: [Value; 31],
    pub set: [bool; 31],
}

/// None is set.
pub fn no_registers() -> Registers
    ensures { result ≡ no_registers }
{
    Registers {
        values: [Value::raw(0); 31],
        set: [false; 31],
    }
}

impl Registers {
    /// Whether a register is set. Register 0 is never.
    pub fn is_set(&self, register: Reg) -> bool
        ensures { result ≡ is_set self.now register }
    {
        let number = usize::from(register.number());
        if number == 0 {
            return false;
        }
        self.set[number - 1]
    }

    /// Sets a register to a value. Register 0 stays null.
    pub fn set(&mut self, register: Reg, value: Value)
        ensures { self.new ≡ with_register self.old register value }
    {
        let number = usize::from(register.number());
        if number == 0 {
            return;
        }
        self.values[number - 1] = value;
        self.set[number - 1] = true;
    }

    /// Sets a register to a value, unless it is set already.
    pub fn set_if_free(&mut self, register: Reg, value: Value)
        ensures { self.new ≡ or_register self.old register value }
    {
        if self.is_set(register) {
            return;
        }
        self.set(register, value);
    }
}
