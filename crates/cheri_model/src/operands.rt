//! Operands of instructions: registers and the targets of jumps.

ghost use Rattle.std.specs.Prelude.{◌≡◌, ℕ, ◌^◌, ◌<◌};

use std::marker::Model;

/// The greatest immediate of 12 bits. The least is one below its negative.
pub const MAX_IMMEDIATE: u16 = 2047;

/// The greatest amount by which all 64 bits are shifted.
pub const MAX_SHIFT: u8 = 63;

/// The greatest amount by which the low 32 bits are shifted.
pub const MAX_WORD_SHIFT: u8 = 31;

/// The greatest length that `csetboundsimm` writes, of 12 bits without a sign.
pub const MAX_IMMEDIATE_LENGTH: u16 = 4095;

/// The greatest immediate of `lui` and `auipcc`, of 20 bits without a sign.
pub const MAX_UPPER_IMMEDIATE: u32 = 0xF_FFFF;

/// The number of one of the registers c0 to c31.
#[derive(Clone, Copy, Debug, PartialEq, Eq)]
pub struct Reg {
    number: u8,
}

impl Model for Reg {
    ghost Value = { ℕ };

    ghost view = { λ r. r.number };

    ghost invariant = { λ r. r.number < 32 };

    ghost inverse = { λ n. record { number = n } };
}

impl Reg {
    /// The register with this number.
    pub fn new(number: u8) -> Reg
        requires { number < 32 }
        ensures { result ≡ number }
    {
        Reg { number }
    }

    /// The register's number.
    pub fn number(self) -> u8
        ensures value { result ≡ self }
        ensures below { result < 32 }
    {
        self.number
    }
}

/// Where a branch or a jump goes: the number of an instruction of the program, from 0 on.
#[derive(Clone, Copy, Debug, PartialEq, Eq)]
pub struct Target {
    number: u32,
}

impl Model for Target {
    ghost Value = { ℕ };

    ghost view = { λ t. t.number };

    ghost invariant = { λ t. t.number < 2 ^ 32 };

    ghost inverse = { λ n. record { number = n } };
}

impl Target {
    /// The instruction with this number.
    pub fn new(number: u32) -> Target
        ensures { result ≡ number }
    {
        Target { number }
    }

    /// The instruction's number.
    pub fn number(self) -> u32
        ensures { result ≡ self }
    {
        let Self { number } = self;
        number
    }
}
