//! The numbers that code and definitions share, each by its numeral. Definitions take them from the
//! code, so that a wrong one would be wrong on both sides; these laws hold them to what the
//! documents say.

ghost use Rattle.std.specs.Prelude.{◌≡◌, List, [], ◌∷◌};
ghost use Rattle.cheri_model.specs.declared.code.TheConstants.{CODE_BASE, INSTRUCTION_BYTES};
ghost use Rattle.cheri_model.specs.declared.image.TheConstants.{MAX_HARTS, MAX_INSTRUCTIONS};
ghost use Rattle.cheri_model.specs.declared.memory.TheConstants.{
  GRANULE_BYTES,
  MAX_RAM_BYTES,
  RAM_BASE,
};
ghost use Rattle.cheri_model.specs.declared.operands.TheConstants.{
  MAX_IMMEDIATE,
  MAX_IMMEDIATE_LENGTH,
  MAX_SHIFT,
  MAX_UPPER_IMMEDIATE,
  MAX_WORD_SHIFT,
};

use crate::trace::Trap;

/// The places and sizes of code and memory.
pub fn machine_numbers()
    ensures code_base { CODE_BASE ≡ 0x10000000 }
    ensures instruction_bytes { INSTRUCTION_BYTES ≡ 4 }
    ensures max_instructions { MAX_INSTRUCTIONS ≡ 16384 }
    ensures max_harts { MAX_HARTS ≡ 8 }
    ensures ram_base { RAM_BASE ≡ 0x80000000 }
    ensures granule_bytes { GRANULE_BYTES ≡ 16 }
    ensures max_ram_bytes { MAX_RAM_BYTES ≡ 1048576 }
{}

/// The greatest immediates and shift amounts that an instruction's operands may be.
pub fn operand_ranges()
    ensures immediate { MAX_IMMEDIATE ≡ 2047 }
    ensures shift { MAX_SHIFT ≡ 63 }
    ensures word_shift { MAX_WORD_SHIFT ≡ 31 }
    ensures length { MAX_IMMEDIATE_LENGTH ≡ 4095 }
    ensures upper { MAX_UPPER_IMMEDIATE ≡ 1048575 }
{}

/// The causes' numbers, in their order, and the register number that means PCC.
pub fn trap_numbers()
    ensures capability { Trap.TAG ∷ Trap.SEAL ∷ [] ≡ 1 ∷ 2 ∷ [] }
    ensures permissions { Trap.EXECUTE ∷ Trap.LOAD ∷ Trap.STORE ∷ Trap.STORE_CAP
        ∷ Trap.STORE_LOCAL ∷ [] ≡ 3 ∷ 4 ∷ 5 ∷ 6 ∷ 7 ∷ [] }
    ensures addresses { Trap.LENGTH ∷ Trap.ALIGNMENT ∷ Trap.PLACE ∷ Trap.FETCH ∷ []
        ≡ 8 ∷ 9 ∷ 10 ∷ 11 ∷ [] }
    ensures pairs { Trap.TYPE ∷ Trap.CINVOKE ∷ [] ≡ 12 ∷ 13 ∷ [] }
    ensures pcc { Trap.PCC ≡ 32 }
{}
