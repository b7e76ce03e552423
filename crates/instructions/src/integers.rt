//! The integer operations (RISC-V unprivileged ISA, "RV64I").
#![tactic(auto, using(crate::proofs::Unfold::low), unfolding(crate::proofs::Unfold::integers))]

ghost use Rattle.std.specs.Prelude.{◌≡◌, ◌%◌, ◌/◌, ◌*◌, ◌^◌, ◌<◌};
ghost use Rattle.cheri_model.specs.instructions.Integers.{
  immediate,
  is_less_signed,
  shifted_left,
  shifted_right,
  shifted_arithmetic,
  extended_word,
  word_sum,
  word_difference,
  word_shifted_left,
  word_shifted_right,
  word_shifted_arithmetic,
  upper_immediate,
  extended,
};
ghost use Rattle.cap_model.specs.results.Readings.{number_of};

use cheri_model::Width;

/// A signed immediate in 64 bits.
pub fn immediate(imm: i16) -> u64
    ensures { result ≡ immediate imm }
{
    i64::from(imm).cast_unsigned()
}

/// A truth value as an integer register has it.
pub fn number_of(holds: bool) -> u64
    ensures { result ≡ number_of holds }
{
    if holds { 1 } else { 0 }
}

/// Whether one number is less than another, both read as signed.
pub fn is_less_signed(a: u64, b: u64) -> bool
    ensures { result ≡ is_less_signed a b }
{
    a.cast_signed() < b.cast_signed()
}

/// A shift to the left, by the amount modulo 64.
pub fn shifted_left(a: u64, amount: u64) -> u64
    ensures { result ≡ shifted_left a amount }
{
    a << (amount % 64)
}

/// A shift to the right, by the amount modulo 64.
pub fn shifted_right(a: u64, amount: u64) -> u64
    ensures { result ≡ shifted_right a amount }
{
    a >> (amount % 64)
}

/// The same, with the sign in the high bits.
pub fn shifted_arithmetic(a: u64, amount: u64) -> u64
    ensures { result ≡ shifted_arithmetic a amount }
{
    (a.cast_signed() >> (amount % 64)).cast_unsigned()
}

/// The low 32 bits.
fn low_word(number: u64) -> u32
    ensures { result ≡ number % 2 ^ 32 }
{
    (number % (1 << 32)) as u32
}

/// A number of 32 bits, sign-extended.
fn extended_word(number: u32) -> u64
    ensures { result ≡ extended_word number }
{
    i64::from(number.cast_signed()).cast_unsigned()
}

/// The sum of the low 32 bits.
pub fn word_sum(a: u64, b: u64) -> u64
    ensures { result ≡ word_sum a b }
{
    extended_word(low_word(a).wrapping_add(low_word(b)))
}

/// The difference of the low 32 bits.
pub fn word_difference(a: u64, b: u64) -> u64
    ensures { result ≡ word_difference a b }
{
    extended_word(low_word(a).wrapping_sub(low_word(b)))
}

/// The low 32 bits shifted to the left, by the amount modulo 32.
pub fn word_shifted_left(a: u64, amount: u64) -> u64
    ensures { result ≡ word_shifted_left a amount }
{
    extended_word(low_word(a) << (amount % 32))
}

/// The low 32 bits shifted to the right, by the amount modulo 32.
pub fn word_shifted_right(a: u64, amount: u64) -> u64
    ensures { result ≡ word_shifted_right a amount }
{
    extended_word(low_word(a) >> (amount % 32))
}

/// The same, with the sign of the 32 bits in the high ones.
pub fn word_shifted_arithmetic(a: u64, amount: u64) -> u64
    ensures { result ≡ word_shifted_arithmetic a amount }
{
    i64::from(low_word(a).cast_signed() >> (amount % 32)).cast_unsigned()
}

/// What LUI writes and AUIPC adds: the immediate times 2^12, of 32 bits, sign-extended.
pub fn upper_immediate(imm: u32) -> u64
    ensures { result ≡ upper_immediate imm }
{
    extended_word(imm << 12)
}

/// A loaded number of a width, sign-extended.
pub fn extended(width: Width, number: u64) -> u64
    ensures { result ≡ extended width number }
{
    match width {
        Width::Byte => i64::from(((number % (1 << 8)) as u8).cast_signed()).cast_unsigned(),
        Width::Half => i64::from(((number % (1 << 16)) as u16).cast_signed()).cast_unsigned(),
        Width::Word => i64::from(low_word(number).cast_signed()).cast_unsigned(),
        Width::Double => number,
    }
}
