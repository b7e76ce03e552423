//! How many instructions an instruction of assembly becomes.
#![tactic(auto, using(crate::proofs::Levels::counts), unfolding(crate::proofs::Unfold::counts))]

ghost use Rattle.std.specs.Prelude.{◌≡◌, ◌≤◌, ◌+◌, ◌*◌, ℕ, length};
ghost use Rattle.asm_expansions.specs.Constants.{constant, li, placed, word_constant};
ghost use Rattle.asm_expansions.specs.Expansions.{count_of, pseudo_two};

use crate::constants::{LEVELS, is_word, upper_rest};
use crate::immediates::{high_bits, rest, signed};
use crate::operation::{Operation, PseudoTwoOp};
use cheri_model::Reg;

/// The count of a constant of 32 bits.
fn word_count(rd: Reg, bits: u64) -> usize
    ensures count { result ≡ length (word_constant rd bits) }
    ensures bound { result ≤ 2 }
{
    if high_bits(bits) == 0 {
        return 1;
    }
    if rest(bits) == 0 && rd.number() != 0 {
        return 1;
    }
    2
}

/// The count of what follows the rest of a constant.
fn placed_count(bits: u64) -> usize
    ensures count { (rd : ℕ) → result ≡ length (placed rd bits) }
    ensures bound { result ≤ 2 }
{
    if rest(bits) == 0 { 1 } else { 2 }
}

/// The count of a constant, of which at most so many levels are taken.
fn count_levels(levels: u8, rd: Reg, bits: u64) -> usize
    ensures count { result ≡ length (constant levels rd bits) }
    ensures bound { result ≤ 2 * levels + 2 }
{
    if levels == 0 || is_word(bits) {
        return word_count(rd, bits);
    }
    count_levels(levels - 1, rd, upper_rest(bits)) + placed_count(bits)
}

/// The count of `li`.
fn constant_count(rd: Reg, n: i64) -> usize
    ensures { result ≡ length (li rd n) }
{
    match signed(n) {
        Some(_) => 1,
        None => count_levels(LEVELS, rd, n.cast_unsigned()),
    }
}

impl PseudoTwoOp {
    /// How many instructions this is.
    fn count(self) -> usize
        ensures { (d s : ℕ) → result ≡ length (pseudo_two self d s) }
    {
        match self {
            PseudoTwoOp::SextB | PseudoTwoOp::SextH | PseudoTwoOp::ZextH | PseudoTwoOp::ZextW => 2,
            _ => 1,
        }
    }
}

impl Operation {
    /// How many instructions this one stands for. Only that of `li` depends on the value.
    pub fn count(self, value: i64) -> usize
        ensures { result ≡ count_of self value }
    {
        match self {
            Operation::Li(rd) => constant_count(rd, value),
            Operation::PseudoTwo(op, _, _) => op.count(),
            Operation::Call(_)
            | Operation::Tail
            | Operation::Cllc(_)
            | Operation::Clgc(_)
            | Operation::LoadSymbol(_, _)
            | Operation::La(_) => 2,
            _ => 1,
        }
    }
}
