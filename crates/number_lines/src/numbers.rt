//! Numbers as arguments, and the lines that they ask for.

ghost use Rattle.std.specs.Prelude.{◌≡◌, ◌≤◌, IfOk, IfErr, IfSome, Some, string_bytes};
ghost use Rattle.number_lines.specs.Numbers.{number_given, range_answer, word_answer};
ghost use Rattle.number_lines.specs.Numbers.{IsNumberFault};

use crate::lines::{bounds_text, decode_text};
use cap_model::ADDRESS_SPACE;
use grammar::numerals::number_of;
use std::alloc::{AllocError, Global};
use thiserror::Error;

/// The greatest address.
pub const GREATEST_ADDRESS: u128 = ADDRESS_SPACE - 1;

/// The greatest word of a value.
pub const GREATEST_WORD: u128 = u128::MAX;

/// Why no line answers an argument.
#[derive(Clone, Copy, Debug, PartialEq, Eq, Error)]
pub enum NumberFault {
    /// Out of memory.
    #[error("memory")]
    NoMemory,
    /// An argument is no number, or none in its range.
    #[error("bad number")]
    BadNumber,
}

impl From<AllocError> for NumberFault {
    ghost use Rattle.number_lines.specs.declared.numbers.NumberFault.TheVariants.{NoMemory};

    ghost from_gives = { λ _ fault. fault ≡ NoMemory };

    fn from(_: AllocError) -> NumberFault {
        NumberFault::NoMemory
    }
}

/// The number that a word writes as in a listing, where it is at most the limit.
pub fn number_given(limit: u128, word: &[u8]) -> Option<u128>
    ensures value { result ≡ number_given limit word.now }
    ensures at_most { IfSome result (λ number. number ≤ limit) }
{
    match number_of(word) {
        Ok(Some(number)) if number <= limit => Some(number),
        _ => None,
    }
}

/// The line of the rounding of `len` addresses from `base` on, both written as in a listing: the
/// base is an address, the length at most 2^64.
pub fn range_line(alloc: Global, base: &[u8], len: &[u8]) -> Result<String, NumberFault>
    ensures line { IfOk result (λ text. range_answer base.now len.now
        ≡ Some (string_bytes text)) }
    ensures refused { IfErr result (IsNumberFault (range_answer base.now len.now)) }
{
    let Some(base) = number_given(GREATEST_ADDRESS, base) else {
        return Err(NumberFault::BadNumber);
    };
    let Some(len) = number_given(ADDRESS_SPACE, len) else {
        return Err(NumberFault::BadNumber);
    };
    Ok(bounds_text(alloc, base as u64, len)?)
}

/// The line of a word of 128 bits, written as in a listing.
pub fn word_line(alloc: Global, word: &[u8]) -> Result<String, NumberFault>
    ensures line { IfOk result (λ text. word_answer word.now ≡ Some (string_bytes text)) }
    ensures refused { IfErr result (IsNumberFault (word_answer word.now)) }
{
    let Some(word) = number_given(GREATEST_WORD, word) else {
        return Err(NumberFault::BadNumber);
    };
    Ok(decode_text(alloc, word)?)
}
