//! Values of a tag and a word from outside, where nothing says that a capability has that word.
#![tactic(auto, using(crate::proofs::Encodings::ie_lt), unfolding(crate::proofs::Unfold::stored))]

ghost use Rattle.std.specs.Prelude.{◌≡◌, ◌^◌, ◌<◌, ◌&&◌};
ghost use Rattle.cap_model.specs.words.Fields.{word_b, word_t};
ghost use Rattle.cap_model.specs.results.EditedWords.{word_of_halves};
ghost use Rattle.cap_ops.specs.Tagged.{is_encoding, stored_exponent, length_steps, value_from};

use super::Cap;
use cap_bounds::{decode_base, exclusive_or_null, fields};
use cap_model::{ADDRESS_SPACE, LAST_SEALABLE_TYPE, MAX_EXPONENT};

impl Cap {
    /// The value of this tag and the word of these halves. A tag on a word that no capability has
    /// counts as none.
    #[inline(always)]
    pub fn from_tagged(tag: bool, upper: u64, addr: u64) -> Cap
        ensures { result ≡ value_from tag (word_of_halves upper addr) }
    {
        Cap::from_halves(tag_counts(tag, upper, addr), upper, addr)
    }
}

/// Whether this tag counts on the word of these halves. It decodes the base alone, so that what
/// needs no bounds never has them decoded.
fn tag_counts(tag: bool, upper: u64, addr: u64) -> bool
    ensures { result ≡ (tag && is_encoding (word_of_halves upper addr)) }
{
    if !tag {
        return false;
    }
    is_encoding(upper, addr)
}

/// Whether a capability has the word of these halves: it has no reserved bit, a type that
/// capabilities have, and fields that say bounds of the address space in one way alone. The window
/// needs no test: the bounds that are decoded with an address have it there.
fn is_encoding(upper: u64, addr: u64) -> bool
    ensures { result ≡ is_encoding (word_of_halves upper addr) }
{
    let parts = fields(upper);
    if parts.reserved != 0 {
        return false;
    }
    if parts.otype == LAST_SEALABLE_TYPE + 1 {
        return false;
    }
    if parts.otype == LAST_SEALABLE_TYPE + 2 {
        return false;
    }
    if stored_exponent(upper) > MAX_EXPONENT {
        return false;
    }
    let base = decode_base(upper, addr);
    // From exponent 51 on, B has digits above the address space.
    if (base >> parts.e) % (1 << 14) != base_digits(upper) {
        return false;
    }
    // The top by its distance, which needs no decoding.
    let len = u128::from(length_steps(upper)) << parts.e;
    u128::from(base) + len <= ADDRESS_SPACE
}

/// The exponent as the fields have it, which may be above the greatest.
fn stored_exponent(upper: u64) -> u8
    ensures { result ≡ stored_exponent upper }
{
    let fields = exclusive_or_null(upper);
    if fields >> 26 & 1 == 0 {
        return 0;
    }
    (8 * (fields >> 14 & 7) + (fields & 7)) as u8
}

/// B, in which the bits of the exponent count as 0.
fn base_digits(upper: u64) -> u64
    ensures value { result ≡ word_b upper }
    ensures below { result < 2 ^ 14 }
{
    let fields = exclusive_or_null(upper);
    let stored = fields & 0x3fff;
    if fields >> 26 & 1 == 0 {
        stored
    } else {
        stored >> 3 << 3
    }
}

/// The twelve stored bits of T, in which the bits of the exponent count as 0.
fn top_digits(upper: u64) -> u64
    ensures value { result ≡ word_t upper }
    ensures below { result < 2 ^ 12 }
{
    let fields = exclusive_or_null(upper);
    let stored = fields >> 14 & 0xfff;
    if fields >> 26 & 1 == 0 {
        stored
    } else {
        stored >> 3 << 3
    }
}

/// How many steps of 2^E the top lies above the base: with IE 1 the length has its leading bit, at
/// 2^12, there (CHERI Concentrate, "decoding of bounds").
fn length_steps(upper: u64) -> u64
    ensures value { result ≡ length_steps upper }
    ensures below { result < 2 ^ 13 }
{
    let leading = u64::from(fields(upper).ie) << 12;
    leading + (top_digits(upper) + (1 << 12) - base_digits(upper) % (1 << 12)) % (1 << 12)
}
