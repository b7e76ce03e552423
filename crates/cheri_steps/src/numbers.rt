//! The words of a case: hexadecimal numbers, of which three make a value.

ghost use Rattle.std.specs.Prelude.{◌≡◌, ◌%◌, ◌^◌};

use cap_ops::Cap;
use cheri_model::{ADDRESS_SPACE, Reg};
use text_numbers::number_in;

/// The number that a word writes, modulo 2^64; `None` where it isn't one.
pub fn number_of(word: &str) -> Option<u64> {
    match number_in(16, word.as_bytes()) {
        Some(Some(number)) => Some((number % ADDRESS_SPACE) as u64),
        _ => None,
    }
}

/// The register with a number's lowest five bits.
pub fn register(number: u64) -> Reg
    ensures { result ≡ number % 32 }
{
    Reg::new((number % 32) as u8)
}

/// The value of a tag and the halves of a word. A tag on a word that no capability has counts as
/// none.
pub fn value(tag: u64, upper: u64, addr: u64) -> Cap {
    Cap::from_tagged(tag == 1, upper, addr)
}
