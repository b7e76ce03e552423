//! The arguments of a row: hexadecimal numbers, of which three make a value.

ghost use Rattle.std.specs.Prelude.{◌≡◌, ◌%◌, ◌^◌};
ghost use Rattle.cap_model.specs.values.Capability.{IsLawfulType};

use bitflags::Flags;
use cap_ops::Cap;
use cheri_model::{ADDRESS_SPACE, LAST_SEALABLE_TYPE, OType, Perms, SENTRY_TYPE};

/// The most numbers that a row has.
pub const MOST: usize = 6;

/// The numbers of a row; those that it leaves out are 0.
pub type Numbers = [u128; MOST];

/// The value of a hexadecimal digit.
fn hex_digit(byte: u8) -> Option<u128> {
    match byte {
        b'0'..=b'9' => Some(u128::from(byte - b'0')),
        b'a'..=b'f' => Some(u128::from(byte - b'a') + 10),
        _ => None,
    }
}

/// The numbers that these words write, with a space or `_` between two; `None` where there are too
/// many, or where one has another byte.
pub fn numbers_of(words: &str) -> Option<Numbers> {
    let mut numbers = [0u128; MOST];
    let mut place = 0usize;
    for byte in words.as_bytes() {
        if matches!(*byte, b' ' | b'_') {
            place = place.saturating_add(1);
        } else if place < MOST {
            let digit = hex_digit(*byte)?;
            numbers[place] = numbers[place].wrapping_mul(16).wrapping_add(digit);
        } else {
            return None;
        }
    }
    Some(numbers)
}

/// The low 64 bits of a number.
pub fn low(number: u128) -> u64
    ensures { result ≡ number % 2 ^ 64 }
{
    (number % ADDRESS_SPACE) as u64
}

/// The low 32 bits of a number.
pub fn low_half(number: u128) -> u32
    ensures { result ≡ number % 2 ^ 32 }
{
    (number % 0x1_0000_0000) as u32
}

/// The set with these permission bits.
pub fn perms(number: u128) -> Perms
    ensures { result.0 ≡ number % 2 ^ 32 }
{
    Perms::from_bits_retain(low_half(number))
}

/// The object type with this number; for one that no capability has, that of what isn't sealed.
pub fn lawful_type(number: u128) -> OType
    ensures { IsLawfulType result }
{
    let number = low_half(number);
    if number <= LAST_SEALABLE_TYPE {
        OType::new(number)
    } else if number == SENTRY_TYPE {
        OType::sentry()
    } else {
        OType::unsealed()
    }
}

/// The value of a tag and the halves of a word. A tag on a word that no capability has counts as
/// none.
pub fn value(tag: u128, upper: u128, addr: u128) -> Cap {
    Cap::from_tagged(tag == 1, low(upper), low(addr))
}
