//! The numbers of requests, which are those of listings.
#![tactic(auto, unfolding(crate::proofs::Unfold::numbers))]

ghost use Rattle.std.specs.Prelude.{◌≡◌, ◌≤◌, IfSome};
ghost use Rattle.asm_requests.specs.Numbers.{number_up_to, integer_of, stack_of};

use asm_capabilities::is_stack_size;
use cheri_model::MAX_RAM_BYTES;
use text_numbers::number_of;

/// A number from 0 to a limit.
pub(crate) fn number_up_to(limit: u128, text: &[u8]) -> Option<u128>
    ensures value { result ≡ number_up_to limit text.now }
    ensures bound { IfSome result (λ n. n ≤ limit) }
{
    match number_of(text)? {
        Some(number) if number <= limit => Some(number),
        _ => None,
    }
}

/// An integer of 64 bits, from -2^63 to 2^64 - 1.
pub(crate) fn integer_of(text: &[u8]) -> Option<u64>
    ensures { result ≡ integer_of text.now }
{
    match text {
        [b'-', digits @ ..] => {
            let number = number_up_to(0x8000_0000_0000_0000, digits)? as u64;
            Some(number.wrapping_neg())
        }
        _ => Some(number_up_to(0xFFFF_FFFF_FFFF_FFFF, text)? as u64),
    }
}

/// The bytes of a stack, 0 for none.
pub(crate) fn stack_of(text: &[u8]) -> Option<u64>
    ensures { result ≡ stack_of text.now }
{
    let size = number_up_to(u128::from(MAX_RAM_BYTES), text)? as u64;
    if is_stack_size(size) {
        Some(size)
    } else {
        None
    }
}
