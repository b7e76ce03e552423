//! Why the result of a capability instruction has no tag, as a number.
#![tactic(auto, unfolding(crate::proofs::Unfold::whys))]

ghost use Rattle.std.specs.Prelude.{◌≡◌};
ghost use Rattle.cheri_caps.specs.Reasons.{instruction_of, number_of, reason_number, why};
ghost use Rattle.cheri_caps.specs.Structs.{value_of};

use crate::operations;
use crate::reasons::{
    address_reason, always, bounds_reason, build_reason, exact_bounds_reason, moved_reason,
    offset_reason, open_reason, seal_entry_reason, seal_reason, unseal_reason,
};
use crate::structs::CheriCap;
use crate::values::value_of;
use cap_model::Reason;

/// The number of a reason.
#[inline(always)]
fn reason_number(reason: Reason) -> u8
    ensures { result ≡ reason_number reason }
{
    reason as u8 + 1
}

/// The number of a reason, 0 where there is none.
#[inline(always)]
fn number_of(first: Option<Reason>) -> u8
    ensures { result ≡ number_of first }
{
    match first {
        None => 0,
        Some(reason) => reason_number(reason),
    }
}

/// The first condition that takes the tag of an instruction's result, by its number in the header's
/// table; 0 where none does. `op` is the number of the instruction, and `a` and `b` are the values
/// of its registers c1 and c2; an integer counts as the value that a register has for it. 255 where
/// no instruction has that number.
#[unsafe(no_mangle)]
pub extern "C" fn cheri_caps_why(op: u8, a: CheriCap, b: CheriCap) -> u8
    ensures { result ≡ why (instruction_of op) (value_of a) (value_of b) }
{
    // Each line reads what it needs: the tag and the bounds of a value are not free.
    match op {
        operations::MOVE => number_of(moved_reason(value_of(a))),
        operations::CLEAR_TAG => number_of(always(Reason::Cleared)),
        operations::SET_ADDRESS => number_of(address_reason(value_of(a), value_of(b).addr())),
        operations::INC_OFFSET => number_of(offset_reason(value_of(a), value_of(b).addr())),
        operations::SET_BOUNDS => number_of(bounds_reason(value_of(a), value_of(b).addr())),
        operations::SET_BOUNDS_EXACT => {
            number_of(exact_bounds_reason(value_of(a), value_of(b).addr()))
        }
        operations::AND_PERMS => number_of(open_reason(value_of(a))),
        operations::SET_FLAGS => number_of(open_reason(value_of(a))),
        operations::SET_HIGH => number_of(always(Reason::UpperReplaced)),
        operations::SEAL => number_of(seal_reason(value_of(a), value_of(b))),
        operations::UNSEAL => number_of(unseal_reason(value_of(a), value_of(b))),
        operations::SEAL_ENTRY => number_of(seal_entry_reason(value_of(a))),
        operations::BUILD => number_of(build_reason(value_of(a), value_of(b))),
        operations::UNSEALED_BY_JUMP => number_of(moved_reason(value_of(a))),
        _ => operations::NO_OPERATION,
    }
}
