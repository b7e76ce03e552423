//! Numbers that are known, each in a place.

ghost use Rattle.std.specs.Prelude.{◌≡◌, ℕ, ◌⊎◌, slice_get, Some, IfSome};

use std::alloc::AllocError;

/// The number in a place, if it is known.
pub(crate) fn known_at(known: &[Option<u32>], place: u32) -> Option<u32>
    ensures { IfSome result (λ number. slice_get known.now place ≡ Some (Some number)) }
{
    match known.get(place as usize) {
        Some(number) => *number,
        None => None,
    }
}

/// Puts a number into a place. Fails only when out of memory.
pub(crate) fn keep_at(
    known: &mut Vec<Option<u32>>,
    place: u32,
    number: u32,
) -> Result<(), AllocError>
    ensures { (k n : ℕ) → slice_get known.new.items k ≡ Some (Some n) →
        (slice_get known.old.items k ≡ Some (Some n)) ⊎ ((k ≡ place) × (n ≡ number)) }
{
    let place = place as usize;
    while known.len() <= place {
        known.push(None)?;
    }
    known[place] = Some(number);
    Ok(())
}
