//! Which change of the address keeps a word's bounds (CHERI Concentrate, "representable region").

ghost use Rattle.std.specs.Prelude.{◌≡◌, ◌-◌, ◌↔◌, IsTrue};
ghost use Rattle.cap_model.specs.words.RawBounds.{raw_base, raw_top};
ghost use Rattle.cap_model.specs.bounds.Window.{IsInWindow};
ghost use Rattle.cap_model.specs.values.Capability.{Capability, IsLawful, upper_of};

use crate::decoding::region_origin;

/// Whether the bounds are the same with both addresses.
///
/// That is so exactly where the regions of both addresses begin at the same place modulo 2^64:
/// where two tops then differ in bit 64, the last correction takes them to one. For the word of a
/// lawful capability the new address is then in its window.
#[tactic(auto, using(crate::proofs::Windows::same_bounds))]
pub fn representable(upper: u64, old: u64, new: u64) -> bool
    ensures same { IsTrue result ↔ ((raw_base upper new ≡ raw_base upper old) × (raw_top upper new ≡
        raw_top upper old)) }
    ensures window { (c : Capability) → IsLawful c → upper ≡ upper_of c → old ≡ c.addr →
        (IsTrue result ↔ IsInWindow c.base (c.top - c.base) new) }
{
    region_origin(upper, old) == region_origin(upper, new)
}
