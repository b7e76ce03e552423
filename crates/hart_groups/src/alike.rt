//! Whether two harts hold the same before their first step.

ghost use Rattle.std.specs.Prelude.{◌≡◌, ◌↔◌, IsTrue};

use cheri_model::{HartImage, Value};

/// Whether two values are the same.
fn are_same_values(one: Value, other: Value) -> bool
    ensures { IsTrue result ↔ (one ≡ other) }
{
    one == other
}

/// Whether the registers of two harts are the same.
fn are_same_registers(one: &[Value; 31], other: &[Value; 31]) -> bool
    ensures { IsTrue result ↔ (one.now ≡ other.now) }
{
    for number in 0..31 {
        if !are_same_values(one[number], other[number]) {
            return false;
        }
    }
    true
}

/// Whether two harts hold the same.
pub(crate) fn are_alike(one: &HartImage, other: &HartImage) -> bool
    ensures { IsTrue result ↔ (one.now ≡ other.now) }
{
    are_same_values(one.pcc, other.pcc) && are_same_registers(&one.regs, &other.regs)
}
