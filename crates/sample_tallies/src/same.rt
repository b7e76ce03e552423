//! Whether harts, or lists of changes, are the same.
#![tactic(auto, unfolding(crate::specs::SameStates::same_status))]

ghost use Rattle.std.specs.Prelude.{◌≡◌, true};
ghost use Rattle.sample_tallies.specs.SameStates.{same_status};

use cap_ops::Cap;
use cheri_model::{Reg, Status};
use hart::Hart;
use sample_draws::same_value;
use sample_steps::Change;

/// Whether two values are the same.
pub fn is_same_value(a: Cap, b: Cap) -> bool
    ensures { result ≡ true → a ≡ b }
{
    // Their clauses say that the values are lawful.
    let _bits = (a.bits(), b.bits());
    same_value(a, b)
}

/// Whether two statuses are the same.
fn is_same_status(a: Status, b: Status) -> bool
    ensures { result ≡ same_status a b }
{
    match (a, b) {
        (Status::Running, Status::Running) | (Status::Halted, Status::Halted) => true,
        (Status::Trapped(trap), Status::Trapped(other)) => {
            trap.cause == other.cause && trap.reg == other.reg
        }
        _ => false,
    }
}

/// Whether the registers of two harts are the same. Most that are compared are, so that the loop
/// has no exit: it gathers the differences, both halves of a word at a time.
fn are_same_registers(a: &Hart, b: &Hart) -> bool
    ensures { result ≡ true → a.now.regs ≡ b.now.regs }
{
    // Their clauses say that there are 32 registers.
    let _pccs = (a.pcc(), b.pcc());
    let mut uppers = 0;
    let mut addrs = 0;
    let mut tags = false;
    for number in 0..32u8 {
        let reg = Reg::new(number);
        let one = a.register(reg);
        let other = b.register(reg);
        uppers |= one.high() ^ other.high();
        addrs |= one.addr() ^ other.addr();
        tags |= one.tag() != other.tag();
    }
    uppers == 0 && addrs == 0 && !tags
}

/// Whether two harts are the same.
pub fn is_same_hart(a: &Hart, b: &Hart) -> bool
    ensures { result ≡ true → a.now ≡ b.now }
{
    if !is_same_status(a.status(), b.status()) {
        return false;
    }
    if !is_same_value(a.pcc(), b.pcc()) {
        return false;
    }
    are_same_registers(a, b)
}

/// Whether two changes are the same.
fn is_same_change(a: Change, b: Change) -> bool
    ensures { result ≡ true → a ≡ b }
{
    if a.granule != b.granule {
        return false;
    }
    is_same_value(a.value, b.value)
}

/// Whether two lists of changes are the same.
pub fn are_same_changes(a: &[Change], b: &[Change]) -> bool
    ensures { result ≡ true → a.now ≡ b.now }
{
    if a.len() != b.len() {
        return false;
    }
    for place in 0..a.len() {
        if !is_same_change(a[place], b[place]) {
            return false;
        }
    }
    true
}
