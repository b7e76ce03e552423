//! The checks that an instruction must pass before it acts.
#![tactic(auto, unfolding(cheri_model::specs::steps::Checks::first_failing))]

ghost use Rattle.std.specs.Prelude.{◌≡◌, ◌%◌, ◌<◌, ◌==◌, ◌&&◌, not, find};
ghost use Rattle.cap_model.specs.values.Capability.{unsealed_type};
ghost use Rattle.cap_model.specs.values.CapValue.{tag_of};
ghost use Rattle.cheri_model.specs.steps.Checks.{check_line, first_failing, has_type};
ghost use Rattle.cap_model.specs.results.Addresses.{has_permission, in_bounds};

use cap_ops::Cap;
use cheri_model::Trap;
use std::marker::Model;

pub mod access;
pub mod fetch;
pub mod jumps;

/// One line of a table of checks: whether it fails, and the trap that it then is.
#[derive(Clone, Copy)]
pub(crate) struct Line {
    fails: bool,
    trap: Trap,
}

impl Model for Line {
    ghost use Rattle.cheri_model.specs.steps.Checks.{CheckLine};

    ghost Value = { CheckLine };

    ghost view = { λ l. record { fails = l.fails; trap = l.trap } };

    ghost inverse = { λ l. record { fails = l.fails; trap = l.trap } };
}

impl Line {
    fn fails(self) -> bool
        ensures { result ≡ self.fails }
    {
        self.fails
    }

    fn trap(self) -> Trap
        ensures { result ≡ self.trap }
    {
        self.trap
    }
}

/// The first line that fails, if one does.
fn first_line(table: &[Line]) -> Option<Line>
    ensures { result ≡ find (λ line. line.fails) table.now }
{
    table.iter().copied().find(|line| line.fails())
}

/// The trap of the first line that fails, if one does.
pub(crate) fn first_failing(table: &[Line]) -> Result<(), Trap>
    ensures { result ≡ first_failing table.now }
{
    match first_line(table) {
        Some(line) => Err(line.trap()),
        None => Ok(()),
    }
}

/// A line of a table.
pub(crate) fn check(fails: bool, cause: u8, reg: u8) -> Line
    ensures { result ≡ check_line fails cause reg }
{
    Line {
        fails,
        trap: Trap { cause, reg },
    }
}

/// The line that fails where the capability in a register is untagged.
pub(crate) fn untagged(cap: Cap, reg: u8) -> Line
    ensures { result ≡ check_line (not (tag_of cap)) Trap.TAG reg }
{
    check(!cap.tag(), Trap::TAG, reg)
}

/// The line that fails where it is sealed.
pub(crate) fn sealed(cap: Cap, reg: u8) -> Line
    ensures { result ≡ check_line (not (has_type cap unsealed_type)) Trap.SEAL reg }
{
    check(cap.sealed(), Trap::SEAL, reg)
}

/// The line that fails where a permission is missing.
pub(crate) fn without(cap: Cap, permission: u32, cause: u8, reg: u8) -> Line
    requires { permission < 19 }
    ensures { result ≡ check_line (not (has_permission cap permission)) cause reg }
{
    check(!cap.has_permission(permission), cause, reg)
}

/// The line that fails where a permission is needed and missing.
pub(crate) fn without_needed(needed: bool, cap: Cap, permission: u32, cause: u8, reg: u8) -> Line
    requires { permission < 19 }
    ensures { result ≡ check_line (needed && not (has_permission cap permission)) cause reg }
{
    check(lacks(needed, cap, permission), cause, reg)
}

/// The line that fails where some bytes are not in the bounds.
pub(crate) fn outside(cap: Cap, from: u64, bytes: u64, reg: u8) -> Line
    ensures { result ≡ check_line (not (in_bounds cap from bytes)) Trap.LENGTH reg }
{
    check(!cap.holds(from, bytes), Trap::LENGTH, reg)
}

/// `addr % bytes`, by a mask for the sizes of accesses: a remainder by a number that is only known
/// in a run is a division.
fn remainder(addr: u64, bytes: u64) -> u64
    requires { 0 < bytes }
    ensures { result ≡ addr % bytes }
{
    match bytes {
        1 => 0,
        2 => addr % 2,
        4 => addr % 4,
        8 => addr % 8,
        16 => addr % 16,
        _ => addr % bytes,
    }
}

/// The line that fails where an address is not a multiple.
pub(crate) fn unaligned(addr: u64, bytes: u64, reg: u8) -> Line
    requires { 0 < bytes }
    ensures { result ≡ check_line (not (addr % bytes == 0)) Trap.ALIGNMENT reg }
{
    check(remainder(addr, bytes) != 0, Trap::ALIGNMENT, reg)
}

/// Whether the permission with this number is needed and missing.
pub(crate) fn lacks(needed: bool, cap: Cap, number: u32) -> bool
    requires { number < 19 }
    ensures { result ≡ (needed && not (has_permission cap number)) }
{
    if needed {
        !cap.has_permission(number)
    } else {
        false
    }
}
