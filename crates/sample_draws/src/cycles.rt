//! Whether the steps of one hart have brought it back to a state that it had.
#![tactic(auto, unfolding(crate::proofs::Unfold::cycles))]

ghost use Rattle.std.specs.Prelude.{◌≡◌, ◌<◌, ◌^◌};
ghost use Rattle.cheri_model.specs.runs.Machine.{is_running};
ghost use Rattle.sample_draws.specs.Cycles.{same_value, same_values, same_hart};
ghost use Rattle.sample_draws.specs.Cycles.{cycle_from, is_back, gone_on};

use cap_ops::Cap;
use cheri_model::{Reg, Status};
use hart::Hart;

/// A hart that steps alone: the state that is compared with, the steps since then, and how many of
/// them it is kept.
#[derive(Clone, Copy)]
pub struct Cycle {
    pub marked: Hart,
    pub since: u32,
    pub span: u32,
}

/// Whether two values have the same tag and the same bits.
pub fn same_value(a: Cap, b: Cap) -> bool
    ensures { result ≡ same_value a b }
{
    if a.tag() != b.tag() {
        return false;
    }
    a.bits() == b.bits()
}

/// Whether a hart runs.
fn runs(hart: &Hart) -> bool
    ensures { result ≡ is_running hart.now.status }
{
    match hart.status() {
        Status::Running => true,
        Status::Halted | Status::Trapped(_) => false,
    }
}

/// Whether the registers of two harts are the same.
fn same_registers(a: &Hart, b: &Hart) -> bool
    ensures { result ≡ same_values a.now.regs b.now.regs }
{
    // Their clauses say that there are 32 registers.
    let _pccs = (a.pcc(), b.pcc());
    for number in 0..32u8 {
        let reg = Reg::new(number);
        if !same_value(a.register(reg), b.register(reg)) {
            return false;
        }
    }
    true
}

/// Whether two harts run and have the same PCC and the same registers.
fn same_hart(a: &Hart, b: &Hart) -> bool
    ensures { result ≡ same_hart a.now b.now }
{
    // PCCs differ in nearly all cases, so that nothing else is looked at.
    if !same_value(a.pcc(), b.pcc()) {
        return false;
    }
    if !runs(a) || !runs(b) {
        return false;
    }
    same_registers(a, b)
}

impl Cycle {
    /// A hart before its first step.
    pub fn from(hart: &Hart) -> Cycle
        ensures { result ≡ cycle_from hart.now }
    {
        Cycle {
            marked: *hart,
            since: 0,
            span: 1,
        }
    }

    /// Marks a hart, which is compared with for so many steps.
    pub(crate) fn mark(&mut self, hart: &Hart, span: u32)
        ensures { self.new ≡ record { marked = hart.now; since = 0; span = span } }
    {
        self.marked = *hart;
        self.since = 0;
        self.span = span;
    }

    /// Whether the hart is back where it was.
    pub fn is_back(&self, hart: &Hart) -> bool
        ensures { result ≡ is_back self.now hart.now }
    {
        same_hart(&self.marked, hart)
    }

    /// After one more step, which did not bring it back.
    pub fn go_on(&mut self, hart: &Hart)
        requires since { self.old.since < self.old.span }
        requires span { self.old.span < 2 ^ 31 }
        ensures { self.new ≡ gone_on hart.now self.old }
    {
        if self.since + 1 == self.span {
            self.mark(hart, 2 * self.span);
        } else {
            self.since += 1;
        }
    }
}
