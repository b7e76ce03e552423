//! Where PCC goes: to the next instruction, or to the target of a jump. Each keeps its tag, since
//! the checks before it say that it is in bounds.
#![tactic(auto, unfolding(cheri_model::specs::steps::Hart::link))]

ghost use Rattle.std.specs.Prelude.{◌≡◌, true};
ghost use Rattle.cap_model.specs.values.CapValue.{IsLawfulValue, tag_of};
ghost use Rattle.cheri_model.specs.steps.Hart.{next_pcc, link};
ghost use Rattle.cap_model.specs.results.Addresses.{address_of, in_bounds, is_open, with_address};
ghost use Rattle.cap_model.specs.results.Seals.{unsealed};

use cap_ops::Cap;
use cheri_model::INSTRUCTION_BYTES;

/// PCC at the next instruction.
pub fn next_pcc(pcc: Cap) -> Cap
    requires open { is_open pcc ≡ true }
    requires within { in_bounds pcc (address_of pcc) 4 ≡ true }
    ensures value { result ≡ next_pcc pcc }
    ensures lawful { IsLawfulValue result }
{
    // The getter says that it is lawful, here and below.
    let _lawful = pcc.tag();
    let next = pcc.at(pcc.addr().wrapping_add(INSTRUCTION_BYTES));
    let _next_lawful = next.tag();
    next
}

/// What a jump leaves to come back by: the next instruction's address, sealed as a sentry.
pub fn link(pcc: Cap) -> Cap
    requires open { is_open pcc ≡ true }
    requires within { in_bounds pcc (address_of pcc) 4 ≡ true }
    ensures { result ≡ link pcc }
{
    next_pcc(pcc).seal_entry()
}

/// An open capability at a target in its bounds.
pub fn at_target(pcc: Cap, target: u64) -> Cap
    requires open { is_open pcc ≡ true }
    requires within { in_bounds pcc target 4 ≡ true }
    ensures { result ≡ with_address pcc target }
{
    // The getter says that it is lawful.
    let _lawful = pcc.tag();
    pcc.at(target)
}

/// What becomes of PCC where a jump goes through a tagged capability, with the target in its
/// bounds.
pub fn jumped_to(through: Cap, target: u64) -> Cap
    requires tag { tag_of through ≡ true }
    requires within { in_bounds through target 4 ≡ true }
    ensures { result ≡ with_address (unsealed through) target }
{
    at_target(through.unsealed(), target)
}
