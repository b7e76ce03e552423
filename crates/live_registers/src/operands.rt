//! What an instruction reads and what it writes, by its form.
#![tactic(auto, unfolding(crate::proofs::Unfold::operands))]

ghost use Rattle.std.specs.Prelude.{◌≡◌};
ghost use Rattle.live_registers.specs.Operands.{only_computes, reads, way_of, writes};

use cheri_model::Reg;
use cheri_model::form::{Form, LoadOp};

/// The register that CInvoke leaves the unsealed data in.
const INVOKED_DATA: u8 = 31;

/// Where the instruction that comes next may be.
#[derive(Clone, Copy)]
pub enum Way {
    /// The next one.
    Next,
    /// The one with this number.
    To(u32),
    /// The next one, or the one with this number.
    NextOr(u32),
    /// Any.
    Anywhere,
    /// There is none.
    Nowhere,
}

/// The registers that an instruction reads; c0, which is always null, where there are fewer than
/// two.
pub(crate) fn reads(form: &Form) -> (Reg, Reg)
    ensures { result ≡ reads form.now }
{
    let none = Reg::new(0);
    match *form {
        Form::Three(_, _, c1, c2)
        | Form::Store(_, c2, c1, _)
        | Form::Swap(_, c2, c1)
        | Form::Branch(_, c1, c2, _)
        | Form::Invoke(c1, c2) => (c1, c2),
        Form::Two(_, _, c1)
        | Form::Immediate(_, _, c1, _)
        | Form::Shift(_, _, c1, _)
        | Form::WordShift(_, _, c1, _)
        | Form::SetBoundsImm(_, c1, _)
        | Form::Load(_, _, c1, _) => (c1, none),
        Form::Upper(..) | Form::Jump(..) | Form::Alone => (none, none),
    }
}

/// The register that it writes; c0, which no write changes, where there is none.
pub(crate) fn writes(form: &Form) -> Reg
    ensures { result ≡ writes form.now }
{
    match *form {
        Form::Three(_, cd, _, _)
        | Form::Two(_, cd, _)
        | Form::Immediate(_, cd, _, _)
        | Form::Shift(_, cd, _, _)
        | Form::WordShift(_, cd, _, _)
        | Form::SetBoundsImm(cd, _, _)
        | Form::Upper(_, cd, _)
        | Form::Load(_, cd, _, _)
        | Form::Swap(cd, _, _)
        | Form::Jump(cd, _) => cd,
        Form::Invoke(..) => Reg::new(INVOKED_DATA),
        Form::Store(..) | Form::Branch(..) | Form::Alone => Reg::new(0),
    }
}

/// Whether the register that it writes is all that it is for: it asks for no memory, and neither
/// traps nor jumps.
pub(crate) fn only_computes(form: &Form) -> bool
    ensures { result ≡ only_computes form.now }
{
    match *form {
        Form::Three(..)
        | Form::Two(..)
        | Form::Immediate(..)
        | Form::Shift(..)
        | Form::WordShift(..)
        | Form::SetBoundsImm(..)
        | Form::Upper(..) => true,
        Form::Load(..)
        | Form::Store(..)
        | Form::Swap(..)
        | Form::Branch(..)
        | Form::Jump(..)
        | Form::Invoke(..)
        | Form::Alone => false,
    }
}

/// Where the next one may be, if it doesn't stop the hart: what goes through a capability may lead
/// anywhere.
pub(crate) fn way_of(form: &Form) -> Way
    ensures { result ≡ way_of form.now }
{
    match *form {
        Form::Branch(_, _, _, target) => Way::NextOr(target.number()),
        Form::Jump(_, target) => Way::To(target.number()),
        Form::Load(LoadOp::CJalr, ..) | Form::Invoke(..) => Way::Anywhere,
        Form::Alone => Way::Nowhere,
        Form::Three(..)
        | Form::Two(..)
        | Form::Immediate(..)
        | Form::Shift(..)
        | Form::WordShift(..)
        | Form::SetBoundsImm(..)
        | Form::Upper(..)
        | Form::Load(..)
        | Form::Store(..)
        | Form::Swap(..) => Way::Next,
    }
}
