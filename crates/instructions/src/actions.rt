//! What an instruction asks for, its sources read before anything is written. All of it is inlined
//! into the step, so that no action is written to memory, and into callers that only ask for an
//! action's kind, so that nothing else of it is computed.
#![tactic(auto, using(crate::proofs::Rulesets::back), unfolding(crate::proofs::Unfold::forms))]

ghost use Rattle.std.specs.Prelude.{◌≡◌};
ghost use Rattle.cheri_model.specs.steps.Actions.{action};
ghost use Rattle.cheri_model.specs.instructions.Form.{instr_of};
ghost use Rattle.instructions.specs.Actions.{action_of};

mod immediates;
mod jumps;
mod memory;
mod registers;

use crate::actions::immediates::{immediate_action, shift_action, upper_action, word_shift_action};
use crate::actions::jumps::{address_of_target, branch_action, invoke_action};
use crate::actions::memory::{load_action, store_action, swap_action};
use crate::actions::registers::{three_action, two_action};
use cap_ops::Cap;
use cheri_model::form::Form;
use cheri_model::{Instr, Reg, Width};
use hart::Hart;

/// What an instruction asks for, with the values that it read. An access or a jump goes through the
/// register `c1`.
#[derive(Clone, Copy)]
pub enum Action {
    /// Writes `cd`.
    Put {
        cd: Reg,
        value: Cap,
    },
    /// Loads a number into `cd`, sign-extended or not.
    Load {
        cd: Reg,
        c1: Reg,
        addr: u64,
        width: Width,
        signed: bool,
    },
    /// Stores the low bytes of a number.
    Store {
        c1: Reg,
        addr: u64,
        width: Width,
        number: u64,
    },
    /// Loads a granule, with its tag, into `cd`.
    LoadCap {
        cd: Reg,
        c1: Reg,
        addr: u64,
    },
    /// Stores a value with its tag.
    StoreCap {
        c1: Reg,
        addr: u64,
        value: Cap,
    },
    /// Both in one step.
    Swap {
        cd: Reg,
        c1: Reg,
        addr: u64,
        value: Cap,
    },
    /// Goes to the target, or on.
    Branch {
        taken: bool,
        target: u64,
    },
    /// Goes to the target, and leaves a link in `cd`.
    Jump {
        cd: Reg,
        target: u64,
    },
    /// The same through a capability, with no offset where `is_entry`.
    JumpThrough {
        cd: Reg,
        c1: Reg,
        is_entry: bool,
        target: u64,
    },
    /// Goes to the target through a sealed pair of code and data.
    Invoke {
        c1: Reg,
        c2: Reg,
        target: u64,
    },
    /// Halts the hart.
    Halt,
}

/// What an instruction asks for, by its form.
#[inline(always)]
fn form_action(form: Form, hart: &Hart) -> Action
    ensures { action_of result ≡ action (instr_of form) hart.now }
{
    match form {
        Form::Three(op, cd, c1, c2) => three_action(op, cd, c1, c2, hart),
        Form::Two(op, cd, c1) => two_action(op, cd, c1, hart),
        Form::Immediate(op, cd, c1, imm) => immediate_action(op, cd, c1, imm, hart),
        Form::Shift(op, cd, c1, amount) => shift_action(op, cd, c1, amount, hart),
        Form::WordShift(op, cd, c1, amount) => word_shift_action(op, cd, c1, amount, hart),
        Form::SetBoundsImm(cd, c1, len) => immediates::set_bounds_action(cd, c1, len, hart),
        Form::Upper(op, cd, imm) => upper_action(op, cd, imm, hart),
        Form::Load(op, cd, c1, imm) => load_action(op, cd, c1, imm, hart),
        Form::Store(op, c2, c1, imm) => store_action(op, c2, c1, imm, hart),
        Form::Swap(cd, c2, c1) => swap_action(cd, c2, c1, hart),
        Form::Branch(op, c1, c2, target) => branch_action(op, c1, c2, target, hart),
        Form::Jump(cd, target) => Action::Jump {
            cd,
            target: address_of_target(target),
        },
        Form::Invoke(c1, c2) => invoke_action(c1, c2, hart),
        Form::Alone => Action::Halt,
    }
}

/// What an instruction asks for, its sources read from a hart.
#[inline(always)]
pub fn instr_action(instr: Instr, hart: &Hart) -> Action
    ensures { action_of result ≡ action instr hart.now }
{
    form_action(instr.form(), hart)
}
