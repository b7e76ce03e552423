//! Where the next step of a hart accesses memory.

ghost use Rattle.std.specs.Prelude.{◌≡◌};
ghost use Rattle.instructions.specs.Actions.{action_of};
ghost use Rattle.states.specs.Accesses.{accessed_address, address_in};

use cheri_model::Instr;
use hart::Hart;
use hart_step::fetch;
use instructions::{Action, instr_action};

/// The address that an action loads from or stores at, 0 where it does neither.
fn address_in(action: Action) -> u64
    ensures { result ≡ address_in (action_of action) }
{
    match action {
        Action::Load { addr, .. }
        | Action::Store { addr, .. }
        | Action::LoadCap { addr, .. }
        | Action::StoreCap { addr, .. }
        | Action::Swap { addr, .. } => addr,
        Action::Put { .. }
        | Action::Branch { .. }
        | Action::Jump { .. }
        | Action::JumpThrough { .. }
        | Action::Invoke { .. }
        | Action::Halt => 0,
    }
}

/// The address that the next step of a hart loads from or stores at, whether or not the access can
/// pass its checks; 0 where the step makes no access.
#[tactic(auto, unfolding(crate::specs::Accesses::accessed_address))]
pub fn accessed_address(program: &[Instr], hart: &Hart) -> u64
    ensures { result ≡ accessed_address program.now hart.now }
{
    match fetch(program, hart.pcc()) {
        Ok(instr) => address_in(instr_action(instr, hart)),
        Err(_) => 0,
    }
}
