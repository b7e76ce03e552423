//! Words of a listing, for other texts too: an instruction, and the names of permissions.
#![tactic(auto)]

mod instructions;
mod permissions;

pub use instructions::InstructionText;
pub use permissions::write_permission_names;
