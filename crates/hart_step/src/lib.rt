//! One step of one hart of a CHERI-RISC-V machine: the checks of a fetch, then what the instruction
//! at PCC asks for.
#![tactic(auto)]

mod checks;
mod execute;

pub use checks::access::access_check;
pub use checks::fetch::fetch;
pub use cheri_model::Access;
pub use execute::step;
pub use hart::{Hart, View};
pub use instructions::{Action, immediate, instr_action, upper_immediate};
