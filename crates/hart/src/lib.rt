//! One hart of a CHERI-RISC-V machine: its registers, PCC and status, where PCC goes, and what is
//! shown of a machine's harts and memory.
#![tactic(auto)]

mod hart;
mod next_pcc;
mod view;

pub use hart::Hart;
pub use next_pcc::{at_target, jumped_to, link};
pub use view::{View, hart_in};
