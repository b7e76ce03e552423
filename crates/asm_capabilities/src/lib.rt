//! The capabilities that an assembled program begins with: those of code, of symbols, of the
//! capability table and of stacks.
#![tactic(auto)]

mod code;
mod data;
pub mod laws;
mod permissions;
mod stacks;

pub use cap_ops::{Cap, MakeFault};
pub use code::{Reach, WIDE_TOP};
pub use data::{DataKind, data_capability, table_capability, table_length};
pub use permissions::{CODE, CODE_AND_MEMORY, READ_ONLY, STACK, WRITABLE};
pub use stacks::{is_stack_size, stack_alignment, stack_capability};
