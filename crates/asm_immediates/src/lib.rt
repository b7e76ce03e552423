//! The values of operands, where an operator of relocation may be before them.
#![tactic(auto)]

mod immediates;

pub use asm_expansions::Operation;
pub use asm_names::Relocation;
pub use asm_tokens::AsmFaultKind;
pub use immediates::{Immediate, immediate_of, immediate_value};
