//! The instructions of an assembled program.
#![tactic(auto)]

mod beginning;
mod code;
mod heads;
mod numbers;
mod standing;

pub use asm_instructions::{Origin, push_exit};
pub use beginning::begin_code;
pub use code::Code;
pub use heads::entry_address;
pub use standing::Site;
