//! What the statements of a program put into code and memory, once everything has its address.
#![tactic(auto)]

mod contents;
mod data;
mod strings;
mod table;

pub use asm_code::{Code, Origin};
pub use contents::{Contents, read_contents};
