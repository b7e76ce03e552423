//! What the harts of an assembled program begin with, by requests.
#![tactic(auto)]

mod known;
mod ram;
mod starts;
mod values;
mod words;

pub use asm_harts::Stack;
pub use known::Known;
pub use ram::{asked_ram, default_ram, taken};
pub use starts::{HartNote, Start, has_exit, note_of, open_start};
pub use values::{Entry, Scene};
pub use words::STACK_BYTES;
