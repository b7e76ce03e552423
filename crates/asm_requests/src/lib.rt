//! Requests: which harts a program is given, and how much memory.
#![tactic(auto)]

mod numbers;
mod request;
mod setting;
mod values;
mod words;

pub use cheri_model::Reg;
pub use grammar::capability::CapParts;
pub use request::{Request, request_of};
pub use setting::{Setting, drops_exit, setting_of};
pub use values::Held;
pub use words::{Word, words_of};
