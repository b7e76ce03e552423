//! What the statements of files make, one after another: chunks, symbols and local labels.
//!
//! Each statement is judged as far as it can be while its file is read. What it is worth is found
//! later, when all files are read and everything has its address.
#![tactic(auto)]

mod bytes;
mod code;
mod draft;
mod early;
mod kept;
mod labels;
mod names;
mod operands;
mod padding;
mod sections;
mod statements;

pub use draft::{Draft, new_draft};
pub use operands::{first_of, is_said, nodes_of};
pub use sections::Entry;
