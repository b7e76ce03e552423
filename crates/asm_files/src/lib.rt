//! Files of assembly, read as one program: their tokens, requests and statements, with what these
//! make and where each stands.
//!
//! A fault here is one that can be told while files are read. What expressions are worth is found
//! later, when everything has its address.
#![tactic(auto)]

mod fault;
mod files;
mod program;
mod requests;
mod sections;
mod stand;
mod texts;

pub use asm_requests::Word;
pub use fault::{AssemblyFault, in_file};
pub use files::read_program;
pub use program::{File, Made, Program};
pub use requests::{HartRequest, RamRequest, Requests};
pub use stand::Stand;
pub use texts::MAX_FILE;
