//! The tokens of assembly, as CHERI-LLVM prints it: each with its place in the file.
//!
//! A file's bytes are names, numbers, strings and marks, with blanks and comments between them. The
//! end of a line and `;` are tokens too, since they end a statement.
#![tactic(auto)]

mod bytes;
mod escapes;
mod fault;
mod lexemes;
mod numbers;
mod place;
mod strings;
mod token;
mod tokens;

pub use fault::{AsmFault, AsmFaultKind};
pub use numbers::without_zeros;
pub use place::Place;
pub use strings::push_string;
pub use token::{Mark, Token, TokenKind};
pub use tokens::read_tokens;
