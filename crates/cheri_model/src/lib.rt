//! The types and definitions of a CHERI-RISC-V capability machine of several harts.
//!
//! `specs/` has the definitions that every other crate is proved against, from the forms of
//! instructions up to the replay of a trace and its authority. This crate's types are the plain
//! data that crosses between crates, and [`laws`] has the functions whose contracts are the laws
//! over the definitions. Values, permissions and object types are those of `cap_model`.
#![tactic(auto)]

mod access;
mod code;
pub mod form;
mod image;
mod instr;
pub mod laws;
mod memory;
pub mod names;
mod operands;
mod operation;
pub mod table;
mod trace;
mod width;

pub use access::Access;
pub use cap_model::{
    ADDRESS_SPACE, LAST_SEALABLE_TYPE, MAX_EXPONENT, NULL_FIELDS, OType, Perms, SENTRY_TYPE,
    UNSEALED_TYPE, Value, permission,
};
pub use code::{CODE_BASE, INSTRUCTION_BYTES};
pub use image::{HartImage, Image, MAX_HARTS, MAX_INSTRUCTIONS, NoMemory};
pub use instr::Instr;
pub use memory::{GRANULE_BYTES, MAX_RAM_BYTES, RAM_BASE};
pub use operands::{
    MAX_IMMEDIATE, MAX_IMMEDIATE_LENGTH, MAX_SHIFT, MAX_UPPER_IMMEDIATE, MAX_WORD_SHIFT, Reg,
    Target,
};
pub use operation::{Event, Op};
pub use trace::{Entry, Outcome, Status, Trap};
pub use width::Width;
