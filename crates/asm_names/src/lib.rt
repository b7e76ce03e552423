//! The names of assembly that aren't its program's own: registers, directives, sections, relocation
//! functions, and instructions that the machine hasn't.
#![tactic(auto)]

mod directives;
mod outside;
mod registers;
mod relocations;
mod sections;

pub use directives::{Directive, directive_of};
pub use outside::{is_fence_set, is_outside};
pub use registers::{RegisterKind, RegisterName, register_named};
pub use relocations::{Relocation, relocation_of};
pub use sections::{SectionKind, is_refused_section, section_kind};
