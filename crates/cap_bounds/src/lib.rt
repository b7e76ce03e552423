//! The bounds of compressed capabilities (CHERI Concentrate; CHERI ISA v9, "capability encoding"):
//! decoding of every word, its fields, which addresses keep the bounds, the rounding of a requested
//! range, and the length and the alignment that make bounds exact. Every function is total, takes
//! no memory and searches for nothing.
#![tactic(auto)]

mod alignment;
mod decoding;
mod parts;
mod representability;
mod rounding;
mod word;

pub use alignment::{cram, crrl};
pub use decoding::{decode, decode_base};
pub use parts::Fields;
pub use representability::representable;
pub use rounding::{Rounded, set_bounds};
pub use word::{exclusive_or_null, fields};
