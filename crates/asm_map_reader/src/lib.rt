//! The map of an assembled program as it is read: where each of the program's instructions comes
//! from.
#![tactic(auto)]

mod draft;
mod fault;
mod line;
mod reader;
mod source;
mod words;

pub use draft::Counts;
pub use fault::MapFault;
pub use reader::read_map;
pub use source::Source;
