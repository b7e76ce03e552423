//! The files that a program reads, in the order in which they are judged, and their faults.
#![tactic(auto)]

mod arguments;
mod fault;
mod files;
mod laws;
mod reading;

pub use arguments::{args_given, command_args};
pub use fault::InputFault;
pub use files::{FileFault, Files, SystemFiles, fault_of};
pub use reading::{Texts, read_image, read_listing_text, read_texts};
