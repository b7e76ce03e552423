//! The last label before each instruction of an assembled program.
#![tactic(auto)]

mod before;
mod labels;

pub use before::{LabelBefore, labels_before};
pub use labels::is_shown;
