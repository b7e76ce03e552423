//! What many runs in drawn orders gave, with the properties that they decide.
#![tactic(auto)]

mod checked;
mod counting;
mod deciding;
pub mod laws;
mod machine;
mod shown;
mod told;

pub use checked::Checked;
pub use counting::count_checked;
pub use deciding::{deciding_order, properties_seen};
pub use told::{Decided, PropertySeen};
