//! The greatest capabilities that an image's harts and its memory hold, over all states that a
//! search kept.
#![tactic(auto)]

mod authority;
mod gathering;
mod greatest;
mod holders;
mod merging;
mod rights;

pub use authority::{Authorities, authorities_of, hart_authorities};
pub use gathering::greatest_of;
pub use holders::Holder;
pub use merging::merge;
pub use rights::Authority;
