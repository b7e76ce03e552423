//! The outcomes of an image, and what is said of them.
#![tactic(auto)]

mod answers;
mod endless;
mod heads;
mod listed;
mod searching;
mod shown;
mod told;

pub use answers::{list_outcomes, show_outcomes};
pub use heads::{Head, complete_text};
pub use listed::write_ordered;
pub use shown::{shown_text, write_rows, write_rows_json};
pub use told::ShownRow;
