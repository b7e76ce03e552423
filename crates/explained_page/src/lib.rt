//! The page of an explained run: one file that holds the explanation in JSON, the state before its
//! first event, and the listing. And one position of a run, as one JSON object.
#![tactic(auto)]

mod constants;
pub mod laws;
mod look;
mod page;
mod pages;
mod positions;
mod runs;
mod script_text;
mod state;

pub use look::write_look;
pub use pages::MOST_EVENTS;
pub use positions::follow_to;
pub use runs::{PageEnd, write_page};
pub use state::{state_json, write_state};
