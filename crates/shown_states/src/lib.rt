//! States that a search kept, as conditions see them and as they are shown, and the answers that
//! show them.
#![tactic(auto)]

mod answer;
mod form;
mod loaded;
mod seen;
mod texts;

pub use answer::{Answer, put_answer};
pub use form::{Ending, Format};
pub use loaded::Loaded;
pub use seen::{ConditionTest, SeenState};
pub use texts::{write_json_string, write_state, write_states_line};
