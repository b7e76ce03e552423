//! Searches for a state, where each hart forgets the registers that don't matter to the question,
//! and harts that it doesn't tell apart stand in order: states that differ in nothing else are one.
#![tactic(auto)]

mod graph;
mod known;
pub mod laws;
mod nodes;
mod replaying;
mod seeking;
mod survey_rows;
mod surveying;
mod surveys;

pub use seeking::{Matters, Sought, seek};
pub use survey_rows::SurveyRows;
pub use surveying::survey;
pub use surveys::{Looped, Survey};
