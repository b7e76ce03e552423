//! Explanations of a run: what each event read, found, left and set, why it trapped and why a tag
//! was lost, as text and in JSON.
#![tactic(auto)]

mod fact_data;
mod fact_lines;
mod followed;
mod forms;
mod lines;
mod mnemonics;
mod named_json;
mod names;
mod phrases;
mod pieces;
mod reasons;
mod runs;
mod selection;
mod step_json;
mod text;
mod whole_json;

pub use fact_data::named_value_json;
pub use followed::{follow, take};
pub use lines::InstructionLines;
pub use runs::{Explanation, Format, explain, explain_mapped};
pub use selection::{Filter, Selection};
pub use whole_json::{put_events, write_json};
