//! What reports are made of: numbers, values, names, events and lines, as texts and in JSON.
#![tactic(auto)]

mod digits;
mod event_data;
mod event_text;
mod json_text;
pub mod laws;
mod lines;
mod members;
mod names;
mod value_data;
mod value_text;

pub use digits::{Hex, MOST_DIGITS, put_before};
pub use event_data::{event_json, event_members, image_json};
pub use event_text::{OutcomeText, StatusText, write_event};
pub use json_text::{write_comma, write_event_json, write_json_value};
pub use lines::{
    write_count_line, write_event_line, write_granule_line, write_image_line, write_pcc_line,
    write_register_line, write_status_line,
};
pub use names::{CauseName, PlaceName, granule_address};
pub use text_numbers::{BUFFER, Hex64};
pub use value_data::{put_granule, put_register, value_json, value_members};
pub use value_text::{TypeText, ValueText, Word, is_listed, write_type, write_value, write_word};
