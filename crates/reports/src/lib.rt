//! Reports: what is shown of a machine, as text and in JSON.
#![tactic(auto)]

mod json;
mod report;
mod state;

pub use json::pieces::write_json;
pub use json::state::{put_granules_json, put_harts_json};
pub use json::{granules_json, harts_json, put_status, report_json};
pub use report::write_report;
pub use report_lines::{Hex, Hex64, MOST_DIGITS, TypeText};
pub use sinks::{MemSink, Sink, SinkFailed, ToWrite, WriteFault as ReportFault, put_whole};
pub use state::{put_granules, put_harts};
