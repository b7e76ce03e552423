//! Sinks: devices that take a text in pieces and may fail, and how a long text is put to one.
#![tactic(auto)]

mod failures;
mod fault;
pub mod laws;
mod memory;
mod pieces;
mod sink;
mod writer;

pub use failures::FailureCount;
pub use fault::WriteFault;
pub use memory::MemSink;
pub use pieces::{PART, PIECE, make_room};
pub use sink::{Sink, SinkFailed, put_whole};
pub use writer::ToWrite;
