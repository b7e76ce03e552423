//! The laws over the definitions: each function's contract is one law, and the function does
//! nothing.

pub mod constants;
pub mod forms;
pub mod memory;
pub mod names;
pub mod replays;
pub mod runs;
pub mod sweeps;
