//! The states that an image's machine can reach, under every order of its harts' steps and of
//! sweeps.
#![tactic(auto)]

mod accesses;
mod graph;
mod kept;
pub mod laws;
mod locals;
mod passing;
mod room;
mod search;
mod steps;
mod sweeping;

pub use graph::{MAX_SWEEPS, MachineGraph};
pub use kept::{Kept, Searched};
pub use locals::site_of;
pub use passing::StateTest;
pub use room::Room;
pub use search::{Found, Search, find_from, search_from};
