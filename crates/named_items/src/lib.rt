//! The harts that items name by their numbers.
#![tactic(auto)]

pub mod laws;
mod named;

pub use named::named_items;
