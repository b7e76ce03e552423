//! Tagged memory: RAM with one tag for each granule of 16 bytes (CHERI ISA v9, "tags").
//!
//! Contracts see memory as a map, the list of its granules' values: `specs/Memory.antt` of
//! `cheri_model` says what each access reads and what it leaves.
#![tactic(auto)]

mod fault;
mod packed;
mod ram;
mod sweeping;

pub use fault::MemFault;
pub use ram::Ram;
