//! `cheri_vectors`: prints the test vectors, rows of inputs and of what the definitions answer to
//! them, for those who compare another implementation with this one.
#![tactic(auto)]

mod addresses;
mod hex;
mod printing;
mod ranges;
mod values;
mod words;

use crate::printing::print_vectors;
use std::process::ExitCode;

fn main(rt: HostRuntime) -> ExitCode {
    match print_vectors(rt.alloc(), &mut rt.stdout()) {
        Ok(()) => ExitCode::SUCCESS,
        Err(_) => ExitCode::FAILURE,
    }
}
