//! `cheri_steps`: test vectors of whole steps. Each line of its input is a case: an instruction,
//! the values that it finds, a granule of memory and the size of the code. It prints the case with
//! what one step of the machine makes of it, as lines of words, or with any argument as lines of
//! JSON.
#![tactic(auto)]

mod cases;
mod json;
mod numbers;
mod operands;
mod rows;
mod steps;

use crate::rows::vectors;
use std::io::Write;
use std::process::ExitCode;
use std::{env, io};

/// Prints the vectors of the cases of standard input; whether it could.
fn print_vectors(rt: &HostRuntime, is_json: bool) -> bool {
    let Ok(text) = io::read_to_string(rt.alloc(), rt.stdin()) else {
        return false;
    };
    match vectors(rt.alloc(), text.as_str(), is_json) {
        Ok(vectors) => rt.stdout().write_all(vectors.as_bytes()).is_ok(),
        Err(_) => false,
    }
}

fn main(rt: HostRuntime) -> ExitCode {
    let Ok(args) = env::args(&rt) else {
        return ExitCode::FAILURE;
    };
    let is_json = args.skip(1).count() > 0;
    if print_vectors(&rt, is_json) {
        ExitCode::SUCCESS
    } else {
        ExitCode::FAILURE
    }
}
