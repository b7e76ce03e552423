//! `value_rows`: answers rows on capabilities and memory. Each line of its input is one call of a
//! library of this repository, by the call's name and its arguments, and the same line of its
//! output says what the call gave.
#![tactic(auto)]

mod calls;
mod memory;
mod numbers;
mod printing;
mod rows;

use crate::rows::answers;
use std::io;
use std::io::Write;
use std::process::ExitCode;

/// Prints the answers to the rows of standard input; whether it could.
fn answer_all(rt: &HostRuntime) -> bool {
    let Ok(text) = io::read_to_string(rt.alloc(), rt.stdin()) else {
        return false;
    };
    match answers(rt.alloc(), text.as_str()) {
        Ok(answers) => rt.stdout().write_all(answers.as_bytes()).is_ok(),
        Err(_) => false,
    }
}

fn main(rt: HostRuntime) -> ExitCode {
    if answer_all(&rt) {
        ExitCode::SUCCESS
    } else {
        ExitCode::FAILURE
    }
}
