//! `cheri_explore`: what the harts of a CHERI-RISC-V capability machine can do, under every order
//! of their steps.
#![tactic(auto)]

use explore_program::{Fault, perform, report_fault};
use inputs::{InputFault, SystemFiles, args_given};
use std::io::{self, IsTerminal};
use std::process::ExitCode;

fn main(rt: HostRuntime) -> ExitCode {
    let mut err = rt.stderr();
    let terminal = if err.is_terminal() { Some(&rt) } else { None };
    let status = match args_given(&rt) {
        Ok(args) => perform(
            &rt,
            args.as_slice(),
            &mut SystemFiles(&rt),
            terminal,
            &mut rt.stdout(),
            &mut err,
        ),
        Err(error) if error.kind() == io::ErrorKind::OutOfMemory => report_fault(
            &mut err,
            Fault::Input(InputFault::NoMemory),
        ),
        Err(_) => report_fault(&mut err, Fault::Usage),
    };
    ExitCode::from(status)
}
