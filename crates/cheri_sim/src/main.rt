//! `cheri_sim`: a simulator of a CHERI-RISC-V capability machine of several harts.
#![tactic(auto)]

use inputs::{InputFault, SystemFiles, args_given};
use sim_program::{Fault, perform, report_fault};
use std::io;
use std::process::ExitCode;

fn main(rt: HostRuntime) -> ExitCode {
    let mut err = rt.stderr();
    let status = match args_given(&rt) {
        Ok(args) => perform(
            &rt,
            rt.alloc(),
            args.as_slice(),
            &mut SystemFiles(&rt),
            &mut rt.stdout(),
            &mut err,
        ),
        Err(error) if error.kind() == io::ErrorKind::OutOfMemory => report_fault(
            &mut err,
            Fault::Input(InputFault::NoMemory),
        ),
        Err(_) => report_fault(&mut err, Fault::Usage),
    };
    ExitCode::from(status)
}
