//! `cheri_asm`: reads files of assembly as one program, and prints its listing or its map.
#![tactic(auto)]

use asm_program::{Fault, perform, report_fault};
use inputs::{InputFault, SystemFiles, args_given};
use std::io;
use std::process::ExitCode;

fn main(rt: HostRuntime) -> ExitCode {
    let mut err = rt.stderr();
    let status = match args_given(&rt) {
        Ok(args) => perform(
            rt.alloc(),
            args.as_slice(),
            &mut SystemFiles(&rt),
            &mut rt.stdout(),
            &mut err,
        ),
        Err(error) if error.kind() == io::ErrorKind::OutOfMemory => report_fault(
            &mut err,
            Fault::Input(InputFault::NoMemory),
        ),
        Err(_) => report_fault(&mut err, Fault::Usage),
    };
    ExitCode::from(status)
}
