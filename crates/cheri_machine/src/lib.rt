//! A machine for programs in C and Python: each function here is one of the header
//! `bindings/c/cheri_machine.h`, and each struct one of its structs.
//!
//! A handle is a struct that the caller keeps, closed or open; an open one owns one machine, in
//! memory of `malloc`. Every function answers for all arguments, and nothing is kept elsewhere.
#![tactic(auto)]

mod answers;
mod fault;
mod handle;
mod machine;
mod opening;
mod parts;
mod reading;
mod reporting;
mod running;
mod status;
mod structs;
