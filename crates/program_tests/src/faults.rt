//! Lines of standard error, and faults of files, that no file can cause.

use crate::common::assert_bytes;
use cores::StepFault;
use grammar::fault::ListingFaultKind;
use inputs::{FileFault, InputFault, fault_of};
use listings::ListingFault;
use orders::{OrderFault, OrderFaultKind};
use sim_program::{Fault, OwnFault, report_fault};
use std::io::ErrorKind;

/// The longest lines of faults are printed whole: a capability that is none in the last line that
/// a listing can have, and the greatest places of an order. So is that of a race that left another
/// image, which no race does.
#[test]
fn long_lines_of_faults(rt: HostRuntime) {
    let listing = Fault::Input(InputFault::Listing(ListingFault {
        line: 1_048_576,
        kind: ListingFaultKind::Capability,
    }));
    let order = Fault::Input(InputFault::Order(OrderFault {
        offset: usize::MAX,
        kind: OrderFaultKind::NoMemory,
    }));
    let step = Fault::Own(OwnFault::Step(usize::MAX, StepFault::HartStopped));
    for (fault, status, line) in [
        (listing, 1, "listing line 1048576: 7 Capability\n"),
        (order, 1, "order byte 18446744073709551615: 3 NoMemory\n"),
        (step, 1, "order step 18446744073709551615: 3 HartStopped\n"),
        (Fault::Own(OwnFault::ImageDiffers), 3, "image differs\n"),
    ] {
        let mut err = Vec::new(rt.alloc());
        assert_eq!(rt; report_fault(&mut err, fault), status);
        assert_bytes(&rt, err.as_slice(), line);
    }
}

/// Only a device that finds no memory fails so; a file that may not be read, is a folder or is
/// broken cannot be read.
#[test]
fn faults_of_devices(rt: HostRuntime) {
    assert!(rt; fault_of(ErrorKind::OutOfMemory) == FileFault::NoMemory);
    for kind in [
        ErrorKind::NotFound,
        ErrorKind::PermissionDenied,
        ErrorKind::IsADirectory,
        ErrorKind::Interrupted,
        ErrorKind::Other,
    ] {
        assert!(rt; fault_of(kind) == FileFault::CannotRead);
    }
}
