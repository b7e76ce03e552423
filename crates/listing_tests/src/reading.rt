//! Worked rows of listings: those that are refused, with the line and the kind, and one that is cut
//! in a number and read.

use cheri_model::Instr;
use grammar::fault::ListingFaultKind;
use listings::read_listing;
use std::alloc::Global;
use std::test::Fail;

/// The line and the kind of a listing's fault, or `None` where it is read.
fn fault_of(alloc: Global, text: &[u8]) -> Option<(usize, ListingFaultKind)> {
    match read_listing(alloc, text) {
        Ok(_) => None,
        Err(fault) => Some((fault.line, fault.kind)),
    }
}

/// A listing, and the line and the kind of its fault.
const REFUSED: [(&str, usize, ListingFaultKind); 15] = [
    ("", 0, ListingFaultKind::NoHart),
    (
        ".hart 0x10000000 16 0x10000000 execute\n.set c0 int 1\n",
        2,
        ListingFaultKind::Operand,
    ),
    (".set c5 int 1\n", 1, ListingFaultKind::NoHart),
    (
        ".hart 0x10000000 16 0x10000000 execute\n.set c5 cap 1 4096 1 load\n",
        2,
        ListingFaultKind::Capability,
    ),
    (
        ".hart 0x10000000 16 0x10000000 execute\naddi c6, c0, 2048\n",
        2,
        ListingFaultKind::Range,
    ),
    (
        ".hart 0x10000000 16 0x10000000 execute\nbeq c0, c0, nowhere\n",
        2,
        ListingFaultKind::Label,
    ),
    (
        ".hart 0x10000000 16 0x10000000 execute\na:\na:\necall\n",
        3,
        ListingFaultKind::Twice,
    ),
    (
        ".hart 0x10000000 16 0x10000000 execute\necall 1\n",
        2,
        ListingFaultKind::Operand,
    ),
    (".ram 8\n", 1, ListingFaultKind::Size),
    (
        ".ram 16\n.hart 0x10000000 16 0x10000000 execute\n.bytes 0x8000000f aabb\n",
        3,
        ListingFaultKind::Range,
    ),
    (
        ".hart 0x10000000 16 0x10000000 execute\n",
        0,
        ListingFaultKind::Size,
    ),
    (".har", 1, ListingFaultKind::Word),
    (
        ".hart 0x10000000 16 0x10000000 execute+loa",
        1,
        ListingFaultKind::Operand,
    ),
    (HEAD, 0, ListingFaultKind::Size),
    (CUT_IN_LINE_8, 8, ListingFaultKind::Word),
];

/// The first lines of a listing, before its instructions.
const HEAD: &str = "\
    .hart 0x10000000 16 0x10000000 execute+load\n\
    .set c5 cap 0x80000000 4096 0x80000000 load+store\n\
    .hart 0x10000000 16 0x10000000 execute+load\n\
    .set c5 cap 0x80000000 4096 0x80000000 load+store\n";

const CUT_IN_LINE_8: &str = "\
    .hart 0x10000000 16 0x10000000 execute+load\n\
    .set c5 cap 0x80000000 4096 0x80000000 load+store\n\
    .hart 0x10000000 16 0x10000000 execute+load\n\
    .set c5 cap 0x80000000 4096 0x80000000 load+store\n\
    addi c6, c0, 100\ncsetbounds c7, c5, c6\ncgetlen c8, c7\necal";

const CUT_IN_LINE_5: &str = "\
    .hart 0x10000000 16 0x10000000 execute+load\n\
    .set c5 cap 0x80000000 4096 0x80000000 load+store\n\
    .hart 0x10000000 16 0x10000000 execute+load\n\
    .set c5 cap 0x80000000 4096 0x80000000 load+store\n\
    addi c6, c0, 10";

#[test]
fn listings_are_refused_at_a_line(rt: HostRuntime) -> Result<(), Fail> {
    for (text, line, kind) in REFUSED {
        let got = fault_of(rt.alloc(), text.as_bytes());
        assert_eq!(&rt; got, Some((line, kind)), "of {text:?}");
    }
    Ok(())
}

/// The immediate of a listing's only instruction, where that is an addition.
fn immediate_of(alloc: Global, text: &[u8]) -> Option<i16> {
    match read_listing(alloc, text) {
        Ok(image) => match image.program() {
            [Instr::Addi { imm, .. }] => Some(*imm),
            _ => None,
        },
        Err(_) => None,
    }
}

#[test]
fn a_number_that_is_cut_is_another(rt: HostRuntime) -> Result<(), Fail> {
    assert_eq!(&rt;
        immediate_of(rt.alloc(), CUT_IN_LINE_5.as_bytes()),
        Some(10)
    );
    Ok(())
}
