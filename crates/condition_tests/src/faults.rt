//! Which texts are conditions and lists of items, and where the others are at fault.

use cheri_model::Image;
use condition_texts::{TextFault, read_condition, read_items};
use grammar::labels::{Labels, labels_of};
use listing_maps::Names;
use listings::read_listing;
use std::alloc::Global;
use std::process::Abort;
use std::test::Fail;

/// Two harts, 64 bytes of RAM and three labels.
const LISTING: &[u8] = b".ram 64\n\
.hart 0x10000000 8 0x10000000 execute\n\
.hart 0x10000000 8 0x10000000 execute\n\
start:\n\
ecall\n\
end: # behind\n\
ecall\n\
last:\n";

/// Conditions of this image.
const GOOD: &[&str] = &[
    "0.c1 = 0",
    "0.c31.tag != 1",
    "1.pcc.base < 0x10000001",
    "0.c0.len <= 5",
    "0.c1.perms > 3",
    "0.c1.sealed >= 1",
    "0.c1.top = 0",
    "0.c1.type = 262143",
    "0.c1.word = 0xffffffffffffffffffffffffffffffff",
    "mem[0x80000000] = 0",
    "mem[0x80000030].tag = 1",
    "mem1[0x8000003f] = 0",
    "mem2[0x8000003e] = 0",
    "mem4[0x8000003c] = 0",
    "mem8[2147483704] = 0",
    "0 is running",
    "1 is halted",
    "0 is trapped",
    "0 is trapped:1",
    "0 is trapped:13",
    "1 reaches 0 none",
    "0 reaches 0xffffffffffffffff load+store",
    "0 reaches 1 all and 1 is halted and 0.c1 = 0",
    "0.c1 = 340282366920938463463374607431768211455",
    "0 at start",
    "1 at @2",
    "0 at last",
    "0 in start..last",
    "1 in @0..@2",
    "0 in start..end and 1 at end or 0 is halted",
    "not 0 is halted",
    "not (not 0 is halted)",
    "( 0 is halted )",
    "(0 is halted)",
    "((0 is halted) or 1 is halted)",
    "0.c5 = 1.c5",
    "0.c5 <= mem[0x80000000]",
    "mem8[0x80000000] != mem8[0x80000008]",
    "0.c1 = &start",
    "0.pcc.addr >= &@2",
    "any hart is trapped",
    "no hart is running",
    "two harts in start..last",
    "all harts are halted",
    "two harts reach 0x80000000 load",
    "any hart reaches 0x80000000 load",
    "any hart at end",
    "all harts at end",
    "any hart (h is halted)",
    "any hart (h.c5 = 0.c5 and not h.pcc.tag = 1)",
    "count(h at start) = 2",
    "count (h at start or h in end..last) >= 1",
    "count (0 is halted) != 0",
    "0 is trapped:Length",
    "any hart is trapped:CInvoke",
    "(any hart is halted) or (no hart is halted)",
    "count(h.c1 = &end) < 340282366920938463463374607431768211455",
    "((((((((((((((((((((((((((((((((0 is halted))))))))))))))))))))))))))))))))",
];

/// Texts that are none, and the bytes of their faults.
const BAD: &[(&str, usize)] = &[
    ("", 0),
    (" ", 0),
    ("0.c1", 4),
    ("0.c1 ", 5),
    ("0.c1 =", 6),
    ("0.c1 = ", 7),
    ("0.c1  = 0", 5),
    ("0.c1 = 0 ", 9),
    ("0.c1 = 0 and", 12),
    ("0.c1 = 0 and ", 13),
    ("2.c1 = 0", 0),
    ("2 is halted", 0),
    ("0.c32 = 0", 0),
    ("0.c01 = 0", 0),
    ("0.c1.foo = 0", 0),
    ("0.c1. = 0", 0),
    ("0.c1.status = 0", 0),
    ("0.pcc.addr.addr = 0", 0),
    ("0.C1 = 0", 0),
    ("mem[0x80000008] = 0", 0),
    ("mem[0x80000040] = 0", 0),
    ("mem[0x7ffffff0] = 0", 0),
    ("mem[] = 0", 0),
    ("mem[0x80000000]tag = 0", 0),
    ("mem[0x80000000 = 0", 0),
    ("mem3[0x80000000] = 0", 0),
    ("mem1[0x80000000].tag = 0", 0),
    ("mem8[0x8000003c] = 0", 0),
    ("mem16[0x80000000] = 0", 0),
    ("mem1[0x80000040] = 0", 0),
    ("0.c1 == 0", 5),
    ("0.c1 = x", 7),
    ("0.c1 = 0x", 7),
    ("0.c1 = -1", 7),
    ("0.c1 = 340282366920938463463374607431768211456", 7),
    ("0 are halted", 2),
    ("0 is stopped", 5),
    ("0 is trapped:0", 5),
    ("0 is trapped:14", 5),
    ("0 is trapped:01", 5),
    ("0 is trapped:", 5),
    ("0 reaches", 9),
    ("0 reaches 18446744073709551616 none", 10),
    ("0 reaches 0 execut", 12),
    ("0 reaches 0 load+", 12),
    ("0 reaches 0 none and", 20),
    ("0 is halted and 1 is halted and and", 32),
    ("00 is halted", 0),
    ("0 is halted\n", 5),
    ("0 at", 4),
    ("0 at nowhere", 5),
    ("0 at @3", 5),
    ("0 at start..end", 5),
    ("0 in start", 5),
    ("0 in end..start", 5),
    ("0 in start..start", 5),
    ("0 in start...end", 5),
    ("0 in start..end..last", 5),
    ("0 in ..end", 5),
    ("0 in start..", 5),
    ("0 reach 0 none", 2),
    ("0 are halted", 2),
    ("any harts are halted", 4),
    ("two hart is halted", 4),
    ("any hart are halted", 9),
    ("two harts is halted", 10),
    ("any hart halted", 9),
    ("any", 3),
    ("no hart", 7),
    ("h is halted", 0),
    ("h.c5 = 0", 0),
    ("any hart (any hart is halted)", 10),
    ("any hart (count(h is halted) = 1)", 10),
    ("count h is halted", 6),
    ("count(h is halted)", 18),
    ("count(h is halted) =", 20),
    ("count(h is halted) = h.c5", 21),
    ("any hart (h is halted", 21),
    ("any hart (h is halted))", 22),
    ("(0 is halted", 12),
    ("0 is halted)", 11),
    ("()", 1),
    ("( )", 2),
    ("not", 3),
    ("not not 0 is halted", 4),
    ("0 is halted or", 14),
    ("or 0 is halted", 0),
    ("0 is halted and or 1 is halted", 16),
    ("0 is halted 1 is halted", 12),
    ("0 is trapped:length", 5),
    ("0 is trapped:", 5),
    ("0.c1 = &", 7),
    ("0.c1 = &nowhere", 7),
    ("0.c1 = &@3", 7),
    ("0.c1 = h.c1", 7),
    ("0 at start.", 5),
    ("0 at 0", 5),
    ("any hart (h.c32 = 0)", 10),
    ("any hart (h.c5.foo = 0)", 10),
    ("any hart (h = 0)", 12),
    ("h", 0),
    ("(", 1),
    ("not (0 is halted) (", 18),
    ("0 is halted  or 1 is halted", 12),
    ("0 is halted or ", 15),
    (
        "(((((((((((((((((((((((((((((((((0 is halted)))))))))))))))))))))))))))))))))",
        32,
    ),
    ("count(h is halted) >= 1 or h is halted", 27),
];

/// Lists of items, and how many each has.
const LISTS: &[(&str, usize)] = &[
    ("0.c1", 1),
    ("0.status", 1),
    (
        "1.status,mem[0x80000000].word,mem8[0x80000000],0.pcc.perms",
        4,
    ),
    (
        "0.c1,0.c1,0.c1,0.c1,0.c1,0.c1,0.c1,0.c1,0.c1,0.c1,0.c1,0.c1,0.c1,0.c1,0.c1,0.c1",
        16,
    ),
];

/// Texts that are no lists of items, and the bytes of their faults.
const BAD_LISTS: &[(&str, usize)] = &[
    ("", 0),
    ("0.c1,", 5),
    ("0.c1,,0.c1", 5),
    ("2.status", 0),
    ("0.status.addr", 0),
    ("status", 0),
    ("0.c1,0.c9,0.cx", 10),
    (
        "0.c1,0.c1,0.c1,0.c1,0.c1,0.c1,0.c1,0.c1,0.c1,0.c1,0.c1,0.c1,0.c1,0.c1,0.c1,0.c1,0.c1",
        80,
    ),
    ("0.c1, 0.c2", 5),
    ("0.c1 = 0", 0),
    ("0.STATUS", 0),
];

fn image(alloc: Global) -> Result<Image, Fail> {
    Ok(read_listing(alloc, LISTING)?)
}

fn refuses_condition(
    rt: &impl Abort,
    alloc: Global,
    names: &Names<'_>,
    image: &Image,
    text: &str,
    byte: usize,
) {
    match read_condition(alloc, names, image, text) {
        Ok(_) => panic!(rt; "{text:?} is taken for a condition"),
        Err(fault) => assert!(rt; fault == TextFault::Condition(byte), "{text:?}"),
    }
}

fn refuses_items(rt: &impl Abort, alloc: Global, image: &Image, text: &str, byte: usize) {
    match read_items(alloc, image, text) {
        Ok(_) => panic!(rt; "{text:?} is taken for items"),
        Err(fault) => assert!(rt; fault == TextFault::Place(byte), "{text:?}"),
    }
}

fn takes_condition(rt: &impl Abort, alloc: Global, names: &Names<'_>, image: &Image, text: &str) {
    if read_condition(alloc, names, image, text).is_err() {
        panic!(rt; "{text:?} is refused");
    }
}

fn good_are_taken(rt: &impl Abort, alloc: Global, names: &Names<'_>, image: &Image) {
    for text in GOOD {
        takes_condition(rt, alloc, names, image, text);
    }
}

fn bad_are_refused(rt: &impl Abort, alloc: Global, names: &Names<'_>, image: &Image) {
    for (text, byte) in BAD {
        refuses_condition(rt, alloc, names, image, text, *byte);
    }
}

fn conditions_are_judged(rt: &impl Abort, alloc: Global, labels: &Labels<'_>, image: &Image) {
    let names = Names {
        labels,
        sources: None,
    };
    good_are_taken(rt, alloc, &names, image);
    bad_are_refused(rt, alloc, &names, image);
}

#[test]
fn conditions_are_read_or_refused_at_their_first_faulty_word(rt: HostRuntime) -> Result<(), Fail> {
    let image = image(rt.alloc())?;
    let labels = labels_of(rt.alloc(), LISTING)?;
    conditions_are_judged(&rt, rt.alloc(), &labels, &image);
    Ok(())
}

#[test]
fn items_are_read_or_refused_at_the_first_that_is_none(rt: HostRuntime) -> Result<(), Fail> {
    let image = image(rt.alloc())?;
    for (text, count) in LISTS {
        let items = read_items(rt.alloc(), &image, text)?;
        assert!(rt; items.shown.len() == *count, "{text:?}");
    }
    for (text, byte) in BAD_LISTS {
        refuses_items(&rt, rt.alloc(), &image, text, *byte);
    }
    Ok(())
}
