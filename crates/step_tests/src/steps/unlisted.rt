//! Rows that no listing gives: PCCs that are sealed or untagged words, checks of accesses beside
//! those that instructions make, and sweeps that no order has.

use super::{fetch_traps, hart_with, ram};
use cheri_model::{Trap, Width};
use hart_step::{Access, access_check};
use samples::{Given, K, hart_at, made};
use std::test::Fail;

/// PCC of a hart, and the cause of its trap.
const FETCHES: [(&str, Given, u8); 4] = [
    (
        "a sealed word without a tag",
        Given::Word(0x0004_1fff_d405_8004, 0x1000_0000),
        1,
    ),
    ("an integer", Given::Int(0x1000_0000), 1),
    (
        "sealed, and without Execute",
        Given::Sealed(0x1000_0000, 16, 0x1000_0000, 0x4, 5),
        2,
    ),
    (
        "a sentry",
        Given::Sentry(0x1000_0000, 16, 0x1000_0000, 0x2),
        2,
    ),
];

#[test]
fn fetches_ask_for_open_counters(rt: HostRuntime) -> Result<(), Fail> {
    for (why, pcc, cause) in FETCHES {
        let hart = hart_at(pcc.cap()?);
        fetch_traps(&rt, rt.alloc(), why, hart, cause);
    }
    Ok(())
}

/// The cause of a trap of a check, or 0 where it passes.
fn cause(checked: Result<(), Trap>) -> u8 {
    match checked {
        Ok(()) => 0,
        Err(trap) => trap.cause,
    }
}

/// The authority, the access, the value of a store, and the cause.
const ACCESSES: [(&str, Given, Access, Given, u8); 5] = [
    (
        "a load asks nothing of a value",
        Given::Open(0x8000_0000, 128, 0x8000_0000, 0x4),
        Access::Load(Width::Word),
        Given::Open(0, 16, 0, 0x4),
        0,
    ),
    (
        "a store of data asks nothing of a value",
        Given::Open(0x8000_0000, 128, 0x8000_0000, 0x8),
        Access::Store(Width::Word),
        Given::Open(0, 16, 0, 0x4),
        0,
    ),
    (
        "a load of a capability asks nothing of a value",
        Given::Open(0x8000_0000, 128, 0x8000_0000, 0x4),
        Access::LoadCap,
        Given::Open(0, 16, 0, 0x1),
        0,
    ),
    (
        "a sentry's word without the tag",
        Given::Word(0x0002_0000_0c05_8004, 0x8000_0000),
        Access::Load(Width::Word),
        Given::Int(0),
        1,
    ),
    (
        "a sentry",
        Given::Sentry(0x8000_0000, 16, 0x8000_0000, 0x2),
        Access::Load(Width::Word),
        Given::Int(0),
        2,
    ),
];

#[test]
fn accesses_are_checked(rt: HostRuntime) -> Result<(), Fail> {
    for (why, authority, kind, value, expected) in ACCESSES {
        let authority = authority.cap()?;
        let value = value.cap()?;
        let memory = ram(&rt, rt.alloc(), 64);
        let checked = access_check(authority, 5, 0x8000_0000, kind, Some(value), &memory);
        assert_eq!(rt; cause(checked), expected, "{why}");
    }
    Ok(())
}

/// PCC and c5 have tags; a range that ends below its beginning has neither, and one that ends above
/// all addresses has both.
#[test]
fn ranges_that_no_order_has(rt: HostRuntime) -> Result<(), Fail> {
    let mut hart = hart_with(K, K)?;
    assert_eq!(rt; hart.sweep(0x8000_0020, 0x8000_0000), 0);
    assert_eq!(rt; hart.sweep(0, u128::MAX), 3);
    Ok(())
}
