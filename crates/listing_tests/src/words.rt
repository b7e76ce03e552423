//! Numbers, names of permissions and kinds of faults, as the format of listings has them.

use bitflags::Flags;
use grammar::fault::ListingFaultKind;
use grammar::numerals::number_of;
use grammar::permissions::permissions_of;
use std::test::Fail;

#[test]
fn numbers_are_decimal_or_hexadecimal(rt: HostRuntime) -> Result<(), Fail> {
    for (token, want) in [
        ("0", 0),
        ("00", 0),
        ("7", 7),
        ("0019", 19),
        ("0x0", 0),
        ("0xaBcDeF", 0xAB_CDEF),
        ("0x00000000000000000000000000000000000000000000000010", 16),
        ("340282366920938463463374607431768211455", u128::MAX),
        ("0xffffffffffffffffffffffffffffffff", u128::MAX),
    ] {
        assert_eq!(&rt; number_of(token.as_bytes()), Ok(Some(want)), "of {token:?}");
    }
    for token in [
        "340282366920938463463374607431768211456",
        "0x100000000000000000000000000000000",
        "99999999999999999999999999999999999999999999999999",
    ] {
        assert_eq!(&rt; number_of(token.as_bytes()), Ok(None), "of {token:?}");
    }
    for token in [
        "", "x", "-1", "+1", "0x", "0X1", "1a", "0xg", "1_000", "0b1", "a",
    ] {
        let refused = Err(ListingFaultKind::Operand);
        assert_eq!(&rt; number_of(token.as_bytes()), refused, "of {token:?}");
    }
    Ok(())
}

#[test]
fn each_permission_has_its_bit(rt: HostRuntime) -> Result<(), Fail> {
    for (token, want) in [
        ("global", 1),
        ("execute", 1 << 1),
        ("load", 1 << 2),
        ("store", 1 << 3),
        ("load_cap", 1 << 4),
        ("store_cap", 1 << 5),
        ("store_local", 1 << 6),
        ("seal", 1 << 7),
        ("cinvoke", 1 << 8),
        ("unseal", 1 << 9),
        ("sysregs", 1 << 10),
        ("set_cid", 1 << 11),
        ("sw0", 1 << 15),
        ("sw1", 1 << 16),
        ("sw2", 1 << 17),
        ("sw3", 1 << 18),
        ("none", 0),
        ("all", 0x7_8FFF),
        ("store+load", 0b1100),
        ("load+load", 0b100),
    ] {
        let got = permissions_of(token.as_bytes()).map(|perms| perms.bits());
        assert_eq!(&rt; got, Ok(want), "of {token:?}");
    }
    Ok(())
}

#[test]
fn each_kind_of_fault_has_its_number_and_name(rt: HostRuntime) -> Result<(), Fail> {
    for (kind, want) in [
        (ListingFaultKind::NotAscii, "1 NotAscii"),
        (ListingFaultKind::Word, "2 Word"),
        (ListingFaultKind::Operand, "3 Operand"),
        (ListingFaultKind::Range, "4 Range"),
        (ListingFaultKind::Label, "5 Label"),
        (ListingFaultKind::Twice, "6 Twice"),
        (ListingFaultKind::Capability, "7 Capability"),
        (ListingFaultKind::NoHart, "8 NoHart"),
        (ListingFaultKind::Size, "9 Size"),
        (ListingFaultKind::NoMemory, "10 NoMemory"),
    ] {
        let got = format!(in rt.alloc(); "{kind}")?;
        assert_eq!(&rt; got.as_str(), want);
    }
    Ok(())
}
