//! Worked rows on values: the words and tags of results, and what is read off a value.

use bitflags::Flags;
use cap_ops::{Cap, MakeFault};
use cheri_model::Value;
use samples::{ALL, K, Tagged, made, perms, tagged_word};

const SEAL: u32 = 0x80;

const UNSEAL: u32 = 0x200;

/// The upper half of the sixteen bytes from 0x8000_0000 on, with all permissions.
const UPPER: u64 = 0xffff_0000_0405_8004;

/// The value that was made; null, which no row expects, where none was.
fn sure(made: Result<Cap, MakeFault>) -> Cap {
    made.unwrap_or(Cap::null())
}

/// The untagged value of the word with this upper half, at 0x8000_0000.
fn word(upper: u64) -> Cap {
    Cap::from_word(u128::from(upper) * 0x1_0000_0000_0000_0000 + 0x8000_0000)
}

/// Changes of a field, of the bounds and of the address.
fn changed() -> [(Cap, Tagged); 18] {
    let (k, root) = (sure(K.cap()), Cap::root(perms(ALL)));
    let (lowest, highest) = (
        sure(made(0, 16, 0, ALL)),
        sure(made(0xffff_ffff_ffff_fff0, 16, 0xffff_ffff_ffff_fff0, ALL)),
    );
    [
        (root, Tagged(true, 0xffff_0000_0000_0000, 0)),
        (k, Tagged(true, UPPER, 0x8000_0000)),
        (
            root.set_addr(1).set_bounds_exact(4096),
            Tagged(false, 0xffff_0000_0003_8004, 1),
        ),
        (
            sure(made(0, 8192, 1, ALL)).set_bounds(8191),
            Tagged(true, 0xffff_0000_0001_8005, 1),
        ),
        (
            root.set_bounds_exact(0xffff_ffff_ffff_ffff),
            Tagged(false, 0xffff_0000_0000_0000, 0),
        ),
        (
            root.set_addr(0xffff_ffff_ffff_ffff).set_bounds_exact(2),
            Tagged(false, 0xffff_0000_0401_fffb, 0xffff_ffff_ffff_ffff),
        ),
        (
            k.set_bounds(17),
            Tagged(false, 0xffff_0000_0405_c004, 0x8000_0000),
        ),
        (k.set_addr(0x7fff_f800), Tagged(true, UPPER, 0x7fff_f800)),
        (k.set_addr(0x8000_37ff), Tagged(true, UPPER, 0x8000_37ff)),
        (k.set_addr(0x7fff_f7ff), Tagged(false, UPPER, 0x7fff_f7ff)),
        (k.set_addr(0x8000_3800), Tagged(false, UPPER, 0x8000_3800)),
        (
            lowest.set_addr(0xffff_ffff_ffff_f800),
            Tagged(true, UPPER, 0xffff_ffff_ffff_f800),
        ),
        (
            lowest.set_addr(0xffff_ffff_ffff_f7ff),
            Tagged(false, UPPER, 0xffff_ffff_ffff_f7ff),
        ),
        (
            highest,
            Tagged(true, 0xffff_0000_0401_bff4, 0xffff_ffff_ffff_fff0),
        ),
        (highest.set_addr(0), Tagged(true, 0xffff_0000_0401_bff4, 0)),
        (
            highest.set_addr(0x2fff),
            Tagged(true, 0xffff_0000_0401_bff4, 0x2fff),
        ),
        (
            highest.set_addr(0x3000),
            Tagged(false, 0xffff_0000_0401_bff4, 0x3000),
        ),
        (k.set_high(0), Tagged(false, 0, 0x8000_0000)),
    ]
}

/// Permissions, the flag, sentries, and sealing with the greatest types.
fn sealed() -> [(Cap, Tagged); 9] {
    let k = sure(K.cap());
    let sentry = k.seal_entry();
    let reserved = sure(made(0, 0x4_0000, 0x3_fffc, SEAL));
    let greatest = sure(made(0, 0x4_0000, 0x3_fffb, SEAL));
    let unsealer = sure(made(0, 0x4_0000, 0x3_fffb, UNSEAL));
    [
        (
            k.and_perm(0x8005),
            Tagged(true, 0x1005_0000_0405_8004, 0x8000_0000),
        ),
        (
            k.set_flags(1),
            Tagged(true, 0xffff_2000_0405_8004, 0x8000_0000),
        ),
        (sentry, Tagged(true, 0xffff_0000_0c05_8004, 0x8000_0000)),
        (
            sentry.and_perm(0x7_8fff),
            Tagged(false, 0xffff_0000_0c05_8004, 0x8000_0000),
        ),
        (
            sentry.set_addr(0x8000_0000),
            Tagged(false, 0xffff_0000_0c05_8004, 0x8000_0000),
        ),
        (sentry.unsealed(), Tagged(true, UPPER, 0x8000_0000)),
        (
            k.seal(reserved),
            Tagged(false, 0xffff_0000_1c05_8004, 0x8000_0000),
        ),
        (
            k.seal(greatest),
            Tagged(true, 0xffff_0000_2405_8004, 0x8000_0000),
        ),
        (
            k.seal(greatest).unseal(unsealer),
            Tagged(true, 0xfffe_0000_0405_8004, 0x8000_0000),
        ),
    ]
}

/// Words that are rebuilt under the root, and under the sixteen bytes.
fn built() -> [(Cap, Tagged); 7] {
    let (k, root) = (sure(K.cap()), Cap::root(perms(ALL)));
    let whole = k.clear_tag();
    [
        (root.build(Cap::from_word(0x4000 << 64)), Tagged(true, 0, 0)),
        (
            root.build(Cap::from_word(0x1000 << 64)),
            Tagged(true, 0x401_8004, 0),
        ),
        (root.build(whole), Tagged(true, UPPER, 0x8000_0000)),
        (
            root.build(word(0xffff_0000_0c05_8004)),
            Tagged(true, UPPER, 0x8000_0000),
        ),
        (
            root.build(word(0xffff_4000_0405_8004)),
            Tagged(false, 0xffff_4000_0405_8004, 0x8000_0000),
        ),
        (
            k.build(root.clear_tag()),
            Tagged(false, 0xffff_0000_0000_0000, 0),
        ),
        (
            k.seal_entry().build(whole),
            Tagged(false, UPPER, 0x8000_0000),
        ),
    ]
}

#[test]
fn values_are_those_of_the_worked_rows(rt: HostRuntime) {
    for (cap, want) in changed() {
        assert!(rt; tagged_word(cap) == want, "{want:?}");
    }
    for (cap, want) in sealed() {
        assert!(rt; tagged_word(cap) == want, "{want:?}");
    }
    for (cap, want) in built() {
        assert!(rt; tagged_word(cap) == want, "{want:?}");
    }
}

#[test]
fn what_is_read_is_that_of_the_worked_rows(rt: HostRuntime) {
    let (k, root) = (sure(K.cap()), Cap::root(perms(ALL)));
    assert!(rt; root.bounds() == (0, 1 << 64));
    assert!(rt; (root.len(), root.perm().bits()) == (0xffff_ffff_ffff_ffff, ALL));
    assert!(rt; Cap::from_word(0x4000 << 64).len() == 0xffff_ffff_ffff_ffff);
    assert!(rt; *k.set_bounds(17).top_ref() == 0x8000_0011);
    assert!(rt; sure(made(0, 8192, 1, ALL)).set_bounds(8191).bounds() == (0, 0x2000));
    assert!(rt; word(0xffff_0000_1c05_8004).otype() == 0xffff_ffff_ffff_fffc);
    assert!(rt; word(0xffff_0000_2405_8004).otype() == 262_139);
    assert!(rt; root.test_subset(k) && !k.test_subset(root));
    assert!(rt; !root.test_subset(k.clear_tag()));
    assert!(rt; Cap::of_value(k.value()) == k);
    assert!(rt; Cap::of_value(Value::raw(k.bits())) == k.clear_tag());
    let faults = [
        MakeFault::PastEnd,
        MakeFault::Inexact,
        MakeFault::Unrepresentable,
    ];
    assert!(rt; faults.map(|fault| fault.number()) == [1, 2, 3]);
}
