//! Worked rows on bounds.

use cap_bounds::{Rounded, cram, crrl, decode, representable, set_bounds};
use cheri_model::ADDRESS_SPACE;

/// Base, length, and the rounding as IE, E, T, B, base, top and whether it is exact.
type Row = (u64, u128, u8, u8, u16, u16, u64, u128, bool);

const ROUNDED: [Row; 6] = [
    (1, 4095, 0, 0, 0, 1, 1, 0x1000, true),
    (1, 4096, 1, 0, 8, 0, 0, 0x1008, false),
    (1, 8191, 1, 1, 0, 1, 0, 0x2000, false),
    (0, ADDRESS_SPACE - 1, 1, 52, 6, 4, 0, ADDRESS_SPACE, false),
    (
        u64::MAX,
        2,
        0,
        0,
        1,
        0x3fff,
        u64::MAX,
        ADDRESS_SPACE + 1,
        true,
    ),
    (
        0x8000_0001,
        1 << 20,
        1,
        8,
        9,
        0,
        1 << 31,
        0x8010_0800,
        false,
    ),
];

/// Each length with its representable length and its alignment mask.
const LENGTHS: [(u64, u64, u64); 6] = [
    (0, 0, 0xffff_ffff_ffff_ffff),
    (4095, 4095, 0xffff_ffff_ffff_ffff),
    (4097, 4104, 0xffff_ffff_ffff_fff8),
    (8184, 8184, 0xffff_ffff_ffff_fff8),
    (8191, 8192, 0xffff_ffff_ffff_fff0),
    (0xffff_ffff_ffff_ffff, 0, 0xff80_0000_0000_0000),
];

/// Words as upper half and address, with their bases and tops.
const DECODED: [(u64, u64, u64, u128); 7] = [
    (0, 0, 0, ADDRESS_SPACE),
    (0x1000, 0, 0, 0),
    (0x4000, 0, 0, ADDRESS_SPACE),
    (0x1000_0000, 0, 0, ADDRESS_SPACE),
    (0xffff_0000_0000_0000, 0, 0, ADDRESS_SPACE),
    (0xffff_0000_0405_8004, 0x8000_0000, 0x8000_0000, 0x8000_0010),
    (
        0xffff_0000_0401_bff4,
        0,
        0xffff_ffff_ffff_fff0,
        ADDRESS_SPACE,
    ),
];

/// Upper halves with an address, another address, and whether the bounds stay.
const MOVED: [(u64, u64, u64, bool); 9] = [
    (0xffff_0000_0405_8004, 0x8000_0000, 0x7fff_f800, true),
    (0xffff_0000_0405_8004, 0x8000_0000, 0x8000_37ff, true),
    (0xffff_0000_0405_8004, 0x8000_0000, 0x7fff_f7ff, false),
    (0xffff_0000_0405_8004, 0x8000_0000, 0x8000_3800, false),
    (0xffff_0000_0405_8004, 0, 0xffff_ffff_ffff_f800, true),
    (0xffff_0000_0405_8004, 0, 0xffff_ffff_ffff_f7ff, false),
    (0xffff_0000_0401_bff4, 0xffff_ffff_ffff_fff0, 0, true),
    (0xffff_0000_0401_bff4, 0xffff_ffff_ffff_fff0, 0x2fff, true),
    (0xffff_0000_0401_bff4, 0xffff_ffff_ffff_fff0, 0x3000, false),
];

#[test]
fn bounds_are_those_of_the_worked_rows(rt: HostRuntime) {
    for (from, len, ie, e, t, b, base, top, exact) in ROUNDED {
        let want = Rounded {
            ie,
            e,
            b,
            t,
            base,
            top,
            exact,
        };
        assert!(rt; set_bounds(from, len) == want, "{from:x}");
    }
    for (len, length, mask) in LENGTHS {
        assert!(rt; (crrl(len), cram(len)) == (length, mask), "{len:x}");
    }
    for (upper, addr, base, top) in DECODED {
        assert!(rt; decode(upper, addr) == (base, top), "{upper:x} {addr:x}");
    }
    for (upper, old, new, kept) in MOVED {
        assert!(rt; representable(upper, old, new) == kept, "{upper:x} {new:x}");
    }
}
