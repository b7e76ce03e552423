//! The limits of an image's sizes, and how its granules are listed, at each limit and past it.

use cheri_model::{Instr, NoMemory, Value};
use samples::image_with;
use std::alloc::Global;
use std::test::Fail;

/// Why a row is there; instructions, bytes of RAM, harts, and whether there is such an image.
const SIZES: [(&str, usize, u32, usize, bool); 10] = [
    ("the least of each", 1, 16, 1, true),
    ("the greatest of each", 16_384, 1_048_576, 8, true),
    ("no instruction", 0, 16, 1, false),
    ("an instruction too many", 16_385, 16, 1, false),
    ("no RAM", 1, 0, 1, false),
    ("half a granule", 1, 8, 1, false),
    ("a granule and a half", 1, 24, 1, false),
    ("a granule too many", 1, 1_048_592, 1, false),
    ("no hart", 1, 16, 0, false),
    ("a hart too many", 1, 16, 9, false),
];

fn untagged(alloc: Global, words: &[(u64, u128)]) -> Result<Vec<(u64, Value)>, NoMemory> {
    let mut granules = Vec::new(alloc);
    for (addr, bits) in words {
        granules.push((*addr, Value::raw(*bits)))?;
    }
    Ok(granules)
}

#[test]
fn images_have_limits(rt: HostRuntime) -> Result<(), Fail> {
    for (why, instructions, ram, harts, is_taken) in SIZES {
        let image = image_with(rt.alloc(), instructions, ram, &[], harts)?;
        assert!(rt; image.is_some() == is_taken, "{why}");
    }
    let rows = [
        ("no granule", [].as_slice(), true),
        (
            "each granule of RAM",
            [(0x8000_0000, 1), (0x8000_0010, 1), (0x8000_0020, 1)].as_slice(),
            true,
        ),
        ("not aligned", [(0x8000_0008, 1)].as_slice(), false),
        ("right below RAM", [(0x7FFF_FFF0, 1)].as_slice(), false),
        ("right above RAM", [(0x8000_0030, 1)].as_slice(), false),
        (
            "the last granule of the address space",
            [(0xFFFF_FFFF_FFFF_FFF0, 1)].as_slice(),
            false,
        ),
        (
            "one granule twice",
            [(0x8000_0010, 1), (0x8000_0010, 1)].as_slice(),
            false,
        ),
        (
            "in falling order",
            [(0x8000_0010, 1), (0x8000_0000, 1)].as_slice(),
            false,
        ),
        (
            "an untagged 0, which is not listed",
            [(0x8000_0010, 0)].as_slice(),
            false,
        ),
    ];
    for (why, words, is_taken) in rows {
        let listed = untagged(rt.alloc(), words)?;
        let image = image_with(rt.alloc(), 1, 48, listed.as_slice(), 1)?;
        assert!(rt; image.is_some() == is_taken, "{why}");
    }
    Ok(())
}

#[test]
fn a_copy_has_the_same_parts(rt: HostRuntime) -> Result<(), Fail> {
    let granules = [(0x8000_0010, Value::raw(1)), (0x8000_0020, Value::raw(2))];
    let image = image_with(rt.alloc(), 3, 48, &granules, 2)?.ok_or("no image")?;
    let copy = image.copy(rt.alloc())?;
    assert_eq!(rt; copy.program(), [Instr::Ecall; 3].as_slice());
    assert_eq!(rt; copy.ram(), 48);
    assert_eq!(rt; copy.granules(), granules.as_slice());
    assert_eq!(rt; copy.harts(), image.harts());
    assert_eq!(rt; copy.harts().len(), 2);
    assert!(rt; copy == image);
    Ok(())
}

#[test]
fn each_part_counts(rt: HostRuntime) -> Result<(), Fail> {
    let granules = [(0x8000_0010, Value::raw(1))];
    let image = image_with(rt.alloc(), 3, 48, &granules, 2)?.ok_or("no image")?;
    let moved = [(0x8000_0000, Value::raw(1))];
    let changed = [(0x8000_0010, Value::raw(2))];
    let rows = [
        ("an instruction less", 2, 48, granules.as_slice(), 2),
        ("a granule less of RAM", 3, 32, granules.as_slice(), 2),
        ("a granule at another place", 3, 48, moved.as_slice(), 2),
        ("a granule of another value", 3, 48, changed.as_slice(), 2),
        ("a hart less", 3, 48, granules.as_slice(), 1),
    ];
    for (why, instructions, ram, listed, harts) in rows {
        let other = image_with(rt.alloc(), instructions, ram, listed, harts)?.ok_or("no image")?;
        assert!(rt; image != other, "{why}");
    }
    Ok(())
}
