//! Worked rows on memory.

use cap_ops::Cap;
use cheri_model::Width;
use samples::made;
use std::test::Fail;
use tagged_mem::{MemFault, Ram};

/// Accesses of sixteen bytes of memory, and whether they fit.
const FITTING: [(u64, u64, bool); 5] = [
    (0x8000_0000, 16, true),
    (0x8000_000F, 1, true),
    (0x8000_000F, 2, false),
    (0x8000_0010, 1, false),
    (0xFFFF_FFFF_FFFF_FFFF, 1, false),
];

/// The bytes of a granule are its address, then its upper half, of each the least significant byte
/// first.
const BYTES: [u8; 16] = [0, 0, 0, 0x80, 0, 0, 0, 0, 4, 0x80, 5, 4, 0, 0, 5, 0];

/// Whether every granule is null.
fn is_cleared(ram: &Ram) -> bool {
    for k in 0..ram.granule_count() {
        if ram.granule(k) != Cap::null() {
            return false;
        }
    }
    true
}

#[test]
fn sizes_are_multiples_of_sixteen(rt: HostRuntime) -> Result<(), Fail> {
    assert!(rt; (MemFault::Size.number(), MemFault::NoMemory.number()) == (1, 2));
    for bytes in [0, 8, 24, 1_048_592] {
        let refused = Ram::new(rt.alloc(), bytes).err();
        assert!(rt; refused == Some(MemFault::Size), "{bytes} bytes");
    }
    for bytes in [16, 32, 1_048_576] {
        let ram = Ram::new(rt.alloc(), bytes)?;
        assert!(rt; ram.size() == bytes && is_cleared(&ram), "{bytes} bytes");
    }
    Ok(())
}

/// A store of one byte at offset 9 of a tagged granule clears its tag.
#[test]
fn byte_store_clears_the_tag(rt: HostRuntime) -> Result<(), Fail> {
    let value = made(0x8000_0000, 16, 0x8000_0000, 5).unwrap_or(Cap::null());
    let mut ram = Ram::new(rt.alloc(), 16)?;
    for (addr, bytes, fits) in FITTING {
        assert!(rt; ram.fits(addr, bytes) == fits, "{addr:x}");
    }
    assert!(rt; ram.fits(0x8000_0000, 16));
    ram.store_cap(0x8000_0000, value);
    assert!(rt; ram.bytes() == BYTES.as_slice());
    assert!(rt; ram.fits(0x8000_0000, 16) && ram.load_cap(0x8000_0000) == value);
    assert!(rt; ram.fits(0x8000_0008, 8));
    assert!(rt; ram.load(0x8000_0008, Width::Double) == 0x0005_0000_0405_8004);
    assert!(rt; ram.fits(0x8000_0009, 1));
    ram.store(0x8000_0009, Width::Byte, 0xAA);
    assert!(rt; ram.fits(0x8000_0008, 8));
    assert!(rt; ram.load(0x8000_0008, Width::Double) == 0x0005_0000_0405_AA04);
    let stored = Cap::from_word(0x0005_0000_0405_AA04_0000_0000_8000_0000);
    assert!(rt; ram.fits(0x8000_0000, 16) && ram.load_cap(0x8000_0000) == stored);
    Ok(())
}
