//! Buffers of a small region, with the lengths of the test vectors: 4,097 bytes round to 4,104, and
//! begin at a multiple of 8.

use crate::BumpAllocator;
use cap_model::Perms;
use cap_ops::Cap;
use std::test::Fail;

#[test]
fn buffers_lie_side_by_side(rt: HostRuntime) -> Result<(), Fail> {
    let region = Cap::make(0x8000_0001, 4112, 0x8000_0001, Perms::ALL).or(Err("no region"));
    let small = Cap::make(0x8000_0001, 64, 0x8000_0001, Perms::ALL).or(Err("no small region"))?;
    assert!(rt; region.is_err());
    let mut few = BumpAllocator::new(small).ok_or("sealed")?;
    assert!(rt; few.allocate(65).is_none());
    assert_eq!(rt;
        few.allocate(63).ok_or("full")?.bounds(),
        (0x8000_0001, 0x8000_0040)
    );
    assert!(rt; few.allocate(2).is_none());
    assert_eq!(rt;
        few.allocate(1).ok_or("full")?.bounds(),
        (0x8000_0040, 0x8000_0041)
    );
    assert!(rt; BumpAllocator::new(small.clear_tag()).is_none());
    Ok(())
}

#[test]
fn long_buffers_are_aligned(rt: HostRuntime) -> Result<(), Fail> {
    let region = Cap::make(0x8000_0000, 8192, 0x8000_0000, Perms::ALL).or(Err("no region"))?;
    let mut buffers = BumpAllocator::new(region).ok_or("sealed")?;
    assert_eq!(rt;
        buffers.allocate(1).ok_or("full")?.bounds(),
        (0x8000_0000, 0x8000_0001)
    );
    let long = buffers.allocate(4097).ok_or("full")?;
    assert_eq!(rt; long.bounds(), (0x8000_0008, 0x8000_1010));
    assert!(rt; long.tag());
    Ok(())
}
