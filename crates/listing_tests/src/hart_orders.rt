//! Worked rows of orders: those that are read, with their operations, and those that are refused.

use cheri_model::Op;
use orders::{judge_order, read_order};
use std::alloc::Global;
use std::test::Fail;

/// The operations of an order, or the line that reports its fault.
fn answer(alloc: Global, text: &[u8]) -> Result<String, Fail> {
    match read_order(alloc, text) {
        Ok(order) => Ok(format!(in alloc; "{:?}", order.as_slice())?),
        Err(fault) => Ok(format!(in alloc; "{fault}")?),
    }
}

#[test]
fn orders_and_their_faults(rt: HostRuntime) -> Result<(), Fail> {
    for (text, want) in [
        (b"".as_slice(), "[]"),
        (b"0 1\n27\n", "[Step(0), Step(1), Step(2), Step(7)]"),
        (b"0x", "order byte 1: 1 Byte"),
        (b"order 2", "order byte 0: 1 Byte"),
        (
            b"order 2\n00[0x80000000,0x80000001]0",
            "[Step(0), Step(0), Sweep { lo: 2147483648, hi: 2147483649 }, Step(0)]",
        ),
        (
            b"order 2\n[0x10000000,0x10000001]0",
            "[Sweep { lo: 268435456, hi: 268435457 }, Step(0)]",
        ),
        (
            b"order 2\n[0,18446744073709551616]",
            "[Sweep { lo: 0, hi: 18446744073709551616 }]",
        ),
        (b"order 2\n[0,0x10000000000000001]", "order byte 8: 4 Range"),
        (b"order 2\n[2,1]", "order byte 8: 4 Range"),
        (b"order 2\n0[1,", "order byte 12: 1 Byte"),
        (b"order 2\n8", "order byte 8: 1 Byte"),
    ] {
        let got = answer(rt.alloc(), text)?;
        assert_eq!(rt; got.as_str(), want);
    }
    Ok(())
}

/// The operations of a judged order come one by one, past its blanks, and then none.
#[test]
fn judged_orders_are_read_one_by_one(rt: HostRuntime) -> Result<(), Fail> {
    let mut order = judge_order(b"order 2\n 3\n[1,0x2] 0 \n")
        .ok()
        .ok_or("a good order")?;
    for want in [Op::Step(3), Op::Sweep { lo: 1, hi: 2 }, Op::Step(0)] {
        assert!(rt; order.next() == Some(want));
    }
    assert!(rt; order.next() == None);
    assert!(rt; order.next() == None);
    Ok(())
}

#[test]
fn the_longest_order(rt: HostRuntime) -> Result<(), Fail> {
    let alloc = rt.alloc();
    let mut text = vec![in alloc; b'0'; 100_000]?;
    assert_eq!(rt; read_order(alloc, text.as_slice())?.len(), 100_000);
    text.push(b'0')?;
    assert_eq!(rt;
        answer(alloc, text.as_slice())?.as_str(),
        "order byte 0: 2 Size"
    );
    text.push(b'x')?;
    assert_eq!(rt;
        answer(alloc, text.as_slice())?.as_str(),
        "order byte 100001: 1 Byte"
    );
    Ok(())
}
