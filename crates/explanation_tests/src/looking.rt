//! Positions of a run, as JSON objects.

use cores::StepFault;
use explained_page::write_look;
use simulation::SimFault;
use sinks::{MemSink, WriteFault};
use std::test::Fail;

/// A tag that is cleared, a copy, a sweep of both, another hart, a trap, and an empty sweep.
const MIXED: &str = ".hart 0x10000000 12 0x10000000 execute\n\
.set c5 cap 0x80000000 16 0x80000000 load\n\
.hart 0x10000000 12 0x10000000 execute\n\
ccleartag c7, c5\ncmove c6, c5\nld c1, 8(c7)\n";

const MIXED_ORDER: &[u8] = b"order 2\n00[0x80000000,0x80000001]10[0,0]";

/// After two steps, with the step of the other hart.
const SECOND: &str = "\
{\"at\":2,\"events\":[{\"hart\":1,\"instruction\":\"ccleartag c7, c5\",\"line\":4,\"nu\
mber\":3,\"outcome\":\"done\",\"pc\":\"0000000010000000\",\"reads\":{\"c5\":{\"tag\":f\
alse,\"word\":\"0000000000000000_0000000000000000\"}},\"sets\":{\"c7\":{\"tag\":false,\
\"word\":\"0000000000000000_0000000000000000\"}}}],\"next\":[6,4],\"state\":{\"harts\"\
:[{\"pcc\":{\"base\":\"0000000010000000\",\"from\":\"0:pcc\",\"perms\":\"00002\",\"tag\
\":true,\"top\":\"0000000001000000c\",\"type\":\"unsealed\",\"word\":\"000200000402800\
4_0000000010000008\"},\"regs\":{\"c5\":{\"base\":\"0000000080000000\",\"from\":\"0:c5\
\",\"perms\":\"00004\",\"tag\":true,\"top\":\"00000000080000010\",\"type\":\"unsealed\
\",\"word\":\"0004000004058004_0000000080000000\"},\"c6\":{\"base\":\"0000000080000000\
\",\"from\":\"0:c5\",\"perms\":\"00004\",\"tag\":true,\"top\":\"00000000080000010\",\"\
type\":\"unsealed\",\"word\":\"0004000004058004_0000000080000000\"},\"c7\":{\"tag\":fa\
lse,\"word\":\"0004000004058004_0000000080000000\"}},\"status\":\"running\"},{\"pcc\":\
{\"base\":\"0000000010000000\",\"from\":\"1:pcc\",\"perms\":\"00002\",\"tag\":true,\"t\
op\":\"0000000001000000c\",\"type\":\"unsealed\",\"word\":\"0002000004028004_000000001\
0000000\"},\"regs\":{},\"status\":\"running\"}],\"mem\":{}}}";

/// After the last operation, with no event.
const END: &str = "\
{\"at\":6,\"events\":[],\"next\":[null,5],\"state\":{\"harts\":[{\"cause\":1,\"pcc\":{\
\"base\":\"0000000010000000\",\"from\":\"0:pcc\",\"perms\":\"00002\",\"tag\":true,\"to\
p\":\"0000000001000000c\",\"type\":\"unsealed\",\"word\":\"0002000004028004_0000000010\
000008\"},\"reg\":7,\"regs\":{\"c5\":{\"tag\":false,\"word\":\"0004000004058004_000000\
0080000000\"},\"c6\":{\"tag\":false,\"word\":\"0004000004058004_0000000080000000\"},\"\
c7\":{\"tag\":false,\"word\":\"0004000004058004_0000000080000000\"}},\"status\":\"trap\
ped\"},{\"pcc\":{\"base\":\"0000000010000000\",\"from\":\"1:pcc\",\"perms\":\"00002\",\
\"tag\":true,\"top\":\"0000000001000000c\",\"type\":\"unsealed\",\"word\":\"0002000004\
028004_0000000010000004\"},\"regs\":{},\"status\":\"running\"}],\"mem\":{}}}";

#[test]
fn positions_are_objects(rt: HostRuntime) -> Result<(), Fail> {
    for (at, first, last, json) in [(2, 3, 3, SECOND), (6, 1, 0, END), (99_999, 1, 0, END)] {
        let mut sink = MemSink::new(rt.alloc(), 0, 65_536);
        let listing = MIXED.as_bytes();
        let result = write_look(rt.alloc(), listing, MIXED_ORDER, at, first, last, &mut sink);
        assert!(rt; result == Ok(None));
        assert!(rt; sink.bytes() == json.as_bytes(), "at {at}");
    }
    let mut sink = MemSink::new(rt.alloc(), 0, 65_536);
    let result = write_look(rt.alloc(), MIXED.as_bytes(), b"02", 9, 1, 0, &mut sink);
    assert!(rt; result == Ok(Some((1, StepFault::NoSuchHart))));
    assert!(rt;
        sink.bytes()
            .starts_with(b"{\"at\":1,\"events\":[],\"next\":[5,4],")
    );
    Ok(())
}

#[test]
fn no_position_is_written_of_refused_texts_nor_more_than_a_sink_takes(
    rt: HostRuntime,
) -> Result<(), Fail> {
    for (listing, order) in [("ecall\n", b"0"), ("nothing\n", b"?"), (MIXED, b"?")] {
        let mut sink = MemSink::new(rt.alloc(), 0, 65_536);
        let result = write_look(rt.alloc(), listing.as_bytes(), order, 0, 0, 9, &mut sink);
        assert!(rt; matches!(result, Err(SimFault::Listing(_) | SimFault::Order(_))));
        assert!(rt; sink.bytes().is_empty());
    }
    for fail_at in 1..6 {
        let mut sink = MemSink::new(rt.alloc(), fail_at, 97);
        let listing = MIXED.as_bytes();
        let result = write_look(rt.alloc(), listing, MIXED_ORDER, 6, 1, 0, &mut sink);
        assert!(rt; result == Err(SimFault::Report(WriteFault::Write)));
        assert!(rt; END.as_bytes().starts_with(sink.bytes()));
        assert!(rt; sink.bytes().len() == 97 * (fail_at as usize - 1));
    }
    Ok(())
}
