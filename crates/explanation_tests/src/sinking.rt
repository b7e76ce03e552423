//! Explanations on sinks that take little and fail, and of texts that are refused.

use cores::StepFault;
use explanations::{Filter, Format, Selection, explain};
use samples::FIRST;
use simulation::SimFault;
use sinks::{MemSink, WriteFault};
use std::alloc::Global;
use std::process::Abort;
use std::test::Fail;

/// Every event.
pub(crate) const ALL: Selection = Selection {
    first: 0,
    last: 99_999,
    filter: Filter::All,
};

/// What is said of hart 0 of the first worked run.
const FIRST_TEXT: &str = "\
cheri-sim explanation 1
image harts=2 ram=4096 code=4
entries 4
0 hart=0 pc=0000000010000000 done | line 5: addi c6, c0, 100
  reads c0 0 0000000000000000_0000000000000000
  sets c6 0 0000000000000000_0000000000000064
1 hart=0 pc=0000000010000004 done | line 6: csetbounds c7, c5, c6
  reads c5 1 000c000000018004_0000000080000000 0000000080000000 00000000080001000 0000c unsealed \
from 0:c5
  reads c6 0 0000000000000000_0000000000000064
  sets c7 1 000c000004188004_0000000080000000 0000000080000000 00000000080000064 0000c unsealed \
from 0:c5
2 hart=0 pc=0000000010000008 done | line 7: cgetlen c8, c7
  reads c7 1 000c000004188004_0000000080000000 0000000080000000 00000000080000064 0000c unsealed \
from 0:c5
  sets c8 0 0000000000000000_0000000000000064
3 hart=0 pc=000000001000000c halt | line 8: ecall
end
";

/// Lets each put fail in turn on a sink that takes so many bytes at a time: what it took is a
/// prefix of the text.
fn fail_at_each_put(rt: &impl Abort, alloc: Global, most: usize) -> Result<(), Fail> {
    let text = FIRST_TEXT.as_bytes();
    for fail_at in 1..5_000 {
        let mut sink = MemSink::new(alloc, fail_at, most.max(1));
        let result = explain(
            alloc,
            FIRST.as_bytes(),
            b"0000",
            ALL,
            Format::Text,
            &mut sink,
        );
        if result == Ok(None) {
            assert!(rt; sink.bytes() == text);
            assert!(rt; fail_at as usize == 1 + text.len().div_ceil(most.max(1)));
            return Ok(());
        }
        assert!(rt; result == Err(SimFault::Report(WriteFault::Write)));
        assert!(rt; text.starts_with(sink.bytes()));
        assert!(rt; sink.bytes().len() == most.saturating_mul(fail_at as usize - 1));
    }
    assert!(rt; false, "the text is never written");
    Ok(())
}

#[test]
fn each_put_fails_in_turn(rt: HostRuntime) -> Result<(), Fail> {
    fail_at_each_put(&rt, rt.alloc(), 97)?;
    fail_at_each_put(&rt, rt.alloc(), 1)
}

#[test]
fn nothing_is_written_of_refused_texts_and_a_refused_step_is_answered(
    rt: HostRuntime,
) -> Result<(), Fail> {
    for (listing, order) in [("ecall\n", b"0"), ("nothing\n", b"?"), (FIRST, b"?")] {
        let mut sink = MemSink::new(rt.alloc(), 0, 65_536);
        let listing = listing.as_bytes();
        let result = explain(rt.alloc(), listing, order, ALL, Format::Json, &mut sink);
        assert!(rt; matches!(result, Err(SimFault::Listing(_) | SimFault::Order(_))));
        assert!(rt; sink.bytes().is_empty());
    }
    let mut sink = MemSink::new(rt.alloc(), 0, 65_536);
    let result = explain(
        rt.alloc(),
        FIRST.as_bytes(),
        b"02",
        ALL,
        Format::Json,
        &mut sink,
    );
    assert!(rt; result == Ok(Some((1, StepFault::NoSuchHart))));
    assert!(rt; sink.bytes().starts_with(b"{\"entries\":1,\"events\":[{"));
    Ok(())
}
