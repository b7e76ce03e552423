//! Reports on sinks that fail at each put in turn, on a writer that takes little, and how long the
//! pieces are that a report is put in.

use super::expected::WORDS_JSON;
use super::{INVOKE, MEMORY, four_steps, sealed, shown, step, three_harts};
use crate::common::{Form, ZERO, booted, put, ran};
use cheri_model::{Outcome, Reg, Status};
use hart_step::{Hart, View};
use machine::Core;
use reports::{MemSink, ReportFault, Sink, SinkFailed, ToWrite, write_report};
use samples::{FIRST, FIRST_REPORT, hart_at};
use std::alloc::Global;
use std::io::{self, ErrorKind, Write};
use std::process::Abort;

/// Whether each put that fails, in turn, leaves what was taken before it, on a sink that takes so
/// many bytes at a time, until none fails.
fn fails_in_turn(alloc: Global, view: View<'_>, form: Form, most: usize, text: &[u8]) -> bool {
    for failing in 0..5_000u32 {
        let mut sink = MemSink::new(alloc, failing + 1, most.max(1));
        let result = put(alloc, view, form, &mut sink);
        if result == Ok(()) {
            return sink.bytes() == text && failing as usize == text.len().div_ceil(most.max(1));
        }
        let taken = most.saturating_mul(failing as usize);
        if result != Err(ReportFault::Write) || sink.bytes().len() != taken {
            return false;
        }
        if !text.starts_with(sink.bytes()) {
            return false;
        }
    }
    false
}

#[test]
fn each_put_fails_in_turn(rt: HostRuntime) {
    let (steps, harts) = (four_steps(), three_harts(&rt));
    let core = booted(&rt, rt.alloc(), MEMORY, 1);
    let (first, _) = ran(&rt, rt.alloc(), FIRST.as_bytes(), &[ZERO; 4], 100);
    let rows = [
        (first.view(), Form::Text, FIRST_REPORT),
        (
            shown(&core, &steps, &harts),
            Form::Json,
            WORDS_JSON.as_bytes(),
        ),
    ];
    for (view, form, text) in rows {
        for most in [7, 1] {
            assert!(rt; fails_in_turn(rt.alloc(), view, form, most, text));
        }
    }
}

/// A writer that takes at most so many bytes at a time, of a text that it knows, and cannot flush.
#[derive(Drop)]
struct SlowWriter<'a> {
    rest: &'a [u8],
    is_other: bool,
    most: usize,
}

impl Write for SlowWriter<'_> {
    fn write(&mut self, piece: &[u8]) -> io::Result<usize> {
        let taken = piece.len().min(self.most);
        match self.rest.strip_prefix(&piece[..taken]) {
            Some(rest) => self.rest = rest,
            None => self.is_other = true,
        }
        Ok(taken)
    }

    fn flush(&mut self) -> io::Result<()> {
        Err(io::Error::from(ErrorKind::BrokenPipe))
    }
}

/// Whether the first report is written to a writer that takes so many bytes at a time, and how many
/// bytes it then lacks.
fn trickled(rt: &impl Abort, alloc: Global, view: View<'_>, most: usize) -> (bool, usize) {
    let mut writer = SlowWriter {
        rest: FIRST_REPORT,
        is_other: false,
        most,
    };
    let mut sink = ToWrite::new(&mut writer);
    let written = write_report(alloc, view, &mut sink);
    assert!(rt; sink.flush() == Err(SinkFailed));
    assert!(rt; sink.put(b"") == Ok(0));
    let _ = sink.into_writer();
    assert!(rt; !writer.is_other);
    (written.is_ok(), writer.rest.len())
}

#[test]
fn writers_take_little_or_nothing(rt: HostRuntime) {
    let (core, _) = ran(&rt, rt.alloc(), FIRST.as_bytes(), &[ZERO; 4], 100);
    assert!(rt; trickled(&rt, rt.alloc(), core.view(), 1) == (true, 0));
    assert!(rt; trickled(&rt, rt.alloc(), core.view(), 0) == (false, FIRST_REPORT.len()));
}

/// A sink that takes every piece whole, and keeps the length of the longest and of all together.
#[derive(Drop)]
struct PieceLengths {
    longest: usize,
    all: usize,
}

impl Sink for PieceLengths {
    ghost failures = { λ _. 0 };

    fn put(&mut self, piece: &[u8]) -> Result<usize, SinkFailed> {
        self.longest = self.longest.max(piece.len());
        self.all = self.all.saturating_add(piece.len());
        Ok(piece.len())
    }
}

/// A hart with the longest lines.
fn long_hart(rt: &impl Abort) -> Hart {
    let value = sealed(rt, 262_139);
    let mut hart = hart_at(value);
    for number in 1..32 {
        hart.put(Reg::new(number), value);
    }
    hart.set_status(Status::Trapped(INVOKE));
    hart
}

/// Eight harts, 16 bytes of memory and one instruction.
const EIGHT_HARTS: &[u8] = b".ram 16\n\
.hart 0 16 0 none\n.hart 0 16 0 none\n.hart 0 16 0 none\n.hart 0 16 0 none\n\
.hart 0 16 0 none\n.hart 0 16 0 none\n.hart 0 16 0 none\n.hart 0 16 0 none\necall\n";

/// Whether a report of eight such harts after this many steps is put in pieces of at most 64 KiB,
/// and in more than one.
fn is_put_in_pieces(rt: &impl Abort, alloc: Global, core: &Core, steps: usize) -> bool {
    let event = step(0, 0x1000_0000, Outcome::Done);
    let harts = [long_hart(rt); 8];
    let entries = vec![in alloc; event; steps].expect(rt, "there is memory");
    let mut sink = PieceLengths { longest: 0, all: 0 };
    let view = shown(core, entries.as_slice(), &harts);
    let written = write_report(alloc, view, &mut sink);
    written.is_ok() && sink.longest <= 65_536 && sink.all > 65_536
}

/// With 1,688 steps the lines of the harts begin where almost a piece is kept.
#[test]
fn report_is_put_in_pieces_of_at_most_64_kib(rt: HostRuntime) {
    let core = booted(&rt, rt.alloc(), EIGHT_HARTS, 1);
    for steps in [1_688, 3_000] {
        assert!(rt;
            is_put_in_pieces(&rt, rt.alloc(), &core, steps),
            "{steps} steps"
        );
    }
}
