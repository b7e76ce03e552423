//! The report of a machine and the explanation of its events, in room of the caller.

ghost use Rattle.std.specs.Prelude.{◌≡◌, Some, length};
ghost use Rattle.cheri_machine.specs.Machines.{core_of, listing_of};
ghost use Rattle.cheri_machine.specs.Texts.{
  IsExplained,
  IsWritten,
  explained_by,
  report_of,
  room_after,
  text_in,
};

use crate::handle::CheriMachine;
use crate::machine::Machine;
use crate::status;
use crate::structs::CheriText;
use cores::Core;
use explanations::{Explanation, Filter, Format, Selection};
use reports::write_report;
use simulation::RunText;
use sinks::MemSink;
use std::alloc::Global;

/// Puts a text into the room, if it fits.
fn put_text(text: &[u8], room: &mut [u8]) -> CheriText
    ensures answer { result ≡ text_in (length room.old) text.now }
    ensures room { room.new ≡ room_after room.old text.now }
{
    let length = text.len() as u64;
    if text.len() > room.len() {
        return CheriText {
            status: status::NO_ROOM,
            length,
        };
    }
    let (first, _) = room.split_at_mut(text.len());
    first.copy_from_slice(text);
    CheriText {
        status: status::DONE,
        length,
    }
}

/// Writes the report of a core.
fn report_core(alloc: Global, core: &Core, room: &mut [u8]) -> CheriText
    ensures { IsWritten report_of (Some core.now) room.old room.new result }
{
    let mut sink = MemSink::new(alloc, 0, usize::MAX);
    match write_report(alloc, core.view(), &mut sink) {
        Ok(()) => put_text(sink.bytes(), room),
        Err(_) => CheriText {
            status: status::NO_MEMORY,
            length: 0,
        },
    }
}

/// Writes the report of what the machine took so far, as `cheri_sim run` prints it, into `room`.
/// Where it is longer than that, `length` says how long it is, and the room is as it was. Leaves
/// the machine as it is.
#[unsafe(no_mangle)]
pub extern "C" fn cheri_machine_report(
    alloc: Global,
    machine: &mut CheriMachine,
    room: &mut [u8],
) -> CheriText
    ensures written { IsWritten report_of (core_of machine.old) room.old room.new result }
    ensures kept { core_of machine.new ≡ core_of machine.old }
    ensures listing { listing_of machine.new ≡ listing_of machine.old }
{
    let Some(owned) = machine.take(alloc) else {
        return CheriText {
            status: status::CLOSED,
            length: 0,
        };
    };
    let answer = report_core(alloc, &owned.core, room);
    machine.put(alloc, owned);
    answer
}

/// Writes the explanation of some of a machine's events.
fn explain_machine(
    alloc: Global,
    machine: &Machine,
    first: u32,
    last: u32,
    room: &mut [u8],
) -> CheriText
    ensures { IsWritten (explained_by machine.now.listing.items first last)
        (Some machine.now.core) room.old room.new result }
{
    let text = Explanation {
        selection: Selection {
            first,
            last,
            filter: Filter::All,
        },
        format: Format::Text,
        sources: None,
    };
    let mut sink = MemSink::new(alloc, 0, usize::MAX);
    match text.write(alloc, machine.listing.as_slice(), &machine.core, &mut sink) {
        Ok(()) => put_text(sink.bytes(), room),
        Err(_) => CheriText {
            status: status::NO_MEMORY,
            length: 0,
        },
    }
}

/// Writes the explanation of the events that are numbered from `first` to `last`, counted from 0,
/// as `cheri_explain` prints it, into `room`: what each read, found, left and set, why it trapped,
/// and why a tag was lost. It takes what the machine took once more. Where the text is longer than
/// the room, `length` says how long it is, and the room is as it was. Leaves the machine as it is.
#[unsafe(no_mangle)]
pub extern "C" fn cheri_machine_explain(
    alloc: Global,
    machine: &mut CheriMachine,
    first: u32,
    last: u32,
    room: &mut [u8],
) -> CheriText
    ensures written { IsExplained first last (listing_of machine.old) (core_of machine.old)
        room.old room.new result }
    ensures kept { core_of machine.new ≡ core_of machine.old }
    ensures listing { listing_of machine.new ≡ listing_of machine.old }
{
    let Some(owned) = machine.take(alloc) else {
        return CheriText {
            status: status::CLOSED,
            length: 0,
        };
    };
    let answer = explain_machine(alloc, &owned, first, last, room);
    machine.put(alloc, owned);
    answer
}
