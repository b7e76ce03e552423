//! What is read of a machine. Each call leaves it as it is, and takes no memory.

ghost use Rattle.std.specs.Prelude.{◌≡◌, ◌<◌, Some, length};
ghost use Rattle.cheri_model.specs.runs.Machine.{hart_at};
ghost use Rattle.cores.specs.Cores.{CoreParts};
ghost use Rattle.cheri_machine.specs.Machines.{
  core_of,
  event_in,
  granule_in,
  hart_told,
  listing_of,
  pcc_in,
  register_in,
  sizes_of,
};

use crate::answers::{event_struct, hart_struct, no_event, no_hart, no_value, value_struct};
use crate::handle::CheriMachine;
use crate::status;
use crate::structs::{CheriEvent, CheriHart, CheriSizes, CheriValue};
use cheri_model::Reg;
use cores::Core;
use hart::{Hart, hart_in};
use std::alloc::Global;

/// How many harts a core has.
fn hart_count(core: &Core) -> usize
    ensures { result ≡ length core.now.state.harts }
{
    core.view().harts.len()
}

/// A hart of a core.
fn hart_of(core: &Core, number: u8) -> &Hart
    requires { number < length core.now.state.harts }
    ensures { result.now ≡ hart_at core.now.state number }
{
    let view = core.view();
    hart_in(view.harts, usize::from(number))
}

/// A register of a core.
fn register_of(core: &Core, hart: u8, reg: u8) -> CheriValue
    ensures { result ≡ register_in (Some core.now) hart reg }
{
    if usize::from(hart) >= hart_count(core) {
        return no_value(status::NO_SUCH_HART);
    }
    if reg >= 32 {
        return no_value(status::NO_SUCH_REGISTER);
    }
    value_struct(hart_of(core, hart).register(Reg::new(reg)))
}

/// PCC of a hart of a core.
fn pcc_of(core: &Core, hart: u8) -> CheriValue
    ensures { result ≡ pcc_in (Some core.now) hart }
{
    if usize::from(hart) >= hart_count(core) {
        return no_value(status::NO_SUCH_HART);
    }
    value_struct(hart_of(core, hart).pcc())
}

/// Whether a hart of a core runs.
fn status_of(core: &Core, hart: u8) -> CheriHart
    ensures { result ≡ hart_told (Some core.now) hart }
{
    if usize::from(hart) >= hart_count(core) {
        return no_hart(status::NO_SUCH_HART);
    }
    hart_struct(hart_of(core, hart).status())
}

/// A granule of a core.
fn granule_of(core: &Core, number: u32) -> CheriValue
    ensures { result ≡ granule_in (Some core.now) number }
{
    let ram = core.view().ram;
    if number as usize >= ram.granule_count() {
        return no_value(status::NO_SUCH_GRANULE);
    }
    value_struct(ram.granule(number as usize))
}

/// An event of a core.
fn event_of(core: &Core, number: u32) -> CheriEvent
    ensures { result ≡ event_in (Some core.now) number }
{
    match core.view().entries.get(number as usize) {
        Some(event) => event_struct(*event),
        None => no_event(status::NO_SUCH_EVENT),
    }
}

/// How much a core has.
fn sizes_of(core: &Core) -> CheriSizes
    ensures { result ≡ sizes_of (Some core.now) }
{
    let view = core.view();
    CheriSizes {
        status: status::DONE,
        limit: core.limit(),
        harts: hart_count(core) as u64,
        granules: view.ram.granule_count() as u64,
        events: view.entries.len() as u64,
    }
}

/// A register of a hart.
#[unsafe(no_mangle)]
pub extern "C" fn cheri_machine_register(
    alloc: Global,
    machine: &mut CheriMachine,
    hart: u8,
    reg: u8,
) -> CheriValue
    ensures value { result ≡ register_in (core_of machine.old) hart reg }
    ensures kept { core_of machine.new ≡ core_of machine.old }
    ensures listing { listing_of machine.new ≡ listing_of machine.old }
{
    let Some(owned) = machine.take(alloc) else {
        return no_value(status::CLOSED);
    };
    let answer = register_of(&owned.core, hart, reg);
    machine.put(alloc, owned);
    answer
}

/// PCC of a hart.
#[unsafe(no_mangle)]
pub extern "C" fn cheri_machine_pcc(
    alloc: Global,
    machine: &mut CheriMachine,
    hart: u8,
) -> CheriValue
    ensures value { result ≡ pcc_in (core_of machine.old) hart }
    ensures kept { core_of machine.new ≡ core_of machine.old }
    ensures listing { listing_of machine.new ≡ listing_of machine.old }
{
    let Some(owned) = machine.take(alloc) else {
        return no_value(status::CLOSED);
    };
    let answer = pcc_of(&owned.core, hart);
    machine.put(alloc, owned);
    answer
}

/// Whether a hart runs.
#[unsafe(no_mangle)]
pub extern "C" fn cheri_machine_hart(
    alloc: Global,
    machine: &mut CheriMachine,
    hart: u8,
) -> CheriHart
    ensures value { result ≡ hart_told (core_of machine.old) hart }
    ensures kept { core_of machine.new ≡ core_of machine.old }
    ensures listing { listing_of machine.new ≡ listing_of machine.old }
{
    let Some(owned) = machine.take(alloc) else {
        return no_hart(status::CLOSED);
    };
    let answer = status_of(&owned.core, hart);
    machine.put(alloc, owned);
    answer
}

/// A granule of memory and its tag, by its number: granule k has the 16 bytes from 0x8000_0000 +
/// 16 * k on.
#[unsafe(no_mangle)]
pub extern "C" fn cheri_machine_granule(
    alloc: Global,
    machine: &mut CheriMachine,
    number: u32,
) -> CheriValue
    ensures value { result ≡ granule_in (core_of machine.old) number }
    ensures kept { core_of machine.new ≡ core_of machine.old }
    ensures listing { listing_of machine.new ≡ listing_of machine.old }
{
    let Some(owned) = machine.take(alloc) else {
        return no_value(status::CLOSED);
    };
    let answer = granule_of(&owned.core, number);
    machine.put(alloc, owned);
    answer
}

/// An event of the trace, by its number from 0 on.
#[unsafe(no_mangle)]
pub extern "C" fn cheri_machine_event(
    alloc: Global,
    machine: &mut CheriMachine,
    number: u32,
) -> CheriEvent
    ensures event { result ≡ event_in (core_of machine.old) number }
    ensures kept { core_of machine.new ≡ core_of machine.old }
    ensures listing { listing_of machine.new ≡ listing_of machine.old }
{
    let Some(owned) = machine.take(alloc) else {
        return no_event(status::CLOSED);
    };
    let answer = event_of(&owned.core, number);
    machine.put(alloc, owned);
    answer
}

/// How much the machine has: harts, granules and events, and the limit of its trace.
#[unsafe(no_mangle)]
pub extern "C" fn cheri_machine_sizes(alloc: Global, machine: &mut CheriMachine) -> CheriSizes
    ensures sizes { result ≡ sizes_of (core_of machine.old) }
    ensures kept { core_of machine.new ≡ core_of machine.old }
    ensures listing { listing_of machine.new ≡ listing_of machine.old }
{
    let Some(owned) = machine.take(alloc) else {
        return CheriSizes {
            status: status::CLOSED,
            limit: 0,
            harts: 0,
            granules: 0,
            events: 0,
        };
    };
    let answer = sizes_of(&owned.core);
    machine.put(alloc, owned);
    answer
}
