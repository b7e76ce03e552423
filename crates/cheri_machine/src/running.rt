//! Operations: steps and sweeps.

ghost use Rattle.std.specs.Prelude.{◌≡◌, ◌+◌, ◌*◌, ◌^◌, option_map};
ghost use Rattle.cores.specs.Cores.{applied};
ghost use Rattle.cheri_machine.specs.Machines.{core_of, listing_of, taken_by};

use crate::answers::{no_event, taken};
use crate::handle::CheriMachine;
use crate::status;
use crate::structs::CheriEvent;
use cheri_model::Op;
use std::alloc::Global;

/// One operation of the machine that a handle has.
fn take_operation(alloc: Global, machine: &mut CheriMachine, op: Op) -> CheriEvent
    ensures answered { result ≡ taken_by (core_of machine.old) op }
    ensures applied { core_of machine.new
        ≡ option_map (λ core. applied core op) (core_of machine.old) }
    ensures listing { listing_of machine.new ≡ listing_of machine.old }
{
    let Some(mut owned) = machine.take(alloc) else {
        return no_event(status::CLOSED);
    };
    let answer = owned.core.apply(op);
    machine.put(alloc, owned);
    taken(answer)
}

/// One step of this hart. It answers the event that the trace grows by; a refused one changes
/// nothing. Takes no memory.
#[unsafe(no_mangle)]
pub extern "C" fn cheri_machine_step(
    alloc: Global,
    machine: &mut CheriMachine,
    hart: u8,
) -> CheriEvent
    ensures answered { result ≡ taken_by (core_of machine.old) (Op.Step hart) }
    ensures applied { core_of machine.new
        ≡ option_map (λ core. applied core (Op.Step hart)) (core_of machine.old) }
    ensures listing { listing_of machine.new ≡ listing_of machine.old }
{
    take_operation(alloc, machine, Op::Step(hart))
}

/// Clears the tag of every capability whose base lies from `lo` up to, not including, `hi +
/// hi_high * 2^64`: in the registers and PCCs of all harts, stopped ones too, and in memory. It
/// answers the event that the trace grows by; a refused one changes nothing. Takes no memory.
#[unsafe(no_mangle)]
pub extern "C" fn cheri_machine_sweep(
    alloc: Global,
    machine: &mut CheriMachine,
    lo: u64,
    hi: u64,
    hi_high: u64,
) -> CheriEvent
    ensures answered { result
        ≡ taken_by (core_of machine.old) (Op.Sweep lo (hi_high * 2 ^ 64 + hi)) }
    ensures applied { core_of machine.new ≡ option_map
        (λ core. applied core (Op.Sweep lo (hi_high * 2 ^ 64 + hi))) (core_of machine.old) }
    ensures listing { listing_of machine.new ≡ listing_of machine.old }
{
    let hi = u128::from(hi_high) * 0x1_0000_0000_0000_0000 + u128::from(hi);
    take_operation(alloc, machine, Op::Sweep { lo, hi })
}
