//! The orders of turns: each step of a turn is one of the order.

ghost use Rattle.std.specs.Prelude.{
  ◌≡◌,
  ◌<◌,
  ◌++◌,
  ℕ,
  length,
  map,
  replicate,
  Some,
  slice_get,
  IfOk,
};
ghost use Rattle.cheri_model.specs.runs.Machine.{opening_state, state_after_one};
ghost use Rattle.cheri_model.specs.runs.Sweeps.{swept_hart};
ghost use Rattle.explore_sights.specs.Sights.{hides};
ghost use Rattle.explore_turns.specs.Orders.{
  AreOfHarts,
  order_of_turns,
  quiet_count,
  quiet_order,
  turns_from,
};
ghost use Rattle.explore_turns.specs.Turns.{resting};

use crate::quiet::{MAX_QUIET_STEPS, quiet_step, rest};
use cheri_model::{Image, Instr, Op};
use cores::Core;
use explore_sights::Sight;
use hart::Hart;
use hart_step::step;
use schedules::SweepRange;
use std::alloc::{AllocError, Global};
use tagged_mem::Ram;

/// How many quiet steps bring a hart to its rest. `ram` is any memory, to work in.
fn quiet_count(
    program: &[Instr],
    sweeps: &[SweepRange],
    sight: &Sight,
    hart: &Hart,
    ram: &mut Ram,
) -> u32
    ensures ram { ram.new ≡ ram.old }
    ensures value { result
        ≡ quiet_count program.now sweeps.now (hides sight.now) MAX_QUIET_STEPS hart.now }
{
    let mut at = *hart;
    for count in 0..MAX_QUIET_STEPS {
        let Some(next) = quiet_step(program, sweeps, sight, &at, ram) else {
            return count;
        };
        at = next;
    }
    match quiet_step(program, sweeps, sight, &at, ram) {
        Some(_) => 0,
        None => MAX_QUIET_STEPS,
    }
}

/// Appends so many steps of a hart.
fn push_steps(order: &mut Vec<Op>, hart: u8, count: u32) -> Result<(), AllocError>
    ensures { IfOk result (λ _. order.new.items
        ≡ order.old.items ++ replicate count (Op.Step hart)) }
{
    for _ in 0..count {
        order.push(Op::Step(hart))?;
    }
    Ok(())
}

/// Brings each hart to its rest, and appends the steps. Memory is only worked in.
fn settle(
    image: &Image,
    sweeps: &[SweepRange],
    sight: &Sight,
    harts: &mut [Hart],
    ram: &mut Ram,
    order: &mut Vec<Op>,
) -> Result<(), AllocError>
    requires { length harts.old ≡ length image.now.harts }
    ensures ram { ram.new ≡ ram.old }
    ensures harts { IfOk result (λ _.
        harts.new ≡ map (resting image.now sweeps.now sight.now) harts.old) }
    ensures order { IfOk result (λ _. order.new.items
        ≡ order.old.items ++ quiet_order image.now sweeps.now sight.now 0 harts.old) }
{
    // Its clause says that there are at most 8 harts.
    let _granules = image.granules();
    for number in 0..harts.len() {
        let hart = harts[number];
        let count = quiet_count(image.program(), sweeps, sight, &hart, ram);
        push_steps(order, number as u8, count)?;
        harts[number] = rest(image.program(), sweeps, sight, &hart, ram);
    }
    Ok(())
}

/// Sweeps each hart.
fn sweep_harts(harts: &mut [Hart], lo: u64, hi: u128)
    ensures { harts.new ≡ map (swept_hart lo hi) harts.old }
{
    for hart in harts.iter_mut() {
        hart.sweep(lo, hi);
    }
}

/// Takes an operation.
fn apply(image: &Image, harts: &mut [Hart], ram: &mut Ram, op: Op)
    requires { (hart : ℕ) → op ≡ Op.Step hart → hart < length harts.old }
    ensures { record { harts = harts.new; memory = ram.new }
        ≡ state_after_one image.now (record { harts = harts.old; memory = ram.old }) op }
{
    match op {
        Op::Step(hart) => {
            step(image.program(), &mut harts[hart as usize], ram);
        }
        Op::Sweep { lo, hi } => {
            sweep_harts(harts, lo, hi);
            ram.sweep(lo, hi);
        }
    }
}

/// The state of a machine.
#[derive(Drop)]
struct Machine {
    harts: Vec<Hart>,
    ram: Ram,
}

/// The machine of an image before its first step.
fn opening_machine(alloc: Global, image: &Image) -> Result<Machine, AllocError>
    ensures { IfOk result (λ machine. opening_state image.now
        ≡ record { harts = machine.harts.items; memory = machine.ram }) }
{
    let image = image.copy(alloc)?;
    let Ok(core) = Core::boot(alloc, image, 1) else {
        return Err(AllocError);
    };
    let view = core.view();
    let Ok(ram) = view.ram.copy(alloc) else {
        return Err(AllocError);
    };
    let harts = Vec::from_slice(alloc, view.harts)?;
    Ok(Machine { harts, ram })
}

/// Takes turns that begin with these operations, and appends each operation and all quiet steps.
fn push_turns(
    image: &Image,
    sweeps: &[SweepRange],
    sight: &Sight,
    ops: &[Op],
    machine: &mut Machine,
    order: &mut Vec<Op>,
) -> Result<(), AllocError>
    requires harts { length machine.old.harts.items ≡ length image.now.harts }
    requires ops { AreOfHarts image.now ops.now }
    ensures { IfOk result (λ _. order.new.items ≡ order.old.items
        ++ turns_from image.now sweeps.now sight.now
        (record { harts = machine.old.harts.items; memory = machine.old.ram }) ops.now) }
{
    for op in ops {
        order.push(*op)?;
        let harts = machine.harts.as_mut_slice();
        apply(image, harts, &mut machine.ram, *op);
        settle(image, sweeps, sight, harts, &mut machine.ram, order)?;
    }
    Ok(())
}

/// The order of turns that begin with these operations, from an image's opening state: each
/// operation, and all quiet steps. Fails only when out of memory.
pub fn order_of_turns(
    alloc: Global,
    image: &Image,
    sweeps: &[SweepRange],
    sight: &Sight,
    ops: &[Op],
) -> Result<Vec<Op>, AllocError>
    requires { AreOfHarts image.now ops.now }
    ensures { IfOk result (λ order.
        order.items ≡ order_of_turns image.now sweeps.now sight.now ops.now) }
{
    let mut machine = opening_machine(alloc, image)?;
    let mut order = Vec::new(alloc);
    let harts = machine.harts.as_mut_slice();
    settle(image, sweeps, sight, harts, &mut machine.ram, &mut order)?;
    push_turns(image, sweeps, sight, ops, &mut machine, &mut order)?;
    Ok(order)
}
