//! A hart before its first step.
#![tactic(auto, unfolding(crate::proofs::Unfold::harts))]

ghost use Rattle.std.specs.Prelude.{◌≡◌, ◌<◌, Ok};
ghost use Rattle.asm_capabilities.specs.Capabilities.{stack_alignment};
ghost use Rattle.asm_harts.specs.Harts.{
  Leaves,
  stack_of,
  end_of,
  with_stack,
  with_exit,
  with_number,
  hart_of,
};

use crate::registers::Registers;
use asm_capabilities::{MakeFault, Reach, stack_alignment, stack_capability};
use asm_layout::next_multiple;
use cheri_model::{HartImage, Reg, Value};

/// Where a stack begins, and how many bytes it has.
#[derive(Clone, Copy, Debug, PartialEq, Eq)]
pub struct Stack {
    pub base: u64,
    pub size: u64,
}

/// Where a hart begins, and what is around it.
#[derive(Clone, Copy)]
pub struct HartPlaces {
    /// What PCC and sentries reach.
    pub reach: Reach,
    /// The address of its first instruction.
    pub entry: u64,
    /// The address of the exit, if the hart is given it.
    pub exit: Option<u64>,
    /// Its number.
    pub number: u8,
    /// The bytes of its stack, 0 for none.
    pub stack: u64,
    /// Where memory ends that is taken.
    pub memory_end: u64,
}

/// What a hart begins with, its stack, if it has one, and where memory then ends that is taken.
#[derive(Clone, Copy, Debug)]
pub struct OpenHart {
    pub image: HartImage,
    pub stack: Option<Stack>,
    pub memory_end: u64,
}

/// The register of stacks.
pub const STACK: u8 = 2;

/// The register of links.
pub const LINK: u8 = 1;

/// The register of the first argument.
pub const ARGUMENT: u8 = 10;

/// What the base of a stack is a multiple of.
#[tactic(auto, unfolding(asm_capabilities::specs::Capabilities::stack_alignment))]
fn stack_unit(size: u64) -> u64
    ensures value { result ≡ stack_alignment size }
    ensures unit { 0 < result }
{
    stack_alignment(size)
}

/// The stack that a hart is given, at the next multiple of its alignment: none where register 2 is
/// set.
fn stack_of(registers: &Registers, places: HartPlaces) -> Option<Stack>
    ensures { result ≡ stack_of registers.now places }
{
    if places.stack == 0 || registers.is_set(Reg::new(STACK)) {
        return None;
    }
    Some(Stack {
        base: next_multiple(places.memory_end, stack_unit(places.stack)),
        size: places.stack,
    })
}

/// Where memory ends that is taken, with a stack.
fn end_of(stack: Option<Stack>, memory_end: u64) -> u64
    ensures { result ≡ end_of stack memory_end }
{
    match stack {
        Some(stack) => stack.base.wrapping_add(stack.size),
        None => memory_end,
    }
}

/// Gives the registers a stack.
fn put_stack(registers: &mut Registers, stack: Option<Stack>) -> Result<(), MakeFault>
    ensures { Leaves result registers.new (with_stack registers.old stack) }
{
    let Some(stack) = stack else {
        return Ok(());
    };
    let value = stack_capability(stack.base, stack.size)?;
    registers.set(Reg::new(STACK), value.value());
    Ok(())
}

/// Gives the registers the exit, unless the link is set.
fn put_exit(registers: &mut Registers, reach: Reach, exit: Option<u64>) -> Result<(), MakeFault>
    ensures { Leaves result registers.new (with_exit registers.old reach exit) }
{
    let Some(addr) = exit else {
        return Ok(());
    };
    let sentry = reach.sentry(addr)?;
    registers.set_if_free(Reg::new(LINK), sentry.value());
    Ok(())
}

/// Gives the registers the hart's number, unless the first argument is set.
fn put_number(registers: &mut Registers, number: u8)
    ensures { registers.new ≡ with_number registers.old number }
{
    registers.set_if_free(Reg::new(ARGUMENT), Value::raw(u128::from(number)));
}

/// A hart with these registers at these places. Fails where PCC, the stack or the exit has no
/// capability.
pub fn open_hart(registers: &Registers, places: HartPlaces) -> Result<OpenHart, MakeFault>
    ensures { result ≡ hart_of registers.now places }
{
    let pcc = places.reach.pcc(places.entry)?;
    let stack = stack_of(registers, places);
    let mut given = *registers;
    put_stack(&mut given, stack)?;
    put_exit(&mut given, places.reach, places.exit)?;
    put_number(&mut given, places.number);
    Ok(OpenHart {
        image: HartImage {
            pcc: pcc.value(),
            regs: given.values,
        },
        stack,
        memory_end: end_of(stack, places.memory_end),
    })
}
