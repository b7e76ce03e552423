//! Laws over harts: the functions do nothing, and their contracts are the laws.

ghost use Rattle.std.specs.Prelude.{◌≡◌, ◌+◌, ◌^◌, ◌≤◌, ◌<◌, ℕ, Some, Ok};
ghost use Rattle.asm_capabilities.specs.Capabilities.{stack_alignment};
ghost use Rattle.asm_harts.specs.declared.registers.Registers.{Registers};
ghost use Rattle.asm_harts.specs.declared.hart.HartPlaces.{HartPlaces};
ghost use Rattle.asm_harts.specs.declared.hart.OpenHart.{OpenHart};
ghost use Rattle.asm_harts.specs.declared.hart.Stack.{Stack};
ghost use Rattle.asm_harts.specs.Harts.{hart_of};
ghost use Rattle.asm_harts.specs.Given.{IsGiven};

/// A register of a hart holds what the request sets it to, the stack, the exit or the hart's
/// number, and nothing else.
pub fn registers_are_given()
    ensures { (registers : Registers) (places : HartPlaces) (hart : OpenHart) (place : ℕ)
        → hart_of registers places ≡ Ok hart → IsGiven registers places hart place }
{}

/// A stack begins where memory is not taken, and memory is then taken up to its end. So it overlaps
/// nothing that was there before, and no stack that comes after it.
pub fn stacks_are_apart()
    ensures { (registers : Registers) (places : HartPlaces) (hart : OpenHart) (stack : Stack)
        → hart_of registers places ≡ Ok hart → hart.stack ≡ Some stack
        → places.memory_end + stack_alignment places.stack + places.stack < 2 ^ 64
        → (places.memory_end ≤ stack.base) × (hart.memory_end ≡ stack.base + stack.size)
        × (stack.size ≡ places.stack) }
{}
