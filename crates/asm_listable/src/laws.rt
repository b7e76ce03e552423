//! Laws over what an assembled program begins with: the functions do nothing, and their contracts
//! are the laws.

ghost use Rattle.std.specs.Prelude.{◌≡◌, ◌^◌, ◌<◌, ℕ, List, Some, Ok};
ghost use Rattle.std.specs.List.{AllByRecursion};
ghost use Rattle.cap_model.specs.values.CapValue.{CapValue};
ghost use Rattle.canonical.specs.Listable.{IsWritable, IsWritablePcc, IsWritableHart};
ghost use Rattle.asm_capabilities.specs.declared.code.Reach.{Reach};
ghost use Rattle.asm_capabilities.specs.declared.data.DataKind.{DataKind};
ghost use Rattle.asm_capabilities.specs.Capabilities.{
  pcc_at,
  sentry_at,
  data_at,
  table_of,
  stack_at,
};
ghost use Rattle.asm_harts.specs.declared.registers.Registers.{Registers};
ghost use Rattle.asm_harts.specs.declared.hart.HartPlaces.{HartPlaces};
ghost use Rattle.asm_harts.specs.declared.hart.OpenHart.{OpenHart};
ghost use Rattle.asm_harts.specs.Harts.{hart_of};
ghost use Rattle.asm_requests.specs.Words.{WordParts};
ghost use Rattle.asm_starts.specs.Values.{SceneParts};
ghost use Rattle.asm_starts.specs.Starts.{StartParts, start_of};
ghost use Rattle.asm_listable.specs.Asked.{IsAsked};
ghost use Rattle.asm_listable.specs.Plain.{IsPlainCode, IsPlainData};
ghost use Rattle.asm_listable.specs.Places.{AreNumbers, AreWritable, IsSoundScene};

/// Each capability that an assembled program begins with is one that listings can write.
pub fn capabilities_are_writable()
    ensures pcc { (reach : Reach) (addr : ℕ) (v : CapValue) → addr < 2 ^ 64
        → pcc_at reach addr ≡ Ok v → IsWritablePcc v }
    ensures sentry { (reach : Reach) (addr : ℕ) (v : CapValue) → addr < 2 ^ 64
        → sentry_at reach addr ≡ Ok v → IsWritable v }
    ensures symbol { (kind : DataKind) (base length addr : ℕ) (v : CapValue) → base < 2 ^ 64
        → addr < 2 ^ 64 → data_at kind base length addr ≡ Ok v → IsWritable v }
    ensures table { (entries : ℕ) (v : CapValue) → table_of entries ≡ Ok v → IsWritable v }
    ensures stack { (base size : ℕ) (v : CapValue) → base < 2 ^ 64
        → stack_at base size ≡ Ok v → IsWritable v }
{}

/// A hart is one that listings can write, where what its request sets is.
pub fn harts_are_writable()
    ensures { (registers : Registers) (places : HartPlaces) (hart : OpenHart)
        → AreWritable registers → AreNumbers places → hart_of registers places ≡ Ok hart
        → IsWritableHart hart.image }
{}

/// So is a hart that a request sets by its words, whatever they are.
pub fn starts_are_writable()
    ensures { (scene : SceneParts) (number memory_end line : ℕ) (words : List WordParts)
        (start : StartParts) → IsSoundScene scene → number < 2 ^ 8
        → start_of scene number memory_end line words ≡ Ok start
        → IsWritableHart start.hart.image }
{}

/// A register of such a hart holds an integer, the exit, the hart's stack, or the capability that a
/// word of the request sets it to, and nothing else.
pub fn registers_are_asked()
    ensures { (scene : SceneParts) (number memory_end line : ℕ) (words : List WordParts)
        (start : StartParts) (place : ℕ)
        → start_of scene number memory_end line words ≡ Ok start
        → IsAsked scene words start place }
{}

/// No capability that an assembled program begins with unasked has a right to seal or a type that
/// sealing gives; nothing can be written through code, and nothing else can be run.
pub fn capabilities_are_plain()
    ensures pcc { (reach : Reach) (addr : ℕ) (v : CapValue) → pcc_at reach addr ≡ Ok v
        → IsPlainCode v }
    ensures sentry { (reach : Reach) (addr : ℕ) (v : CapValue) → sentry_at reach addr ≡ Ok v
        → IsPlainCode v }
    ensures symbol { (kind : DataKind) (base length addr : ℕ) (v : CapValue)
        → data_at kind base length addr ≡ Ok v → IsPlainData v }
    ensures table { (entries : ℕ) (v : CapValue) → table_of entries ≡ Ok v → IsPlainData v }
    ensures stack { (base size : ℕ) (v : CapValue) → stack_at base size ≡ Ok v → IsPlainData v }
{}
