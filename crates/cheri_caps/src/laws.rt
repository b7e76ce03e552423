//! Laws over the structs: each function does nothing, and its contract is the law.

ghost use Rattle.std.specs.Prelude.{◌≡◌, ℕ, ◌==◌, Option, Some, List, length, true};
ghost use Rattle.cap_model.specs.values.CapValue.{CapValue, IsLawfulValue};
ghost use Rattle.cap_model.specs.values.CapValue.{tag_of};
ghost use Rattle.cap_model.specs.results.Addresses.{
  address_of,
  in_bounds,
  is_open,
  set_address,
  with_address,
};
ghost use Rattle.cap_model.specs.results.CapInstructions.{CapInstruction, capability_result};
ghost use Rattle.cap_model.specs.results.Seals.{unsealed};
ghost use Rattle.cheri_model.specs.steps.Hart.{link};
ghost use Rattle.cheri_model.specs.declared.access.Access.{Access};
ghost use Rattle.cheri_model.specs.steps.Checks.{access_table, fetch_table, first_failing};
ghost use Rattle.cheri_caps.specs.Checks.{
  access_checks,
  code_range,
  fetch_checks,
  link_of,
  ram_range,
};
ghost use Rattle.cheri_caps.specs.Reasons.{why};
ghost use Rattle.cheri_caps.specs.Structs.{value_of, struct_of};

/// A struct that a function gave means the value that it was given for. So calls can be chained.
pub fn structs_mean_their_values()
    ensures { (v : CapValue) → IsLawfulValue v → value_of (struct_of v) ≡ v }
{}

/// The checks of an access are the machine's own, where memory is the machine's RAM.
pub fn access_checks_are_the_machines()
    ensures { (auth : CapValue) (reg addr : ℕ) (kind : Access) (stored : Option CapValue)
        (granules : List CapValue) → access_checks auth reg addr kind stored
        (ram_range (length granules)) ≡ access_table auth reg addr kind stored granules }
{}

/// So is the verdict on a fetch, where code is a program's.
pub fn fetch_checks_are_the_machines()
    ensures { (pcc : CapValue) (count : ℕ) → first_failing (fetch_checks pcc (code_range count))
        ≡ first_failing (fetch_table pcc count) }
{}

/// Where a jump passes its checks, PCC becomes what the machine makes of it. So does what it leaves
/// to come back by, where the fetch had passed its own.
pub fn jumps_are_the_machines()
    ensures target { (v : CapValue) (target : ℕ) → IsLawfulValue (unsealed v) →
        tag_of v ≡ true → in_bounds v target 4 ≡ true → set_address (unsealed v) target
        ≡ with_address (unsealed v) target }
    ensures link { (pcc : CapValue) → IsLawfulValue pcc → is_open pcc ≡ true →
        in_bounds pcc (address_of pcc) 4 ≡ true → link_of pcc ≡ link pcc }
{}

/// An instruction's result has a tag just where there is no reason that it has none.
pub fn tags_are_kept_without_reasons()
    ensures { (instruction : CapInstruction) (v w : CapValue) → IsLawfulValue v →
        (why (Some instruction) v w == 0) ≡ tag_of (capability_result instruction v w) }
{}
