//! The laws of sweeps: what one clears, that it leaves nothing in its range, and that what no
//! capability reaches is reached by none later.

ghost use Rattle.std.specs.Prelude.{◌≡◌, ℕ, ◌<◌, ◌≤◌, List, false};
ghost use Rattle.cheri_model.specs.declared.operation.Op.{Op};
ghost use Rattle.cap_model.specs.values.Capability.{Capability, word_of};
ghost use Rattle.cap_model.specs.values.CapValue.{CapValue, valid, raw};
ghost use Rattle.cheri_model.specs.runs.Image.{ImageParts};
ghost use Rattle.cap_model.specs.results.Swept.{is_in_sweep, swept};
ghost use Rattle.cheri_model.specs.runs.Sweeps.{reaches};
ghost use Rattle.cheri_model.specs.runs.Machine.{MachineState, swept_state};
ghost use Rattle.cheri_model.specs.runs.Replay.{state_after};
ghost use Rattle.cheri_model.specs.runs.Authority.{EachOfState, IsLawfulState};

/// A sweep replaces a capability whose base lies in its range by its word without a tag, and no
/// other value.
pub fn sweeps_clear_their_range()
    ensures cleared { (lo hi : ℕ) (c : Capability) → lo ≤ c.base → c.base < hi →
        swept lo hi (valid c) ≡ raw (word_of c) }
    ensures below { (lo hi : ℕ) (c : Capability) → c.base < lo → swept lo hi (valid c) ≡ valid c }
    ensures above { (lo hi : ℕ) (c : Capability) → hi ≤ c.base → swept lo hi (valid c) ≡ valid c }
    ensures untagged { (lo hi word : ℕ) → swept lo hi (raw word) ≡ raw word }
{}

/// Right after a sweep no register, PCC or granule holds a tagged capability whose base lies in its
/// range.
pub fn sweeps_leave_nothing()
    ensures { (lo hi : ℕ) (state : MachineState)
        → EachOfState (λ v. is_in_sweep lo hi v ≡ false) (swept_state lo hi state) }
{}

/// An address that no tagged capability's bounds hold is held by none after any further operations:
/// what was swept stays out of reach where no wider capability reaches it.
pub fn unreached_addresses_stay_unreached()
    ensures { (image : ImageParts) (state : MachineState) (order : List Op) (address : ℕ)
        → IsLawfulState state
        → EachOfState (λ v. reaches v address ≡ false) state
        → EachOfState (λ v. reaches v address ≡ false) (state_after image state order) }
{}
