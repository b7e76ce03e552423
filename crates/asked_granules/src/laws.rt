//! Why a condition looks at no other granules, and why quiet steps keep one that looks at shared
//! granules alone.

ghost use Rattle.std.specs.Prelude.{◌≡◌, ℕ, ◌==◌, Bool, true, ◌&&◌};
ghost use Rattle.std.specs.Prelude.{List, [], length, slice_index_or};
ghost use Rattle.asked_granules.specs.AskedGranules.{AreReadShared, condition_reads};
ghost use Rattle.cap_model.specs.values.CapValue.{CapValue};
ghost use Rattle.cheri_model.specs.runs.Image.{ImageParts};
ghost use Rattle.cheri_model.specs.runs.Machine.{MachineState, state_after_step};
ghost use Rattle.cheri_model.specs.steps.Memory.{granule_at};
ghost use Rattle.conditions.specs.Holding.{holds};
ghost use Rattle.conditions.specs.declared.parts.Node.{Node};
ghost use Rattle.explore_sights.specs.Sights.{hides};
ghost use Rattle.explore_sights.specs.declared.sights.Sight.TheVariants as sight;
ghost use Rattle.own_granules.specs.Granules.{granules_of, is_quiet};
ghost use Rattle.own_granules.specs.Turns.{KeepsPassing};

/// A condition holds in a state with another memory just where it holds in the state, if both
/// memories have the same in each granule that it looks at.
pub fn conditions_read()
    ensures { (s : MachineState) (memory : List CapValue) (nodes : List Node) →
        ((granule : ℕ) → condition_reads nodes granule ≡ true →
        granule_at memory granule ≡ granule_at s.memory granule) →
        holds (record s { memory = memory }) nodes ≡ holds s nodes }
{}

/// A quiet step keeps a condition that looks at shared granules alone, where what the question sees
/// is that condition, and memory is of the image's size.
pub fn quiet_steps_keep_conditions()
    ensures steps { (image : ImageParts) (shared : ℕ → Bool) (nodes : List Node) →
        ((granule : ℕ) → condition_reads nodes granule ≡ true → shared granule ≡ true) →
        (s : MachineState) (l : ℕ) → length s.memory ≡ granules_of image →
        is_quiet image [] shared (hides (sight.Condition nodes)) s l ≡ true →
        holds s nodes ≡ true → holds (state_after_step image s l) nodes ≡ true }
    ensures passing { (image : ImageParts) (shared : ℕ → Bool) (nodes : List Node) →
        ((granule : ℕ) → condition_reads nodes granule ≡ true → shared granule ≡ true) →
        KeepsPassing image [] shared (hides (sight.Condition nodes))
        (λ s. length s.memory == granules_of image && holds s nodes) }
    ensures listed { (image : ImageParts) (shared : List Bool) (nodes : List Node) →
        AreReadShared (condition_reads nodes) shared →
        KeepsPassing image [] (λ granule. slice_index_or shared granule true)
        (hides (sight.Condition nodes))
        (λ s. length s.memory == granules_of image && holds s nodes) }
{}
