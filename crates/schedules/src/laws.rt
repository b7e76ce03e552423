//! The laws of walks: they are the legal orders, each label being an operation.

ghost use Rattle.std.specs.Prelude.{◌≡◌, ℕ, ◌+◌, ◌≤◌, List, length, None, true, ◌↔◌};
ghost use Rattle.cheri_model.specs.declared.operation.Op.{Op};
ghost use Rattle.cheri_model.specs.runs.Image.{ImageParts};
ghost use Rattle.cheri_model.specs.runs.Machine.{MachineState, opening_state};
ghost use Rattle.cheri_model.specs.runs.Replay.{is_legal, state_after, replayed_state};
ghost use Rattle.graph_search.specs.Walks.{IsWalk, IsReachable};
ghost use Rattle.schedules.specs.declared.ranges.SweepRange.{SweepRange};
ghost use Rattle.schedules.specs.Schedules.{next, label_count, AreLabelsOf, AreAllowed};

/// A walk is a legal order: labels lead from a state to another exactly where they are those of
/// operations that are legal there and leave the other.
pub fn walks_are_legal_orders()
    ensures legal { (image : ImageParts) (sweeps : List SweepRange) (s t : MachineState)
        (labels : List ℕ) → IsWalk (next image sweeps) s labels t
        → (order : List Op) × AreLabelsOf image sweeps labels order
        × (is_legal image s order ≡ true) × (state_after image s order ≡ t) }
    ensures walk { (image : ImageParts) (sweeps : List SweepRange) (s : MachineState)
        (labels : List ℕ) (order : List Op) → AreLabelsOf image sweeps labels order
        → is_legal image s order ≡ true
        → IsWalk (next image sweeps) s labels (state_after image s order) }
{}

/// Every legal order of steps and of these sweeps has labels, where the state has the image's
/// harts.
pub fn legal_orders_have_labels()
    ensures { (image : ImageParts) (sweeps : List SweepRange) (s : MachineState) (order : List Op)
        → length s.harts ≡ length image.harts → AreAllowed sweeps order
        → is_legal image s order ≡ true
        → (labels : List ℕ) × AreLabelsOf image sweeps labels order }
{}

/// The states that walks reach from the opening state are those that replays of legal orders leave.
pub fn reachable_states_are_replayed()
    ensures replayed { (image : ImageParts) (sweeps : List SweepRange) (t : MachineState)
        → IsReachable (next image sweeps) (opening_state image) t
        → (order : List Op) × AreAllowed sweeps order
        × (is_legal image (opening_state image) order ≡ true)
        × (replayed_state image order ≡ t) }
    ensures reached { (image : ImageParts) (sweeps : List SweepRange) (order : List Op)
        → AreAllowed sweeps order → is_legal image (opening_state image) order ≡ true
        → IsReachable (next image sweeps) (opening_state image) (replayed_state image order) }
{}

/// There is no edge of a label past the harts and the sweeps.
pub fn labels_are_harts_and_sweeps()
    ensures { (image : ImageParts) (sweeps : List SweepRange) (s : MachineState) (label : ℕ)
        → label_count image sweeps ≤ label → next image sweeps s label ≡ None }
{}
