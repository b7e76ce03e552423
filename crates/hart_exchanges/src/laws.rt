//! What equal harts may be told of one another: each order is one for either of them.

ghost use Rattle.std.specs.Prelude.{◌≡◌, ℕ, ◌<◌, List, length, true};
ghost use Rattle.cheri_model.specs.declared.operation.Op.{Op};
ghost use Rattle.cheri_model.specs.runs.Image.{ImageParts};
ghost use Rattle.cheri_model.specs.runs.Machine.{MachineState, hart_at, opening_state};
ghost use Rattle.cheri_model.specs.runs.Replay.{is_legal, replayed_state};
ghost use Rattle.cheri_model.specs.steps.Hart.{HartState};
ghost use Rattle.explore_rights.specs.Held.{Holds, held_by};
ghost use Rattle.explore_rights.specs.declared.rights.Rights.{Rights};
ghost use Rattle.explore_sights.specs.Sights.{hides};
ghost use Rattle.explore_sights.specs.declared.sights.Sight.{Sight};
ghost use Rattle.forgotten_runs.specs.ForgottenRuns.{forgotten_state};
ghost use Rattle.forgotten_turns.specs.ForgottenTurns.{HidesForgotten};
ghost use Rattle.hart_exchanges.specs.Exchanges.{
  AreEqual,
  AreExchanged,
  exchanged_order,
  stands_for,
};
ghost use Rattle.hart_regrouping.specs.Regrouping.{IsRegrouping};
ghost use Rattle.live_registers.specs.LiveSets.{IsRight, LiveSets, forgotten_hart};
ghost use Rattle.live_registers.specs.RegisterSets.{has};
ghost use Rattle.schedules.specs.declared.ranges.SweepRange.{SweepRange};
ghost use Rattle.schedules.specs.Schedules.{AreAllowed};

/// A legal order is one too with two harts of equal images in each other's places, and leaves the
/// state with these harts so. It has the same sweeps.
pub fn exchanged_orders_are_legal()
    ensures legal { (image : ImageParts) (one other : ℕ) (order : List Op) →
        one < length image.harts → AreEqual image.harts one other →
        is_legal image (opening_state image) order ≡ true →
        is_legal image (opening_state image) (exchanged_order one other order) ≡ true }
    ensures leaves { (image : ImageParts) (one other : ℕ) (order : List Op) →
        one < length image.harts → AreEqual image.harts one other →
        is_legal image (opening_state image) order ≡ true →
        AreExchanged one other (replayed_state image order)
        (replayed_state image (exchanged_order one other order)) }
    ensures allowed { (sweeps : List SweepRange) (one other : ℕ) (order : List Op) →
        AreAllowed sweeps order → AreAllowed sweeps (exchanged_order one other order) }
{}

/// What a hart holds after a legal order, a hart with an equal image holds after the order with
/// these two in each other's places.
pub fn equal_harts_come_to_hold_the_same()
    ensures { (image : ImageParts) (one other : ℕ) (order : List Op) (rights : Rights) →
        one < length image.harts → AreEqual image.harts one other →
        is_legal image (opening_state image) order ≡ true →
        Holds (held_by (hart_at (replayed_state image order) one)) rights →
        Holds (held_by (hart_at (replayed_state image (exchanged_order one other order)) other))
        rights }
{}

/// What a hart holds in a state, a hart that stands for it does in each state that has harts under
/// other numbers of their own group.
pub fn regrouped_harts_hold_the_same()
    ensures { (groups : List ℕ) (state after : MachineState) (hart : ℕ) (rights : Rights) →
        IsRegrouping groups state after → hart < length state.harts →
        Holds (held_by (hart_at state hart)) rights →
        (other : ℕ) × (other < length after.harts) × (stands_for groups hart other ≡ true)
        × Holds (held_by (hart_at after other)) rights }
{}

/// Where all registers are asked for, no hart forgets any, and nothing that is seen is forgotten.
pub fn asked_registers_stay()
    ensures hart { (image : ImageParts) (live : LiveSets) (hart : HartState) →
        IsRight image.program live → ((reg : ℕ) → has live.asked reg ≡ true) →
        forgotten_hart live hart ≡ hart }
    ensures state { (image : ImageParts) (live : LiveSets) (state : MachineState) →
        IsRight image.program live → ((reg : ℕ) → has live.asked reg ≡ true) →
        forgotten_state live state ≡ state }
    ensures sights { (image : ImageParts) (live : LiveSets) (sight : Sight) →
        IsRight image.program live → ((reg : ℕ) → has live.asked reg ≡ true) →
        HidesForgotten live (hides sight) }
{}
