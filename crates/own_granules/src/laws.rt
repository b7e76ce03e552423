//! Why accesses to granules of one hart alone may be quiet steps. The laws hold of every image,
//! all sweeps, every choice of shared granules and of owners, every test of what a question sees,
//! and every limit of quiet steps.

ghost use Rattle.std.specs.Prelude.{◌≡◌, ◌≢◌, ℕ, suc, ◌+◌, ◌*◌, ◌<◌, ◌≤◌, Bool, false, true};
ghost use Rattle.std.specs.Prelude.{List, [], length, slice_get, Option, Some, option_map};
ghost use Rattle.cap_model.specs.values.CapValue.{CapValue};
ghost use Rattle.cheri_model.specs.runs.Image.{ImageParts};
ghost use Rattle.cheri_model.specs.runs.ImageRules.{is_image};
ghost use Rattle.cheri_model.specs.runs.Machine.{MachineState, hart_at, is_running, opening_state};
ghost use Rattle.cheri_model.specs.runs.Machine.{state_after_step};
ghost use Rattle.cheri_model.specs.steps.Hart.{HartState};
ghost use Rattle.explore_turns.specs.Turns as without_memory;
ghost use Rattle.graph_loops.specs.Loops.{IsFair, IsLoop, Takes, actor_count};
ghost use Rattle.graph_merging.specs.Merging.{IsMerging, merged};
ghost use Rattle.graph_search.specs.Walks.{IsReachable, IsWalk, after};
ghost use Rattle.own_granules.specs.Granules.{are_kept, is_private, is_quiet, respects};
ghost use Rattle.own_granules.specs.Granules.{respects_in};
ghost use Rattle.own_granules.specs.Rests.{come};
ghost use Rattle.own_granules.specs.Turns.{AreOwned, KeepsPassing, come_with, is_state_of};
ghost use Rattle.own_granules.specs.Turns.{order_of_turns, placed, respecting_next};
ghost use Rattle.own_granules.specs.Turns.{respecting_rest, rest_of, start, turn};
ghost use Rattle.schedules.specs.declared.ranges.SweepRange.{SweepRange};
ghost use Rattle.schedules.specs.Schedules.{next};

/// The steps of two harts that respect owners lead to the same state in both orders, where one of
/// them asks for no access to a shared granule.
pub fn private_steps_come_in_any_order()
    ensures { (image : ImageParts) (sweeps : List SweepRange) (shared : ℕ → Bool)
        (owner : ℕ → Option ℕ) (s : MachineState) (l m : ℕ) →
        is_state_of image sweeps shared s ≡ true → l ≢ m →
        is_private image shared (hart_at s l) ≡ true →
        respects image shared owner l (hart_at s l) ≡ true →
        respects image shared owner m (hart_at s m) ≡ true →
        state_after_step image (state_after_step image s m) l
        ≡ state_after_step image (state_after_step image s l) m }
{}

/// In the graph of the steps that respect owners, and of sweeps, the states with each hart at its
/// rest stand for all states; and no hart has more than so many quiet steps to go.
pub fn respecting_rests_merge_steps()
    ensures { (image : ImageParts) (sweeps : List SweepRange) (shared : ℕ → Bool)
        (owner : ℕ → Option ℕ) (hides : HartState → HartState → Bool) (most : ℕ) →
        (to_go : MachineState → ℕ → ℕ)
        × IsMerging (respecting_next image sweeps shared owner) (length image.harts)
        (is_state_of image sweeps shared) (respecting_rest image sweeps shared owner hides most)
        to_go
        × ((s : MachineState) (m : ℕ) → to_go s m ≤ suc most) }
{}

/// Where all that a search by turns has met respects some owners, no step of the machine is left
/// out: every walk of it is one of steps that respect them and of sweeps, each rest is by quiet
/// steps that do, and turns lead where those of such steps and such rests lead.
pub fn owned_searches_leave_nothing_out()
    ensures steps { (image : ImageParts) (sweeps : List SweepRange) (shared : ℕ → Bool)
        (owner : ℕ → Option ℕ) (hides : HartState → HartState → Bool) (most : ℕ)
        (s : MachineState) (labels : List ℕ) → is_image image ≡ true →
        AreOwned image sweeps shared owner hides most →
        IsReachable (next image sweeps) (opening_state image) s →
        after (next image sweeps) s labels
        ≡ after (respecting_next image sweeps shared owner) s labels }
    ensures rests { (image : ImageParts) (sweeps : List SweepRange) (shared : ℕ → Bool)
        (owner : ℕ → Option ℕ) (hides : HartState → HartState → Bool) (most : ℕ)
        (s : MachineState) → is_image image ≡ true →
        AreOwned image sweeps shared owner hides most →
        IsReachable (next image sweeps) (opening_state image) s →
        rest_of image sweeps shared hides most s
        ≡ respecting_rest image sweeps shared owner hides most s }
    ensures turns { (image : ImageParts) (sweeps : List SweepRange) (shared : ℕ → Bool)
        (owner : ℕ → Option ℕ) (hides : HartState → HartState → Bool) (most : ℕ)
        (r : MachineState) (labels : List ℕ) → is_image image ≡ true →
        AreOwned image sweeps shared owner hides most →
        IsReachable (turn image sweeps shared hides most) (start image sweeps shared hides most)
        r →
        after (turn image sweeps shared hides most) r labels
        ≡ after (merged (respecting_next image sweeps shared owner)
        (respecting_rest image sweeps shared owner hides most)) r labels }
{}

/// Then what turns reach is reached by steps and sweeps; and of each state that these reach, the
/// one with each hart at its rest is reached by turns.
pub fn owned_turns_reach_rests()
    ensures sound { (image : ImageParts) (sweeps : List SweepRange) (shared : ℕ → Bool)
        (owner : ℕ → Option ℕ) (hides : HartState → HartState → Bool) (most : ℕ)
        (r : MachineState) → is_image image ≡ true →
        AreOwned image sweeps shared owner hides most →
        IsReachable (turn image sweeps shared hides most) (start image sweeps shared hides most)
        r →
        IsReachable (next image sweeps) (opening_state image) r }
    ensures complete { (image : ImageParts) (sweeps : List SweepRange) (shared : ℕ → Bool)
        (owner : ℕ → Option ℕ) (hides : HartState → HartState → Bool) (most : ℕ)
        (s : MachineState) → is_image image ≡ true →
        AreOwned image sweeps shared owner hides most →
        IsReachable (next image sweeps) (opening_state image) s →
        IsReachable (turn image sweeps shared hides most) (start image sweeps shared hides most)
        (rest_of image sweeps shared hides most s) }
{}

/// Then a loop of turns gives one of steps and sweeps, and a loop of these gives one of turns, of
/// the state with each hart at its rest. Each hart that steps in the first does in the second; so
/// the second is fair where the first is.
pub fn owned_turns_loop_as_steps()
    ensures turns { (image : ImageParts) (sweeps : List SweepRange) (shared : ℕ → Bool)
        (owner : ℕ → Option ℕ) (hides : HartState → HartState → Bool) (most : ℕ)
        (r : MachineState) (ls : List ℕ) → is_image image ≡ true →
        AreOwned image sweeps shared owner hides most →
        IsReachable (turn image sweeps shared hides most) (start image sweeps shared hides most)
        r →
        IsLoop (turn image sweeps shared hides most) (length image.harts) r ls →
        (ms : List ℕ) × IsLoop (next image sweeps) (length image.harts) r ms
        × ((m : ℕ) → Takes ls m → Takes ms m) }
    ensures fair_turns { (image : ImageParts) (sweeps : List SweepRange) (shared : ℕ → Bool)
        (hides : HartState → HartState → Bool) (most : ℕ) (r : MachineState) (ls ms : List ℕ) →
        IsFair (turn image sweeps shared hides most) (length image.harts) r ls →
        ((m : ℕ) → Takes ls m → Takes ms m) →
        IsFair (next image sweeps) (length image.harts) r ms }
    ensures steps { (image : ImageParts) (sweeps : List SweepRange) (shared : ℕ → Bool)
        (owner : ℕ → Option ℕ) (hides : HartState → HartState → Bool) (most : ℕ)
        (s : MachineState) (ls : List ℕ) → is_image image ≡ true →
        AreOwned image sweeps shared owner hides most →
        IsReachable (next image sweeps) (opening_state image) s →
        IsLoop (next image sweeps) (length image.harts) s ls →
        (ms : List ℕ) × IsLoop (turn image sweeps shared hides most) (length image.harts)
        (rest_of image sweeps shared hides most s) ms
        × ((m : ℕ) → m < length image.harts → Takes ls m → Takes ms m) }
    ensures fair_steps { (image : ImageParts) (sweeps : List SweepRange) (shared : ℕ → Bool)
        (owner : ℕ → Option ℕ) (hides : HartState → HartState → Bool) (most : ℕ)
        (s : MachineState) (ls ms : List ℕ) → is_image image ≡ true →
        AreOwned image sweeps shared owner hides most →
        IsReachable (next image sweeps) (opening_state image) s →
        IsFair (next image sweeps) (length image.harts) s ls →
        ((m : ℕ) → m < length image.harts → Takes ls m → Takes ms m) →
        IsFair (turn image sweeps shared hides most) (length image.harts)
        (rest_of image sweeps shared hides most s) ms }
{}

/// Then where walks by turns have fewer than `count` steps of harts, those of the machine have
/// fewer than so many times `most` and two, and `most` and one for each hart.
pub fn owned_turns_bound_steps()
    ensures { (image : ImageParts) (sweeps : List SweepRange) (shared : ℕ → Bool)
        (owner : ℕ → Option ℕ) (hides : HartState → HartState → Bool) (most count : ℕ)
        (s : MachineState) (ls : List ℕ) → is_image image ≡ true →
        AreOwned image sweeps shared owner hides most →
        ((r : MachineState) (ms : List ℕ) →
        IsWalk (turn image sweeps shared hides most) (start image sweeps shared hides most) ms r →
        actor_count (length image.harts) ms < count) →
        IsWalk (next image sweeps) (opening_state image) ls s →
        actor_count (length image.harts) ls
        < suc (suc most) * count + length image.harts * suc most }
{}

/// The order of turns, with each of their steps, leads where the turns lead. Whether owners are
/// respected makes no difference here.
pub fn orders_of_turns_lead()
    ensures { (image : ImageParts) (sweeps : List SweepRange) (shared : ℕ → Bool)
        (hides : HartState → HartState → Bool) (most : ℕ) (labels : List ℕ)
        (r : MachineState) →
        IsWalk (turn image sweeps shared hides most) (start image sweeps shared hides most)
        labels r →
        IsWalk (next image sweeps) (opening_state image)
        (order_of_turns image sweeps shared hides most labels) r }
{}

/// A state in which no hart runs is at rest; and a state that passes a test still does with each
/// hart at its rest, where the test still passes after each quiet step.
pub fn rests_keep_what_is_asked()
    ensures stopped { (image : ImageParts) (sweeps : List SweepRange) (shared : ℕ → Bool)
        (hides : HartState → HartState → Bool) (most : ℕ) (s : MachineState) →
        ((l : ℕ) (h : HartState) → slice_get s.harts l ≡ Some h →
        is_running h.status ≡ false) → rest_of image sweeps shared hides most s ≡ s }
    ensures passing { (image : ImageParts) (sweeps : List SweepRange) (shared : ℕ → Bool)
        (hides : HartState → HartState → Bool) (most : ℕ) (passing : MachineState → Bool)
        (s : MachineState) → KeepsPassing image sweeps shared hides passing →
        passing s ≡ true → passing (rest_of image sweeps shared hides most s) ≡ true }
{}

/// A hart's quiet steps look at it and at memory alone, and change nothing else.
pub fn ways_are_of_one_hart()
    ensures { (image : ImageParts) (sweeps : List SweepRange) (shared : ℕ → Bool)
        (hides : HartState → HartState → Bool) (k l : ℕ) (s : MachineState) →
        l < length s.harts →
        come (state_after_step image) (is_quiet image sweeps shared hides) l k s
        ≡ option_map (placed s l)
        (come_with image sweeps shared hides k (hart_at s l) s.memory) }
{}

/// Where there are no sweeps, granules hold nothing for them, and no step leaves anything.
pub fn no_sweeps_clear_nothing()
    ensures memory { (shared : ℕ → Bool) (number : ℕ) (memory : List CapValue) →
        are_kept [] shared number memory ≡ true }
    ensures steps { (image : ImageParts) (shared : ℕ → Bool) (owner : ℕ → Option ℕ)
        (s : MachineState) (l : ℕ) →
        respects_in image [] shared owner s l ≡ respects image shared owner l (hart_at s l) }
{}

/// Where all granules are shared, owners are always respected, and the state with each hart at its
/// rest is that by steps which touch no memory.
pub fn shared_memory_is_not_touched()
    ensures owned { (image : ImageParts) (sweeps : List SweepRange) (owner : ℕ → Option ℕ)
        (hides : HartState → HartState → Bool) (most : ℕ) →
        AreOwned image sweeps (λ granule. true) owner hides most }
    ensures rests { (image : ImageParts) (sweeps : List SweepRange)
        (hides : HartState → HartState → Bool) (most : ℕ) (s : MachineState) →
        length s.harts ≡ length image.harts →
        rest_of image sweeps (λ granule. true) hides most s
        ≡ without_memory.rest_of image sweeps hides most s }
{}
