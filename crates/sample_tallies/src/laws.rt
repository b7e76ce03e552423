//! Laws: tallies add up.

ghost use Rattle.std.specs.Prelude.{◌≡◌, ℕ, List, ◌++◌};
ghost use Rattle.cheri_model.specs.runs.Image.{ImageParts};
ghost use Rattle.sample_draws.specs.Drawings.{DrawingParts};
ghost use Rattle.sample_tallies.specs.Tallies.{TallyParts, add, tally};
ghost use Rattle.sample_tallies.specs.Sums.{SayTheSame};
ghost use Rattle.sample_tallies.specs.Tables.{Entry};
ghost use Rattle.sample_tallies.specs.Claims.{with_trap, with_end};
ghost use Rattle.sample_tallies.specs.Within.{IsWithin, is_drawable};
ghost use Rattle.sample_tallies.specs.declared.seen.TrapPlace.{TrapPlace};
ghost use Rattle.cheri_model.specs.runs.Machine.{MachineState};

/// The tally of two lists of runs is the sum of their tallies.
pub fn slices_add_up()
    ensures { (image : ImageParts) (drawing : DrawingParts) (numbers more : List ℕ) →
        tally image drawing (numbers ++ more)
        ≡ add (tally image drawing numbers) (tally image drawing more) }
{}

/// Sums may be added up in any groups.
pub fn sums_are_associative()
    ensures { (a b c : TallyParts) → add (add a b) c ≡ add a (add b c) }
{}

/// Which of two tallies is added to the other makes no difference but to the order in which traps
/// and ends stand.
pub fn sums_have_no_order()
    ensures { (a b : TallyParts) → SayTheSame (add a b) (add b a) }
{}

/// The first runs of a sum can be drawn where those of its parts can.
pub fn sums_stay_within()
    ensures { (a b : TallyParts) → IsWithin a → IsWithin b → IsWithin (add a b) }
{}

/// So can those of a tally with what is claimed of a trap.
pub fn trap_stays_within()
    ensures { (t : TallyParts) (trap : Entry TrapPlace) → IsWithin t → is_drawable trap.seen →
        IsWithin (with_trap t trap) }
{}

/// And those of a tally with what is claimed of an end.
pub fn end_stays_within()
    ensures { (t : TallyParts) (end : Entry MachineState) → IsWithin t → is_drawable end.seen →
        IsWithin (with_end t end) }
{}
