//! Laws: what every order that is drawn is like.

ghost use Rattle.std.specs.Prelude.{◌≡◌, ℕ, ◌≤◌, true, false, length};
ghost use Rattle.cheri_model.specs.runs.Image.{ImageParts};
ghost use Rattle.cheri_model.specs.runs.Machine.{MachineState, opening_state, may_take};
ghost use Rattle.cheri_model.specs.runs.Replay.{is_legal, replayed_state};
ghost use Rattle.sample_draws.specs.Words.{number_of_run};
ghost use Rattle.sample_draws.specs.Drawings.{DrawingParts, is_drawing};
ghost use Rattle.sample_draws.specs.Draws.{DrawParts, chosen};
ghost use Rattle.sample_draws.specs.Orders.{drawn_order, last_state, running_harts, is_over};

use crate::drawing::MAX_RUN;

/// Generators of different runs, of all seeds, are made of different numbers.
pub fn runs_have_their_own_numbers()
    ensures { (seed other run another : ℕ) → run ≤ MAX_RUN → another ≤ MAX_RUN
        → number_of_run seed run ≡ number_of_run other another
        → (seed ≡ other) × (run ≡ another) }
{}

/// The operation that is chosen where a hart runs may be taken there.
pub fn choices_may_be_taken()
    ensures { (drawing : DrawingParts) (state : MachineState) (draws : DrawParts)
        → is_drawing drawing ≡ true → is_over state ≡ false
        → may_take state (chosen drawing.sweeps (running_harts state) draws).0 ≡ true }
{}

/// An order that is drawn is legal, has at most as many operations as a run may have, and leads by
/// the machine's own replay to the state that its run leaves. A run that leaves a hart running has
/// all of them.
pub fn drawn_orders_are_legal()
    ensures legal { (image : ImageParts) (drawing : DrawingParts) (run : ℕ)
        → is_drawing drawing ≡ true
        → is_legal image (opening_state image) (drawn_order image drawing run) ≡ true }
    ensures leads { (image : ImageParts) (drawing : DrawingParts) (run : ℕ)
        → last_state image drawing run
        ≡ replayed_state image (drawn_order image drawing run) }
    ensures short { (image : ImageParts) (drawing : DrawingParts) (run : ℕ)
        → length (drawn_order image drawing run) ≤ drawing.length }
    ensures whole { (image : ImageParts) (drawing : DrawingParts) (run : ℕ)
        → is_over (last_state image drawing run) ≡ false
        → length (drawn_order image drawing run) ≡ drawing.length }
{}
