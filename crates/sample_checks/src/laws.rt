//! Laws: what runs say of properties adds up, and the first of them decides.

ghost use Rattle.std.specs.Prelude.{◌≡◌, ℕ, List, ◌++◌, Some, IsSome};
ghost use Rattle.cheri_model.specs.runs.Image.{ImageParts};
ghost use Rattle.explore_properties.specs.Properties.{PropertyParts};
ghost use Rattle.sample_draws.specs.Drawings.{DrawingParts};
ghost use Rattle.sample_draws.specs.Orders.{drawn_order};
ghost use Rattle.sample_tallies.specs.declared.seen.Seen.{Seen};
ghost use Rattle.sample_checks.specs.Deciding.{deciding_part};
ghost use Rattle.sample_checks.specs.Checks.{decided_in, decided_of, either_each};

/// What two lists of runs say of each property is what both say of it.
pub fn slices_decide_together()
    ensures { (image : ImageParts) (drawing : DrawingParts) (properties : List PropertyParts)
        (numbers more : List ℕ) → decided_in image drawing properties (numbers ++ more)
        ≡ either_each (decided_in image drawing properties numbers)
        (decided_in image drawing properties more) }
{}

/// The first run that decides a property has a state that does.
pub fn first_runs_decide()
    ensures { (image : ImageParts) (drawing : DrawingParts) (property : PropertyParts)
        (numbers : List ℕ) (seen : Seen) → decided_of image drawing numbers property ≡ Some seen
        → IsSome (deciding_part image property.claim (drawn_order image drawing seen.first)) }
{}
