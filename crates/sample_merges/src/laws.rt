//! Laws: slices of a sample give together what all their runs give.

ghost use Rattle.std.specs.Prelude.{◌≡◌, ◌↔◌, ◌∷◌, ◌++◌, ℕ, List};
ghost use Rattle.std.specs.List.{AllZip, concat};
ghost use Rattle.cheri_model.specs.runs.Image.{ImageParts};
ghost use Rattle.explore_properties.specs.Properties.{PropertyParts};
ghost use Rattle.sample_draws.specs.Drawings.{DrawingParts};
ghost use Rattle.sample_slices.specs.Slices.{SliceParts};
ghost use Rattle.sample_texts.specs.declared.spans.Span.{Span};
ghost use Rattle.sample_merges.specs.Merged.{AreNumbersOf, GivesRuns, IsSliceOfAll, sum_of};
ghost use Rattle.sample_merges.specs.Spans.{AreSpans, HasRun};

/// Slices, each of which gives what runs with some numbers give, give together what the runs with
/// all these numbers give: the same tally, and of each property the same runs that decide it.
pub fn slices_give_the_whole()
    ensures { (image : ImageParts) (drawing : DrawingParts) (properties : List PropertyParts)
        (first : SliceParts) (rest : List SliceParts) (numbers : List Span) (runs : List ℕ)
        (more : List (List ℕ)) → GivesRuns image drawing properties first runs
        → AllZip (GivesRuns image drawing properties) rest more
        → GivesRuns image drawing properties (sum_of first rest numbers) (runs ++ concat more) }
{}

/// The sum of such slices is the one slice that one `sample` of all these runs makes, where it
/// makes them in the slices' order; so both are told by the same text.
pub fn sums_are_one_slice()
    ensures { (image : ImageParts) (drawing : DrawingParts) (properties : List PropertyParts)
        (first : SliceParts) (rest : List SliceParts) (whole one : SliceParts) (runs : List ℕ)
        (more : List (List ℕ)) → GivesRuns image drawing properties first runs
        → AllZip (GivesRuns image drawing properties) rest more
        → whole ≡ sum_of first rest whole.numbers → AreNumbersOf (first ∷ rest) whole.numbers
        → IsSliceOfAll image drawing properties first rest (runs ++ concat more) one
        → whole ≡ one }
{}

/// Two lists of spans that ascend and don't touch, with the same runs, are the same.
pub fn runs_have_one_list_of_spans()
    ensures { (one other : List Span) → AreSpans one → AreSpans other
        → ((run : ℕ) → HasRun one run ↔ HasRun other run) → one ≡ other }
{}
