//! What stands beside the rights.

ghost use Rattle.std.specs.Prelude.{◌≡◌};
ghost use Rattle.forgotten_states.specs.Surveys.{count};
ghost use Rattle.reductions.specs.Reductions.{left_out_of};

use cheri_model::Image;
use forgotten_states::Survey;
use reductions::{LeftOut, Reduction};

/// What was left out, whether all states were kept, the image, and how many states there are.
#[derive(Clone, Copy)]
pub(crate) struct Head<'a> {
    pub left_out: LeftOut,
    pub complete: bool,
    pub image: &'a Image,
    pub states: u32,
}

/// What an answer says of a survey besides rights.
pub(crate) fn head_of<'a>(reduction: &Reduction, survey: &'a Survey<'_>) -> Head<'a>
    ensures left_out { result.left_out ≡ left_out_of reduction.now.live reduction.now.groups }
    ensures complete { result.complete ≡ survey.now.complete }
    ensures image { result.image.now ≡ survey.now.image }
    ensures states { result.states ≡ count survey.now }
{
    Head {
        left_out: reduction.left_out(),
        complete: survey.is_complete(),
        image: survey.image(),
        states: survey.len(),
    }
}
