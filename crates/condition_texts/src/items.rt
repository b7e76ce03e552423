//! Items: the words that name what a list of outcomes shows of each.
#![tactic(auto, unfolding(crate::proofs::Unfold::items))]

ghost use Rattle.std.specs.Prelude.{◌≡◌};
ghost use Rattle.condition_texts.specs.Shown.{shown_of};

use crate::places::{hart_numbered, place_of};
use cheri_model::Image;
use conditions::Shown;

/// The most items of a list.
pub const MAX_ITEMS: usize = 16;

/// What the item shows that a word writes, of this image.
pub(crate) fn shown_of(image: &Image, word: &[u8]) -> Option<Shown>
    ensures { result ≡ shown_of image.now word.now }
{
    match word {
        [digit @ b'0'..=b'9', rest @ ..] if rest == b".status".as_slice() => {
            let hart = hart_numbered(image, *digit - b'0')?;
            Some(Shown::Status(hart))
        }
        _ => {
            let place = place_of(image, word)?;
            Some(Shown::Number(place))
        }
    }
}
