//! The labels of a good listing, by which texts beside it can name places in its code.
#![tactic(auto)]

ghost use Rattle.std.specs.Prelude.{◌≡◌, Ok, IfOk};
ghost use Rattle.grammar.specs.LabelMap.{label_parts};
ghost use Rattle.grammar.specs.Labels.{labels_of};
ghost use Rattle.listings.specs.Meaning.{listing_meaning};

use cheri_model::Image;
use grammar::labels::Labels;
use std::alloc::{AllocError, Global};

/// What the jumps of a listing may name, which is the one of this image. Fails only when out of
/// memory.
pub fn labels_of<'a>(alloc: Global, image: &Image, text: &'a [u8]) -> Result<Labels<'a>, AllocError>
    requires { listing_meaning text.now ≡ Ok image.now }
    ensures { IfOk result (λ labels. label_parts labels ≡ labels_of text.now) }
{
    grammar::labels::labels_of(alloc, text)
}
