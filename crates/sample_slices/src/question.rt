//! What a line says is asked of its runs.
#![tactic(auto, unfolding(crate::proofs::Unfold::question))]

ghost use Rattle.std.specs.Prelude.{◌≡◌, IfOk, is_some};
ghost use Rattle.serde_json.specs.View.{view as data_of};
ghost use Rattle.sample_slices.specs.Drawn.{question_in, question_of};
ghost use Rattle.sample_slices.specs.Members.{Gives};
ghost use Rattle.sample_slices.specs.Slices.{AreItems, properties_in};

use crate::drawn::drawing_in;
use crate::fault::LineFault;
use crate::items::items_in;
use crate::listing::KnownListing;
use crate::members::member;
use cheri_model::Image;
use explore_properties::Properties;
use sample_draws::Drawing;
use serde_json::Value;
use std::alloc::Global;
use std::marker::Model;

/// How orders are drawn, the text of the items that are shown of ends, if some are, and whether
/// properties are looked at.
#[derive(Drop)]
pub(crate) struct Question {
    pub drawing: Drawing,
    pub items: Option<String>,
    pub is_checked: bool,
}

impl Model for Question {
    ghost use Rattle.std.specs.Prelude.{option_map, string_bytes};
    ghost use Rattle.sample_slices.specs.Slices.{QuestionParts};

    ghost Value = { QuestionParts };

    ghost view = { λ q. record {
      drawing = q.drawing;
      items = option_map string_bytes q.items;
      is_checked = q.is_checked;
    } };
}

impl Question {
    /// How orders are drawn.
    pub fn drawing(&self) -> &Drawing
        ensures { result.now ≡ self.now.drawing }
    {
        &self.drawing
    }

    /// Whether items are shown.
    pub fn is_shown(&self) -> bool
        ensures { result ≡ is_some self.now.items }
    {
        match &self.items {
            None => false,
            Some(_) => true,
        }
    }

    /// Whether properties are looked at.
    pub fn is_checked(&self) -> bool
        ensures { result ≡ self.now.is_checked }
    {
        self.is_checked
    }
}

/// What is asked, where these properties are looked at.
fn question_of(
    alloc: Global,
    image: &Image,
    is_checked: bool,
    properties: Option<&Properties<'_>>,
    value: &Value,
) -> Result<Question, LineFault>
    ensures question { Gives result (question_of image.now is_checked
        (properties_in properties.entry) (data_of value.now)) }
    ensures items { IfOk result (λ question. AreItems image.now question.items) }
{
    let drawing = drawing_in(alloc, properties, value)?;
    let items = items_in(alloc, image, value)?;
    Ok(Question {
        drawing,
        items,
        is_checked,
    })
}

/// What is asked of a listing.
pub(crate) fn question_in(
    alloc: Global,
    listing: &KnownListing<'_>,
    value: &Value,
) -> Result<Question, LineFault>
    ensures question { Gives result (question_in listing.now (data_of value.now)) }
    ensures items { IfOk result (λ question. AreItems listing.now.image question.items) }
{
    let is_checked = member(value, "properties").is_some();
    let properties = listing.looked_at(is_checked);
    if is_checked && properties.is_none() {
        return Err(LineFault::Form);
    }
    question_of(alloc, listing.image(), is_checked, properties, value)
}
