//! A slice.

ghost use Rattle.std.specs.Prelude.{◌≡◌, IfOk, length, option_map, string_bytes};
ghost use Rattle.sample_slices.specs.Slices.{Fits, IsTextOf, asked, checked_in};
ghost use Rattle.sample_slices.specs.Slices.{items_shown, looked_at, plus};
ghost use Rattle.sample_texts.specs.SampleParts.{shown_items};

use crate::listing::KnownListing;
use crate::question::Question;
use cheri_model::NoMemory;
use condition_texts::{TextFault, read_items};
use conditions::Items;
use sample_checks::{Checked, properties_seen};
use sample_draws::Drawing;
use sample_texts::{Sampled, Span, sample_text};
use shown_states::{Format, Loaded};
use std::alloc::{AllocError, Global};
use std::marker::Model;

/// What the runs with some numbers gave: how their orders are drawn, which items are shown of their
/// ends, whether properties are looked at, and how many runs did what first when.
#[derive(Drop)]
pub struct Slice {
    pub(crate) question: Question,
    pub(crate) numbers: Vec<Span>,
    pub(crate) checked: Checked,
}

impl Model for Slice {
    ghost use Rattle.sample_slices.specs.Slices.{SliceParts, slice_of};

    ghost Value = { SliceParts };

    ghost view = { λ s. slice_of s.question s.numbers.items s.checked };
}

impl Slice {
    /// How orders are drawn.
    pub fn drawing(&self) -> &Drawing
        ensures { result.now ≡ self.now.drawing }
    {
        &self.question.drawing
    }

    /// The items that are shown of ends, separated by commas, if some are.
    pub fn items(&self) -> Option<&str>
        ensures { option_map (λ text. text.now) result ≡ self.now.items }
    {
        match &self.question.items {
            None => None,
            Some(text) => Some(text.as_str()),
        }
    }

    /// Whether properties are looked at.
    pub fn is_checked(&self) -> bool
        ensures { result ≡ self.now.is_checked }
    {
        self.question.is_checked
    }

    /// The numbers of the runs, ascending and apart.
    pub fn numbers(&self) -> &[Span]
        ensures { result.now ≡ self.now.numbers }
    {
        self.numbers.as_slice()
    }

    /// What the runs gave, and which of them decide each property that is looked at.
    pub fn checked(&self) -> &Checked
        ensures { result.now ≡ checked_in self.now }
    {
        &self.checked
    }

    /// The sum of this slice and another of its machine, which then has these numbers. The ends of
    /// the other are loaded into a state of the machine. Fails only when out of memory or of
    /// numbers for states, or where a count reaches 2^64.
    pub fn plus(
        self,
        alloc: Global,
        other: &Slice,
        numbers: Vec<Span>,
        blank: &mut Loaded,
    ) -> Result<Slice, NoMemory>
        requires harts { other.now.harts ≡ self.harts }
        requires granules { other.now.granules ≡ self.granules }
        requires properties { length other.now.decided ≡ length self.decided }
        requires blank_harts { length blank.old.harts ≡ self.harts }
        requires blank_granules { length blank.old.memory ≡ self.granules }
        ensures sum { IfOk result (λ both. both ≡ plus self other.now numbers.items) }
        ensures blank_harts { length blank.new.harts ≡ self.harts }
        ensures blank_granules { length blank.new.memory ≡ self.granules }
    {
        let Slice {
            question,
            checked,
            ..
        } = self;
        let checked = checked.add(alloc, &other.checked, blank)?;
        Ok(Slice {
            question,
            numbers,
            checked,
        })
    }

    /// The text of the slice, with these items.
    fn text_with(
        &self,
        alloc: Global,
        listing: &KnownListing<'_>,
        format: Format,
        items: Option<&Items<'_>>,
    ) -> Result<String, NoMemory>
        requires fits { Fits listing.now self.now }
        requires items { shown_items items ≡ items_shown listing.now.image self.now.items }
        ensures { IfOk result (λ text. IsTextOf listing.now.image
            (asked (looked_at listing.now.properties self.now.is_checked)) self.now format
            (string_bytes text)) }
    {
        let properties = listing.properties(self.is_checked());
        let (image, drawing) = (listing.image(), self.drawing());
        let decided = self.checked.decided();
        let told = properties_seen(alloc, image, drawing, properties, decided)?;
        sample_text(
            alloc,
            format,
            Sampled {
                image,
                drawing,
                items,
                numbers: self.numbers(),
                tally: self.checked.tally(),
                properties: told.as_slice(),
            },
        )
    }

    /// What the slice tells of this listing. Fails only when out of memory or of numbers for
    /// states, or where the runs of a row of values reach 2^64.
    pub fn text(
        &self,
        alloc: Global,
        listing: &KnownListing<'_>,
        format: Format,
    ) -> Result<String, NoMemory>
        requires { Fits listing.now self.now }
        ensures { IfOk result (λ text. IsTextOf listing.now.image
            (asked (looked_at listing.now.properties self.now.is_checked)) self.now format
            (string_bytes text)) }
    {
        match self.items() {
            None => self.text_with(alloc, listing, format, None),
            Some(text) => match read_items(alloc, listing.image(), text) {
                Ok(items) => self.text_with(alloc, listing, format, Some(&items)),
                Err(TextFault::NoMemory) => Err(AllocError),
                Err(_) => unreachable!("these items were read before"),
            },
        }
    }
}
