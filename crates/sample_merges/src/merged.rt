//! What slices of a listing give together.

ghost use Rattle.std.specs.Prelude.{◌≡◌, IfOk, string_bytes};
ghost use Rattle.sample_slices.specs.Slices.{Fits, IsTextOf, asked, looked_at};

use cheri_model::NoMemory;
use explore_properties::Property;
use sample_slices::{KnownListing, Slice};
use shown_states::Format;
use std::alloc::Global;
use std::marker::Model;

/// What slices of a listing give together.
#[derive(Drop)]
pub struct Merged<'l> {
    listing: KnownListing<'l>,
    whole: Slice,
}

impl<'l> Model for Merged<'l> {
    ghost use Rattle.sample_slices.specs.Slices.{Fits};
    ghost use Rattle.sample_merges.specs.Merged.{MergedParts};

    ghost Value = { MergedParts };

    ghost view = { λ m. record { listing = m.listing; whole = m.whole } };

    ghost invariant = { λ m. Fits m.listing m.whole };
}

impl<'l> Merged<'l> {
    /// Of this listing.
    pub(crate) fn of(listing: KnownListing<'l>, whole: Slice) -> Merged<'l>
        requires { Fits listing whole }
        ensures { result ≡ record { listing = listing.entry; whole = whole } }
    {
        Merged { listing, whole }
    }

    /// What is known of the listing.
    pub fn listing(&self) -> &KnownListing<'l>
        ensures { result.now ≡ self.now.listing }
    {
        &self.listing
    }

    /// Their sum.
    pub fn slice(&self) -> &Slice
        ensures whole { result.now ≡ self.now.whole }
        ensures fits { Fits self.now.listing self.now.whole }
    {
        &self.whole
    }

    /// The properties that are looked at.
    pub fn properties(&self) -> &[Property<'l>]
        ensures { result.now
            ≡ asked (looked_at self.now.listing.properties self.now.whole.is_checked) }
    {
        self.listing.properties(self.whole.is_checked())
    }

    /// What they tell. Fails only when out of memory or of numbers for states, or where the runs of
    /// a row of values reach 2^64.
    pub fn text(&self, alloc: Global, format: Format) -> Result<String, NoMemory>
        ensures { IfOk result (λ text. IsTextOf self.now.listing.image
            (asked (looked_at self.now.listing.properties self.now.whole.is_checked))
            self.now.whole format (string_bytes text)) }
    {
        self.whole.text(alloc, &self.listing, format)
    }
}
