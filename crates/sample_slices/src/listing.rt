//! The listing of which slices are read.

ghost use Rattle.std.specs.Prelude.{◌≡◌, Ok, IfOk};
ghost use Rattle.explore_properties.specs.Reading.{properties_of};
ghost use Rattle.listing_maps.specs.Names.{names_of};
ghost use Rattle.listings.specs.Meaning.{listing_meaning};
ghost use Rattle.sample_slices.specs.Slices.{asked, looked_at, properties_in, properties_known};

use cheri_model::{Image, NoMemory};
use explore_properties::{Properties, Property, PropertyFault, read_properties};
use listing_maps::Names;
use std::alloc::{AllocError, Global};
use std::marker::Model;

/// A good listing: its image, what may be named beside it, and its text.
#[derive(Clone, Copy)]
pub struct SliceListing<'l, 'n> {
    pub image: &'l Image,
    pub names: &'l Names<'n>,
    pub text: &'l [u8],
}

/// What is known of a listing: its image, and its properties where they are good.
#[derive(Drop)]
pub struct KnownListing<'l> {
    image: &'l Image,
    properties: Option<Properties<'l>>,
    /// No property.
    none: Vec<Property<'l>>,
}

impl<'l> Model for KnownListing<'l> {
    ghost use Rattle.std.specs.Prelude.{◌≡◌, []};
    ghost use Rattle.sample_slices.specs.Slices.{ListingParts};

    ghost Value = { ListingParts };

    ghost view = { λ l. record { image = l.image.now; properties = l.properties } };

    ghost invariant = { λ l. l.none.items ≡ [] };
}

/// The properties of a listing, where they are good. Fails only when out of memory.
fn properties_of<'l>(
    alloc: Global,
    listing: SliceListing<'l, '_>,
) -> Result<Option<Properties<'l>>, NoMemory>
    requires { listing_meaning listing.text.now ≡ Ok listing.image.now }
    ensures { IfOk result (λ read. read ≡ properties_known (properties_of
        (names_of listing.entry.names.now) listing.entry.image.now listing.entry.text.now)) }
{
    match read_properties(alloc, listing.names, listing.image, listing.text) {
        Ok(read) => Ok(Some(read)),
        Err(PropertyFault::Place(_)) => Ok(None),
        Err(PropertyFault::NoMemory) => Err(AllocError),
    }
}

impl<'l> KnownListing<'l> {
    /// What is known of a good listing. Fails only when out of memory.
    pub fn read(alloc: Global, listing: SliceListing<'l, '_>) -> Result<KnownListing<'l>, NoMemory>
        requires { listing_meaning listing.text.now ≡ Ok listing.image.now }
        ensures { IfOk result (λ known. known ≡ record {
          image = listing.entry.image.now;
          properties = properties_known (properties_of (names_of listing.entry.names.now)
              listing.entry.image.now listing.entry.text.now);
        }) }
    {
        Ok(KnownListing {
            image: listing.image,
            properties: properties_of(alloc, listing)?,
            none: Vec::new(alloc),
        })
    }

    /// Its image.
    pub fn image(&self) -> &Image
        ensures { result.now ≡ self.now.image }
    {
        self.image
    }

    /// Its properties, where they are looked at and good.
    pub fn looked_at(&self, is_checked: bool) -> Option<&Properties<'l>>
        ensures { properties_in result ≡ looked_at self.now.properties is_checked }
    {
        if is_checked {
            self.properties.as_ref()
        } else {
            None
        }
    }

    /// These properties; none where there are none.
    pub fn properties(&self, is_checked: bool) -> &[Property<'l>]
        ensures { result.now ≡ asked (looked_at self.now.properties is_checked) }
    {
        let Some(read) = self.looked_at(is_checked) else {
            return self.none.as_slice();
        };
        read.properties()
    }
}
