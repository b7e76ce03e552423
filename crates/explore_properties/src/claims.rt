//! What properties claim.

ghost use Rattle.std.specs.Prelude.{◌≡◌, ◌≤◌, length};
ghost use Rattle.explore_sweeps.specs.declared.TheConstants.{MAX_SWEEPS};

use conditions::Condition;
use explore_sweeps::Sweep;
use std::marker::Model;

/// The most properties of a listing.
pub const MAX_PROPERTIES: usize = 64;

/// When a condition holds, as a property claims it.
#[derive(Clone, Copy)]
pub enum When {
    /// In no state that is reached.
    Never,
    /// In each.
    Always,
    /// In some.
    Sometimes,
    /// In each in which no hart runs.
    Finally,
}

/// What a property claims of all runs.
#[derive(Drop)]
pub enum Claim {
    /// When a condition holds.
    Holds(When, Condition),
    /// Every run ends.
    Ends,
    /// Only a hart that is never let on keeps a run going.
    EndsFairly,
}

/// A property: the number of its line, from 1 on, the text after `#!` and a space, and what it
/// claims.
#[derive(Drop)]
pub struct Property<'a> {
    pub(crate) line: usize,
    pub(crate) text: &'a str,
    pub(crate) claim: Claim,
}

impl<'a> Model for Property<'a> {
    ghost use Rattle.explore_properties.specs.Properties.{PropertyParts};

    ghost Value = { PropertyParts };

    ghost view = { λ a. record { line = a.line; text = a.text.now; claim = a.claim } };
}

impl Property<'_> {
    /// The number of its line, from 1 on.
    pub fn line(&self) -> usize
        ensures { result ≡ self.now.line }
    {
        self.line
    }

    /// The text after `#!` and a space.
    pub fn text(&self) -> &str
        ensures { result.now ≡ self.now.text }
    {
        self.text
    }

    /// What it claims.
    pub fn claim(&self) -> &Claim
        ensures { result.now ≡ self.now.claim }
    {
        &self.claim
    }
}

/// The properties of a listing in the order of their lines, and the sweeps that it allows.
#[derive(Drop)]
pub struct Properties<'a> {
    pub(crate) properties: Vec<Property<'a>>,
    pub(crate) sweeps: Vec<Sweep>,
}

impl<'a> Model for Properties<'a> {
    ghost use Rattle.std.specs.Prelude.{◌≤◌, length};
    ghost use Rattle.explore_properties.specs.Properties.{PropertiesParts};
    ghost use Rattle.explore_sweeps.specs.declared.TheConstants.{MAX_SWEEPS};

    ghost Value = { PropertiesParts };

    ghost view = { λ a. record { properties = a.properties.items; sweeps = a.sweeps.items } };

    ghost invariant = { λ a. length a.sweeps.items ≤ MAX_SWEEPS };
}

impl<'a> Properties<'a> {
    /// The properties.
    pub fn properties(&self) -> &[Property<'a>]
        ensures { result.now ≡ self.now.properties }
    {
        self.properties.as_slice()
    }

    /// The sweeps that the listing allows to a search, at any moment.
    pub fn sweeps(&self) -> &[Sweep]
        ensures sweeps { result.now ≡ self.now.sweeps }
        ensures few { length result.now ≤ MAX_SWEEPS }
    {
        self.sweeps.as_slice()
    }
}
