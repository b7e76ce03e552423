//! What an answer tells.

use crate::spans::Span;
use cheri_model::Image;
use conditions::Items;
use sample_checks::PropertySeen;
use sample_draws::Drawing;
use sample_tallies::Tally;

/// What is told: of which runs, and what they gave.
#[derive(Clone, Copy)]
pub struct Sampled<'s, 'i> {
    pub image: &'s Image,
    /// How orders are drawn.
    pub drawing: &'s Drawing,
    /// The items that are shown of the states in which runs ended, in place of these states.
    pub items: Option<&'s Items<'i>>,
    /// The numbers of the runs, ascending and apart.
    pub numbers: &'s [Span],
    /// What they gave.
    pub tally: &'s Tally,
    /// The properties that were looked at; none where none was asked for.
    pub properties: &'s [PropertySeen<'s, 's>],
}
