//! What an answer begins with.

use cheri_model::Image;
use reductions::LeftOut;

/// What an answer begins with: what states were told apart without, whether all were kept, and how
/// many.
#[derive(Clone, Copy)]
pub struct Head<'a> {
    pub image: &'a Image,
    pub reduced: Option<LeftOut>,
    pub complete: bool,
    pub states: u32,
}
