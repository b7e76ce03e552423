//! The fixed parts of a page, by functions whose clauses hide their texts from what calls them.
#![tactic(auto, unfolding(crate::proofs::Unfold::constants))]

ghost use Rattle.std.specs.Prelude.{◌≡◌};
ghost use Rattle.explained_page.specs.Page.{page_head, page_state, page_listing, page_end};

use crate::page::{PAGE_END, PAGE_HEAD, PAGE_LISTING, PAGE_STATE};

/// What goes before the explanation.
pub(crate) fn page_head() -> &'static str
    ensures { result.now ≡ page_head }
{
    PAGE_HEAD
}

/// What goes before the state.
pub(crate) fn page_state() -> &'static str
    ensures { result.now ≡ page_state }
{
    PAGE_STATE
}

/// What goes before the listing.
pub(crate) fn page_listing() -> &'static str
    ensures { result.now ≡ page_listing }
{
    PAGE_LISTING
}

/// What goes after the listing.
pub(crate) fn page_end() -> &'static str
    ensures { result.now ≡ page_end }
{
    PAGE_END
}
