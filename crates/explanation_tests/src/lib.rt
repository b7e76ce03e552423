//! Tests of `explanations`, and of positions by `explained_page`, by their public calls alone:
//! sinks that fail, refused texts, positions of a run, and a row for each reason.
#![tactic(auto)]

#[cfg(test)]
mod looking;
#[cfg(test)]
mod reasons;
#[cfg(test)]
mod sinking;
