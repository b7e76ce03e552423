//! The order of a machine's operations, as it exists in proofs alone: it only grows, one keeper
//! adds to it, and whatever anybody has seen of it is a prefix of it.
//!
//! An order is a chain of links in a book. A link has the pen that wrote it, an operation, and the
//! pen that may write the next link; a pen that wrote its link is spent.
//!
//! ```text
//! Blank: pen 3           link 0                  link 1
//!    |           +--------------------+  +--------------------+
//!    +---------> | pen 3 | step 1 | 5 |  | pen 5 | sweep  | 8 |   pen 8: the keeper's
//!                +----------------|---+  +-^--------------|---+     ^
//!                                 +--------+              +---------+
//! ```
//!
//! So whoever holds the pen at the end of the chain knows the whole order, and alone adds to it.
#![tactic(auto)]

mod keeper;
mod links;
mod rule;
mod seen;
#[cfg(test)]
mod tests;

pub use keeper::{Blank, Keeper};
pub use links::Link;
pub use rule::LinkRule;
pub use seen::{Order, Seen, Token};
