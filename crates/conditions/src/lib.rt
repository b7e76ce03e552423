//! Conditions on states of a machine, and the items by which outcomes are shown: what they are in a
//! state, and which steps of a hart a condition can't see.
#![tactic(auto)]

mod alone;
mod conditions;
mod entries;
mod formulas;
mod hiding;
mod holding;
mod items;
pub mod laws;
mod parts;
mod seen;
mod values;
mod view;
mod ways;

pub use conditions::Condition;
pub use items::Items;
pub use parts::{
    Atom, Comparison, Field, Holder, Joint, Node, Own, Place, Shown, Source, StatusTest, Subject,
    Term,
};
pub use view::StateView;
