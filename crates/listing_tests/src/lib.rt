//! Tests of `listings`, `grammar` and `orders` by their public calls alone, as their users make
//! them.
#![tactic(auto)]

#[cfg(test)]
mod hart_orders;
#[cfg(test)]
mod reading;
#[cfg(test)]
mod words;
