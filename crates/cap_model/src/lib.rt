//! Capabilities as numbers: the types and definitions of compressed capabilities.
//!
//! `specs/` has the definitions, from the multiples that bounds are made of up to what each
//! capability instruction gives. This crate's types are permission sets, object types, values
//! and the reasons of a lost tag, its constants are those of the encoding, and [`laws`] has the
//! functions whose contracts are the laws over the definitions.
#![tactic(auto)]

mod encoding;
pub mod laws;
mod otype;
pub mod permission;
mod perms;
mod reason;
mod value;

pub use encoding::{ADDRESS_SPACE, MAX_EXPONENT, NULL_FIELDS};
pub use otype::{LAST_SEALABLE_TYPE, OType, SENTRY_TYPE, UNSEALED_TYPE};
pub use perms::Perms;
pub use reason::Reason;
pub use value::Value;
