//! Items: what a list of outcomes shows of each.

use crate::parts::Shown;

/// The items of a list: the text that each was given by, and what each shows. There are as many of
/// one as of the other.
#[derive(Drop)]
pub struct Items<'a> {
    pub names: Vec<&'a str>,
    pub shown: Vec<Shown>,
}
