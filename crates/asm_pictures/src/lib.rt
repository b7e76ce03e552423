//! Harts that are asked for, one after another, and the image of a program's parts.
#![tactic(auto)]

mod asked;
mod harts;
mod image;

pub use asked::{Harts, asked_harts};
pub use harts::{Opened, exits_in, open_harts};
pub use image::{Picture, exit_address, image_of, judge_sizes, ram_of, with_exit};
