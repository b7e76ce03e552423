//! Machines whose harts stand in another order: no instruction reads the number of its hart, so a
//! search that keeps one of the states that differ in this alone loses nothing but the names.
#![tactic(auto)]

pub mod laws;
