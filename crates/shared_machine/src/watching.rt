//! How a machine is watched. From the one that holds to the one that is held: a `Machine` holds a
//! `Watched`, which holds its core alone, or from the first watch on a `Pair`; the pair holds two
//! copies, each a `Shown`. A `Watch` holds a reader of those copies, and a `Receipt` of what it
//! has seen.

pub mod copies;
pub mod pair;
pub mod shown;
pub mod watch;
pub mod watched;
