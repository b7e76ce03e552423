//! Assembly: from files to the image that they mean.
#![tactic(auto)]

mod whole;

pub use asm_files::AssemblyFault;
pub use asm_mapping::MapLine;
pub use asm_pictures::Harts;
pub use whole::{Assembled, assemble, map_lines};
