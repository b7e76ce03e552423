//! The line that answers what a listing means.
#![tactic(auto, unfolding(crate::specs::Answers::check_line))]

ghost use Rattle.std.specs.Prelude.{◌≡◌, IfOk, string_bytes};
ghost use Rattle.sim_program.specs.Answers.{check_line};

use cheri_model::{Image, NoMemory};
use std::alloc::Global;
use std::fmt;

/// The line of an image: how many harts, bytes of RAM and instructions it has. Fails only when out
/// of memory.
pub fn check_text(alloc: Global, image: &Image) -> Result<String, NoMemory>
    ensures { IfOk result (λ text. string_bytes text ≡ check_line image.now) }
{
    let (harts, code) = (image.harts().len(), image.program().len());
    let mut out = String::new(alloc);
    writeln!(out, "ok harts={harts} ram={} code={code}", image.ram())?;
    Ok(out)
}
