//! Harts and images with no more in them than a test asks for.
#![tactic(auto, unfolding(cheri_model::specs::runs::Image::opening_hart))]

ghost use Rattle.std.specs.Prelude.{◌≡◌, ◌∷◌, IfOk, replicate};
ghost use Rattle.cheri_model.specs.declared.instr.Instr.TheVariants as instr;
ghost use Rattle.cheri_model.specs.declared.trace.Status.TheVariants as status;
ghost use Rattle.cheri_model.specs.runs.ImageRules.{image_of};
ghost use Rattle.cheri_model.specs.steps.Hart.{null};
ghost use Rattle.samples.specs.Machines.{empty_hart};

use cap_ops::Cap;
use cheri_model::{HartImage, Image, Instr, NoMemory, Value};
use hart::Hart;
use std::alloc::Global;

/// A hart before its first step, with this PCC, and null in its registers.
pub fn hart_at(pcc: Cap) -> Hart
    ensures registers { result.regs ≡ null ∷ replicate 31 null }
    ensures pcc { result.pcc ≡ pcc }
    ensures status { result.status ≡ status.Running }
{
    Hart::open(&HartImage {
        pcc: pcc.value(),
        regs: [Value::raw(0); 31],
    })
}

/// The image of this many `ecall`s and bytes of RAM, with these granules and this many harts that
/// hold null; `None` where no image has these parts.
pub fn image_with(
    alloc: Global,
    instructions: usize,
    ram: u32,
    granules: &[(u64, Value)],
    harts: usize,
) -> Result<Option<Image>, NoMemory>
    ensures { IfOk result (λ image. image ≡ image_of (replicate instructions instr.Ecall)
        ram granules.now (replicate harts empty_hart)) }
{
    let hart = HartImage {
        pcc: Value::raw(0),
        regs: [Value::raw(0); 31],
    };
    Ok(Image::new(
        vec![in alloc; Instr::Ecall; instructions]?,
        ram,
        Vec::from_slice(alloc, granules)?,
        vec![in alloc; hart; harts]?,
    ))
}
