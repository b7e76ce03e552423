//! Instructions at their places.
#![tactic(auto)]

ghost use Rattle.std.specs.Prelude.{◌≡◌};
ghost use Rattle.asm_instructions.specs.Overwriting.{overwritten};

use cheri_model::Instr;

/// Puts instructions in the place of others, from a number on. What would lie behind the last one
/// is not put.
pub fn overwrite(code: &mut [Instr], at: usize, instrs: &[Instr])
    ensures { code.new ≡ overwritten code.old at instrs.now }
{
    let mut place = at;
    for instr in instrs {
        if place >= code.len() {
            return;
        }
        code[place] = *instr;
        place += 1;
    }
}
