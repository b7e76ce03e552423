//! The files of assembly.
#![tactic(auto, using(crate::proofs::TextLemmas::reads))]

ghost use Rattle.std.specs.Prelude.{◌≡◌, IfErr, IfOk, map};
ghost use Rattle.asm_files.specs.Programs.{text_of};
ghost use Rattle.inputs.specs.Files.{AreBytesOf};
ghost use Rattle.asm_program.specs.Texts.{AreRead, AreUnread, IsUnread, text_items};

use crate::faults::{Fault, OwnFault};
use inputs::{FileFault, Files, InputFault};
use std::alloc::Global;

/// One byte more than a file of assembly has at most: where a file has more, its first bytes say
/// so.
const ASSEMBLY_READ: u64 = 4_194_305;

/// The bytes of a file of assembly. Of one that is too long, its beginning.
fn read_text<F: Files>(files: &mut F, name: &str) -> Result<Vec<u8>, Fault>
    ensures bytes { IfOk result (λ bytes. AreBytesOf (F.bytes_of files.old name.now) bytes.items) }
    ensures refused { IfErr result (IsUnread (F.bytes_of files.old name.now)) }
    ensures kept { F.bytes_of files.new ≡ F.bytes_of files.old }
{
    match files.read(name, ASSEMBLY_READ) {
        Ok(bytes) => Ok(bytes),
        Err(FileFault::CannotRead) => Err(Fault::Own(OwnFault::CannotReadAssembly)),
        Err(FileFault::NoMemory) => Err(Fault::Input(InputFault::NoMemory)),
    }
}

/// The bytes of files of assembly, one after another, up to one that cannot be read.
pub(crate) fn read_all<F: Files>(
    alloc: Global,
    files: &mut F,
    names: &[&str],
) -> Result<Vec<Vec<u8>>, Fault>
    ensures read { IfOk result (λ texts.
        AreRead (map (F.bytes_of files.old) (map text_of names.now)) (map text_items texts.items)) }
    ensures refused { IfErr result (AreUnread (map (F.bytes_of files.old) (map text_of names.now))) }
{
    let mut texts = Vec::new(alloc);
    for name in names {
        let text = read_text(files, name)?;
        if texts.push(text).is_err() {
            return Err(Fault::Input(InputFault::NoMemory));
        }
    }
    Ok(texts)
}
