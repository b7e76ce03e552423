//! Where the program's files come from.

ghost use Rattle.std.specs.Prelude.{◌≡◌, ◌≤◌, IfOk, Err, None, length};
ghost use Rattle.inputs.specs.Files.{KnownFiles, AreBytesOf, file_fault};

use std::fs::{self, OpenFile};
use std::io::{self, ErrorKind, Read};
use std::rt;

/// Why a file was not read.
#[derive(Clone, Copy, Debug, PartialEq, Eq)]
pub enum FileFault {
    /// There is no such file, or it cannot be read.
    CannotRead = 1,
    /// An allocation failed.
    NoMemory = 2,
}

/// Files by their names. Reading a file changes no file, and a file whose content is known can be
/// read.
pub trait Files {
    // What each file holds, where that is known.
    ghost bytes_of: { Self → KnownFiles } = { λ _ _. None };

    /// The bytes of a file. Of one whose content is not known, no more than its first `most` bytes
    /// are given.
    fn read(&mut self, name: &str, most: u64) -> Result<Vec<u8>, FileFault>
        ensures bytes { IfOk result (λ bytes. AreBytesOf (bytes_of self.old name.now) bytes.items) }
        ensures most { bytes_of self.old name.now ≡ None
            → IfOk result (λ bytes. length bytes.items ≤ most) }
        ensures unknown { result ≡ Err FileFault.CannotRead → bytes_of self.old name.now ≡ None }
        ensures kept { bytes_of self.new ≡ bytes_of self.old };
}

/// The files of the system, of which nothing is known.
#[derive(Clone, Copy)]
pub struct SystemFiles<'a, R>(pub &'a R);

/// The first bytes of a file, up to `most`. Room for all of them is taken at once, where the system
/// tells how many there are.
fn read_prefix<R: rt::Files + AllocGlobal>(rt: &R, name: &str, most: u64) -> io::Result<Vec<u8>>
    ensures { IfOk result (λ bytes. length bytes.items ≤ most) }
{
    let file = fs::open(rt, name)?;
    let size = file.metadata()?.len().min(most);
    let mut bytes = Vec::with_capacity(rt.alloc(), size as usize)?;
    file.take(most).read_to_end(&mut bytes)?;
    // no clause says that a `take` ends there
    bytes.truncate(most as usize);
    Ok(bytes)
}

/// Why a file was not read, where reading it failed so.
pub fn fault_of(kind: ErrorKind) -> FileFault
    ensures { result ≡ file_fault kind }
{
    match kind {
        ErrorKind::OutOfMemory => FileFault::NoMemory,
        _ => FileFault::CannotRead,
    }
}

impl<R: rt::Files + AllocGlobal> Files for SystemFiles<'_, R> {
    fn read(&mut self, name: &str, most: u64) -> Result<Vec<u8>, FileFault> {
        match read_prefix(self.0, name, most) {
            Ok(bytes) => Ok(bytes),
            Err(error) => Err(fault_of(error.kind())),
        }
    }
}
