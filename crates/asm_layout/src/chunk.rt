//! Chunks, as far as their places depend on them.

/// What a chunk has.
#[derive(Clone, Copy, Debug, PartialEq, Eq)]
pub enum ChunkKind {
    /// Instructions.
    Code,
    /// Data that is only read.
    ReadOnly,
    /// Data.
    ReadWrite,
    /// Zeros, which the file hasn't.
    Zeros,
    /// The zeros of one symbol, which is in no section.
    Common,
    /// Nothing that is kept.
    Dropped,
}

impl ChunkKind {
    ghost use Rattle.std.specs.Prelude.{◌≡◌};
    ghost use Rattle.asm_layout.specs.Placement.{rank};

    /// Its place in the order of kinds: code, and then memory from its beginning on.
    pub fn rank(self) -> u8
        ensures { result ≡ rank self }
    {
        self as u8
    }
}

/// What one file puts into one section, or the bytes of a common symbol.
#[derive(Clone, Copy, Debug)]
pub struct Chunk {
    pub kind: ChunkKind,
    /// How many bytes it has.
    pub size: u32,
    /// What its address is a multiple of; 0 says as little as 1.
    pub align: u32,
}
