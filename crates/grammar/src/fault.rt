//! What is wrong with a line of a listing, by kinds.

ghost use Rattle.std.specs.Prelude.{◌≡◌};

use std::fmt;

/// What is wrong with a line of a listing. Where several kinds hold of one line, the least is
/// reported.
#[derive(Clone, Copy, Debug, PartialEq, Eq)]
pub enum ListingFaultKind {
    /// A byte of the line, its comment included, is neither a tab nor from 0x20 to 0x7E.
    NotAscii = 1,
    /// The first token is no directive, no instruction and no label.
    Word,
    /// The count of tokens is wrong, or a token does not have its operand's shape.
    Operand,
    /// A number is outside its range, a `.bytes` line has too many bytes, or the bytes or the
    /// granule of a line are not wholly in RAM.
    Range,
    /// A label's name is malformed, or no line defines a target's name.
    Label,
    /// A line before this one defines the name or sets the register, or `.ram` comes after a line
    /// that sizes or fills RAM.
    Twice,
    /// There is no such capability.
    Capability,
    /// A register is set before the first hart, or the listing has no hart.
    NoHart,
    /// The size of RAM is not allowed, the listing is too long, it has too many harts or
    /// instructions, or it has no instruction.
    Size,
    /// Out of memory, which says nothing of the listing.
    NoMemory,
}

impl ListingFaultKind {
    ghost use Rattle.grammar.specs.Faults.{listing_fault_number, listing_fault_name};

    /// The number by which reports of faults name the kind.
    pub fn number(self) -> u8
        ensures { result ≡ listing_fault_number self }
    {
        self as u8
    }

    /// The kind's name.
    pub fn name(self) -> &'static str
        ensures { result.now ≡ listing_fault_name self }
    {
        match self {
            ListingFaultKind::NotAscii => "NotAscii",
            ListingFaultKind::Word => "Word",
            ListingFaultKind::Operand => "Operand",
            ListingFaultKind::Range => "Range",
            ListingFaultKind::Label => "Label",
            ListingFaultKind::Twice => "Twice",
            ListingFaultKind::Capability => "Capability",
            ListingFaultKind::NoHart => "NoHart",
            ListingFaultKind::Size => "Size",
            ListingFaultKind::NoMemory => "NoMemory",
        }
    }
}

impl fmt::Display for ListingFaultKind {
    ghost use Rattle.std.specs.Prelude.{Some};
    ghost use Rattle.grammar.specs.Faults.{listing_fault_text};

    ghost output = { λ kind. Some (listing_fault_text kind) };

    fn fmt<W: fmt::Write>(&self, f: &mut fmt::Formatter<W>) -> fmt::Result {
        write!(f, "{} {}", self.number(), self.name())
    }
}
