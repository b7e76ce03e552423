//! The faults that only this program has.

ghost use Rattle.std.specs.Prelude.{◌≡◌};
ghost use Rattle.explore_program.specs.Faults.{is_refusal, kind_text, own_text};
ghost use Rattle.explore_program.specs.Faults.{refused_properties, refused_slices, text_fault};

use condition_texts::TextFault;
use explore_properties::{PropertyFault, PropertyPlace};
use inputs::InputFault;
use program_io::ProgramFault;
use sample_slices::{SliceError, SliceFault, SliceKind};
use std::fmt;

/// Why the program answers nothing, or not all.
pub type Fault = program_io::Fault<OwnFault>;

/// A fault that only this program has. Bytes are counted from 0.
#[derive(Clone, Copy, Debug, PartialEq, Eq)]
pub enum OwnFault {
    /// The word of the condition that begins at this byte cannot stand there.
    BadCondition(usize),
    /// The item that begins at this byte is none, or one too many.
    BadPlace(usize),
    /// What begins at this place of the listing is no property, or one too many.
    BadProperty(PropertyPlace),
    /// The map's file cannot be read.
    CannotReadMap,
    /// The map's line of this number is none of a map of this program.
    Map(usize),
    /// The file of slices cannot be read.
    CannotReadSlices,
    /// A line is no slice of the listing, or doesn't go with those before it.
    Slice(SliceFault),
    /// The property on the line of this number is violated; the answer was printed whole.
    Violated(usize),
}

/// The number and the name of what is wrong with a slice.
fn kind_text(kind: SliceKind) -> &'static str
    ensures { result.now ≡ kind_text kind }
{
    match kind {
        SliceKind::Form => "1 Form",
        SliceKind::Other => "2 Other",
        SliceKind::Twice => "3 Twice",
    }
}

impl fmt::Display for OwnFault {
    ghost use Rattle.std.specs.Prelude.{Some};

    ghost output = { λ fault. Some (own_text fault) };

    fn fmt<W: fmt::Write>(&self, f: &mut fmt::Formatter<W>) -> fmt::Result {
        match *self {
            OwnFault::BadCondition(byte) => write!(f, "bad condition at byte {byte}"),
            OwnFault::BadPlace(byte) => write!(f, "bad place at byte {byte}"),
            OwnFault::BadProperty(PropertyPlace { line, byte }) => {
                write!(f, "bad property at line {line} byte {byte}")
            }
            OwnFault::CannotReadMap => f.write_str("cannot read map"),
            OwnFault::Map(line) => write!(f, "map line {line}"),
            OwnFault::CannotReadSlices => f.write_str("cannot read slices"),
            OwnFault::Slice(SliceFault { line, kind }) => {
                write!(f, "slice line {line}: {}", kind_text(kind))
            }
            OwnFault::Violated(line) => write!(f, "property line {line}: violated"),
        }
    }
}

impl ProgramFault for OwnFault {
    ghost refusal = { λ fault. is_refusal fault };

    fn is_refusal(self) -> bool {
        match self {
            OwnFault::BadCondition(_) | OwnFault::BadPlace(_) => true,
            OwnFault::BadProperty(_) | OwnFault::Violated(_) => true,
            OwnFault::Map(_) | OwnFault::Slice(_) => true,
            OwnFault::CannotReadMap | OwnFault::CannotReadSlices => false,
        }
    }
}

/// Why a text of the command line is no condition, or no items.
pub fn text_fault(refused: TextFault) -> Fault
    ensures { result ≡ text_fault refused }
{
    match refused {
        TextFault::Condition(byte) => Fault::Own(OwnFault::BadCondition(byte)),
        TextFault::Place(byte) => Fault::Own(OwnFault::BadPlace(byte)),
        TextFault::NoMemory => Fault::Input(InputFault::NoMemory),
    }
}

/// Why a listing's properties were refused.
pub fn property_fault(refused: PropertyFault) -> Fault
    ensures { result ≡ refused_properties refused }
{
    match refused {
        PropertyFault::Place(place) => Fault::Own(OwnFault::BadProperty(place)),
        PropertyFault::NoMemory => Fault::Input(InputFault::NoMemory),
    }
}

/// Why slices were refused.
pub fn slice_fault(refused: SliceError) -> Fault
    ensures { result ≡ refused_slices refused }
{
    match refused {
        SliceError::Slice(fault) => Fault::Own(OwnFault::Slice(fault)),
        SliceError::NoMemory => Fault::Input(InputFault::NoMemory),
    }
}
