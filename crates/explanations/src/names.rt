//! Names of places, and of the places of the image that values come from.

ghost use Rattle.std.specs.Prelude.{◌≡◌, ◌++◌, OnOk, Some, string_bytes};
ghost use Rattle.explanations.specs.Names.{spot_name, swept_name, origin_name};

use cheri_model::NoMemory;
use itoa::Buffer;
use origins::{Place, Spot};
use report_lines::granule_address;
use std::fmt;

/// A place as the hart that steps names it: `c7`, `pcc` or `mem` and a granule's address.
#[derive(Clone, Copy)]
pub(crate) struct SpotName(pub Spot);

impl fmt::Display for SpotName {
    ghost output = { λ name. Some (spot_name name.0) };

    fn fmt<W: fmt::Write>(&self, f: &mut fmt::Formatter<W>) -> fmt::Result {
        match self.0 {
            Spot::Pcc => f.write_str("pcc"),
            Spot::Register(number) => write!(f, "c{number}"),
            Spot::Granule(number) => write!(f, "mem {}", granule_address(number as usize)),
        }
    }
}

/// A place that a sweep cleared: `0:c7`, `0:pcc` or `mem` and a granule's address.
#[derive(Clone, Copy)]
pub(crate) struct SweptName(pub Place);

impl fmt::Display for SweptName {
    ghost output = { λ name. Some (swept_name name.0) };

    fn fmt<W: fmt::Write>(&self, f: &mut fmt::Formatter<W>) -> fmt::Result {
        match self.0 {
            Place::PccOf(hart) => write!(f, "{hart}:pcc"),
            Place::RegisterOf { hart, number } => write!(f, "{hart}:c{number}"),
            Place::GranuleOf(number) => write!(f, "mem {}", granule_address(number as usize)),
        }
    }
}

/// Appends a place as `SpotName` shows it. A formatter takes twice the time, here and below.
pub(crate) fn write_spot(out: &mut String, spot: Spot) -> Result<(), NoMemory>
    ensures { OnOk result (string_bytes out.new ≡ string_bytes out.old ++ spot_name spot) }
{
    match spot {
        Spot::Pcc => out.push_str("pcc"),
        Spot::Register(number) => {
            out.push_str("c")?;
            out.push_str(Buffer::new().format(number))
        }
        Spot::Granule(number) => {
            out.push_str("mem ")?;
            out.push_str(Buffer::new().format(granule_address(number as usize)))
        }
    }
}

/// Appends the place of the image that has a value's capability: `0:c7`, `0:pcc` or `mem:` and a
/// granule's address.
pub(crate) fn write_origin(out: &mut String, origin: Place) -> Result<(), NoMemory>
    ensures { OnOk result (string_bytes out.new ≡ string_bytes out.old ++ origin_name origin) }
{
    match origin {
        Place::PccOf(hart) => {
            out.push_str(Buffer::new().format(hart))?;
            out.push_str(":pcc")
        }
        Place::RegisterOf { hart, number } => {
            out.push_str(Buffer::new().format(hart))?;
            out.push_str(":c")?;
            out.push_str(Buffer::new().format(number))
        }
        Place::GranuleOf(number) => {
            out.push_str("mem:")?;
            out.push_str(Buffer::new().format(granule_address(number as usize)))
        }
    }
}
