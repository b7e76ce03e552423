//! Names of registers, of memory and of the causes of traps.

ghost use Rattle.std.specs.Prelude.{◌≡◌, Some};
ghost use Rattle.std.specs.Fmt.{DisplaysOnOk};
ghost use Rattle.report_lines.specs.Names.{address_of_granule, cause_name, place_name};
ghost use Rattle.report_lines.specs.Names.{trapped_place};

use crate::digits::Hex;
use cheri_model::{GRANULE_BYTES, RAM_BASE, Trap};
use std::fmt;
use text_numbers::Hex64;

/// A place that has a value: `c5`, `pcc`, or `mem` and the address of a granule.
#[derive(Clone, Copy, Debug, PartialEq, Eq)]
pub enum PlaceName {
    /// The register with this number.
    Register(u8),
    /// A hart's PCC.
    Pcc,
    /// The granule at this address.
    Granule(u64),
}

impl PlaceName {
    /// The place that a trap names by its number of a register: 32 is PCC.
    pub fn of_trap(reg: u8) -> PlaceName
        ensures { result ≡ trapped_place reg }
    {
        if reg == Trap::PCC {
            PlaceName::Pcc
        } else {
            PlaceName::Register(reg)
        }
    }
}

impl fmt::Display for PlaceName {
    ghost output = { λ p. Some (place_name p) };

    fn fmt<W: fmt::Write>(&self, f: &mut fmt::Formatter<W>) -> fmt::Result {
        match *self {
            PlaceName::Register(number) => write!(f, "c{number}"),
            PlaceName::Pcc => f.write_str("pcc"),
            PlaceName::Granule(address) => write!(f, "mem {}", Hex64(address)),
        }
    }
}

/// A trap's cause by its name, as `Length`; a number that is no cause, in decimal.
#[derive(Clone, Copy)]
pub struct CauseName(pub u8);

impl fmt::Display for CauseName {
    ghost output = { λ c. Some (cause_name c.0) };

    fn fmt<W: fmt::Write>(&self, f: &mut fmt::Formatter<W>) -> fmt::Result {
        match self.0 {
            Trap::TAG => f.write_str("Tag"),
            Trap::SEAL => f.write_str("Seal"),
            Trap::EXECUTE => f.write_str("Execute"),
            Trap::LOAD => f.write_str("Load"),
            Trap::STORE => f.write_str("Store"),
            Trap::STORE_CAP => f.write_str("StoreCap"),
            Trap::STORE_LOCAL => f.write_str("StoreLocal"),
            Trap::LENGTH => f.write_str("Length"),
            Trap::ALIGNMENT => f.write_str("Align"),
            Trap::PLACE => f.write_str("Place"),
            Trap::FETCH => f.write_str("Fetch"),
            Trap::TYPE => f.write_str("Type"),
            Trap::CINVOKE => f.write_str("CInvoke"),
            number => write!(f, "{number}"),
        }
    }
}

/// The address of a granule, by its number from 0 on.
pub fn granule_address(number: usize) -> Hex
    ensures number { result.number ≡ address_of_granule number }
    ensures width { result.width ≡ 16 }
{
    Hex::new(
        u128::from(RAM_BASE) + u128::from(GRANULE_BYTES) * number as u128,
        16,
    )
}
