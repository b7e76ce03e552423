//! Where statements stand, once everything has its address.
#![tactic(auto, unfolding(crate::proofs::Unfold::standing))]

ghost use Rattle.std.specs.Prelude.{◌≡◌};
ghost use Rattle.asm_files.specs.Faults.{GivesAll};
ghost use Rattle.asm_late.specs.Late.{fault_of, late_parts, operand_value};
ghost use Rattle.asm_code.specs.Standing.{
  address_of,
  at_operand,
  index_of,
  kind_of,
  offset_of,
  place_of,
  stand_of,
};

use asm_files::{AssemblyFault, Stand};
use asm_late::Late;
use asm_layout::ChunkKind;
use asm_tokens::AsmFaultKind;
use asm_values::{Location, Value};
use cheri_model::{CODE_BASE, INSTRUCTION_BYTES};
use std::alloc::Global;

/// A statement, by its number in its file, of a program in which everything has its address.
#[derive(Clone, Copy)]
pub struct Site<'p, 'a> {
    pub late: Late<'p, 'a>,
    pub file: usize,
    pub number: usize,
}

/// So many bytes from the beginning of a statement's chunk: where the item of a number is, of items
/// of a width that begin with the statement.
fn offset_of(stand: Stand, width: u8, item: usize) -> u64
    ensures { result ≡ offset_of stand width item }
{
    ((u128::from(stand.offset) + u128::from(width) * item as u128) % (1 << 64)) as u64
}

impl Site<'_, '_> {
    /// Where it stands.
    pub fn stand(self) -> Stand
        ensures { result ≡ stand_of (late_parts self.entry.late) self.entry.file self.entry.number }
    {
        self.late.program.stand_in(self.file, self.number)
    }

    /// The kind of the chunk that it stands in.
    pub fn kind(self) -> ChunkKind
        ensures { result ≡ kind_of (late_parts self.entry.late) self.entry.file self.entry.number }
    {
        self.late.places().kind_of(self.stand().chunk)
    }

    /// The place of the item of a number, of items of a width that begin with the statement.
    pub fn place(self, width: u8, item: usize) -> Location
        ensures { result ≡ place_of (late_parts self.entry.late) self.entry.file self.entry.number
            width item }
    {
        let stand = self.stand();
        Location {
            chunk: stand.chunk,
            offset: offset_of(stand, width, item),
            symbol: None,
        }
    }

    /// The address of that place.
    pub fn address(self, width: u8, item: usize) -> u64
        ensures { result ≡ address_of (late_parts self.entry.late) self.entry.file
            self.entry.number width item }
    {
        let stand = self.stand();
        let addresses = self.late.linked.layout.addresses.as_slice();
        let start = match addresses.get(stand.chunk as usize) {
            Some(start) => *start,
            None => 0,
        };
        start.wrapping_add(offset_of(stand, width, item))
    }

    /// The number of its first instruction.
    pub fn index(self) -> u64
        ensures { result ≡ index_of (late_parts self.entry.late) self.entry.file self.entry.number }
    {
        self.address(0, 0).wrapping_sub(CODE_BASE) / INSTRUCTION_BYTES
    }

    /// The value of an operand, of which `.` is the place of the item of a number.
    pub fn value(
        self,
        alloc: Global,
        operand: usize,
        width: u8,
        item: usize,
    ) -> Result<Value, AssemblyFault>
        ensures { GivesAll (λ value. value) result
            (operand_value (late_parts self.entry.late) self.entry.file self.entry.number operand
            (place_of (late_parts self.entry.late) self.entry.file self.entry.number width item)) }
    {
        let dot = self.place(width, item);
        self.late
            .operand_value(alloc, self.file, self.number, operand, dot)
    }

    /// A fault of an operand, at its first token.
    pub fn fault(self, operand: usize, kind: AsmFaultKind) -> AssemblyFault
        ensures { result ≡ fault_of (late_parts self.entry.late) self.entry.file self.entry.number
            operand kind }
    {
        self.late.fault_of(self.file, self.number, operand, kind)
    }

    /// The number that an operand is, or what is wrong with it, at its first token.
    pub fn number_or(
        self,
        operand: usize,
        number: Result<u64, AsmFaultKind>,
    ) -> Result<u64, AssemblyFault>
        ensures { result ≡ at_operand (late_parts self.entry.late) self.entry.file
            self.entry.number operand number }
    {
        match number {
            Ok(number) => Ok(number),
            Err(kind) => Err(self.fault(operand, kind)),
        }
    }
}
