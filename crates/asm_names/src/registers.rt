//! The names of registers: x names, of integers, and c names, of capabilities.
#![tactic(auto, unfolding(crate::proofs::Unfold::registers))]

ghost use Rattle.std.specs.Prelude.{◌≡◌};
ghost use Rattle.cheri_model.specs.instructions.Tables.{found_at};
ghost use Rattle.asm_names.specs.Registers.{
  register_table,
  register_numbered,
  numbered,
  table_named,
  integer_named,
  capability_named,
  register_named,
};

use cheri_model::Reg;
use cheri_model::table::found_at;

/// What a register's name says of its value.
#[derive(Clone, Copy, Debug, PartialEq, Eq)]
pub enum RegisterKind {
    /// An integer: an x name.
    Integer,
    /// A capability: a c name.
    Capability,
}

/// A register as it is named.
#[derive(Clone, Copy, Debug, PartialEq, Eq)]
pub struct RegisterName {
    pub kind: RegisterKind,
    pub register: Reg,
}

// The x names that are no numbers, without `zero`. With `c` before them they are c names.
const NAMES: &[(&str, u8)] = &[
    ("ra", 1),
    ("sp", 2),
    ("gp", 3),
    ("tp", 4),
    ("t0", 5),
    ("t1", 6),
    ("t2", 7),
    ("fp", 8),
    ("s0", 8),
    ("s1", 9),
    ("a0", 10),
    ("a1", 11),
    ("a2", 12),
    ("a3", 13),
    ("a4", 14),
    ("a5", 15),
    ("a6", 16),
    ("a7", 17),
    ("s2", 18),
    ("s3", 19),
    ("s4", 20),
    ("s5", 21),
    ("s6", 22),
    ("s7", 23),
    ("s8", 24),
    ("s9", 25),
    ("s10", 26),
    ("s11", 27),
    ("t3", 28),
    ("t4", 29),
    ("t5", 30),
    ("t6", 31),
];

/// The register of a number, if there is one.
fn register_numbered(number: u8) -> Option<Reg>
    ensures { result ≡ register_numbered number }
{
    if number < 32 {
        Some(Reg::new(number))
    } else {
        None
    }
}

/// The register whose number these digits are, without a leading 0.
fn numbered(digits: &[u8]) -> Option<Reg>
    ensures { result ≡ numbered digits.now }
{
    match digits {
        [ones @ b'0'..=b'9'] => register_numbered(*ones - b'0'),
        [tens @ b'1'..=b'9', ones @ b'0'..=b'9'] => {
            register_numbered(10 * (*tens - b'0') + (*ones - b'0'))
        }
        _ => None,
    }
}

/// The number of one of the names of the table.
fn table_number(name: &[u8]) -> Option<u8>
    ensures { result ≡ found_at register_table name.now }
{
    found_at(NAMES, name)
}

/// The register of one of the names of the table.
fn table_named(name: &[u8]) -> Option<Reg>
    ensures { result ≡ table_named name.now }
{
    let number = table_number(name)?;
    register_numbered(number)
}

/// The register of an x name.
fn integer_named(name: &[u8]) -> Option<Reg>
    ensures { result ≡ integer_named name.now }
{
    if name == b"zero".as_slice() {
        return Some(Reg::new(0));
    }
    match name {
        [b'x', digits @ ..] => numbered(digits),
        _ => table_named(name),
    }
}

/// The register of a c name.
fn capability_named(name: &[u8]) -> Option<Reg>
    ensures { result ≡ capability_named name.now }
{
    if name == b"cnull".as_slice() {
        return Some(Reg::new(0));
    }
    let [b'c', rest @ ..] = name else {
        return None;
    };
    match numbered(rest) {
        Some(register) => Some(register),
        None => table_named(rest),
    }
}

/// The register of a name, and of which kind the name is; `None` where it is no register's.
pub fn register_named(name: &[u8]) -> Option<RegisterName>
    ensures { result ≡ register_named name.now }
{
    if let Some(register) = integer_named(name) {
        let kind = RegisterKind::Integer;
        return Some(RegisterName { kind, register });
    }
    let register = capability_named(name)?;
    let kind = RegisterKind::Capability;
    Some(RegisterName { kind, register })
}
