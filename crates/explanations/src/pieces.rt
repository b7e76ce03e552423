//! Short texts with a number in them, each appended at once.
#![tactic(auto, using(crate::proofs::PieceLemmas::pieces))]

ghost use Rattle.std.specs.Prelude.{◌≡◌, ◌++◌, OnOk, codes, decimal, string_bytes};
ghost use Rattle.explanations.specs.Pieces.{from_register_text, lead_text};

use cheri_model::{NoMemory, Reg};
use itoa::{Buffer, Integer, write_digits};
use report_lines::{BUFFER, put_before};

/// What stands before a register in an instruction.
#[derive(Clone, Copy)]
pub(crate) enum Lead {
    /// It is the first operand.
    Space,
    /// It is a later one.
    Comma,
    /// It has the address of an access.
    Bracket,
}

/// A register of an instruction, after what stands before it.
#[derive(Clone, Copy)]
struct Operand {
    lead: Lead,
    register: Reg,
}

impl Integer for Operand {
    const MAX_STR_LEN: usize = 6;

    ghost MAX_STR_LEN = { 6 };

    ghost text = { λ o. lead_text o.lead ++ decimal o.register };

    fn write(self, buf: &mut [u8; BUFFER]) -> usize {
        let start = write_digits(u64::from(self.register.number()), buf, BUFFER);
        match self.lead {
            Lead::Space => put_before(buf, start, b" c"),
            Lead::Comma => put_before(buf, start, b", c"),
            Lead::Bracket => put_before(buf, start, b"(c"),
        }
    }
}

/// A register as a hart names it, and a space.
#[derive(Clone, Copy)]
struct RegisterStart(u8);

impl Integer for RegisterStart {
    const MAX_STR_LEN: usize = 5;

    ghost MAX_STR_LEN = { 5 };

    ghost text = { λ r. codes "c" ++ (decimal r.0 ++ codes " ") };

    fn write(self, buf: &mut [u8; BUFFER]) -> usize {
        let end = put_before(buf, BUFFER, b" ");
        let start = write_digits(u64::from(self.0), buf, end);
        put_before(buf, start, b"c")
    }
}

/// What stands before an instruction: the number of its line.
#[derive(Clone, Copy)]
struct LineStart(u32);

impl Integer for LineStart {
    const MAX_STR_LEN: usize = 20;

    ghost MAX_STR_LEN = { 20 };

    ghost text = { λ l. codes " | line " ++ (decimal l.0 ++ codes ": ") };

    fn write(self, buf: &mut [u8; BUFFER]) -> usize {
        let end = put_before(buf, BUFFER, b": ");
        let start = write_digits(u64::from(self.0), buf, end);
        put_before(buf, start, b" | line ")
    }
}

/// Where a value comes from that was in a register of the image.
#[derive(Clone, Copy)]
struct FromRegister {
    hart: u8,
    number: u8,
}

impl Integer for FromRegister {
    const MAX_STR_LEN: usize = 14;

    ghost MAX_STR_LEN = { 14 };

    ghost text = { λ r. from_register_text r.hart r.number };

    fn write(self, buf: &mut [u8; BUFFER]) -> usize {
        let number = write_digits(u64::from(self.number), buf, BUFFER);
        let end = put_before(buf, number, b":c");
        let hart = write_digits(u64::from(self.hart), buf, end);
        put_before(buf, hart, b" from ")
    }
}

/// Appends a register of an instruction, after what stands before it.
pub(crate) fn write_operand(out: &mut String, lead: Lead, register: Reg) -> Result<(), NoMemory>
    ensures { OnOk result (string_bytes out.new
        ≡ string_bytes out.old ++ (lead_text lead ++ decimal register)) }
{
    out.push_str(Buffer::new().format(Operand { lead, register }))
}

/// Appends a register as a hart names it, and a space.
pub(crate) fn write_register_start(out: &mut String, number: u8) -> Result<(), NoMemory>
    ensures { OnOk result (string_bytes out.new
        ≡ string_bytes out.old ++ (codes "c" ++ (decimal number ++ codes " "))) }
{
    out.push_str(Buffer::new().format(RegisterStart(number)))
}

/// Appends where a value comes from that was in a register of the image.
pub(crate) fn write_from_register(out: &mut String, hart: u8, number: u8) -> Result<(), NoMemory>
    ensures { OnOk result (string_bytes out.new
        ≡ string_bytes out.old ++ from_register_text hart number) }
{
    out.push_str(Buffer::new().format(FromRegister { hart, number }))
}

/// Appends what stands before an instruction: the number of its line.
pub(crate) fn write_line_start(out: &mut String, line: u32) -> Result<(), NoMemory>
    ensures { OnOk result (string_bytes out.new
        ≡ string_bytes out.old ++ (codes " | line " ++ (decimal line ++ codes ": "))) }
{
    out.push_str(Buffer::new().format(LineStart(line)))
}
