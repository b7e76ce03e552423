//! Statements of assembly, as far as they can be read.

use asm_expansions::Operation;
use asm_expressions::Node;
use asm_names::{Relocation, SectionKind};
use asm_tokens::AsmFault;

/// What an operand of a statement is, registers aside.
#[derive(Clone, Copy, Debug, PartialEq, Eq)]
pub enum Role {
    /// A number or a place, of a directive.
    Data,
    /// A number that has to be known while the file is read: of a directive, or the constant of
    /// `li`.
    Early,
    /// An offset that has to be 0, and known while the file is read.
    Zero,
    /// An immediate, or the offset of a memory operand.
    Immediate,
    /// The instruction that a branch or a jump goes to.
    Target,
    /// What a pair of instructions reaches.
    Symbol,
    /// A name. It has no nodes.
    Name,
    /// A string. It has no nodes.
    String,
    /// Nothing: it is left out between its commas, or after the last one. It has no nodes.
    Absent,
}

/// An operand: an expression, a name or a string.
#[derive(Clone, Copy, Debug, PartialEq, Eq)]
pub struct Operand {
    pub role: Role,
    /// The operator of relocation around an expression, which is never `Relocation::Outside`.
    pub relocation: Option<Relocation>,
    /// The number of its first token in the file, from 0 on.
    pub first: usize,
    /// How many nodes the statement has up to its last one. Its own begin where those of the
    /// operand before it end.
    pub end: usize,
}

/// What a statement is besides its labels. A number is that of a token in the file, from 0 on: of
/// the directive's or the instruction's name, or of the symbol where it says so. The operands of
/// each are listed in order; where the statement has a fault there may be fewer.
#[derive(Clone, Copy, Debug, PartialEq, Eq)]
pub enum Body {
    /// Nothing, or a directive that says nothing.
    Nothing,
    /// An instruction, with its operation unless the statement has a fault. Operand: its value;
    /// without one the value is 0.
    Instruction(usize, Option<Operation>),
    /// An instruction that assemblers know and the machine hasn't.
    OutsideInstruction(usize),
    /// No instruction.
    UnknownInstruction(usize),
    /// `.text` and the like: the section of the directive's own name.
    PlainSection(usize),
    /// `.section`: its name begins with the token of the first number, and ends before that of the
    /// second; the kind is what its flags say, if it has flags.
    Section(usize, usize, Option<SectionKind>),
    /// Back to the section before.
    Previous,
    /// Names that other files see. Operands: the names.
    Global,
    /// A symbol with a value, by its name. Operand: the value.
    Set(usize),
    /// The bytes of a symbol, by its name. Operand: their number.
    Size(usize),
    /// A symbol of zeros, by its name. Operands: the bytes; its alignment, if that is said.
    Comm(usize),
    /// Padding to a power of 2. Operands: the exponent; the byte, and the most bytes, if they are
    /// said.
    Align(usize),
    /// Padding to a number of bytes. Operands: that number; the byte, and the most bytes, if they
    /// are said.
    Balign(usize),
    /// Numbers of so many bytes. Operands: the numbers.
    Data(usize, u8),
    /// Capabilities. Operands: what they are of.
    Chericap(usize),
    /// Bytes that are all the same. Operands: their number; the byte, if it is said.
    Zero(usize),
    /// Strings. Operands: the strings.
    Ascii(usize),
    /// Strings with a 0 after each. Operands: the strings.
    Asciz(usize),
    /// A directive that assemblers know and this one refuses.
    OutsideDirective(usize),
    /// No directive.
    UnknownDirective(usize),
}

/// A statement: what was read of it before its fault, if it has one.
#[derive(Drop)]
pub struct Statement {
    /// The number of its first token in the file, from 0 on.
    pub first: usize,
    /// How many labels it begins with: names, and decimal digits of local labels. Each is a token
    /// and a colon, so that the label k from 0 on is the token `first + 2 * k`.
    pub labels: usize,
    pub body: Body,
    pub operands: Vec<Operand>,
    pub nodes: Vec<Node>,
    /// Why it can't be read to its end, at the first token that can't be where it is.
    pub fault: Option<AsmFault>,
}
