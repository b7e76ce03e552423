//! The operands that instructions take.
#![tactic(auto, unfolding(crate::specs::Forms::forms_of))]

ghost use Rattle.std.specs.Prelude.{◌≡◌};
ghost use Rattle.asm_statements.specs.Forms.{forms_of, count_of, last_of};

use asm_mnemonics::Mnemonic;

/// An operand that an instruction takes.
#[derive(Clone, Copy, Debug, PartialEq, Eq)]
pub enum Wanted {
    /// An x name.
    Integer,
    /// A c name.
    Capability,
    /// An immediate.
    Immediate,
    /// Memory: an offset, if any, and a c name in brackets.
    Memory,
    /// Memory, where the offset has to be 0.
    Pointer,
    /// What a branch or a jump goes to.
    Target,
    /// What a pair of instructions reaches.
    Symbol,
    /// A constant that has to be known at once.
    Constant,
    /// The accesses of a fence, if they are said.
    Fence,
}

/// The operands of an instruction, in order.
#[derive(Clone, Copy, Debug, PartialEq, Eq)]
pub enum Form {
    None,
    One(Wanted),
    Two(Wanted, Wanted),
    Three(Wanted, Wanted, Wanted),
}

impl Form {
    /// How many operands these are.
    pub(crate) fn count(self) -> usize
        ensures { result ≡ count_of self }
    {
        match self {
            Form::None => 0,
            Form::One(_) => 1,
            Form::Two(_, _) => 2,
            Form::Three(_, _, _) => 3,
        }
    }

    /// The last of them.
    pub(crate) fn last(self) -> Option<Wanted>
        ensures { result ≡ last_of self }
    {
        match self {
            Form::None => None,
            Form::One(last) | Form::Two(_, last) | Form::Three(_, _, last) => Some(last),
        }
    }
}

/// The forms in which the operands of an instruction's name may be written.
pub(crate) fn forms_of(mnemonic: Mnemonic) -> &'static [Form]
    ensures { result.now ≡ forms_of mnemonic }
{
    match mnemonic {
        Mnemonic::Three(_) | Mnemonic::PseudoThree(_) => {
            &[Form::Three(Wanted::Integer, Wanted::Integer, Wanted::Integer)]
        }
        Mnemonic::ThreeOrImmediate(_, _)
        | Mnemonic::ThreeOrShift(_, _)
        | Mnemonic::ThreeOrWordShift(_, _) => {
            &[
                Form::Three(Wanted::Integer, Wanted::Integer, Wanted::Integer),
                Form::Three(Wanted::Integer, Wanted::Integer, Wanted::Immediate),
            ]
        }
        Mnemonic::Immediate(_) | Mnemonic::Shift(_) | Mnemonic::WordShift(_) => {
            &[Form::Three(Wanted::Integer, Wanted::Integer, Wanted::Immediate)]
        }
        Mnemonic::Lui => { &[Form::Two(Wanted::Integer, Wanted::Immediate)] }
        Mnemonic::Auipcc => { &[Form::Two(Wanted::Capability, Wanted::Immediate)] }
        Mnemonic::Load(_) => {
            &[
                Form::Two(Wanted::Integer, Wanted::Memory),
                Form::Two(Wanted::Integer, Wanted::Symbol),
            ]
        }
        Mnemonic::LoadAlone(_) | Mnemonic::StoreAlone(_) => {
            &[Form::Two(Wanted::Integer, Wanted::Pointer)]
        }
        Mnemonic::Store(_) => { &[Form::Two(Wanted::Integer, Wanted::Memory)] }
        Mnemonic::LoadCapability | Mnemonic::StoreCapability => {
            &[Form::Two(Wanted::Capability, Wanted::Memory)]
        }
        Mnemonic::LoadCapabilityAlone | Mnemonic::StoreCapabilityAlone => {
            &[Form::Two(Wanted::Capability, Wanted::Pointer)]
        }
        Mnemonic::Swap => {
            &[Form::Three(Wanted::Capability, Wanted::Capability, Wanted::Pointer)]
        }
        Mnemonic::Branch(_) | Mnemonic::PseudoBranch(_) => {
            &[Form::Three(Wanted::Integer, Wanted::Integer, Wanted::Target)]
        }
        Mnemonic::ZeroBranch(_) => { &[Form::Two(Wanted::Integer, Wanted::Target)] }
        Mnemonic::Jump => { &[Form::One(Wanted::Target)] }
        Mnemonic::JumpAndLink => {
            &[
                Form::Two(Wanted::Capability, Wanted::Target),
                Form::One(Wanted::Target),
            ]
        }
        Mnemonic::JumpRegisterAndLink => {
            &[
                Form::One(Wanted::Capability),
                Form::One(Wanted::Memory),
                Form::Two(Wanted::Capability, Wanted::Capability),
                Form::Two(Wanted::Capability, Wanted::Memory),
                Form::Three(Wanted::Capability, Wanted::Capability, Wanted::Immediate),
            ]
        }
        Mnemonic::JumpRegisterPlain | Mnemonic::Modify(_) | Mnemonic::Invoke => {
            &[Form::Two(Wanted::Capability, Wanted::Capability)]
        }
        Mnemonic::JumpRegister => { &[Form::One(Wanted::Capability), Form::One(Wanted::Memory)] }
        Mnemonic::Return | Mnemonic::Alone | Mnemonic::Unimp | Mnemonic::Nop => { &[Form::None] }
        Mnemonic::Fence => { &[Form::One(Wanted::Fence)] }
        Mnemonic::PseudoTwo(_) | Mnemonic::Round(_) => {
            &[Form::Two(Wanted::Integer, Wanted::Integer)]
        }
        Mnemonic::Li => { &[Form::Two(Wanted::Integer, Wanted::Constant)] }
        Mnemonic::Inspect(_) => { &[Form::Two(Wanted::Integer, Wanted::Capability)] }
        Mnemonic::ModifyBy(_) => {
            &[Form::Three(Wanted::Capability, Wanted::Capability, Wanted::Integer)]
        }
        Mnemonic::IncOffset | Mnemonic::SetBounds => {
            &[
                Form::Three(Wanted::Capability, Wanted::Capability, Wanted::Integer),
                Form::Three(Wanted::Capability, Wanted::Capability, Wanted::Immediate),
            ]
        }
        Mnemonic::IncOffsetImm | Mnemonic::SetBoundsImm => {
            &[Form::Three(Wanted::Capability, Wanted::Capability, Wanted::Immediate)]
        }
        Mnemonic::ModifyTogether(_) => {
            &[Form::Three(Wanted::Capability, Wanted::Capability, Wanted::Capability)]
        }
        Mnemonic::Compare(_) | Mnemonic::Csub => {
            &[Form::Three(Wanted::Integer, Wanted::Capability, Wanted::Capability)]
        }
        Mnemonic::Call => {
            &[
                Form::One(Wanted::Symbol),
                Form::Two(Wanted::Capability, Wanted::Symbol),
            ]
        }
        Mnemonic::Tail => { &[Form::One(Wanted::Symbol)] }
        Mnemonic::Cllc | Mnemonic::Clgc => { &[Form::Two(Wanted::Capability, Wanted::Symbol)] }
        Mnemonic::La => { &[Form::Two(Wanted::Integer, Wanted::Symbol)] }
    }
}
