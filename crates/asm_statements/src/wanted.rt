//! Tokens that have to be where they are.
#![tactic(auto, unfolding(crate::proofs::Unfold::wanted))]

ghost use Rattle.std.specs.Prelude.{◌≡◌, ◌<◌, ◌≤◌, ◌+◌, IfOk, IsTrue, length};
ghost use Rattle.asm_statements.specs.Marks.{
  source,
  is_kind,
  is_register,
  comma_at,
  equals_at,
  open_at,
  close_at,
  name_at,
  string_at,
  end_at,
  register_at,
  relocation_at,
};

use crate::reader::Reader;
use asm_names::{RegisterKind, Relocation, register_named, relocation_of};
use asm_tokens::{AsmFault, AsmFaultKind};
use cheri_model::Reg;

/// Whether two names are of one kind.
fn is_kind(kind: RegisterKind, wanted: RegisterKind) -> bool
    ensures { result ≡ is_kind kind wanted }
{
    matches!(
        (kind, wanted),
        (RegisterKind::Integer, RegisterKind::Integer)
            | (RegisterKind::Capability, RegisterKind::Capability)
    )
}

impl Reader<'_> {
    /// The number of the token after a comma.
    pub(crate) fn comma(&self, at: usize) -> Result<usize, AsmFault>
        ensures is { result ≡ comma_at (source self.now) at }
        ensures room { IfOk result (λ next. next ≤ length self.now.tokens.now) }
    {
        if self.is_comma(at) {
            Ok(at + 1)
        } else {
            Err(self.fault(AsmFaultKind::Operand, at))
        }
    }

    /// The number of the token after a bracket that opens.
    pub(crate) fn open(&self, at: usize) -> Result<usize, AsmFault>
        ensures is { result ≡ open_at (source self.now) at }
        ensures room { IfOk result (λ next. next ≤ length self.now.tokens.now) }
    {
        if self.is_open(at) {
            Ok(at + 1)
        } else {
            Err(self.fault(AsmFaultKind::Operand, at))
        }
    }

    /// The number of the token after a bracket that closes.
    pub(crate) fn close(&self, at: usize) -> Result<usize, AsmFault>
        ensures is { result ≡ close_at (source self.now) at }
        ensures room { IfOk result (λ next. next ≤ length self.now.tokens.now) }
    {
        if self.is_close(at) {
            Ok(at + 1)
        } else {
            Err(self.fault(AsmFaultKind::Operand, at))
        }
    }

    /// The number of the token after a name.
    pub(crate) fn name(&self, at: usize) -> Result<usize, AsmFault>
        ensures is { result ≡ name_at (source self.now) at }
        ensures room { IfOk result (λ next. next ≤ length self.now.tokens.now) }
    {
        if self.is_name(at) {
            Ok(at + 1)
        } else {
            Err(self.fault(AsmFaultKind::Operand, at))
        }
    }

    /// The number of the token after a `=`.
    pub(crate) fn equals(&self, at: usize) -> Result<usize, AsmFault>
        ensures is { result ≡ equals_at (source self.now) at }
        ensures room { IfOk result (λ next. next ≤ length self.now.tokens.now) }
    {
        if self.is_equals(at) {
            Ok(at + 1)
        } else {
            Err(self.fault(AsmFaultKind::Operand, at))
        }
    }

    /// The number of the token after a string.
    pub(crate) fn string(&self, at: usize) -> Result<usize, AsmFault>
        ensures is { result ≡ string_at (source self.now) at }
        ensures room { IfOk result (λ next. next ≤ length self.now.tokens.now) }
    {
        if self.is_string(at) {
            Ok(at + 1)
        } else {
            Err(self.fault(AsmFaultKind::Operand, at))
        }
    }

    /// The statement has to end at a token.
    pub(crate) fn end(&self, at: usize) -> Result<(), AsmFault>
        ensures { result ≡ end_at (source self.now) at }
    {
        if self.is_end(at) {
            Ok(())
        } else {
            Err(self.fault(AsmFaultKind::Operand, at))
        }
    }

    /// Whether a token is a register's name.
    pub(crate) fn is_register(&self, at: usize) -> bool
        ensures is { result ≡ is_register (source self.now) at }
        ensures room { IsTrue result → at < length self.now.tokens.now }
    {
        if !self.is_name(at) {
            return false;
        }
        register_named(self.text(at)).is_some()
    }

    /// The register of a name of this kind.
    pub(crate) fn register(&self, kind: RegisterKind, at: usize) -> Result<Reg, AsmFault>
        ensures is { result ≡ register_at (source self.now) kind at }
        ensures room { IfOk result (λ _. at < length self.now.tokens.now) }
    {
        if !self.is_name(at) {
            return Err(self.fault(AsmFaultKind::Operand, at));
        }
        match register_named(self.text(at)) {
            Some(name) if is_kind(name.kind, kind) => Ok(name.register),
            Some(_) => Err(self.fault(AsmFaultKind::Register, at)),
            None => Err(self.fault(AsmFaultKind::Operand, at)),
        }
    }

    /// The operator of relocation of a name.
    pub(crate) fn relocation(&self, at: usize) -> Result<Relocation, AsmFault>
        ensures is { result ≡ relocation_at (source self.now) at }
        ensures room { IfOk result (λ _. at < length self.now.tokens.now) }
    {
        if !self.is_name(at) {
            return Err(self.fault(AsmFaultKind::Operand, at));
        }
        match relocation_of(self.text(at)) {
            Some(Relocation::Outside) => Err(self.fault(AsmFaultKind::Profile, at)),
            Some(relocation) => Ok(relocation),
            None => Err(self.fault(AsmFaultKind::Operand, at)),
        }
    }
}
