//! `.section` is read.
#![tactic(auto, unfolding(crate::proofs::Unfold::sections))]

ghost use Rattle.std.specs.Prelude.{◌≡◌, ◌<◌, ◌≤◌, IfOk, length};
ghost use Rattle.asm_statements.specs.Drafts.{Answers, parts_of};
ghost use Rattle.asm_statements.specs.Marks.{source};
ghost use Rattle.asm_statements.specs.Sections.{
  AnswersAt,
  flags_at,
  kind_after,
  kind_by_flags,
  name_or_fault,
  next_word,
  section,
  section_name_at,
  sign_at,
  type_after,
  type_at,
  word_at,
  words_after,
};

use crate::draft::Draft;
use crate::flags::{Flags, flags_of, is_nobits};
use crate::reader::Reader;
use crate::section_names::{name_end, push_section_name};
use crate::statement::Body;
use asm_names::{SectionKind, is_refused_section};
use asm_tokens::{AsmFault, AsmFaultKind, push_string};

impl Reader<'_> {
    /// A section's name may be this one; else the fault of its token.
    fn allow_section(&self, name: &[u8], at: usize) -> Result<(), AsmFault>
        ensures { result ≡ name_or_fault (source self.now) name.now at }
    {
        if name.is_empty() {
            return Err(self.fault(AsmFaultKind::Operand, at));
        }
        if is_refused_section(name) {
            return Err(self.fault(AsmFaultKind::Profile, at));
        }
        Ok(())
    }

    /// The number of the token after a section's name.
    fn section_name(&self, at: usize) -> Result<usize, AsmFault>
        requires { at ≤ length self.now.tokens.now }
        ensures is { AnswersAt result (section_name_at (source self.now) at) }
        ensures room { IfOk result (λ next. next ≤ length self.now.tokens.now) }
    {
        let end = name_end(self.tokens, at);
        let mut name = Vec::new(self.alloc);
        push_section_name(&mut name, self.tokens, at, end)?;
        self.allow_section(&name, at)?;
        Ok(end)
    }

    /// The flags of a section.
    fn flags(&self, at: usize) -> Result<Flags, AsmFault>
        ensures is { AnswersAt result (flags_at (source self.now) at) }
        ensures room { IfOk result (λ _. at < length self.now.tokens.now) }
    {
        if !self.is_string(at) {
            return Err(self.fault(AsmFaultKind::Operand, at));
        }
        let mut letters = Vec::new(self.alloc);
        push_string(&mut letters, self.text(at))?;
        let flags = flags_of(&letters);
        if flags.unknown {
            return Err(self.fault(AsmFaultKind::Operand, at));
        }
        if flags.threads {
            return Err(self.fault(AsmFaultKind::Profile, at));
        }
        Ok(flags)
    }

    /// The number of the token after an `@` or a `%`.
    fn sign(&self, at: usize) -> Result<usize, AsmFault>
        ensures is { result ≡ sign_at (source self.now) at }
        ensures room { IfOk result (λ next. next ≤ length self.now.tokens.now) }
    {
        if self.is_at(at) || self.is_percent(at) {
            Ok(at + 1)
        } else {
            Err(self.fault(AsmFaultKind::Operand, at))
        }
    }

    /// Whether the type of a section is that of zeros.
    fn section_type(&self, at: usize) -> Result<bool, AsmFault>
        ensures is { result ≡ type_at (source self.now) at }
        ensures room { IfOk result (λ _. at < length self.now.tokens.now) }
    {
        if !self.is_name(at) {
            return Err(self.fault(AsmFaultKind::Operand, at));
        }
        match is_nobits(self.text(at)) {
            Some(nobits) => Ok(nobits),
            None => Err(self.fault(AsmFaultKind::Profile, at)),
        }
    }

    /// The number of the token after a name or a number.
    fn word(&self, at: usize) -> Result<usize, AsmFault>
        ensures is { result ≡ word_at (source self.now) at }
        ensures room { IfOk result (λ next. next ≤ length self.now.tokens.now) }
    {
        if self.is_name(at) || self.is_number(at) {
            Ok(at + 1)
        } else {
            Err(self.fault(AsmFaultKind::Operand, at))
        }
    }

    /// A comma, and the number of the token after the name or number that follows it.
    fn next_word(&self, at: usize) -> Result<usize, AsmFault>
        ensures is { result ≡ next_word (source self.now) at }
        ensures room { IfOk result (λ next. next ≤ length self.now.tokens.now) }
    {
        let next = self.comma(at)?;
        self.word(next)
    }

    /// Names and numbers after commas, which say nothing.
    fn more_words(&self, at: usize) -> Result<usize, AsmFault>
        requires { at ≤ length self.now.tokens.now }
        ensures is { result ≡ words_after (source self.now) at }
        ensures room { IfOk result (λ next. next ≤ length self.now.tokens.now) }
    {
        let mut next = at;
        // There are no more of them than tokens.
        for _ in 0..self.tokens.len() {
            if !self.is_comma(next) {
                return Ok(next);
            }
            match self.next_word(next) {
                Ok(after) => next = after,
                Err(fault) => return Err(fault),
            }
        }
        Ok(next)
    }

    /// After a section's flags: whether a type says that it is zeros, and the number of the token
    /// after it.
    fn type_after(&self, at: usize) -> Result<(bool, usize), AsmFault>
        requires { at ≤ length self.now.tokens.now }
        ensures is { result ≡ type_after (source self.now) at }
        ensures room { IfOk result (λ read. read.1 ≤ length self.now.tokens.now) }
    {
        if !self.is_comma(at) {
            return Ok((false, at));
        }
        let name = self.sign(at + 1)?;
        let nobits = self.section_type(name)?;
        let next = self.more_words(name + 1)?;
        Ok((nobits, next))
    }

    /// The kind of a section by its flags, whose token has this number.
    fn kind_by_flags(&self, at: usize) -> Result<SectionKind, AsmFault>
        ensures { AnswersAt result (kind_by_flags (source self.now) at) }
    {
        let flags = self.flags(at)?;
        let (nobits, next) = self.type_after(at + 1)?;
        let Some(kind) = flags.kind(nobits) else {
            return Err(self.fault(AsmFaultKind::Section, at));
        };
        self.end(next)?;
        Ok(kind)
    }

    /// What follows a section's name: nothing, or the kind that flags say.
    fn kind_after(&self, at: usize) -> Result<Option<SectionKind>, AsmFault>
        ensures { AnswersAt result (kind_after (source self.now) at) }
    {
        if !self.is_comma(at) {
            self.end(at)?;
            return Ok(None);
        }
        let kind = self.kind_by_flags(at + 1)?;
        Ok(Some(kind))
    }

    /// `.section`, whose name begins with the token of a number.
    pub(crate) fn section(&self, draft: &mut Draft, at: usize) -> Result<(), AsmFault>
        requires { at ≤ length self.now.tokens.now }
        ensures { Answers result (parts_of draft.new)
            (section (source self.now) at (parts_of draft.old)) }
    {
        let end = self.section_name(at)?;
        let kind = self.kind_after(end)?;
        draft.set_body(Body::Section(at, end, kind));
        Ok(())
    }
}
