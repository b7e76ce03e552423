//! Directives are read.
#![tactic(auto, unfolding(crate::proofs::Unfold::directives))]

ghost use Rattle.std.specs.Prelude.{◌≡◌, ◌≤◌, ◌<◌, IfOk, codes, length};
ghost use Rattle.asm_statements.specs.Drafts.{Answers, parts_of};
ghost use Rattle.asm_statements.specs.Marks.{source};
ghost use Rattle.asm_statements.specs.Directives.{
  alone_body,
  body_of,
  comm,
  directive,
  known_directive,
  new_name_at,
  options_at,
  padded,
  set,
  set_value,
  size,
  zeros,
};

use crate::draft::Draft;
use crate::reader::Reader;
use crate::statement::{Body, Role};
use asm_names::{Directive, directive_of};
use asm_tokens::{AsmFault, AsmFaultKind};

impl Reader<'_> {
    /// A directive that is its name alone.
    fn alone_body(&self, draft: &mut Draft, body: Body, at: usize) -> Result<(), AsmFault>
        ensures { Answers result (parts_of draft.new)
            (alone_body (source self.now) body at (parts_of draft.old)) }
    {
        self.end(at)?;
        draft.set_body(body);
        Ok(())
    }

    /// A directive with operands of this role.
    fn body_of(&self, draft: &mut Draft, body: Body, role: Role, at: usize) -> Result<(), AsmFault>
        ensures { Answers result (parts_of draft.new)
            (body_of (source self.now) body role at (parts_of draft.old)) }
    {
        draft.set_body(body);
        self.listed(draft, role, at)
    }

    /// Padding.
    fn padded(&self, draft: &mut Draft, body: Body, at: usize) -> Result<(), AsmFault>
        ensures { Answers result (parts_of draft.new)
            (padded (source self.now) body at (parts_of draft.old)) }
    {
        draft.set_body(body);
        self.padding(draft, at)
    }

    /// Bytes that are all the same.
    fn zeros(&self, draft: &mut Draft, body: Body, at: usize) -> Result<(), AsmFault>
        ensures { Answers result (parts_of draft.new)
            (zeros (source self.now) body at (parts_of draft.old)) }
    {
        draft.set_body(body);
        let next = self.operand(draft, Role::Early, at)?;
        self.one_more(draft, next)
    }

    /// `.option` and its name.
    fn options(&self, at: usize) -> Result<(), AsmFault>
        ensures { result ≡ options_at (source self.now) at }
    {
        if !self.is_name(at) {
            return Err(self.fault(AsmFaultKind::Operand, at));
        }
        if self.text(at) == b"nocapmode".as_slice() {
            return Err(self.fault(AsmFaultKind::Profile, at));
        }
        Ok(())
    }

    /// The name of a symbol that is set, which isn't `.`.
    pub(crate) fn new_name(&self, at: usize) -> Result<usize, AsmFault>
        ensures is { result ≡ new_name_at (source self.now) at }
        ensures room { IfOk result (λ next. next ≤ length self.now.tokens.now) }
    {
        if !self.is_name(at) {
            return Err(self.fault(AsmFaultKind::Operand, at));
        }
        if self.text(at) == b".".as_slice() {
            return Err(self.fault(AsmFaultKind::Profile, at));
        }
        Ok(at + 1)
    }

    /// The value of a symbol that is set, up to the statement's end.
    pub(crate) fn set_value(&self, draft: &mut Draft, at: usize) -> Result<(), AsmFault>
        ensures { Answers result (parts_of draft.new)
            (set_value (source self.now) at (parts_of draft.old)) }
    {
        let next = self.operand(draft, Role::Data, at)?;
        self.end(next)
    }

    /// `.set`
    fn set(&self, draft: &mut Draft, at: usize) -> Result<(), AsmFault>
        ensures { Answers result (parts_of draft.new)
            (set (source self.now) at (parts_of draft.old)) }
    {
        let comma = self.new_name(at)?;
        draft.set_body(Body::Set(at));
        let next = self.comma(comma)?;
        self.set_value(draft, next)
    }

    /// `.size`
    fn size(&self, draft: &mut Draft, at: usize) -> Result<(), AsmFault>
        ensures { Answers result (parts_of draft.new)
            (size (source self.now) at (parts_of draft.old)) }
    {
        let comma = self.name(at)?;
        draft.set_body(Body::Size(at));
        let next = self.comma(comma)?;
        self.set_value(draft, next)
    }

    /// `.comm`
    fn comm(&self, draft: &mut Draft, at: usize) -> Result<(), AsmFault>
        ensures { Answers result (parts_of draft.new)
            (comm (source self.now) at (parts_of draft.old)) }
    {
        let comma = self.name(at)?;
        draft.set_body(Body::Comm(at));
        let next = self.comma(comma)?;
        let end = self.operand(draft, Role::Early, next)?;
        self.one_more(draft, end)
    }

    /// A directive, whose name's token has this number and which is this one.
    fn known_directive(
        &self,
        draft: &mut Draft,
        directive: Directive,
        at: usize,
    ) -> Result<(), AsmFault>
        requires { at < length self.now.tokens.now }
        ensures { Answers result (parts_of draft.new)
            (known_directive (source self.now) directive at (parts_of draft.old)) }
    {
        let next = at + 1;
        match directive {
            Directive::Plain => self.alone_body(draft, Body::PlainSection(at), next),
            Directive::Section => self.section(draft, next),
            Directive::Previous => self.alone_body(draft, Body::Previous, next),
            Directive::Global => self.body_of(draft, Body::Global, Role::Name, next),
            Directive::Local => self.body_of(draft, Body::Nothing, Role::Name, next),
            Directive::Options => self.options(next),
            Directive::Set => self.set(draft, next),
            Directive::Size => self.size(draft, next),
            Directive::Comm => self.comm(draft, next),
            Directive::Align => self.padded(draft, Body::Align(at), next),
            Directive::Balign => self.padded(draft, Body::Balign(at), next),
            Directive::Data(width) => {
                self.body_of(draft, Body::Data(at, width), Role::Data, next)
            }
            Directive::Chericap => self.body_of(draft, Body::Chericap(at), Role::Data, next),
            Directive::Zero => self.zeros(draft, Body::Zero(at), next),
            Directive::Ascii => self.body_of(draft, Body::Ascii(at), Role::String, next),
            Directive::Asciz => self.body_of(draft, Body::Asciz(at), Role::String, next),
            Directive::Ignored => Ok(()),
            Directive::Outside => {
                draft.set_body(Body::OutsideDirective(at));
                Ok(())
            }
        }
    }

    /// A directive, whose name's token has this number.
    pub(crate) fn directive(&self, draft: &mut Draft, at: usize) -> Result<(), AsmFault>
        requires { at < length self.now.tokens.now }
        ensures { Answers result (parts_of draft.new)
            (directive (source self.now) at (parts_of draft.old)) }
    {
        match directive_of(self.text(at)) {
            Some(directive) => self.known_directive(draft, directive, at),
            None => {
                draft.set_body(Body::UnknownDirective(at));
                Ok(())
            }
        }
    }
}
