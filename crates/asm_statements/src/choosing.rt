//! Which of the forms of an instruction is meant.
#![tactic(auto, unfolding(crate::proofs::Unfold::choosing))]

ghost use Rattle.std.specs.Prelude.{◌≡◌, ◌-◌, ◌<◌, ◌≤◌, ◌+◌, ◌^◌, length};
ghost use Rattle.asm_statements.specs.Marks.{source};
ghost use Rattle.asm_statements.specs.Choosing.{
  Counts,
  after_close,
  after_comma,
  after_open,
  after_other,
  after_token,
  empty_survey,
  ending_of,
  ends_so,
  first_fit,
  first_form,
  fits,
  form_of,
  meant_form,
  operand_count,
  survey_of,
};

use crate::forms::{Form, Wanted};
use crate::reader::Reader;
use asm_names::register_named;
use asm_tokens::{Mark, TokenKind};

/// What was seen of an instruction's operands before the token of a number: how many brackets open
/// and close, the commas outside brackets, the number of the token after the last of these, whether
/// a register's name is right behind a bracket from there on, and whether the last token is a
/// bracket that opens.
#[derive(Clone, Copy, Debug, PartialEq, Eq)]
pub struct Survey {
    pub at: usize,
    pub opened: usize,
    pub closed: usize,
    pub commas: usize,
    pub last: usize,
    pub memory: bool,
    pub opens: bool,
}

/// What the last operand is.
#[derive(Clone, Copy, Debug, PartialEq, Eq)]
pub enum Ending {
    Register,
    Memory,
    Expression,
}

impl Survey {
    /// Nothing was seen before the token of a number.
    fn new(at: usize) -> Survey
        ensures is { result ≡ empty_survey at }
        ensures counts { Counts result }
    {
        Survey {
            at,
            opened: 0,
            closed: 0,
            commas: 0,
            last: at,
            memory: false,
            opens: false,
        }
    }

    /// After a comma.
    fn after_comma(self) -> Survey
        requires counts { Counts self }
        requires room { self.at < 2 ^ 64 - 1 }
        ensures is { result ≡ after_comma self }
        ensures counts { Counts result }
    {
        let next = self.at + 1;
        let outside = self.opened == self.closed;
        Survey {
            at: next,
            opened: self.opened,
            closed: self.closed,
            commas: if outside {
                self.commas + 1
            } else {
                self.commas
            },
            last: if outside { next } else { self.last },
            memory: !outside && self.memory,
            opens: false,
        }
    }

    /// After a bracket that opens.
    fn after_open(self) -> Survey
        requires counts { Counts self }
        requires room { self.at < 2 ^ 64 - 1 }
        ensures is { result ≡ after_open self }
        ensures counts { Counts result }
    {
        Survey {
            at: self.at + 1,
            opened: self.opened + 1,
            closed: self.closed,
            commas: self.commas,
            last: self.last,
            memory: self.memory,
            opens: true,
        }
    }

    /// After a bracket that closes.
    fn after_close(self) -> Survey
        requires counts { Counts self }
        requires room { self.at < 2 ^ 64 - 1 }
        ensures is { result ≡ after_close self }
        ensures counts { Counts result }
    {
        Survey {
            at: self.at + 1,
            opened: self.opened,
            closed: self.closed + 1,
            commas: self.commas,
            last: self.last,
            memory: self.memory,
            opens: false,
        }
    }

    /// After another token, which is a register's name or not.
    fn after_other(self, register: bool) -> Survey
        requires counts { Counts self }
        requires room { self.at < 2 ^ 64 - 1 }
        ensures is { result ≡ after_other register self }
        ensures counts { Counts result }
    {
        Survey {
            at: self.at + 1,
            opened: self.opened,
            closed: self.closed,
            commas: self.commas,
            last: self.last,
            memory: self.memory || (self.opens && register),
            opens: false,
        }
    }

    /// After a token of this kind and with this text.
    fn after_token(self, kind: TokenKind, text: &[u8]) -> Survey
        requires counts { Counts self }
        requires room { self.at < 2 ^ 64 - 1 }
        ensures is { result ≡ after_token kind text.now self }
        ensures counts { Counts result }
    {
        match kind {
            TokenKind::Mark(Mark::Comma) => self.after_comma(),
            TokenKind::Mark(Mark::Open) => self.after_open(),
            TokenKind::Mark(Mark::Close) => self.after_close(),
            TokenKind::Name => self.after_other(register_named(text).is_some()),
            _ => self.after_other(false),
        }
    }

    /// How many operands there are, of which the first begins with the token of a number.
    fn operand_count(self, first: usize) -> usize
        requires { self.commas < 2 ^ 64 - 1 }
        ensures { result ≡ operand_count first self }
    {
        if self.at == first { 0 } else { self.commas + 1 }
    }
}

/// Whether an operand is of a kind that ends so.
fn ends_so(ending: Ending, last: Wanted) -> bool
    ensures { result ≡ ends_so ending last }
{
    match ending {
        Ending::Register => matches!(last, Wanted::Integer | Wanted::Capability),
        Ending::Memory => matches!(last, Wanted::Memory),
        Ending::Expression => matches!(last, Wanted::Immediate | Wanted::Symbol | Wanted::Target),
    }
}

/// Whether a form has so many operands, and its last one ends so, if that is asked for.
fn fits(form: Form, count: usize, ending: Option<Ending>) -> bool
    ensures { result ≡ fits count ending form }
{
    if form.count() != count {
        return false;
    }
    match (ending, form.last()) {
        (Some(ending), Some(last)) => ends_so(ending, last),
        (Some(_), None) => false,
        (None, _) => true,
    }
}

/// The first form that fits.
fn first_fit(forms: &[Form], count: usize, ending: Option<Ending>) -> Option<Form>
    ensures { result ≡ first_fit count ending forms.now }
{
    for form in forms {
        if fits(*form, count, ending) {
            return Some(*form);
        }
    }
    None
}

/// The first of all forms.
fn first_form(forms: &[Form]) -> Form
    ensures { result ≡ first_form forms.now }
{
    match forms {
        [first, ..] => *first,
        [] => Form::None,
    }
}

/// The form that is meant by so many operands, the last of which ends so.
fn form_of(forms: &[Form], count: usize, ending: Ending) -> Form
    ensures { result ≡ form_of count ending forms.now }
{
    if let Some(form) = first_fit(forms, count, Some(ending)) {
        return form;
    }
    match first_fit(forms, count, None) {
        Some(form) => form,
        None => first_form(forms),
    }
}

impl Reader<'_> {
    /// What is seen of the operands that begin with a token.
    fn survey(&self, at: usize) -> Survey
        requires { at ≤ length self.now.tokens.now }
        ensures is { result ≡ survey_of (source self.now) at }
        ensures counts { Counts result }
        ensures room { result.at ≤ length self.now.tokens.now }
    {
        let mut survey = Survey::new(at);
        while survey.at < self.tokens.len() {
            let token = self.tokens[survey.at];
            if let TokenKind::End = token.kind {
                return survey;
            }
            survey = survey.after_token(token.kind, token.text);
        }
        survey
    }

    /// What the last operand is.
    fn ending(&self, survey: Survey) -> Ending
        requires { survey.last < 2 ^ 64 - 1 }
        ensures { result ≡ ending_of (source self.now) survey }
    {
        if survey.last + 1 == survey.at && self.is_register(survey.last) {
            return Ending::Register;
        }
        if survey.memory {
            Ending::Memory
        } else {
            Ending::Expression
        }
    }

    /// The form that the operands which begin with a token are written in.
    pub(crate) fn meant_form(&self, forms: &[Form], at: usize) -> Form
        requires { at ≤ length self.now.tokens.now }
        ensures { result ≡ meant_form (source self.now) forms.now at }
    {
        let survey = self.survey(at);
        let count = survey.operand_count(at);
        form_of(forms, count, self.ending(survey))
    }
}
