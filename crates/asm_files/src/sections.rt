//! The sections of all files, numbered as they first appear.
#![tactic(auto, unfolding(crate::proofs::Unfold::sections))]

ghost use Rattle.std.specs.Prelude.{◌≡◌, ◌++◌, IfOk, OnOk, map, option_map};
ghost use Rattle.asm_tokens.specs.Tokens.{token_parts};
ghost use Rattle.asm_statements.specs.Statements.{statement_parts};
ghost use Rattle.asm_files.specs.Sections.{
  bytes_of,
  entry_by,
  entry_named,
  entry_of,
  named_section,
  names_in,
  numbered,
  opening_sections,
  sections_parts,
  with_section,
};

use asm_drafts::Entry;
use asm_expressions::text_at;
use asm_names::{SectionKind, section_kind};
use asm_statements::{Body, Statement, push_section_name};
use asm_symbols::Names;
use asm_tokens::Token;
use std::alloc::{AllocError, Global};

/// The numbers of sections by their names, and how many there are.
#[derive(Drop)]
pub(crate) struct Sections<'n> {
    pub numbers: Names<'n>,
    pub count: u32,
}

/// The name of the section that a statement names, if it names one. Fails only when out of memory.
pub(crate) fn named_section(
    alloc: Global,
    tokens: &[Token],
    statement: &Statement,
) -> Result<Option<Vec<u8>>, AllocError>
    ensures { IfOk result (λ name. option_map bytes_of name
        ≡ named_section (map token_parts tokens.now) (statement_parts statement.now)) }
{
    let mut name = Vec::new(alloc);
    match statement.body {
        Body::PlainSection(at) => name.extend_from_slice(text_at(tokens, at))?,
        Body::Section(at, end, _) => push_section_name(&mut name, tokens, at, end)?,
        _ => return Ok(None),
    }
    Ok(Some(name))
}

/// Appends the names of the sections that statements name, in order.
pub(crate) fn push_names(
    alloc: Global,
    names: &mut Vec<Vec<u8>>,
    tokens: &[Token],
    statements: &[Statement],
) -> Result<(), AllocError>
    ensures { OnOk result (map bytes_of names.new.items ≡ map bytes_of names.old.items
        ++ names_in (map token_parts tokens.now) (map statement_parts statements.now)) }
{
    for statement in statements {
        if let Some(name) = named_section(alloc, tokens, statement)? {
            names.push(name)?;
        }
    }
    Ok(())
}

/// The first section, in which files begin.
fn opening_sections<'n>(alloc: Global) -> Result<Sections<'n>, AllocError>
    ensures { IfOk result (λ sections. sections_parts sections ≡ opening_sections) }
{
    let mut numbers = Names::new(alloc);
    numbers.define(b".text", 0)?;
    Ok(Sections { numbers, count: 1 })
}

impl<'n> Sections<'n> {
    /// One more section, unless its name has a number.
    fn put(&mut self, name: &'n [u8]) -> Result<(), AllocError>
        ensures { OnOk result (sections_parts self.new
            ≡ with_section (sections_parts self.old) name.now) }
    {
        let Some(next) = self.count.checked_add(1) else {
            return Err(AllocError);
        };
        let free = self.numbers.define(name, self.count)?;
        if free {
            self.count = next;
        }
        Ok(())
    }

    /// The section that a name means: its number, and the kind that its name says.
    fn entry_named(&self, name: &[u8]) -> Entry
        ensures { result ≡ entry_named (sections_parts self.now) name.now }
    {
        Entry {
            section: self.numbers.find(name).unwrap_or(0),
            named: section_kind(name),
        }
    }

    /// The section that a statement names; the first one where it names none. Fails only when out
    /// of memory.
    pub(crate) fn entry_of(
        &self,
        alloc: Global,
        tokens: &[Token],
        statement: &Statement,
    ) -> Result<Entry, AllocError>
        ensures { IfOk result (λ entry. entry ≡ entry_of (sections_parts self.now)
            (map token_parts tokens.now) (statement_parts statement.now)) }
    {
        match named_section(alloc, tokens, statement)? {
            Some(name) => Ok(self.entry_named(name.as_slice())),
            None => Ok(Entry {
                section: 0,
                named: SectionKind::Code,
            }),
        }
    }
}

/// The sections of these names, numbered as they first appear. Fails only when out of memory.
pub(crate) fn numbered<'n>(alloc: Global, names: &'n [Vec<u8>]) -> Result<Sections<'n>, AllocError>
    ensures { IfOk result (λ sections. sections_parts sections
        ≡ numbered (map bytes_of names.now)) }
{
    let mut sections = opening_sections(alloc)?;
    for name in names {
        sections.put(name.as_slice())?;
    }
    Ok(sections)
}
