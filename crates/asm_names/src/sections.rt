//! What a section is by its name.
#![tactic(auto, using(crate::proofs::Rulesets::cuts), unfolding(crate::proofs::Unfold::sections))]

ghost use Rattle.std.specs.Prelude.{◌≡◌};
ghost use Rattle.cheri_model.specs.instructions.Tables.{rows_of};
ghost use Rattle.asm_names.specs.Sections.{
  is_under,
  under_at,
  kind_table,
  refused_table,
  section_kind,
  is_refused_section,
};

/// What a section has.
#[derive(Clone, Copy, Debug, PartialEq, Eq)]
pub enum SectionKind {
    /// Instructions.
    Code,
    /// Data that is only read.
    ReadOnly,
    /// Data.
    ReadWrite,
    /// Zeros, which the file hasn't.
    Zeros,
    /// Nothing that is kept: notes, debugging.
    Dropped,
}

const KINDS: &[(&str, SectionKind)] = &[
    (".text", SectionKind::Code),
    (".rodata", SectionKind::ReadOnly),
    (".srodata", SectionKind::ReadOnly),
    (".data", SectionKind::ReadWrite),
    (".sdata", SectionKind::ReadWrite),
    (".bss", SectionKind::Zeros),
    (".sbss", SectionKind::Zeros),
];

const REFUSED: &[(&str, ())] = &[
    (".init_array", ()),
    (".fini_array", ()),
    (".preinit_array", ()),
    (".ctors", ()),
    (".dtors", ()),
    (".init", ()),
    (".fini", ()),
    (".tdata", ()),
    (".tbss", ()),
];

/// Whether a name is this one, or goes on after it with a point.
fn is_under(stem: &[u8], name: &[u8]) -> bool
    ensures { result ≡ is_under stem.now name.now }
{
    if name.len() < stem.len() {
        return false;
    }
    if &name[..stem.len()] != stem {
        return false;
    }
    name.len() == stem.len() || name[stem.len()] == b'.'
}

/// The value of the first row that a name is under.
#[tactic(auto, unfolding(crate::specs::Sections::under_at))]
fn under_at<T: Copy + Drop>(table: &[(&str, T)], name: &[u8]) -> Option<T>
    ensures { result ≡ under_at (rows_of table.now) name.now }
{
    for (stem, value) in table {
        if is_under(stem.as_bytes(), name) {
            return Some(*value);
        }
    }
    None
}

/// The row of the table of kinds that a name is under.
fn kind_row(name: &[u8]) -> Option<SectionKind>
    ensures { result ≡ under_at kind_table name.now }
{
    under_at(KINDS, name)
}

/// The row of the table of refused sections that a name is under.
fn refused_row(name: &[u8]) -> Option<()>
    ensures { result ≡ under_at refused_table name.now }
{
    under_at(REFUSED, name)
}

/// What a section of this name has where nothing else says it.
pub fn section_kind(name: &[u8]) -> SectionKind
    ensures { result ≡ section_kind name.now }
{
    match kind_row(name) {
        Some(kind) => kind,
        None => SectionKind::Dropped,
    }
}

/// Whether a section of this name is refused: code that runs before the program, or threads' data.
pub fn is_refused_section(name: &[u8]) -> bool
    ensures { result ≡ is_refused_section name.now }
{
    refused_row(name).is_some()
}
