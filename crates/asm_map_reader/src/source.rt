//! Where instructions come from.
#![tactic(auto, unfolding(crate::specs::Sources::source_text))]

use asm_maps::Label;
use std::fmt;

/// Where an instruction comes from.
#[derive(Clone, Copy, Debug)]
pub enum Source<'a> {
    /// A statement: its file, its line from 1 on, and the label before it, if there is one.
    Statement {
        file: &'a str,
        line: usize,
        label: Option<Label<'a>>,
    },
    /// The guard, which stops code that runs past its end.
    Guard,
    /// The exit, at which a hart ends that returns from its first function.
    Exit,
}

impl<'a> fmt::Display for Source<'a> {
    ghost use Rattle.std.specs.Prelude.{Some};
    ghost use Rattle.asm_map_reader.specs.Sources.{source_parts, source_text};

    ghost output = { λ source. Some (source_text (source_parts source)) };

    fn fmt<W: fmt::Write>(&self, f: &mut fmt::Formatter<W>) -> fmt::Result {
        match *self {
            Source::Statement {
                file,
                line,
                label: Some(label),
            } => write!(f, "{file}:{line} {}+{}", label.name, label.offset),
            Source::Statement {
                file,
                line,
                label: None,
            } => write!(f, "{file}:{line} -"),
            Source::Guard => f.write_str("- guard"),
            Source::Exit => f.write_str("- exit"),
        }
    }
}
