//! What names of expressions mean in a program.
#![tactic(auto, unfolding(crate::proofs::Unfold::scenes))]

ghost use Rattle.std.specs.Prelude.{◌≡◌};
ghost use Rattle.asm_symbols.specs.Names.{names_of};
ghost use Rattle.asm_files.specs.Programs.{program_parts};
ghost use Rattle.asm_links.specs.Locals.{local_label};
ghost use Rattle.asm_tables.specs.Names.{named};
ghost use Rattle.asm_chains.specs.Scenes.{no_symbol};
ghost use Rattle.asm_late.specs.Scene.{setting_of};

use asm_chains::{Leaf, Scene, Setting};
use asm_expressions::{Node, NodeKind, text_at};
use asm_files::Program;
use asm_links::local_label;
use asm_places::Places;
use asm_symbols::{Meaning, Names};
use asm_tables::{named, nodes_in};
use asm_values::{Location, Value};

/// Where a statement is, with its own place as `.`.
pub(crate) fn setting_of(program: &Program, file: usize, statement: usize) -> Setting
    ensures { result ≡ setting_of (program_parts program.now) file statement }
{
    let stand = program.stand_in(file, statement);
    Setting {
        file,
        statement,
        dot: Location {
            chunk: stand.chunk,
            offset: u64::from(stand.offset),
            symbol: None,
        },
    }
}

/// Where nothing stands.
fn no_setting() -> Setting
    ensures { result ≡ no_symbol.setting }
{
    Setting {
        file: 0,
        statement: 0,
        dot: Location {
            chunk: 0,
            offset: 0,
            symbol: None,
        },
    }
}

/// The symbols of a program, the names that all files see, and where everything is.
#[derive(Clone, Copy)]
pub(crate) struct ProgramScene<'p, 'a> {
    pub program: &'p Program<'a>,
    pub seen: &'p Names<'a>,
    pub places: Places<'p>,
}

impl ProgramScene<'_, '_> {
    ghost use Rattle.asm_late.specs.Scene.{is_or_missing, scene_program, stands_or_missing};

    /// What a name is in a file.
    fn symbol_leaf(&self, file: usize, name: &[u8]) -> Leaf
        ensures { result ≡ stands_or_missing
            (named (scene_program self.now) (names_of self.now.seen.now) file name.now) }
    {
        match named(self.program, self.seen, file, name) {
            Some(symbol) => Leaf::Stands(symbol),
            None => Leaf::Missing,
        }
    }

    /// What a local label is.
    fn local_leaf(&self, setting: Setting, text: &[u8]) -> Leaf
        ensures { result ≡ is_or_missing (local_label (scene_program self.now) setting.file
            setting.statement text.now) }
    {
        match local_label(self.program, setting.file, setting.statement, text) {
            Some(local) => Leaf::Is(Value::At(Location {
                chunk: local.chunk,
                offset: u64::from(local.offset),
                symbol: None,
            })),
            None => Leaf::Missing,
        }
    }
}

impl<'p, 'a> Scene for ProgramScene<'p, 'a> {
    ghost use Rattle.asm_late.specs.Scene.{scene_parts};

    ghost parts = { λ s. scene_parts s };

    fn count(&self) -> usize {
        self.program.made.symbols.len()
    }

    fn own(&self, symbol: usize) -> Option<Value> {
        let definition = match self.program.made.symbols.get(symbol) {
            Some(definition) => definition,
            None => return None,
        };
        match definition.meaning {
            Meaning::Place(_, _) => definition.early,
            Meaning::Assigned(_) => None,
        }
    }

    fn setting(&self, symbol: usize) -> Setting {
        let definition = match self.program.made.symbols.get(symbol) {
            Some(definition) => definition,
            None => return no_setting(),
        };
        match definition.meaning {
            Meaning::Place(_, _) => no_setting(),
            Meaning::Assigned(statement) => {
                setting_of(self.program, definition.file as usize, statement)
            }
        }
    }

    fn nodes(&self, symbol: usize) -> &[Node] {
        let definition = match self.program.made.symbols.get(symbol) {
            Some(definition) => definition,
            None => return &[],
        };
        match definition.meaning {
            Meaning::Place(_, _) => &[],
            Meaning::Assigned(statement) => {
                nodes_in(self.program, definition.file as usize, statement, 0)
            }
        }
    }

    fn leaf(&self, setting: Setting, node: Node) -> Leaf {
        let text = text_at(self.program.tokens_in(setting.file), node.at);
        match node.kind {
            NodeKind::Symbol => self.symbol_leaf(setting.file, text),
            NodeKind::Local => self.local_leaf(setting, text),
            NodeKind::Dot => Leaf::Is(Value::At(setting.dot)),
            _ => Leaf::Missing,
        }
    }

    fn apart(&self, to: u32, from: u32) -> Option<u64> {
        self.places.apart(to, from)
    }
}
