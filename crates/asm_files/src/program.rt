//! Files as one program.
#![tactic(auto, unfolding(crate::proofs::Unfold::programs))]

ghost use Rattle.std.specs.Prelude.{◌≡◌, [], map, option_map};
ghost use Rattle.asm_tokens.specs.Tokens.{token_parts};
ghost use Rattle.asm_statements.specs.Statements.{statement_parts};
ghost use Rattle.asm_files.specs.Programs.{
  locals_in,
  program_parts,
  stand_in,
  statement_at,
  tokens_in,
};

use crate::requests::Requests;
use crate::stand::Stand;
use asm_layout::Chunk;
use asm_statements::Statement;
use asm_symbols::{Definition, Local, Names};
use asm_tokens::Token;

/// A file as it is read: its tokens, and its statements.
#[derive(Drop)]
pub struct File<'a> {
    pub tokens: Vec<Token<'a>>,
    pub statements: Vec<Statement>,
}

/// What the statements of files make. Each list but the last two has one item for each file.
#[derive(Drop)]
pub struct Made<'a> {
    /// Where each of a file's statements stands.
    pub stands: Vec<Vec<Stand>>,
    /// The numbers of the symbols that a file defines, by their names.
    pub own: Vec<Names<'a>>,
    /// The local labels of a file, in order.
    pub locals: Vec<Vec<Local>>,
    /// The names that a file wants all files to see.
    pub wanted: Vec<Names<'a>>,
    /// The chunk that a file puts into each section, by the section's number.
    pub rows: Vec<Vec<Option<u32>>>,
    /// The chunks of all files.
    pub chunks: Vec<Chunk>,
    /// The symbols of all files.
    pub symbols: Vec<Definition<'a>>,
}

/// Files as one program: what was read, and what it makes.
#[derive(Drop)]
pub struct Program<'a> {
    pub files: Vec<File<'a>>,
    pub requests: Requests<'a>,
    /// How many sections there are. They are numbered as they first appear, `.text` before all.
    pub sections: u32,
    pub made: Made<'a>,
}

/// No item.
fn no_items<'p, T>() -> &'p [T]
    ensures { result.now ≡ [] }
{
    &[]
}

impl<'a> Program<'a> {
    /// The tokens of a file, by its number from 0 on; none where there is no such file.
    pub fn tokens_in(&self, file: usize) -> &[Token<'a>]
        ensures { map token_parts result.now ≡ tokens_in (program_parts self.now) file }
    {
        let Some(file) = self.files.get(file) else {
            return no_items();
        };
        file.tokens.as_slice()
    }

    /// The statement of a number in a file, from 0 on.
    pub fn statement_at(&self, file: usize, number: usize) -> Option<&Statement>
        ensures { option_map (λ statement. statement_parts statement.now) result
            ≡ statement_at (program_parts self.now) file number }
    {
        self.files.get(file)?.statements.get(number)
    }

    /// Where that statement stands; at the beginning of the first chunk where there is none.
    pub fn stand_in(&self, file: usize, number: usize) -> Stand
        ensures { result ≡ stand_in (program_parts self.now) file number }
    {
        if let Some(stands) = self.made.stands.get(file)
            && let Some(stand) = stands.get(number)
        {
            return *stand;
        }
        Stand {
            chunk: 0,
            offset: 0,
            end: 0,
            locals: 0,
            value: 0,
        }
    }

    /// The local labels of a file.
    pub fn locals_in(&self, file: usize) -> &[Local]
        ensures { result.now ≡ locals_in (program_parts self.now) file }
    {
        match self.made.locals.get(file) {
            Some(locals) => locals.as_slice(),
            None => &[],
        }
    }
}
