//! Laws over maps as texts: the functions do nothing, and their contracts are the laws.

ghost use Rattle.std.specs.Prelude.{◌≡◌, List, map, Some};
ghost use Rattle.std.specs.List.{All};
ghost use Rattle.asm_map_reader.specs.declared.draft.Counts.{Counts};
ghost use Rattle.asm_map_reader.specs.Lines.{line_of, line_parts};
ghost use Rattle.asm_map_reader.specs.Reading.{map_meaning};
ghost use Rattle.asm_maps.specs.Maps.{line_text, map_text};
ghost use Rattle.asm_maps.specs.declared.line.MapLine.{MapLine};
ghost use Rattle.asm_map_laws.specs.Written.{IsWritable, said_of};

/// Each line of a map reads as what it was written from.
pub fn written_lines_are_read()
    ensures { (line : MapLine) → IsWritable line → line_of (line_text line) ≡ Some (line_parts line) }
{}

/// A map that was written is read as what its lines say: where each instruction of a program with
/// so many instructions and harts comes from, or the number of the first line that this program
/// cannot have.
pub fn written_maps_are_read()
    ensures { (counts : Counts) (lines : List MapLine) → All IsWritable lines
        → map_meaning counts (map_text lines) ≡ said_of counts (map line_parts lines) }
{}
