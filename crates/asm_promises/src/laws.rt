//! Laws over what files of assembly mean: the functions do nothing, and their contracts are the
//! laws.

ghost use Rattle.std.specs.Prelude.{◌≡◌, ◌≤◌, ◌<◌, ◌==◌, ◌+◌, ◌*◌, ◌%◌, ◌^◌, ◌++◌, ℕ, List, length};
ghost use Rattle.std.specs.Prelude.{Ok, Some, codes, map, slice_get, true};
ghost use Rattle.std.specs.List.{All};
ghost use Rattle.cheri_model.specs.declared.code.TheConstants.{CODE_BASE, INSTRUCTION_BYTES};
ghost use Rattle.asm_values.specs.declared.values.Location.{Location};
ghost use Rattle.asm_values.specs.declared.values.Value.TheVariants.{At};
ghost use Rattle.asm_places.specs.Places.{PlacesParts, address_of, target_of};
ghost use Rattle.asm_tokens.specs.Tokens.{TokenParts};
ghost use Rattle.asm_statements.specs.Statements.{StatementParts};
ghost use Rattle.asm_drafts.specs.declared.sections.Entry.{Entry};
ghost use Rattle.asm_drafts.specs.Drafts.{DraftParts};
ghost use Rattle.asm_drafts.specs.Labels.{labels_put};
ghost use Rattle.asm_files.specs.declared.stand.Stand.{Stand};
ghost use Rattle.asm_files.specs.Stands.{statement_stood};
ghost use Rattle.asm_files.specs.Files.{program_of};
ghost use Rattle.asm_files.specs.Programs.{FileParts, ProgramParts, stand_in};
ghost use Rattle.asm_expressions.specs.Tokens.{text_at};
ghost use Rattle.asm_statements.specs.Marks.{is_name};
ghost use Rattle.asm_symbols.specs.declared.locals.Local.{Local};
ghost use Rattle.asm_links.specs.Locals.{has_digits, local_label};
ghost use Rattle.asm_promises.specs.Labels.{
  AreThere,
  IsFirst,
  IsLast,
  IsNamed,
  labels_after,
  labels_up_to,
};
ghost use Rattle.asm_late.specs.Late.{LateParts, places_of};
ghost use Rattle.asm_code.specs.Standing.{index_of};
ghost use Rattle.asm_code.specs.Standing as standing;
ghost use Rattle.listings.specs.Meaning.{listing_limit, listing_meaning};
ghost use Rattle.canonical.specs.Canon.{canon};
ghost use Rattle.canonical.specs.Listable.{IsListable};
ghost use Rattle.asm_pictures.specs.Asked.{HartsParts};
ghost use Rattle.asm_pictures.specs.Image.{total};
ghost use Rattle.asm_image.specs.Whole.{AssembledParts, assembly_meaning, map_of};
ghost use Rattle.asm_map_laws.specs.Written.{IsWritable, said_of};
ghost use Rattle.asm_map_reader.specs.declared.draft.Counts.{Counts};
ghost use Rattle.asm_map_reader.specs.Lines as reader;
ghost use Rattle.asm_map_reader.specs.Reading.{map_meaning};
ghost use Rattle.asm_mapping.specs.Lines.{line_parts};
ghost use Rattle.asm_maps.specs.Maps.{map_text};
ghost use Rattle.asm_maps.specs.declared.line.MapLine.{MapLine};
ghost use Rattle.asm_promises.specs.Maps.{IsFileText};
ghost use Rattle.asm_starts.specs.Starts.{NoteParts};
ghost use Rattle.asm_instructions.specs.declared.origin.Origin.{Origin};
ghost use Rattle.asm_code.specs.Beginning.{count_of, origin_of};
ghost use Rattle.asm_code.specs.Code.{instructions_of};
ghost use Rattle.asm_expansions.specs.declared.operation.Operation.{Operation};
ghost use Rattle.asm_statements.specs.declared.statement.Body.TheVariants.{Instruction};
ghost use Rattle.cheri_model.specs.declared.instr.Instr.{Instr};
ghost use Rattle.asm_files.specs.Programs.{statement_at};
ghost use Rattle.asm_layout.specs.declared.chunk.ChunkKind.TheVariants.{Code};
ghost use Rattle.asm_layout.specs.Placement.{rank};
ghost use Rattle.asm_promises.specs.Origins.{HasInstruction, IsOriginOf, IsToldIn, late_in};
ghost use Rattle.asm_promises.specs.Stacks.{
  AreApart,
  AreBehind,
  DataBeginsAfter,
  EndsBefore,
  OverlapsNone,
  table_end,
};
ghost use Rattle.asm_promises.specs.Given.{
  IsGivenHart,
  IsHeld,
  IsPlainHart,
  IsPlainValue,
  NoneIsWritten,
  objects_in,
};

/// Every image runs: it is one that listings can write, its canonical listing is no longer than a
/// listing may be, and that listing means this image again. So a run of what was printed is the run
/// of the image that the files mean.
pub fn every_image_runs()
    ensures listable { (texts : List (List ℕ)) (harts : HartsParts) (a : AssembledParts)
        → assembly_meaning texts harts ≡ Ok a → IsListable a.image }
    ensures short { (texts : List (List ℕ)) (harts : HartsParts) (a : AssembledParts)
        → assembly_meaning texts harts ≡ Ok a → length (canon a.image) ≤ listing_limit }
    ensures means { (texts : List (List ℕ)) (harts : HartsParts) (a : AssembledParts)
        → assembly_meaning texts harts ≡ Ok a → listing_meaning (canon a.image) ≡ Ok a.image }
{}

/// Each instruction of an image has one origin, in order, but for the guard and the exit where
/// these follow: the statement that it comes from, which the map tells.
pub fn every_instruction_has_its_origin()
    ensures { (texts : List (List ℕ)) (harts : HartsParts) (a : AssembledParts)
        → assembly_meaning texts harts ≡ Ok a
        → length a.image.program ≡ total (length a.origins) a.exit }
{}

/// Each instruction of an image, guard and exit aside, comes from just one statement: no two
/// statements have an instruction's address among their bytes. A statement has the instructions
/// from its first one on, as many as its bytes hold, and all are in the image; what it stands for
/// is as long. An instruction's origin is the statement that has it, or is of a gap that none has;
/// and the map has a line with this statement's file and line. There are at most 16 files.
pub fn each_instruction_comes_from_one_statement()
    ensures one { (texts : List (List ℕ)) (harts : HartsParts) (a : AssembledParts)
        → length texts ≤ 16 → assembly_meaning texts harts ≡ Ok a
        → (file number other_file other n : ℕ) (s t : StatementParts)
        → HasInstruction (late_in a) file number s n
        → HasInstruction (late_in a) other_file other t n
        → (other_file ≡ file) × (other ≡ number) }
    ensures numbers { (texts : List (List ℕ)) (harts : HartsParts) (a : AssembledParts)
        → length texts ≤ 16 → assembly_meaning texts harts ≡ Ok a
        → (file number n : ℕ) (s : StatementParts) → HasInstruction (late_in a) file number s n
        → (index_of (late_in a) file number ≤ n)
        × (n < index_of (late_in a) file number
        + count_of (standing.stand_of (late_in a) file number)) }
    ensures each { (texts : List (List ℕ)) (harts : HartsParts) (a : AssembledParts)
        → length texts ≤ 16 → assembly_meaning texts harts ≡ Ok a
        → (file number k : ℕ) (s : StatementParts) → statement_at a.program file number ≡ Some s
        → (rank (standing.kind_of (late_in a) file number) == rank Code) ≡ true
        → k < count_of (standing.stand_of (late_in a) file number)
        → HasInstruction (late_in a) file number s (index_of (late_in a) file number + k) }
    ensures fits { (texts : List (List ℕ)) (harts : HartsParts) (a : AssembledParts)
        → length texts ≤ 16 → assembly_meaning texts harts ≡ Ok a
        → (file number at : ℕ) (s : StatementParts) (operation : Operation) (instrs : List Instr)
        → statement_at a.program file number ≡ Some s
        → s.body ≡ Instruction at (Some operation)
        → (rank (standing.kind_of (late_in a) file number) == rank Code) ≡ true
        → instructions_of (late_in a) a.origins file number s operation ≡ Ok instrs
        → length instrs ≡ count_of (standing.stand_of (late_in a) file number) }
    ensures inside { (texts : List (List ℕ)) (harts : HartsParts) (a : AssembledParts)
        → length texts ≤ 16 → assembly_meaning texts harts ≡ Ok a
        → (file number n : ℕ) (s : StatementParts) → HasInstruction (late_in a) file number s n
        → n < length a.origins }
    ensures origin { (texts : List (List ℕ)) (harts : HartsParts) (a : AssembledParts)
        → length texts ≤ 16 → assembly_meaning texts harts ≡ Ok a
        → (n : ℕ) (origin : Origin) → slice_get a.origins n ≡ Some origin
        → IsOriginOf (late_in a) n origin }
    ensures map { (texts : List (List ℕ)) (harts : HartsParts) (a : AssembledParts)
        (names : List (List ℕ)) → length texts ≤ 16 → assembly_meaning texts harts ≡ Ok a
        → (file number n : ℕ) (s : StatementParts) → HasInstruction (late_in a) file number s n
        → IsToldIn (map_of a names) (length names) n file
        (origin_of (late_in a) file number s).line }
{}

/// The labels of a statement are symbols whose place is where the statement stands.
pub fn labels_stand_at_their_statement()
    ensures { (tokens : List TokenParts) (parts : DraftParts) (number : ℕ) (s : StatementParts)
        (entry : Entry) (next : DraftParts × Stand)
        → statement_stood tokens parts number s entry ≡ Ok next
        → (labelled : DraftParts) × (labels_put tokens s.first s.labels parts ≡ Ok labelled)
        × AreThere next.1 parts labelled }
{}

/// Each label of a file that is a name is the symbol that the file has of that name: a place, where
/// the statement stands that it is of.
pub fn names_are_labels_of_statements()
    ensures { (texts : List (List ℕ)) (program : ProgramParts) → program_of texts ≡ Ok program
        → (file number label : ℕ) (f : FileParts) (s : StatementParts)
        → slice_get program.files file ≡ Some f → slice_get f.statements number ≡ Some s
        → label < s.labels → is_name f.tokens (s.first + 2 * label) ≡ true
        → IsNamed program file (s.first + 2 * label) (text_at f.tokens (s.first + 2 * label))
        (stand_in program file number) }
{}

/// Of local labels, `1b` is the last one with these digits of the statements up to the one that
/// says it, its own included, and `1f` the first one of those after it; and each stands where the
/// statement stands that it is of.
pub fn local_labels_are_the_nearest()
    ensures back { (texts : List (List ℕ)) (program : ProgramParts) → program_of texts ≡ Ok program
        → (file number : ℕ) (f : FileParts) (digits : List ℕ) (label : Local)
        → slice_get program.files file ≡ Some f → number < length f.statements
        → local_label program file number (digits ++ codes "b") ≡ Some label
        → IsLast (has_digits f.tokens digits) (labels_up_to program file f number) label }
    ensures ahead { (texts : List (List ℕ)) (program : ProgramParts) → program_of texts ≡ Ok program
        → (file number : ℕ) (f : FileParts) (digits : List ℕ) (label : Local)
        → slice_get program.files file ≡ Some f → number < length f.statements
        → local_label program file number (digits ++ codes "f") ≡ Some label
        → IsFirst (has_digits f.tokens digits) (labels_after program file f number) label }
{}

/// What a branch goes to is the instruction at the place that its target is: no further than the
/// program's end, at its number's address; and the first one of the statement that stands there. A
/// place where a statement stands, as labels are, by names or by digits, has that statement's
/// address; and a branch to it goes to the statement's first instruction.
pub fn targets_are_instructions()
    ensures address { (parts : PlacesParts) (location : Location) (most n : ℕ)
        → target_of parts (At location) most ≡ Ok n
        → (n ≤ most) × (address_of parts (At location)
        ≡ Ok ((CODE_BASE + INSTRUCTION_BYTES * n) % 2 ^ 64)) }
    ensures statement { (late : LateParts) (file number most n : ℕ) (parts : PlacesParts)
        (location : Location) → target_of parts (At location) most ≡ Ok n
        → address_of parts (At location) ≡ Ok (standing.address_of late file number 0 0)
        → n ≡ index_of late file number }
    ensures place { (late : LateParts) (file number addr : ℕ) (location : Location)
        → location.chunk ≡ (stand_in late.program file number).chunk
        → location.offset ≡ (stand_in late.program file number).offset
        → address_of (places_of late) (At location) ≡ Ok addr
        → addr ≡ standing.address_of late file number 0 0 }
    ensures label { (late : LateParts) (file number most n : ℕ) (location : Location)
        → location.chunk ≡ (stand_in late.program file number).chunk
        → location.offset ≡ (stand_in late.program file number).offset
        → target_of (places_of late) (At location) most ≡ Ok n → n ≡ index_of late file number }
{}

/// The stacks of all harts are apart: each begins behind everything that the layout puts into
/// memory, and behind the stack of each hart before it.
pub fn stacks_are_apart()
    ensures { (texts : List (List ℕ)) (harts : HartsParts) (a : AssembledParts)
        → assembly_meaning texts harts ≡ Ok a
        → AreBehind a.linked.layout.memory_end a.harts }
{}

/// Symbols lie in the memory that the layout takes: those of data begin behind the capability
/// table, and the bytes of each symbol, and the table, end before that memory does; those of
/// different chunks are apart. Nothing wraps. There are at most 16 files.
pub fn symbols_lie_in_memory()
    ensures begin { (texts : List (List ℕ)) (harts : HartsParts) (a : AssembledParts)
        → length texts ≤ 16 → assembly_meaning texts harts ≡ Ok a
        → DataBeginsAfter (objects_in a) (table_end a) }
    ensures end { (texts : List (List ℕ)) (harts : HartsParts) (a : AssembledParts)
        → length texts ≤ 16 → assembly_meaning texts harts ≡ Ok a
        → EndsBefore (objects_in a) a.linked.layout.memory_end }
    ensures table { (texts : List (List ℕ)) (harts : HartsParts) (a : AssembledParts)
        → length texts ≤ 16 → assembly_meaning texts harts ≡ Ok a
        → table_end a ≤ a.linked.layout.memory_end }
    ensures apart { (texts : List (List ℕ)) (harts : HartsParts) (a : AssembledParts)
        → length texts ≤ 16 → assembly_meaning texts harts ≡ Ok a → AreApart (objects_in a) }
{}

/// A stack overlaps no symbol: it begins behind all the bytes of each, and behind the capability
/// table. There are at most 16 files.
pub fn stacks_overlap_no_symbol()
    ensures { (texts : List (List ℕ)) (harts : HartsParts) (a : AssembledParts)
        → length texts ≤ 16 → assembly_meaning texts harts ≡ Ok a
        → All (λ (note : NoteParts). OverlapsNone a note.stack) a.harts }
{}

/// The map of an image reads back: each of its lines is one that a map can have, so that reading it
/// gives what they say, of a program with so many instructions and harts. There are at most 16
/// files, with names that have no newline.
pub fn every_map_reads_back()
    ensures lines { (texts : List (List ℕ)) (harts : HartsParts) (a : AssembledParts)
        (names : List (List ℕ)) (lines : List MapLine) → length texts ≤ 16
        → assembly_meaning texts harts ≡ Ok a → length names ≡ length texts
        → All IsFileText names → map line_parts lines ≡ map_of a names → All IsWritable lines }
    ensures reads { (texts : List (List ℕ)) (harts : HartsParts) (a : AssembledParts)
        (names : List (List ℕ)) (lines : List MapLine) (counts : Counts) → length texts ≤ 16
        → assembly_meaning texts harts ≡ Ok a → length names ≡ length texts
        → All IsFileText names → map line_parts lines ≡ map_of a names
        → map_meaning counts (map_text lines) ≡ said_of counts (map reader.line_parts lines) }
{}

/// Nothing is given but what is written: a granule of an image holds an integer, a sentry with
/// PCC's bounds, or a symbol's capability, whose bounds are that symbol's bytes; a hart begins with
/// a PCC, and its registers hold one of these, the capability table, a hart's stack, or what a word
/// of a request writes out by `cap:`.
pub fn nothing_is_given_but_what_is_written()
    ensures granules { (texts : List (List ℕ)) (harts : HartsParts) (a : AssembledParts)
        → assembly_meaning texts harts ≡ Ok a
        → All (λ g. IsHeld (objects_in a) g.1) a.image.granules }
    ensures harts { (texts : List (List ℕ)) (harts : HartsParts) (a : AssembledParts)
        → assembly_meaning texts harts ≡ Ok a → All (IsGivenHart harts a) a.image.harts }
{}

/// Where no request writes out a capability, none of an image has a right to seal or a type that
/// sealing gives; none but code can be run, and nothing can be written through code.
pub fn nothing_seals_unless_it_is_written()
    ensures granules { (texts : List (List ℕ)) (harts : HartsParts) (a : AssembledParts)
        → assembly_meaning texts harts ≡ Ok a
        → All (λ g. IsPlainValue (objects_in a) g.1) a.image.granules }
    ensures harts { (texts : List (List ℕ)) (harts : HartsParts) (a : AssembledParts)
        → assembly_meaning texts harts ≡ Ok a → NoneIsWritten harts a
        → All (IsPlainHart (objects_in a)) a.image.harts }
{}
