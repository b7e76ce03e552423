//! The names of directives.
#![tactic(auto, unfolding(crate::specs::Directives::directive_of))]

ghost use Rattle.std.specs.Prelude.{◌≡◌};
ghost use Rattle.cheri_model.specs.instructions.Tables.{found_at};
ghost use Rattle.asm_names.specs.Directives.{directive_table, is_cfi, directive_of};

use cheri_model::table::found_at;

/// What a directive is.
#[derive(Clone, Copy, Debug, PartialEq, Eq)]
pub enum Directive {
    /// `.text`, `.data`, `.bss` or `.rodata`: a section by its own name.
    Plain,
    /// `.section`
    Section,
    /// `.previous`
    Previous,
    /// Names that all files see: `.globl`, `.global`, `.weak`.
    Global,
    /// `.local`, which wants names and says nothing.
    Local,
    /// `.option`
    Options,
    /// A symbol with a value: `.set`, `.equ`.
    Set,
    /// `.size`
    Size,
    /// `.comm`
    Comm,
    /// Padding to a power of 2 by its exponent: `.align`, `.p2align`.
    Align,
    /// `.balign`
    Balign,
    /// Numbers of so many bytes each.
    Data(u8),
    /// `.chericap`
    Chericap,
    /// Bytes that are the same: `.zero`, `.space`, `.skip`.
    Zero,
    /// `.ascii`
    Ascii,
    /// Strings with a 0 after each: `.asciz`, `.string`.
    Asciz,
    /// What says nothing and isn't read.
    Ignored,
    /// What assemblers know and this one refuses.
    Outside,
}

const DIRECTIVES: &[(&str, Directive)] = &[
    (".text", Directive::Plain),
    (".data", Directive::Plain),
    (".bss", Directive::Plain),
    (".rodata", Directive::Plain),
    (".section", Directive::Section),
    (".previous", Directive::Previous),
    (".globl", Directive::Global),
    (".global", Directive::Global),
    (".weak", Directive::Global),
    (".local", Directive::Local),
    (".option", Directive::Options),
    (".set", Directive::Set),
    (".equ", Directive::Set),
    (".size", Directive::Size),
    (".comm", Directive::Comm),
    (".align", Directive::Align),
    (".p2align", Directive::Align),
    (".balign", Directive::Balign),
    (".byte", Directive::Data(1)),
    (".half", Directive::Data(2)),
    (".short", Directive::Data(2)),
    (".hword", Directive::Data(2)),
    (".2byte", Directive::Data(2)),
    (".word", Directive::Data(4)),
    (".long", Directive::Data(4)),
    (".4byte", Directive::Data(4)),
    (".dword", Directive::Data(8)),
    (".quad", Directive::Data(8)),
    (".8byte", Directive::Data(8)),
    (".chericap", Directive::Chericap),
    (".zero", Directive::Zero),
    (".space", Directive::Zero),
    (".skip", Directive::Zero),
    (".ascii", Directive::Ascii),
    (".asciz", Directive::Asciz),
    (".string", Directive::Asciz),
    (".type", Directive::Ignored),
    (".ident", Directive::Ignored),
    (".file", Directive::Ignored),
    (".loc", Directive::Ignored),
    (".attribute", Directive::Ignored),
    (".addrsig", Directive::Ignored),
    (".addrsig_sym", Directive::Ignored),
    (".hidden", Directive::Ignored),
    (".protected", Directive::Ignored),
    (".internal", Directive::Ignored),
    (".macro", Directive::Outside),
    (".endm", Directive::Outside),
    (".rept", Directive::Outside),
    (".irp", Directive::Outside),
    (".irpc", Directive::Outside),
    (".endr", Directive::Outside),
    (".if", Directive::Outside),
    (".ifdef", Directive::Outside),
    (".ifndef", Directive::Outside),
    (".else", Directive::Outside),
    (".elseif", Directive::Outside),
    (".endif", Directive::Outside),
    (".include", Directive::Outside),
    (".incbin", Directive::Outside),
    (".org", Directive::Outside),
    (".fill", Directive::Outside),
    (".insn", Directive::Outside),
    (".octa", Directive::Outside),
    (".float", Directive::Outside),
    (".double", Directive::Outside),
    (".single", Directive::Outside),
    (".lcomm", Directive::Outside),
    (".weakref", Directive::Outside),
    (".symver", Directive::Outside),
    (".pushsection", Directive::Outside),
    (".popsection", Directive::Outside),
    (".subsection", Directive::Outside),
    (".reloc", Directive::Outside),
    (".equiv", Directive::Outside),
    (".dtprelword", Directive::Outside),
    (".dtpreldword", Directive::Outside),
    (".uleb128", Directive::Outside),
    (".sleb128", Directive::Outside),
    (".altmacro", Directive::Outside),
    (".purgem", Directive::Outside),
    (".struct", Directive::Outside),
    (".offset", Directive::Outside),
    (".tls_common", Directive::Outside),
];

/// Whether a name begins with `.cfi_`.
fn is_cfi(name: &[u8]) -> bool
    ensures { result ≡ is_cfi name.now }
{
    name.len() >= 5 && &name[..5] == b".cfi_".as_slice()
}

/// The directive of a name of the table.
fn directive_row(name: &[u8]) -> Option<Directive>
    ensures { result ≡ found_at directive_table name.now }
{
    found_at(DIRECTIVES, name)
}

/// The directive of a name; `None` where assemblers know none.
pub fn directive_of(name: &[u8]) -> Option<Directive>
    ensures { result ≡ directive_of name.now }
{
    if is_cfi(name) {
        return Some(Directive::Ignored);
    }
    directive_row(name)
}
