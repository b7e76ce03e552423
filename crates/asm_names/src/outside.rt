//! Instructions that assemblers know and the machine hasn't.
#![tactic(auto, using(crate::proofs::Rulesets::cuts), unfolding(crate::proofs::Unfold::outside))]

ghost use Rattle.std.specs.Prelude.{◌≡◌, length, take_while};
ghost use Rattle.cheri_model.specs.instructions.Tables.{found_at};
ghost use Rattle.asm_names.specs.Outside.{
  word_table,
  float_table,
  atomic_table,
  tail_table,
  fence_table,
  is_before_point,
  stem,
  tail,
  is_atomic,
  without_c,
  has_c_point,
  is_outside,
  is_fence_set,
};

use cheri_model::table::found_at;

// Names of other profiles, one by one.
const WORDS: &[(&str, ())] = &[
    ("mul", ()),
    ("mulh", ()),
    ("mulhsu", ()),
    ("mulhu", ()),
    ("mulw", ()),
    ("div", ()),
    ("divu", ()),
    ("divw", ()),
    ("divuw", ()),
    ("rem", ()),
    ("remu", ()),
    ("remw", ()),
    ("remuw", ()),
    ("csrr", ()),
    ("csrw", ()),
    ("csrs", ()),
    ("csrc", ()),
    ("csrwi", ()),
    ("csrsi", ()),
    ("csrci", ()),
    ("csrrw", ()),
    ("csrrs", ()),
    ("csrrc", ()),
    ("csrrwi", ()),
    ("csrrsi", ()),
    ("csrrci", ()),
    ("rdcycle", ()),
    ("rdtime", ()),
    ("rdinstret", ()),
    ("mret", ()),
    ("sret", ()),
    ("uret", ()),
    ("wfi", ()),
    ("fence.i", ()),
    ("sfence.vma", ()),
    ("auipc", ()),
    ("la.got", ()),
    ("la.tls.ie", ()),
    ("la.tls.gd", ()),
    ("cla.tls.ie", ()),
    ("clc.tls.gd", ()),
    ("csetoffset", ()),
    ("ccopytype", ()),
    ("ccseal", ()),
    ("ctoptr", ()),
    ("cfromptr", ()),
    ("cloadtags", ()),
    ("cgettop", ()),
    ("cspecialrw", ()),
    ("cspecialr", ()),
    ("cspecialw", ()),
    ("cclear", ()),
    ("clear", ()),
    ("fpclear", ()),
    ("jalr.pcc", ()),
    ("lb.ddc", ()),
    ("lh.ddc", ()),
    ("lw.ddc", ()),
    ("ld.ddc", ()),
    ("lbu.ddc", ()),
    ("lhu.ddc", ()),
    ("lwu.ddc", ()),
    ("lc.ddc", ()),
    ("sb.ddc", ()),
    ("sh.ddc", ()),
    ("sw.ddc", ()),
    ("sd.ddc", ()),
    ("sc.ddc", ()),
];

// What an instruction on floats begins with, before its first point.
const FLOATS: &[(&str, ())] = &[
    ("fadd", ()),
    ("fsub", ()),
    ("fmul", ()),
    ("fdiv", ()),
    ("fsqrt", ()),
    ("fsgnj", ()),
    ("fsgnjn", ()),
    ("fsgnjx", ()),
    ("fmin", ()),
    ("fmax", ()),
    ("fcvt", ()),
    ("fmv", ()),
    ("feq", ()),
    ("flt", ()),
    ("fle", ()),
    ("fclass", ()),
    ("flw", ()),
    ("fld", ()),
    ("fsw", ()),
    ("fsd", ()),
    ("fmadd", ()),
    ("fmsub", ()),
    ("fnmadd", ()),
    ("fnmsub", ()),
    ("fabs", ()),
    ("fneg", ()),
    ("frcsr", ()),
    ("fscsr", ()),
    ("frrm", ()),
    ("fsrm", ()),
    ("frflags", ()),
    ("fsflags", ()),
    ("cflw", ()),
    ("cfld", ()),
    ("cfsw", ()),
    ("cfsd", ()),
];

// What an atomic instruction begins with, and how it goes on from its first point.
const ATOMICS: &[(&str, ())] = &[
    ("lr", ()),
    ("sc", ()),
    ("amoswap", ()),
    ("amoadd", ()),
    ("amoand", ()),
    ("amoor", ()),
    ("amoxor", ()),
    ("amomax", ()),
    ("amomaxu", ()),
    ("amomin", ()),
    ("amominu", ()),
];

const TAILS: &[(&str, ())] = &[
    (".b", ()),
    (".h", ()),
    (".w", ()),
    (".d", ()),
    (".c", ()),
    (".b.aq", ()),
    (".h.aq", ()),
    (".w.aq", ()),
    (".d.aq", ()),
    (".c.aq", ()),
    (".b.rl", ()),
    (".h.rl", ()),
    (".w.rl", ()),
    (".d.rl", ()),
    (".c.rl", ()),
    (".b.aqrl", ()),
    (".h.aqrl", ()),
    (".w.aqrl", ()),
    (".d.aqrl", ()),
    (".c.aqrl", ()),
];

// The sets of accesses that a fence names.
const FENCES: &[(&str, ())] = &[
    ("i", ()),
    ("o", ()),
    ("io", ()),
    ("r", ()),
    ("ir", ()),
    ("or", ()),
    ("ior", ()),
    ("w", ()),
    ("iw", ()),
    ("ow", ()),
    ("iow", ()),
    ("rw", ()),
    ("irw", ()),
    ("orw", ()),
    ("iorw", ()),
];

/// The row of a name in the table of names of other profiles.
fn word_row(name: &[u8]) -> Option<()>
    ensures { result ≡ found_at word_table name.now }
{
    found_at(WORDS, name)
}

/// The row of what an instruction on floats begins with.
fn float_row(name: &[u8]) -> Option<()>
    ensures { result ≡ found_at float_table name.now }
{
    found_at(FLOATS, name)
}

/// The row of what an atomic instruction begins with.
fn atomic_row(name: &[u8]) -> Option<()>
    ensures { result ≡ found_at atomic_table name.now }
{
    found_at(ATOMICS, name)
}

/// The row of how an atomic instruction goes on.
fn tail_row(name: &[u8]) -> Option<()>
    ensures { result ≡ found_at tail_table name.now }
{
    found_at(TAILS, name)
}

/// The row of a set of accesses.
fn fence_row(name: &[u8]) -> Option<()>
    ensures { result ≡ found_at fence_table name.now }
{
    found_at(FENCES, name)
}

/// How many bytes are before the first point.
fn stem_length(name: &[u8]) -> usize
    ensures { result ≡ length (take_while is_before_point name.now) }
{
    name.iter().take_while(|byte| **byte != b'.').count()
}

/// What is before the first point.
fn stem(name: &[u8]) -> &[u8]
    ensures { result.now ≡ stem name.now }
{
    &name[..stem_length(name)]
}

/// What is from the first point on.
fn tail(name: &[u8]) -> &[u8]
    ensures { result.now ≡ tail name.now }
{
    &name[stem_length(name)..]
}

/// Whether a name is an atomic instruction's.
fn is_atomic(name: &[u8]) -> bool
    ensures { result ≡ is_atomic name.now }
{
    if atomic_row(stem(name)).is_none() {
        return false;
    }
    tail_row(tail(name)).is_some()
}

/// A name without the `c` that it begins with, if it does.
fn without_c(name: &[u8]) -> &[u8]
    ensures { result.now ≡ without_c name.now }
{
    match name {
        [b'c', rest @ ..] => rest,
        _ => name,
    }
}

/// Whether a name begins with `c.`.
fn has_c_point(name: &[u8]) -> bool
    ensures { result ≡ has_c_point name.now }
{
    name.len() >= 2 && name[0] == b'c' && name[1] == b'.'
}

/// Whether assemblers know an instruction of this name, in small letters, that the machine hasn't.
/// It is asked of names that are none of the machine's, since it takes all atomic instructions.
pub fn is_outside(name: &[u8]) -> bool
    ensures { result ≡ is_outside name.now }
{
    if word_row(name).is_some() {
        return true;
    }
    if has_c_point(name) {
        return true;
    }
    if float_row(stem(name)).is_some() {
        return true;
    }
    is_atomic(without_c(name))
}

/// Whether a name is a set of accesses: some of `i`, `o`, `r`, `w` in this order.
pub fn is_fence_set(name: &[u8]) -> bool
    ensures { result ≡ is_fence_set name.now }
{
    fence_row(name).is_some()
}
