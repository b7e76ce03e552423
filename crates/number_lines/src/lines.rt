//! The lines that answer what a range is rounded to, and what a word of 128 bits says.

ghost use Rattle.std.specs.Prelude.{◌≡◌, ◌^◌, ◌≤◌, ◌++◌, IfOk, OnOk, Some, string_bytes};
ghost use Rattle.number_lines.specs.Lines.{yes_or_no, bounds_line, fields_part};
ghost use Rattle.number_lines.specs.Lines.{bounds_part, decode_line};

use cap_bounds::{Fields, fields, set_bounds};
use cap_ops::Cap;
use cheri_model::NoMemory;
use report_lines::{Hex, Hex64, TypeText};
use std::alloc::Global;
use std::fmt;

/// `yes` or `no`.
#[derive(Clone, Copy)]
struct YesOrNo(bool);

impl fmt::Display for YesOrNo {
    ghost output = { λ y. Some (yes_or_no y.0) };

    fn fmt<W: fmt::Write>(&self, f: &mut fmt::Formatter<W>) -> fmt::Result {
        f.write_str(if self.0 { "yes" } else { "no" })
    }
}

/// The line of the rounding of the `len` addresses from `base` on (CHERI Concentrate,
/// "encoding"): the fields IE, E, T and B, the bounds, and whether they are the asked
/// range. Fails only when out of memory.
pub fn bounds_text(alloc: Global, base: u64, len: u128) -> Result<String, NoMemory>
    requires { len ≤ 2 ^ 64 }
    ensures { IfOk result (λ text. string_bytes text ≡ bounds_line base len) }
{
    let rounded = set_bounds(base, len);
    let (ie, e) = (rounded.ie, rounded.e);
    let t = Hex::new(u128::from(rounded.t), 3);
    let b = Hex::new(u128::from(rounded.b), 4);
    let low = Hex64(rounded.base);
    let top = Hex::of_top(rounded.top);
    let exact = YesOrNo(rounded.exact);
    let mut out = String::new(alloc);
    writeln!(
        out,
        "ie={ie} e={e} t={t} b={b} base={low} top={top} exact={exact}"
    )?;
    Ok(out)
}

/// Appends the permissions, the flag, the object type and the exponent of a value.
fn write_fields(out: &mut String, held: Cap) -> Result<(), NoMemory>
    ensures { OnOk result (string_bytes out.new ≡ string_bytes out.old ++ fields_part held) }
{
    let Fields { ie, e, .. } = fields(held.high());
    let perms = Hex::of_perms(held.perm());
    let flag = held.flags();
    let otype = TypeText(held.object_type());
    write!(out, "perms={perms} flag={flag} type={otype} ie={ie} e={e}")?;
    Ok(())
}

/// Appends the bounds, the address and the length of a value, up to the end of the line.
fn write_bounds(out: &mut String, held: Cap) -> Result<(), NoMemory>
    ensures { OnOk result (string_bytes out.new ≡ string_bytes out.old ++ bounds_part held) }
{
    let (base, top) = held.bounds();
    let (base, top) = (Hex64(base), Hex::of_top(top));
    let (addr, len) = (Hex64(held.addr()), Hex64(held.len()));
    writeln!(out, " base={base} top={top} addr={addr} len={len}")?;
    Ok(())
}

/// The line of a word of 128 bits (CHERI ISA v9, "capability encoding"), whether or not a
/// capability has this word: its permissions, flag and object type, its exponent, the bounds and
/// the address, and the length as CGetLen gives it. Fails only when out of memory.
pub fn decode_text(alloc: Global, word: u128) -> Result<String, NoMemory>
    ensures { IfOk result (λ text. string_bytes text ≡ decode_line word) }
{
    let held = Cap::from_word(word);
    let mut out = String::new(alloc);
    write_fields(&mut out, held)?;
    write_bounds(&mut out, held)?;
    Ok(out)
}
