//! The names of permissions.

ghost use Rattle.std.specs.Prelude.{◌≡◌, ◌++◌, ℕ, List, [], ◌∷◌, OnOk, IfOk};
ghost use Rattle.std.specs.Prelude.{if◌then◌else◌, string_bytes, codes, false};
ghost use Rattle.cap_model.specs.words.PermissionNames.{permission_table};
ghost use Rattle.notation.specs.Permissions.{joined_text};

use bitflags::{Flag, Flags};
use cheri_model::{NoMemory, Perms};

/// What is written before a name, after others or as the first.
fn separator(begun: bool) -> &'static str
    ensures { result.now ≡ (if begun then codes "+" else []) }
{
    if begun { "+" } else { "" }
}

/// Appends a permission's name, if the set has it, and gives whether a name was written so far.
fn write_name(
    out: &mut String,
    begun: bool,
    perms: Perms,
    flag: &Flag<Perms>,
) -> Result<bool, NoMemory>
    ensures { IfOk result (λ after. (rest : List (List ℕ × ℕ)) →
        string_bytes out.new ++ joined_text after perms.0 rest
        ≡ string_bytes out.old
        ++ joined_text begun perms.0 ((flag.now.name.now, flag.now.value.0) ∷ rest)) }
{
    if !perms.contains(flag.value) {
        return Ok(begun);
    }
    write!(out, "{}{}", separator(begun), flag.name)?;
    Ok(true)
}

/// Appends the names of permissions, in bit order and joined by `+`: nothing where there are none.
pub fn write_permission_names(out: &mut String, perms: Perms) -> Result<(), NoMemory>
    ensures { OnOk result (string_bytes out.new
        ≡ string_bytes out.old ++ joined_text false perms.0 permission_table) }
{
    let mut begun = false;
    for flag in Perms::flags() {
        begun = write_name(out, begun, perms, flag)?;
    }
    Ok(())
}
