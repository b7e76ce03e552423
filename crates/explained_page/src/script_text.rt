//! A text as a JSON text that can stand in an element of a page.
#![tactic(auto, unfolding(crate::proofs::Unfold::script))]

ghost use Rattle.std.specs.Prelude.{◌≡◌, ◌<◌, ◌/◌, ◌%◌, ◌++◌, ◌∷◌, [], OnOk};
ghost use Rattle.std.specs.Char.{digit_char};
ghost use Rattle.json.specs.Print.{escape_byte, escape_letter};
ghost use Rattle.explained_page.specs.ScriptText.{script_byte, script_text};

use cheri_model::NoMemory;

/// A hexadecimal digit.
fn digit_of(value: u8) -> u8
    requires { value < 16 }
    ensures { result ≡ digit_char value }
{
    if value < 10 {
        b'0' + value
    } else {
        b'a' - 10 + value
    }
}

/// The letter of a byte's short escape, or 0 where it has none.
fn letter_of(byte: u8) -> u8
    ensures { result ≡ escape_letter byte }
{
    match byte {
        b'"' | b'\\' => byte,
        8 => b'b',
        12 => b'f',
        b'\n' => b'n',
        b'\r' => b'r',
        b'\t' => b't',
        _ => 0,
    }
}

/// Appends the escape of a control character that has no letter.
fn write_control(out: &mut Vec<u8>, byte: u8) -> Result<(), NoMemory>
    ensures { OnOk result (out.new.items ≡ out.old.items
        ++ (92 ∷ 117 ∷ 48 ∷ 48 ∷ digit_char (byte / 16) ∷ digit_char (byte % 16) ∷ [])) }
{
    out.extend_from_slice(b"\\u00")?;
    out.push(digit_of(byte / 16))?;
    out.push(digit_of(byte % 16))?;
    Ok(())
}

/// Appends what stands in a JSON string for a byte.
fn write_escaped(out: &mut Vec<u8>, byte: u8) -> Result<(), NoMemory>
    ensures { OnOk result (out.new.items ≡ out.old.items ++ escape_byte byte) }
{
    let letter = letter_of(byte);
    if letter > 0 {
        out.push(b'\\')?;
        out.push(letter)?;
        return Ok(());
    }
    if byte < 32 {
        return write_control(out, byte);
    }
    out.push(byte)?;
    Ok(())
}

/// Appends the same, but for `<`.
fn write_byte(out: &mut Vec<u8>, byte: u8) -> Result<(), NoMemory>
    ensures { OnOk result (out.new.items ≡ out.old.items ++ script_byte byte) }
{
    if byte == b'<' {
        return out.extend_from_slice(b"\\u003c");
    }
    write_escaped(out, byte)
}

/// Appends a text as a JSON text in which `<` is written `\u003c`.
pub(crate) fn write_script_text(out: &mut Vec<u8>, text: &[u8]) -> Result<(), NoMemory>
    ensures { OnOk result (out.new.items ≡ out.old.items ++ script_text text.now) }
{
    out.push(b'"')?;
    for byte in text {
        write_byte(out, *byte)?;
    }
    out.push(b'"')?;
    Ok(())
}
