//! Tokens, and the places at which there are none.

use asm_tokens::{AsmFaultKind, Token, TokenKind, push_string, read_tokens, without_zeros};
use std::alloc::Global;
use std::fmt::Write;
use std::io;
use std::test::Fail;

/// Appends a token: its kind's letter, its text and its place.
fn push_shown(out: &mut String, token: Token<'_>) -> io::Result<()> {
    let (line, column) = (token.place.line, token.place.column);
    match token.kind {
        TokenKind::Name => write!(out, "N")?,
        TokenKind::Number(Some(number)) => write!(out, "#{number}=")?,
        TokenKind::Number(None) => write!(out, "#=")?,
        TokenKind::Local => write!(out, "L")?,
        TokenKind::String => write!(out, "S")?,
        TokenKind::Mark(_) => write!(out, "M")?,
        TokenKind::Request => write!(out, "R")?,
        TokenKind::End => write!(out, "E")?,
    }
    if token.kind != TokenKind::End {
        let text = str::from_utf8(token.text).unwrap_or("?");
        write!(out, "{text}")?;
    }
    write!(out, "@{line}:{column} ")?;
    Ok(())
}

/// A text's tokens in one line, or its fault.
fn shown(alloc: Global, text: &[u8]) -> io::Result<String> {
    let mut out = String::new(alloc);
    match read_tokens(alloc, text) {
        Ok(tokens) => {
            for token in &tokens {
                push_shown(&mut out, *token)?;
            }
        }
        Err(fault) => {
            let (line, column, kind) = (fault.place.line, fault.place.column, fault.kind);
            write!(out, "{line}:{column}: {kind}")?;
        }
    }
    Ok(out)
}

#[test]
fn a_text_has_its_tokens(rt: HostRuntime) -> Result<(), Fail> {
    for (text, want) in [
        ("", "E@1:1 "),
        ("li a0, 0x1F", "Nli@1:1 Na0@1:4 M,@1:6 #31=0x1F@1:8 E@1:12 "),
        (
            "a.b$_9:;j 1b\n",
            "Na.b$_9@1:1 M:@1:7 E@1:8 Nj@1:9 L1b@1:11 E@1:13 E@2:1 ",
        ),
        ("00 017 0b101", "#0=00@1:1 #15=017@1:4 #5=0b101@1:8 E@1:13 "),
        (
            "0B1 0b 0f 19f",
            "#1=0B1@1:1 L0b@1:5 L0f@1:8 L19f@1:11 E@1:14 ",
        ),
        (
            "0xffffffffffffffff",
            "#18446744073709551615=0xffffffffffffffff@1:1 E@1:19 ",
        ),
        ("18446744073709551616", "#=18446744073709551616@1:1 E@1:21 "),
        ("'a' '''", "#97='a'@1:1 #39='''@1:5 E@1:8 "),
        ("'\\n' '\\x141'", "#10='\\n'@1:1 #65='\\x141'@1:6 E@1:13 "),
        ("\"a;#/*\\\"\" x", "S\"a;#/*\\\"\"@1:1 Nx@1:11 E@1:12 "),
        (
            "1<<2>>3",
            "#1=1@1:1 M<<@1:2 #2=2@1:4 M>>@1:5 #3=3@1:7 E@1:8 ",
        ),
        (
            "a/*\n*/b//c\nd#e\n",
            "Na@1:1 Nb@2:3 E@2:7 Nd@3:1 E@3:4 E@4:1 ",
        ),
        (
            " \t#@ hart x\n#@ram\n a #@ no",
            "R#@ hart x@1:3 E@1:12 R#@ram@2:1 E@2:6 Na@3:2 E@3:9 ",
        ),
        ("/**/#@ x\n", "E@1:9 E@2:1 "),
        (
            "%hi(x)+~-!",
            "M%@1:1 Nhi@1:2 M(@1:4 Nx@1:5 M)@1:6 M+@1:7 M~@1:8 M-@1:9 M!@1:10 E@1:11 ",
        ),
        ("^&|*=@", "M^@1:1 M&@1:2 M|@1:3 M*@1:4 M=@1:5 M@@1:6 E@1:7 "),
    ] {
        let got = shown(rt.alloc(), text.as_bytes())?;
        assert_eq!(&rt; got.as_str(), want, "of {text:?}");
    }
    Ok(())
}

#[test]
fn a_byte_without_a_token_is_told(rt: HostRuntime) -> Result<(), Fail> {
    for (text, want) in [
        ("a\n `", "2:2: 1 Byte"),
        ("08", "1:1: 1 Byte"),
        ("0x", "1:1: 1 Byte"),
        ("1a", "1:1: 1 Byte"),
        ("a < b", "1:3: 1 Byte"),
        ("a /* b\n", "1:3: 1 Byte"),
        (" \"ab\\q\"", "1:5: 1 Byte"),
        ("\"\\400\"", "1:2: 1 Byte"),
        ("\"\\x\"", "1:2: 1 Byte"),
        ("\"ab\n\"", "1:1: 1 Byte"),
        ("\"a\u{7f}\"", "1:3: 1 Byte"),
        ("'\\q'", "1:2: 1 Byte"),
        ("'ab'", "1:1: 1 Byte"),
        ("'\\nb'", "1:1: 1 Byte"),
        ("'\t'", "1:1: 1 Byte"),
        ("é", "1:1: 1 Byte"),
    ] {
        let got = shown(rt.alloc(), text.as_bytes())?;
        assert_eq!(&rt; got.as_str(), want, "of {text:?}");
    }
    Ok(())
}

#[test]
fn a_string_means_its_bytes(rt: HostRuntime) -> Result<(), Fail> {
    for (text, want) in [
        ("\"\"", b"".as_slice()),
        ("\"a\\tb\"", b"a\tb".as_slice()),
        (
            "\"\\b\\f\\n\\r\\\\\\\"\\'\"",
            b"\x08\x0c\n\r\\\"'".as_slice(),
        ),
        ("\"\\7\\101\\1011\"", b"\x07AA1".as_slice()),
        ("\"\\x4\\X4142\"", b"\x04B".as_slice()),
    ] {
        let mut bytes = Vec::new(rt.alloc());
        bytes.push(b'>')?;
        push_string(&mut bytes, text.as_bytes())?;
        assert!(&rt; bytes[0] == b'>' && &bytes[1..] == want, "of {text:?}");
    }
    assert!(&rt; without_zeros(b"0010") == b"10".as_slice());
    assert!(&rt; without_zeros(b"000") == b"".as_slice());
    Ok(())
}

#[test]
fn each_kind_of_fault_has_its_number_and_name(rt: HostRuntime) -> Result<(), Fail> {
    for (kind, want) in [
        (AsmFaultKind::Byte, "1 Byte"),
        (AsmFaultKind::Statement, "2 Statement"),
        (AsmFaultKind::Operand, "3 Operand"),
        (AsmFaultKind::Range, "4 Range"),
        (AsmFaultKind::Register, "5 Register"),
        (AsmFaultKind::Symbol, "6 Symbol"),
        (AsmFaultKind::Twice, "7 Twice"),
        (AsmFaultKind::Expression, "8 Expression"),
        (AsmFaultKind::Profile, "9 Profile"),
        (AsmFaultKind::Section, "10 Section"),
        (AsmFaultKind::Capability, "11 Capability"),
        (AsmFaultKind::Hart, "12 Hart"),
        (AsmFaultKind::Size, "13 Size"),
        (AsmFaultKind::NoMemory, "14 NoMemory"),
    ] {
        let got = format!(in rt.alloc(); "{kind}")?;
        assert_eq!(&rt; got.as_str(), want);
    }
    Ok(())
}
