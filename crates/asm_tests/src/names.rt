//! The names of registers, directives, sections, relocation functions, and instructions that the
//! machine hasn't.

use asm_mnemonics::{Mnemonic, mnemonic_of, push_small};
use asm_names::{
    Directive, RegisterKind, Relocation, SectionKind, directive_of, is_fence_set, is_outside,
    is_refused_section, register_named, relocation_of, section_kind,
};
use std::fmt::Write;
use std::test::Fail;

/// The kind and the number of a register's name.
fn register_of(name: &str) -> Option<(RegisterKind, u8)> {
    let named = register_named(name.as_bytes())?;
    Some((named.kind, named.register.number()))
}

#[test]
fn registers_have_two_names_of_each_kind(rt: HostRuntime) -> Result<(), Fail> {
    for (number, name) in [
        "zero", "ra", "sp", "gp", "tp", "t0", "t1", "t2", "s0", "s1", "a0", "a1", "a2", "a3", "a4",
        "a5", "a6", "a7", "s2", "s3", "s4", "s5", "s6", "s7", "s8", "s9", "s10", "s11", "t3", "t4",
        "t5", "t6",
    ]
    .iter()
    .enumerate()
    {
        let number = number as u8;
        let integer = Some((RegisterKind::Integer, number));
        let capability = Some((RegisterKind::Capability, number));
        assert_eq!(&rt; register_of(name), integer, "of {name:?}");
        let mut text = format!(in rt.alloc(); "x{number}")?;
        assert_eq!(&rt; register_of(text.as_str()), integer, "of {text:?}");
        text = format!(in rt.alloc(); "c{number}")?;
        assert_eq!(&rt; register_of(text.as_str()), capability, "of {text:?}");
        text = format!(in rt.alloc(); "c{name}")?;
        let named = if number == 0 { None } else { capability };
        assert_eq!(&rt; register_of(text.as_str()), named, "of {text:?}");
    }
    assert_eq!(&rt; register_of("cnull"), Some((RegisterKind::Capability, 0)));
    assert_eq!(&rt; register_of("fp"), Some((RegisterKind::Integer, 8)));
    assert_eq!(&rt; register_of("cfp"), Some((RegisterKind::Capability, 8)));
    for name in [
        "", "x", "c", "x32", "c32", "x01", "c00", "x-1", "null", "A0", "a8", "s12", "t7", "cc0",
        "ca",
    ] {
        assert_eq!(&rt; register_of(name), None, "of {name:?}");
    }
    Ok(())
}

#[test]
fn directives_are_found_by_name(rt: HostRuntime) -> Result<(), Fail> {
    for (name, want) in [
        (".text", Some(Directive::Plain)),
        (".rodata", Some(Directive::Plain)),
        (".section", Some(Directive::Section)),
        (".weak", Some(Directive::Global)),
        (".equ", Some(Directive::Set)),
        (".p2align", Some(Directive::Align)),
        (".balign", Some(Directive::Balign)),
        (".byte", Some(Directive::Data(1))),
        (".short", Some(Directive::Data(2))),
        (".4byte", Some(Directive::Data(4))),
        (".quad", Some(Directive::Data(8))),
        (".skip", Some(Directive::Zero)),
        (".string", Some(Directive::Asciz)),
        (".ident", Some(Directive::Ignored)),
        (".cfi_startproc", Some(Directive::Ignored)),
        (".cfi_", Some(Directive::Ignored)),
        (".macro", Some(Directive::Outside)),
        (".tls_common", Some(Directive::Outside)),
        (".cfi", None),
        (".TEXT", None),
        (".", None),
        ("", None),
    ] {
        assert_eq!(&rt; directive_of(name.as_bytes()), want, "of {name:?}");
    }
    for (name, want) in [
        ("hi", Some(Relocation::Hi)),
        ("lo", Some(Relocation::Lo)),
        ("pcrel_hi", Some(Relocation::PcrelHi)),
        ("pcrel_lo", Some(Relocation::PcrelLo)),
        ("captab_pcrel_hi", Some(Relocation::CaptabPcrelHi)),
        ("got_pcrel_hi", Some(Relocation::Outside)),
        ("cheriot_compartment_lo_s", Some(Relocation::Outside)),
        ("HI", None),
        ("", None),
    ] {
        assert_eq!(&rt; relocation_of(name.as_bytes()), want, "of {name:?}");
    }
    Ok(())
}

#[test]
fn sections_have_kinds_by_name(rt: HostRuntime) -> Result<(), Fail> {
    for (name, want, refused) in [
        (".text", SectionKind::Code, false),
        (".text.main", SectionKind::Code, false),
        (".textual", SectionKind::Dropped, false),
        (".srodata.cst8", SectionKind::ReadOnly, false),
        (".data.rel.ro", SectionKind::ReadWrite, false),
        (".sbss", SectionKind::Zeros, false),
        (".debug_info", SectionKind::Dropped, false),
        ("", SectionKind::Dropped, false),
        (".init", SectionKind::Dropped, true),
        (".init_array.1", SectionKind::Dropped, true),
        (".initial", SectionKind::Dropped, false),
        (".tbss", SectionKind::Dropped, true),
    ] {
        assert_eq!(&rt; section_kind(name.as_bytes()), want, "of {name:?}");
        assert_eq!(&rt; is_refused_section(name.as_bytes()), refused, "of {name:?}");
    }
    Ok(())
}

#[test]
fn instructions_of_other_profiles_are_known(rt: HostRuntime) -> Result<(), Fail> {
    for (name, want) in [
        ("mul", true),
        ("auipc", true),
        ("fence.i", true),
        ("lc.ddc", true),
        ("c.addi", true),
        ("fadd.s", true),
        ("fmv.x.w", true),
        ("flw", true),
        ("lr.w", true),
        ("clr.c.aqrl", true),
        ("csc.b.rl", true),
        ("amoadd.d", true),
        ("camominu.h.aq", true),
        ("lr", false),
        ("lr.w.aqr", false),
        ("lr.w.aq.rl", false),
        ("amoadd", false),
        ("amonand.w", false),
        ("faddd", false),
        ("c", false),
        ("frob", false),
        ("", false),
    ] {
        assert_eq!(&rt; is_outside(name.as_bytes()), want, "of {name:?}");
    }
    for (name, want) in [
        ("rw", true),
        ("iorw", true),
        ("w", true),
        ("wr", false),
        ("", false),
    ] {
        assert_eq!(&rt; is_fence_set(name.as_bytes()), want, "of {name:?}");
    }
    Ok(())
}

#[test]
fn instructions_are_found_by_name(rt: HostRuntime) -> Result<(), Fail> {
    for (name, want) in [
        ("csetbounds", Some(Mnemonic::SetBounds)),
        ("cincoffsetimm", Some(Mnemonic::IncOffsetImm)),
        ("camoswap.c.aqrl", Some(Mnemonic::Swap)),
        ("clc", Some(Mnemonic::LoadCapability)),
        ("jalr.cap", Some(Mnemonic::JumpRegisterPlain)),
        ("ret", Some(Mnemonic::Return)),
        ("sbreak", Some(Mnemonic::Unimp)),
        ("fence.tso", Some(Mnemonic::Nop)),
        ("lla", Some(Mnemonic::La)),
        ("ADD", None),
        ("mul", None),
        ("", None),
    ] {
        assert_eq!(&rt; mnemonic_of(name.as_bytes()), want, "of {name:?}");
    }
    let mut small = Vec::new(rt.alloc());
    push_small(&mut small, b"CSetBounds.1@[")?;
    assert!(&rt; small.as_slice() == b"csetbounds.1@[".as_slice());
    Ok(())
}
