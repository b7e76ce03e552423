//! A row for each reason of a lost tag and of a trap that the format has.
//!
//! A row sets c5 and c6, where it says so, and runs one instruction. The words are those of the
//! format's table, for values that were computed by hand.

use crate::sinking::ALL;
use explanations::{Format, explain};
use sinks::MemSink;
use std::alloc::Global;
use std::test::Fail;

/// A granule of RAM, with every permission.
const GRANULE: &str = "cap 0x80000000 16 0x80000000 all";

/// The same, sealed with type 5.
const TYPED: &str = "cap 0x80000000 16 0x80000000 all 5";

/// The same, a sentry.
const SENTRY: &str = "cap 0x80000000 16 0x80000000 all sentry";

/// The same granule, to be loaded from.
const LOAD: &str = "cap 0x80000000 16 0x80000000 load";

/// The same granule, with no permission.
const NONE: &str = "cap 0x80000000 16 0x80000000 none";

/// A page of RAM, at an address below its base.
const BELOW: &str = "cap 0x80000000 4096 0x7fffff00 load";

/// A page of RAM, eight bytes below its top.
const NEAR_TOP: &str = "cap 0x80000000 4096 0x80000ff8 load";

/// All addresses.
const WHOLE: &str = "cap 0 18446744073709551616 0 all";

/// The word of a granule of RAM with every permission, untagged.
const WORD: &str = "word 0xffff0000040580040000000080000000";

/// c5, c6, an instruction, and the last that is said of it.
type Row = (&'static str, &'static str, &'static str, &'static str);

const CLEARED: &[Row] = &[
    (GRANULE, "", "ccleartag c7, c5", "clears c7: asked for"),
    (
        GRANULE,
        GRANULE,
        "csethigh c7, c5, c6",
        "clears c7: upper half replaced",
    ),
    (
        BELOW,
        "int 16",
        "csetbounds c7, c5, c6",
        "clears c7: base 000000007fffff00 is below 0000000080000000",
    ),
    (
        NEAR_TOP,
        "int 9",
        "csetbounds c7, c5, c6",
        "clears c7: end 00000000080001001 is above 00000000080001000",
    ),
    (
        "cap 0 18446744073709551616 1 all",
        "int 4096",
        "csetboundsexact c7, c5, c6",
        "clears c7: rounds to 0000000000000000 00000000000001008",
    ),
    (
        "int 5",
        WORD,
        "cbuildcap c7, c5, c6",
        "clears c7: c5 is untagged",
    ),
    ("", "", "cbuildcap c7, c0, c5", "clears c7: c0 is untagged"),
    (
        "cap 0 18446744073709551616 0 all sentry",
        GRANULE,
        "cbuildcap c7, c5, c6",
        "clears c7: c5 is sealed (sentry)",
    ),
    (
        WHOLE,
        "word 0xffff4000040580040000000080000000",
        "cbuildcap c7, c5, c6",
        "clears c7: c6 has reserved bits",
    ),
    (
        "cap 0x80000010 16 0x80000010 all",
        WORD,
        "cbuildcap c7, c5, c6",
        "clears c7: base 0000000080000000 is below 0000000080000010",
    ),
    (
        "cap 0x80000000 8 0x80000000 all",
        WORD,
        "cbuildcap c7, c5, c6",
        "clears c7: top 00000000080000010 is above 00000000080000008",
    ),
    (
        WHOLE,
        "word 0x0000000001000c000000000000000000",
        "cbuildcap c7, c5, c6",
        "clears c7: base c000000000000000 is above top 04000000000000000",
    ),
    (
        "cap 0x80000000 16 0x80000000 load+store",
        WORD,
        "cbuildcap c7, c5, c6",
        "clears c7: c6 has global+execute+load_cap+store_cap+store_local+seal+cinvoke+unseal+\
         sysregs+set_cid+sw0+sw1+sw2+sw3 that c5 lacks",
    ),
    (
        WHOLE,
        "word 0x00000000020018000000000000000000",
        "cbuildcap c7, c5, c6",
        "clears c7: address 0000000000000000 is outside the representable region of 2^14 bytes \
         at 7ffffffffffff800",
    ),
    (
        GRANULE,
        "int 0x7ffff7ff",
        "csetaddr c7, c5, c6",
        "clears c7: address 000000007ffff7ff is outside the representable region of 2^14 bytes \
         at 000000007ffff800",
    ),
    (
        "",
        "",
        "auipcc c7, 4",
        "clears c7: address 0000000010004000 is outside the representable region of 2^14 bytes \
         at 000000000ffff800",
    ),
    (
        GRANULE,
        "int 5",
        "cseal c7, c5, c6",
        "clears c7: c6 is untagged",
    ),
    (
        GRANULE,
        "cap 0 100 5 seal 7",
        "cseal c7, c5, c6",
        "clears c7: c6 is sealed (7)",
    ),
    (
        GRANULE,
        "cap 0 100 5 seal sentry",
        "cseal c7, c5, c6",
        "clears c7: c6 is sealed (sentry)",
    ),
    (
        GRANULE,
        "cap 0 100 5 unseal",
        "cseal c7, c5, c6",
        "clears c7: c6 has no seal",
    ),
    (
        GRANULE,
        "cap 0 100 100 seal",
        "cseal c7, c5, c6",
        "clears c7: type 0000000000000064 is not in 0000000000000000 00000000000000064 of c6",
    ),
    (
        GRANULE,
        "cap 0 18446744073709551616 262140 seal",
        "cseal c7, c5, c6",
        "clears c7: type 000000000003fffc is above 262139",
    ),
    (
        LOAD,
        "",
        "csealentry c7, c5",
        "clears c7: c5 has no execute",
    ),
    (
        TYPED,
        "int 0xffffffffffff",
        "csetaddr c7, c5, c6",
        "clears c7: c5 is sealed (5)",
    ),
    (
        SENTRY,
        "",
        "csetaddr c7, c5, c6",
        "clears c7: c5 is sealed (sentry)",
    ),
    (
        TYPED,
        "int 0xffffffffffff",
        "cseal c7, c5, c6",
        "clears c7: c5 is sealed (5)",
    ),
    (
        SENTRY,
        "",
        "cseal c7, c5, c6",
        "clears c7: c5 is sealed (sentry)",
    ),
    (
        GRANULE,
        "int 5",
        "cunseal c7, c5, c6",
        "clears c7: c5 is not sealed",
    ),
    (
        SENTRY,
        "int 5",
        "cunseal c7, c5, c6",
        "clears c7: c5 is sealed as sentry",
    ),
    (
        TYPED,
        "int 5",
        "cunseal c7, c5, c6",
        "clears c7: c6 is untagged",
    ),
    (
        TYPED,
        "cap 0 100 5 unseal 0",
        "cunseal c7, c5, c6",
        "clears c7: c6 is sealed (0)",
    ),
    (
        TYPED,
        "cap 0 100 5 seal",
        "cunseal c7, c5, c6",
        "clears c7: c6 has no unseal",
    ),
    (
        TYPED,
        "cap 0 5 5 unseal",
        "cunseal c7, c5, c6",
        "clears c7: type 0000000000000005 is not in 0000000000000000 00000000000000005 of c6",
    ),
    (
        TYPED,
        "cap 0 100 6 unseal",
        "cunseal c7, c5, c6",
        "clears c7: type 0000000000000006 of c6 is not 5",
    ),
];

const TRAPPED: &[Row] = &[
    (
        GRANULE,
        "",
        "lh c7, 1(c5)",
        "traps Align: 0000000080000001 is no multiple of 2",
    ),
    (
        "cap 0x10000000 16 0x10000000 load",
        "",
        "cjalr c7, 0(c5)",
        "traps Execute: c5 has no execute",
    ),
    (
        "cap 0x10000000 16 0x10000000 execute+cinvoke 7",
        "cap 0x80000000 16 0x80000000 execute+cinvoke 7",
        "cinvoke c5, c6",
        "traps Execute: c6 has execute",
    ),
    (
        "cap 0x10000000 16 0x10000000 execute+cinvoke 7",
        "",
        "cinvoke c5, c5",
        "traps Execute: c5 has execute",
    ),
    (
        GRANULE,
        "",
        "ld c7, 16(c5)",
        "traps Length: 8 bytes at 0000000080000010 are not in 0000000080000000 00000000080000010 \
         of c5",
    ),
    (NONE, "", "ld c7, 0(c5)", "traps Load: c5 has no load"),
    (LOAD, "", "sd c7, 0(c5)", "traps Store: c5 has no store"),
    (
        "cap 0x80000000 16 0x80000000 load+store+store_local",
        NONE,
        "sc c6, 0(c5)",
        "traps StoreCap: c5 has no store_cap for a tagged c6",
    ),
    (
        "cap 0x80000000 16 0x80000000 load+store+store_cap",
        LOAD,
        "sc c6, 0(c5)",
        "traps StoreLocal: c5 has no store_local for a local c6",
    ),
    (
        "cap 0x80000000 16 0x80000000 execute 7",
        "cap 0x80000000 16 0x80000000 cinvoke 7",
        "cinvoke c5, c6",
        "traps CInvoke: c5 has no cinvoke",
    ),
    (
        "cap 0x80000000 16 0x80000000 cinvoke 7",
        "cap 0x80000000 16 0x80000000 none 7",
        "cinvoke c5, c6",
        "traps CInvoke: c6 has no cinvoke",
    ),
    (
        WHOLE,
        "",
        "lb c7, 0(c5)",
        "traps Place: 1 bytes at 0000000000000000 are not in RAM",
    ),
    (TYPED, "", "lbu c7, 0(c5)", "traps Seal: c5 is sealed (5)"),
    (
        SENTRY,
        "",
        "lw c7, 0(c5)",
        "traps Seal: c5 is sealed (sentry)",
    ),
    (
        GRANULE,
        GRANULE,
        "cinvoke c5, c6",
        "traps Seal: c5 is not sealed with a type",
    ),
    (
        TYPED,
        GRANULE,
        "cinvoke c5, c6",
        "traps Seal: c6 is not sealed with a type",
    ),
    (
        TYPED,
        "cap 0x80000000 16 0x80000000 all 262139",
        "cinvoke c5, c6",
        "traps Type: types 5 and 262139 differ",
    ),
    ("int 1", "", "lb c7, 0(c5)", "traps Tag: c5 is untagged"),
    (
        GRANULE,
        "int 1",
        "cinvoke c5, c6",
        "traps Tag: c6 is untagged",
    ),
    ("", "", "lb c7, 0(c0)", "traps Tag: c0 is untagged"),
];

/// The listing of one hart with these values in c5 and c6, where they are not empty, and one
/// instruction.
fn listing(alloc: Global, c5: &str, c6: &str, instruction: &str) -> Result<String, Fail> {
    let mut text = String::new(alloc);
    writeln!(text, ".hart 0x10000000 4096 0x10000000 execute")?;
    if !c5.is_empty() {
        writeln!(text, ".set c5 {c5}")?;
    }
    if !c6.is_empty() {
        writeln!(text, ".set c6 {c6}")?;
    }
    writeln!(text, "{instruction}")?;
    Ok(text)
}

/// Whether what is said of a row's instruction ends with its last word.
fn is_said(alloc: Global, (c5, c6, instruction, said): Row) -> Result<bool, Fail> {
    let listing = listing(alloc, c5, c6, instruction)?;
    let end = format!(in alloc; "\n  {said}\nend\n")?;
    let mut sink = MemSink::new(alloc, 0, 65_536);
    let listing = listing.as_bytes();
    let result = explain(alloc, listing, b"0", ALL, Format::Text, &mut sink);
    Ok(result == Ok(None) && sink.bytes().ends_with(end.as_bytes()))
}

#[test]
fn each_reason_is_said(rt: HostRuntime) -> Result<(), Fail> {
    for row in CLEARED {
        assert!(rt; is_said(rt.alloc(), *row)?, "{row:?}");
    }
    for row in TRAPPED {
        assert!(rt; is_said(rt.alloc(), *row)?, "{row:?}");
    }
    Ok(())
}
