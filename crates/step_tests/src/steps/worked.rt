//! Worked rows of one step.

use super::{Trapped, after, hart_with};
use cheri_model::form::{
    Form, ImmediateOp, LoadOp, ShiftOp, StoreOp, ThreeOp, TwoOp, UpperOp, WordShiftOp,
};
use cheri_model::{Instr, Reg, Status, Target, Trap};
use samples::{ALL, Given, K, NULL, Tagged, tagged_word};
use std::alloc::Global;
use std::process::Abort;
use std::test::Fail;

/// The form and the name of an instruction on c7, c5 and c6, of which a store has c6 and c5.
#[derive(Clone, Copy)]
enum Asked {
    Three(ThreeOp),
    Two(TwoOp),
    Immediate(ImmediateOp, i16),
    Shift(ShiftOp, u8),
    WordShift(WordShiftOp, u8),
    Upper(UpperOp, u32),
    Load(LoadOp, i16),
    Store(StoreOp, i16),
    Jump(u32),
    Invoke,
}

fn instr_of(asked: Asked) -> Instr {
    let (c7, c5, c6) = (Reg::new(7), Reg::new(5), Reg::new(6));
    let form = match asked {
        Asked::Three(op) => Form::Three(op, c7, c5, c6),
        Asked::Two(op) => Form::Two(op, c7, c5),
        Asked::Immediate(op, imm) => Form::Immediate(op, c7, c5, imm),
        Asked::Shift(op, amount) => Form::Shift(op, c7, c5, amount),
        Asked::WordShift(op, amount) => Form::WordShift(op, c7, c5, amount),
        Asked::Upper(op, imm) => Form::Upper(op, c7, imm),
        Asked::Load(op, imm) => Form::Load(op, c7, c5, imm),
        Asked::Store(op, imm) => Form::Store(op, c6, c5, imm),
        Asked::Jump(number) => Form::Jump(c7, Target::new(number)),
        Asked::Invoke => Form::Invoke(c5, c6),
    };
    form.instr()
}

/// Null.
const NONE: Tagged = Tagged(false, 0, 0);

/// PCC after an instruction that is no jump.
const NEXT: Tagged = Tagged(true, 0x0006_0000_0405_8004, 0x1000_0004);

/// The first sixteen bytes of RAM under permissions from none to all.
const NOTHING: Given = Given::Open(0x8000_0000, 16, 0x8000_0000, 0x0);

const LOAD: Given = Given::Open(0x8000_0000, 16, 0x8000_0000, 0x4);

const GLOBAL_LOAD: Given = Given::Open(0x8000_0000, 16, 0x8000_0000, 0x5);

const STORE: Given = Given::Open(0x8000_0000, 16, 0x8000_0000, 0x8);

const STORE_CAP: Given = Given::Open(0x8000_0000, 16, 0x8000_0000, 0x28);

const STORE_LOCAL: Given = Given::Open(0x8000_0000, 16, 0x8000_0000, 0x68);

/// The word of `GLOBAL_LOAD`, and that of `LOAD`.
const GLOBAL_WORD: u64 = 0x0005_0000_0405_8004;

const LOCAL_WORD: u64 = 0x0004_0000_0405_8004;

/// The instruction, what c5, c6 and the granule hold, and what it writes to c7.
const WRITTEN: [(&str, Asked, [Given; 3], Tagged); 15] = [
    (
        "a sum of 32 bits",
        Asked::Immediate(ImmediateOp::Addiw, 1),
        [Given::Int(0x7fff_ffff), NULL, NULL],
        Tagged(false, 0, 0xffff_ffff_8000_0000),
    ),
    (
        "to the right by 64, which is by 0",
        Asked::Three(ThreeOp::Srl),
        [Given::Int(0x1234), Given::Int(64), NULL],
        Tagged(false, 0, 0x1234),
    ),
    (
        "to the right by 31, with the sign",
        Asked::Three(ThreeOp::Sraw),
        [Given::Int(0x8000_0000), Given::Int(31), NULL],
        Tagged(false, 0, 0xffff_ffff_ffff_ffff),
    ),
    (
        "by 0: the sign is extended",
        Asked::WordShift(WordShiftOp::Srliw, 0),
        [Given::Int(0xffff_ffff_8000_0000), NULL, NULL],
        Tagged(false, 0, 0xffff_ffff_8000_0000),
    ),
    (
        "to the left by 65, which is by 1 and in no listing",
        Asked::Shift(ShiftOp::Slli, 65),
        [Given::Int(0x3), NULL, NULL],
        Tagged(false, 0, 0x6),
    ),
    (
        "an upper immediate with its sign",
        Asked::Upper(UpperOp::Lui, 0x8_0000),
        [NULL, NULL, NULL],
        Tagged(false, 0, 0xffff_ffff_8000_0000),
    ),
    (
        "without signs -1 is the greatest number",
        Asked::Immediate(ImmediateOp::Sltiu, -1),
        [NULL, NULL, NULL],
        Tagged(false, 0, 1),
    ),
    (
        "an address in PCC's window",
        Asked::Upper(UpperOp::AuiPcc, 1),
        [NULL, NULL, NULL],
        Tagged(true, 0x0006_0000_0405_8004, 0x1000_1000),
    ),
    (
        "an address above PCC's window",
        Asked::Upper(UpperOp::AuiPcc, 4),
        [NULL, NULL, NULL],
        Tagged(false, 0x0006_0000_0405_8004, 0x1000_4000),
    ),
    (
        "a tag without Load_Capability",
        Asked::Load(LoadOp::Lc, 0),
        [LOAD, NULL, GLOBAL_LOAD],
        Tagged(false, GLOBAL_WORD, 0x8000_0000),
    ),
    (
        "a word that no capability has",
        Asked::Load(LoadOp::Lc, 0),
        [K, NULL, Given::Word(0x4000, 0)],
        Tagged(false, 0x4000, 0),
    ),
    (
        "the last byte",
        Asked::Load(LoadOp::Lb, 15),
        [LOAD, NULL, NULL],
        NONE,
    ),
    (
        "a half of a granule before a byte is stored",
        Asked::Load(LoadOp::Ld, 8),
        [LOAD, NULL, GLOBAL_LOAD],
        Tagged(false, 0, GLOBAL_WORD),
    ),
    (
        "the reserved type 2^18 - 3",
        Asked::Two(TwoOp::CGetType),
        [Given::Word(0xffff_0000_1405_8004, 0x8000_0000), NULL, NULL],
        Tagged(false, 0, 0xffff_ffff_ffff_fffd),
    ),
    (
        "the reserved type 2^18 - 4",
        Asked::Two(TwoOp::CGetType),
        [Given::Word(0xffff_0000_1c05_8004, 0x8000_0000), NULL, NULL],
        Tagged(false, 0, 0xffff_ffff_ffff_fffc),
    ),
];

/// The instruction, what c5, c6 and the granule hold, and what it leaves in the granule.
const STORED: [(&str, Asked, [Given; 3], Tagged); 4] = [
    (
        "a capability with its tag",
        Asked::Store(StoreOp::Sc, 0),
        [K, GLOBAL_LOAD, NULL],
        Tagged(true, GLOBAL_WORD, 0x8000_0000),
    ),
    (
        "a byte over it",
        Asked::Store(StoreOp::Sb, 9),
        [K, Given::Int(0xaa), GLOBAL_LOAD],
        Tagged(false, 0x0005_0000_0405_aa04, 0x8000_0000),
    ),
    (
        "an untagged value under Store alone",
        Asked::Store(StoreOp::Sc, 0),
        [STORE, Given::Word(GLOBAL_WORD, 0x8000_0000), K],
        Tagged(false, GLOBAL_WORD, 0x8000_0000),
    ),
    (
        "a local value under Store_Local",
        Asked::Store(StoreOp::Sc, 0),
        [STORE_LOCAL, LOAD, K],
        Tagged(true, LOCAL_WORD, 0x8000_0000),
    ),
];

/// Four instructions with Execute alone, as they are and as a sentry.
const CODE: Given = Given::Open(0x1000_0000, 16, 0x1000_0000, 0x2);

const ENTRY: Given = Given::Sentry(0x1000_0000, 16, 0x1000_0000, 0x2);

/// A sealed pair of code and data.
const PAIR_CODE: Given = Given::Sealed(0x1000_0000, 16, 0x1000_0000, 0x102, 5);

const PAIR_DATA: Given = Given::Sealed(0x8000_0000, 16, 0x8000_0000, 0x104, 5);

/// The instruction, what c5 and c6 hold, and what it leaves in PCC, c7 and c31.
const GONE: [(&str, Asked, Given, Given, [Tagged; 3]); 3] = [
    (
        "a link is a sentry",
        Asked::Jump(1),
        NULL,
        NULL,
        [NEXT, LINK, NONE],
    ),
    (
        "the lowest bit of a target is dropped",
        Asked::Load(LoadOp::CJalr, 5),
        CODE,
        NULL,
        [Tagged(true, 0x0002_0000_0405_8004, 0x1000_0004), LINK, NONE],
    ),
    (
        "a pair is unsealed",
        Asked::Invoke,
        PAIR_CODE,
        PAIR_DATA,
        [
            Tagged(true, 0x0102_0000_0405_8004, 0x1000_0000),
            NONE,
            Tagged(true, 0x0104_0000_0405_8004, 0x8000_0000),
        ],
    ),
];

/// PCC after a link, sealed as a sentry.
const LINK: Tagged = Tagged(true, 0x0006_0000_0c05_8004, 0x1000_0004);

/// The instruction, what c5 and c6 hold, and the trap.
const TRAPPED: [(&str, Asked, Given, Given, Trapped); 19] = [
    (
        "a sentry with an offset",
        Asked::Load(LoadOp::CJalr, 4),
        ENTRY,
        NULL,
        (2, 5),
    ),
    (
        "no multiple of 4",
        Asked::Load(LoadOp::CJalr, 6),
        CODE,
        NULL,
        (9, 5),
    ),
    (
        "no multiple of 4 without the lowest bit",
        Asked::Load(LoadOp::CJalr, 7),
        CODE,
        NULL,
        (9, 5),
    ),
    (
        "two types",
        Asked::Invoke,
        PAIR_CODE,
        Given::Sealed(0x8000_0000, 16, 0x8000_0000, 0x104, 6),
        (12, 5),
    ),
    (
        "data with Execute",
        Asked::Invoke,
        PAIR_CODE,
        Given::Sealed(0x8000_0000, 16, 0x8000_0000, 0x106, 5),
        (3, 6),
    ),
    (
        "a tagged value under Store alone",
        Asked::Store(StoreOp::Sc, 0),
        STORE,
        GLOBAL_LOAD,
        (6, 5),
    ),
    (
        "a local value under Store alone",
        Asked::Store(StoreOp::Sc, 0),
        STORE,
        LOAD,
        (6, 5),
    ),
    (
        "a local value under Store_Capability alone",
        Asked::Store(StoreOp::Sc, 0),
        STORE_CAP,
        LOAD,
        (7, 5),
    ),
    (
        "a half-word past the bounds, and not aligned",
        Asked::Load(LoadOp::Lh, 15),
        LOAD,
        NULL,
        (8, 5),
    ),
    (
        "a half-word that is not aligned",
        Asked::Load(LoadOp::Lh, 13),
        LOAD,
        NULL,
        (9, 5),
    ),
    (
        "a byte right below the bounds",
        Asked::Load(LoadOp::Lb, -1),
        LOAD,
        NULL,
        (8, 5),
    ),
    (
        "a byte right above RAM",
        Asked::Load(LoadOp::Lb, 0),
        Given::Open(0, 1 << 64, 0x8000_0010, ALL),
        NULL,
        (10, 5),
    ),
    (
        "no permission",
        Asked::Load(LoadOp::Lb, 0),
        NOTHING,
        NULL,
        (4, 5),
    ),
    (
        "an authority of the reserved type 2^18 - 3",
        Asked::Load(LoadOp::Lc, 0),
        Given::Word(0x0014_0000_1405_8004, 0x8000_0000),
        NULL,
        (1, 5),
    ),
    (
        "an authority of the reserved type 2^18 - 4",
        Asked::Load(LoadOp::Lc, 0),
        Given::Word(0x0014_0000_1c05_8004, 0x8000_0000),
        NULL,
        (1, 5),
    ),
    (
        "a target of the reserved type 2^18 - 3",
        Asked::Load(LoadOp::CJalr, 0),
        Given::Word(0x0002_0000_1405_8004, 0x1000_0000),
        NULL,
        (1, 5),
    ),
    (
        "a target of the reserved type 2^18 - 4",
        Asked::Load(LoadOp::CJalr, 0),
        Given::Word(0x0002_0000_1c05_8004, 0x1000_0000),
        NULL,
        (1, 5),
    ),
    (
        "code of the reserved type 2^18 - 3",
        Asked::Invoke,
        Given::Word(0x0102_0000_1405_8004, 0x1000_0000),
        PAIR_DATA,
        (1, 5),
    ),
    (
        "code of the reserved type 2^18 - 4",
        Asked::Invoke,
        Given::Word(0x0102_0000_1c05_8004, 0x1000_0000),
        PAIR_DATA,
        (1, 5),
    ),
];

/// The instruction, over these values of c5, c6 and the granule, leaves this in PCC, c7, c31 and the
/// granule.
fn leaves(
    rt: &impl Abort,
    alloc: Global,
    why: &str,
    asked: Asked,
    given: [Given; 3],
    expected: [Tagged; 4],
) -> Result<(), Fail> {
    let [first, second, held] = given;
    let hart = hart_with(first, second)?;
    let granule = held.cap()?;
    let left = after(rt, alloc, instr_of(asked), hart, granule);
    let found = [
        tagged_word(left.hart.pcc()),
        tagged_word(left.hart.register(Reg::new(7))),
        tagged_word(left.hart.register(Reg::new(31))),
        tagged_word(left.granule),
    ];
    assert_eq!(rt; left.trap, (0, 0), "{why}");
    assert_eq!(rt; found, expected, "{why}");
    Ok(())
}

#[test]
fn values_are_written_and_stored(rt: HostRuntime) -> Result<(), Fail> {
    let alloc = rt.alloc();
    for (why, asked, given, written) in WRITTEN {
        let held = tagged_word(given[2].cap()?);
        leaves(&rt, alloc, why, asked, given, [NEXT, written, NONE, held])?;
    }
    for (why, asked, given, stored) in STORED {
        leaves(&rt, alloc, why, asked, given, [NEXT, NONE, NONE, stored])?;
    }
    Ok(())
}

#[test]
fn jumps_leave_links(rt: HostRuntime) -> Result<(), Fail> {
    for (why, asked, first, second, [pcc, c7, c31]) in GONE {
        let given = [first, second, NULL];
        leaves(&rt, rt.alloc(), why, asked, given, [pcc, c7, c31, NONE])?;
    }
    Ok(())
}

/// A trap changes nothing but the status.
#[test]
fn traps_change_the_status_alone(rt: HostRuntime) -> Result<(), Fail> {
    for (why, asked, first, second, (cause, reg)) in TRAPPED {
        let hart = hart_with(first, second)?;
        let granule = GLOBAL_LOAD.cap()?;
        let left = after(&rt, rt.alloc(), instr_of(asked), hart, granule);
        let mut wanted = hart;
        wanted.set_status(Status::Trapped(Trap { cause, reg }));
        assert_eq!(rt; left.trap, (cause, reg), "{why}");
        assert_eq!(rt; left.hart, wanted, "{why}");
        assert_eq!(rt; left.granule, granule, "{why}");
    }
    Ok(())
}
