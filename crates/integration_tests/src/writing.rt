//! Listings written back. The canonical listings are those of the format's reference model.

mod alike;

use crate::common::image_of;
use alike::{HEAD, SPELLINGS, TAIL};
use samples::FIRST;
use std::alloc::Global;
use std::process::Abort;
use texts::write_listing;

/// Each instruction once, as a canonical listing has it.
const EACH_INSTRUCTION: &str = "\
    .hart 0x10000000 16 0x10000000 execute\n\
    ecall\n\
    cmove c1, c9\n\
    ccleartag c3, c11\n\
    csealentry c5, c13\n\
    cgetperm c7, c15\n\
    cgettype c9, c17\n\
    cgetbase c11, c19\n\
    cgetaddr c13, c21\n\
    cgethigh c15, c23\n\
    cgetflags c17, c25\n\
    cgettag c19, c27\n\
    cgetlen c21, c29\n\
    cgetoffset c23, c31\n\
    cgetsealed c25, c1\n\
    crrl c27, c3\n\
    cram c29, c5\n\
    csetaddr c31, c7, c20\n\
    cincoffset c2, c10, c23\n\
    csetbounds c5, c13, c26\n\
    csetboundsexact c8, c16, c29\n\
    candperm c11, c19, c0\n\
    csetflags c14, c22, c3\n\
    csethigh c17, c25, c6\n\
    cseal c20, c28, c9\n\
    cunseal c23, c31, c12\n\
    cbuildcap c22, c30, c13\n\
    ctestsubset c26, c2, c15\n\
    csetequalexact c29, c5, c18\n\
    add c0, c8, c21\n\
    sub c3, c11, c24\n\
    sll c6, c14, c27\n\
    slt c9, c17, c30\n\
    sltu c12, c20, c1\n\
    xor c15, c23, c4\n\
    srl c18, c26, c7\n\
    sra c21, c29, c10\n\
    or c24, c0, c13\n\
    and c27, c3, c16\n\
    addw c30, c6, c19\n\
    subw c1, c9, c22\n\
    sllw c4, c12, c25\n\
    srlw c7, c15, c28\n\
    sraw c10, c18, c31\n\
    addi c13, c21, -2048\n\
    slti c16, c24, 2047\n\
    sltiu c19, c27, -2048\n\
    xori c22, c30, 2047\n\
    ori c25, c1, -2048\n\
    andi c28, c4, 2047\n\
    addiw c31, c7, -2048\n\
    cincoffsetimm c2, c10, 2047\n\
    csetboundsimm c5, c13, 4095\n\
    slli c8, c16, 63\n\
    srli c11, c19, 63\n\
    srai c14, c22, 63\n\
    slliw c17, c25, 31\n\
    srliw c20, c28, 31\n\
    sraiw c23, c31, 31\n\
    lui c26, 1048575\n\
    auipcc c28, 1048575\n\
    beq c5, c18, @0\n\
    bne c8, c21, @3\n\
    blt c11, c24, @6\n\
    bge c14, c27, @9\n\
    bltu c17, c30, @12\n\
    bgeu c20, c1, @15\n\
    lb c16, -77(c17)\n\
    lbu c18, -79(c19)\n\
    lh c20, -81(c21)\n\
    lhu c22, -83(c23)\n\
    lw c24, -85(c25)\n\
    lwu c26, -87(c27)\n\
    ld c28, -89(c29)\n\
    lc c30, -91(c31)\n\
    cjalr c0, -93(c1)\n\
    sb c21, -95(c3)\n\
    sh c23, -97(c5)\n\
    sw c25, -99(c7)\n\
    sd c27, -1(c9)\n\
    sc c29, -3(c11)\n\
    amoswap.c c12, c0, c21\n\
    cjal c15, @48\n\
    cinvoke c24, c5\n\
    ";

/// Many spellings of one image, and its canonical listing.
const LOOSE: &str = "\
    # a machine\n\
    \t.hart 0x10000000,64 0x010000000 execute+global # its code\n\
     .ram 0x40\n\
    .set c1 int 0x10\n\
    .set c31 word 0x100000000000000000000000000000ff\n\
    .set c2 word 7\n\
    .set c3 int 0\n\
    .set c9 cap 0 0x10000000000000000 5 all\n\
    .set c4 cap 0x80000000 16 0x80000008 none sentry\n\
    .set c6 cap 0x80000000 16 0x80000008 store+load+sw1 007\n\
    .bytes 0x80000001 0aFF\n\
    .cap 0x80000010 0x80000000 16 0x80000000 load_cap+load\n\
    .cap 0x80000020 0x80000000 16 0x80000000 load\n\
    .bytes 0x8000002f 00\n\
    .bytes 0x80000030 00\n\
    .hart 0 16 0 none\n\
    start: # here\n\
    beq c1 c2 end\n\
    lui c1, 0xABCDE\n\
    lc c1,0x10(c2)\n\
    sd c3 -0(c4)\n\
    cjal c0, start\n\
    cjalr c1,-1(c2),\n\
    end:\n\
    ecall\
    ";

const CANONICAL: &str = "\
    .ram 64\n\
    .bytes 0x80000000 000aff00000000000000000000000000\n\
    .cap 0x80000010 0x80000000 16 0x80000000 load+load_cap\n\
    .bytes 0x80000020 00000080000000000480050400000400\n\
    .hart 0x10000000 64 0x10000000 global+execute\n\
    .set c1 int 16\n\
    .set c2 int 7\n\
    .set c4 cap 0x80000000 16 0x80000008 none sentry\n\
    .set c6 cap 0x80000000 16 0x80000008 load+store+sw1 7\n\
    .set c9 cap 0x0 18446744073709551616 0x5 all\n\
    .set c31 word 0x100000000000000000000000000000ff\n\
    .hart 0x0 16 0x0 none\n\
    beq c1, c2, @6\n\
    lui c1, 703710\n\
    lc c1, 16(c2)\n\
    sd c3, 0(c4)\n\
    cjal c0, @0\n\
    cjalr c1, -1(c2)\n\
    ecall\n\
    ";

/// Whether a listing is written back as the canonical one that has this text between these two.
fn is_written(
    rt: &impl Abort,
    alloc: Global,
    listing: &str,
    (head, text, tail): (&str, &str, &str),
) -> bool {
    let image = image_of(rt, alloc, listing.as_bytes());
    let written = write_listing(alloc, &image).expect(rt, "there is memory");
    match written.strip_prefix(head) {
        Some(rest) => rest.strip_suffix(tail) == Some(text),
        None => false,
    }
}

/// The same of a spelling before an `ecall`.
fn is_alike(rt: &impl Abort, alloc: Global, spelling: &str, text: &str) -> bool {
    let listing = format!(in alloc; "{HEAD}{spelling}{TAIL}").expect(rt, "there is memory");
    is_written(rt, alloc, listing.as_str(), (HEAD, text, TAIL))
}

#[test]
fn canonical_listings_are_written_back(rt: HostRuntime) {
    let listings = [
        (FIRST, ".ram 4096\n", FIRST),
        (EACH_INSTRUCTION, ".ram 4096\n", EACH_INSTRUCTION),
        (CANONICAL, "", CANONICAL),
        (LOOSE, "", CANONICAL),
    ];
    for (listing, head, text) in listings {
        let is_right = is_written(&rt, rt.alloc(), listing, (head, text, ""));
        assert!(rt; is_right, "of {listing}");
    }
}

#[test]
fn spellings_are_written_alike(rt: HostRuntime) {
    for (spelling, text) in SPELLINGS {
        assert!(rt;
            is_alike(&rt, rt.alloc(), spelling, text),
            "of {spelling:?}"
        );
    }
}
