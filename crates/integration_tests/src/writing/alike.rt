//! Lines that are spelled differently and mean the same.

/// The canonical lines before an instruction or a register's line.
pub(super) const HEAD: &str = ".ram 4096\n.hart 0x10000000 16 0x10000000 execute\n";

/// What comes after it.
pub(super) const TAIL: &str = "\necall\n";

/// Spellings, and the canonical lines that each means.
pub(super) const SPELLINGS: [(&str, &str); 40] = [
    // words and comments
    ("add c1, c2, c3", "add c1, c2, c3"),
    ("add c1 c2 c3", "add c1, c2, c3"),
    ("add,c1,c2,c3", "add c1, c2, c3"),
    ("\tadd\tc1\tc2\tc3\t", "add c1, c2, c3"),
    (" ,\tadd c1,,c2 ,\t, c3,", "add c1, c2, c3"),
    ("add c1, c2, c3 # c4", "add c1, c2, c3"),
    ("add c1, c2, c3#c4", "add c1, c2, c3"),
    ("# add c1, c2, c3\n\nadd c1, c2, c3", "add c1, c2, c3"),
    // numbers
    ("addi c1, c2, 0x7fF", "addi c1, c2, 2047"),
    ("addi c1, c2, 002047", "addi c1, c2, 2047"),
    ("addi c1, c2, -0x0800", "addi c1, c2, -2048"),
    ("addi c1, c2, -0", "addi c1, c2, 0"),
    ("slli c1, c2, 0x3F", "slli c1, c2, 63"),
    ("slliw c1, c2, -0", "slliw c1, c2, 0"),
    ("csetboundsimm c1, c2, 0xFFF", "csetboundsimm c1, c2, 4095"),
    ("lui c1, 0xABcde", "lui c1, 703710"),
    ("auipcc c1, -0", "auipcc c1, 0"),
    ("lc c1 -0(c2)", "lc c1, 0(c2)"),
    ("sc c1 -0x10(c2)", "sc c1, -16(c2)"),
    ("cjalr c1 010(c2)", "cjalr c1, 10(c2)"),
    (
        ".set c1 int 0x00000000000000000000000000000010",
        ".set c1 int 16",
    ),
    (".set c1 word 16", ".set c1 int 16"),
    (
        ".set c1 word 0xFFFFFFFFFFFFFFFF",
        ".set c1 int 18446744073709551615",
    ),
    (
        ".set c1 word 18446744073709551616",
        ".set c1 word 0x10000000000000000",
    ),
    (
        ".set c1 word 0x00000ABC00000000000000000",
        ".set c1 word 0xabc00000000000000000",
    ),
    // targets
    ("cjal c1, @00", "cjal c1, @0"),
    ("here: # a label\ncjal c1, here", "cjal c1, @0"),
    ("cjal c1, there\nthere:", "cjal c1, @1"),
    ("c7:\nbeq c1, c2, c7", "beq c1, c2, @0"),
    ("ecall:\nbne c1, c2, ecall", "bne c1, c2, @0"),
    ("ecall\n_9:\nblt c1, c2, _9", "ecall\nblt c1, c2, @1"),
    // capabilities
    (
        ".set c1 cap 2147483648 0x10 0x080000008 store+load",
        ".set c1 cap 0x80000000 16 0x80000008 load+store",
    ),
    (
        ".set c1 cap 0 0x10 0 load+load+load",
        ".set c1 cap 0x0 16 0x0 load",
    ),
    (
        ".set c1 cap 0 16 0 sw3+sw2+sw1+sw0+set_cid+sysregs+unseal+cinvoke+seal\
        +store_local",
        ".set c1 cap 0x0 16 0x0 store_local+seal+cinvoke+unseal+sysregs+set_cid+sw0\
        +sw1+sw2+sw3",
    ),
    (
        ".set c1 cap 0 16 0 sw3+sw2+sw1+sw0+set_cid+sysregs+unseal+cinvoke+seal+store_local\
        +store_cap+load_cap+store+load+execute+global",
        ".set c1 cap 0x0 16 0x0 all",
    ),
    (
        ".set c1 cap 0 16 0 none 0x0",
        ".set c1 cap 0x0 16 0x0 none 0",
    ),
    (
        ".set c1 cap 0 16 0 none 0x3FFFB",
        ".set c1 cap 0x0 16 0x0 none 262139",
    ),
    (
        ".set c1 cap 0 0 0 all sentry",
        ".set c1 cap 0x0 0 0x0 all sentry",
    ),
    // registers are written in the order of their numbers, and null ones are not written
    (
        ".set c10 int 1\n.set c9 int 2\n.set c31 int 3\n.set c1 int 4",
        ".set c1 int 4\n.set c9 int 2\n.set c10 int 1\n.set c31 int 3",
    ),
    (
        ".set c10 int 0\n.set c9 word 0\nadd c1, c2, c3",
        "add c1, c2, c3",
    ),
];
