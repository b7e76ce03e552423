//! The first worked run: a listing, and its reports after the order `0000`.

/// Two harts that bound a capability, read its length and stop, with 4,096 bytes of memory.
pub const FIRST: &str = ".hart 0x10000000 16 0x10000000 execute+load\n\
.set c5 cap 0x80000000 4096 0x80000000 load+store\n\
.hart 0x10000000 16 0x10000000 execute+load\n\
.set c5 cap 0x80000000 4096 0x80000000 load+store\n\
addi c6, c0, 100\ncsetbounds c7, c5, c6\ncgetlen c8, c7\necall\n";

/// The report of the first worked run: two harts, of which hart 0 took its four instructions.
pub const FIRST_REPORT: &[u8] = b"cheri-sim report 1
image harts=2 ram=4096 code=4
entries 4
0 hart=0 pc=0000000010000000 done
1 hart=0 pc=0000000010000004 done
2 hart=0 pc=0000000010000008 done
3 hart=0 pc=000000001000000c halt
hart 0 halted
pcc 1 0006000004058004_000000001000000c 0000000010000000 00000000010000010 00006 unsealed
c5 1 000c000000018004_0000000080000000 0000000080000000 00000000080001000 0000c unsealed
c6 0 0000000000000000_0000000000000064
c7 1 000c000004188004_0000000080000000 0000000080000000 00000000080000064 0000c unsealed
c8 0 0000000000000000_0000000000000064
hart 1 running
pcc 1 0006000004058004_0000000010000000 0000000010000000 00000000010000010 00006 unsealed
c5 1 000c000000018004_0000000080000000 0000000080000000 00000000080001000 0000c unsealed
end
";

/// The JSON report of the first worked run.
pub const FIRST_JSON: &str = "\
{\"entries\":[{\"hart\":0,\"outcome\":\"done\",\"pc\":\"0000000010000000\"},\
{\"hart\":0,\"outcome\":\"done\",\"pc\":\"0000000010000004\"},{\"hart\":0,\
\"outcome\":\"done\",\"pc\":\"0000000010000008\"},{\"hart\":0,\
\"outcome\":\"halt\",\"pc\":\"000000001000000c\"}],\
\"harts\":[{\"pcc\":{\"base\":\"0000000010000000\",\"perms\":\"00006\",\
\"tag\":true,\"top\":\"00000000010000010\",\"type\":\"unsealed\",\
\"word\":\"0006000004058004_000000001000000c\"},\
\"regs\":{\"c5\":{\"base\":\"0000000080000000\",\"perms\":\"0000c\",\"tag\":true,\
\"top\":\"00000000080001000\",\"type\":\"unsealed\",\
\"word\":\"000c000000018004_0000000080000000\"},\"c6\":{\"tag\":false,\
\"word\":\"0000000000000000_0000000000000064\"},\
\"c7\":{\"base\":\"0000000080000000\",\"perms\":\"0000c\",\"tag\":true,\
\"top\":\"00000000080000064\",\"type\":\"unsealed\",\
\"word\":\"000c000004188004_0000000080000000\"},\"c8\":{\"tag\":false,\
\"word\":\"0000000000000000_0000000000000064\"}},\"status\":\"halted\"},\
{\"pcc\":{\"base\":\"0000000010000000\",\"perms\":\"00006\",\"tag\":true,\
\"top\":\"00000000010000010\",\"type\":\"unsealed\",\
\"word\":\"0006000004058004_0000000010000000\"},\
\"regs\":{\"c5\":{\"base\":\"0000000080000000\",\"perms\":\"0000c\",\"tag\":true,\
\"top\":\"00000000080001000\",\"type\":\"unsealed\",\
\"word\":\"000c000000018004_0000000080000000\"}},\"status\":\"running\"}],\
\"image\":{\"code\":4,\"harts\":2,\"ram\":4096},\"mem\":{},\"report\":1}";
