//! Expected reports, from the descriptions of the formats.

/// A report with every outcome, status, form of type and form of granule.
pub(super) const WORDS: &[u8] = b"cheri-sim report 1
image harts=3 ram=48 code=1
entries 4
0 hart=2 pc=0000000010000000 done
1 hart=0 pc=ffffffffffffffff trap cause=13 reg=31
2 hart=1 pc=0000000010000004 trap cause=8 reg=32
3 hart=0 pc=0000000000000000 halt
hart 0 trapped cause=13 reg=31
pcc 0 0000000000000000_0000000000000000
c1 1 0000000000000000_0000000000000000 0000000000000000 10000000000000000 00000 unsealed
c31 1 ffff000024058004_0000000080000000 0000000080000000 00000000080000010 78fff 262139
hart 1 halted
pcc 1 ffff00000c058004_0000000080000000 0000000080000000 00000000080000010 78fff sentry
hart 2 running
pcc 1 ffff000004058004_0000000080000000 0000000080000000 00000000080000010 78fff unsealed
c2 1 ffff1ffffc058004_0000000080000000 0000000080000000 00000000080000010 78fff 0
c9 0 ffffffffffffffff_0000000000000001
mem 0000000080000000 0 000500000405aa04_0000000080000000
mem 0000000080000020 1 0005000004058004_0000000080000000 0000000080000000 \
00000000080000010 00005 unsealed
end
";

/// `WORDS` as JSON.
pub(super) const WORDS_JSON: &str = "\
{\"entries\":[{\"hart\":2,\"outcome\":\"done\",\"pc\":\"0000000010000000\"},{\"cause\":13,\"ha\
rt\":0,\"outcome\":\"trap\",\"pc\":\"ffffffffffffffff\",\"reg\":31},{\"cause\":8,\"hart\":1,\"\
outcome\":\"trap\",\"pc\":\"0000000010000004\",\"reg\":32},{\"hart\":0,\"outcome\":\"halt\",\"\
pc\":\"0000000000000000\"}],\"harts\":[{\"cause\":13,\"pcc\":{\"tag\":false,\"word\":\"0000000\
000000000_0000000000000000\"},\"reg\":31,\"regs\":{\"c1\":{\"base\":\"0000000000000000\",\"per\
ms\":\"00000\",\"tag\":true,\"top\":\"10000000000000000\",\"type\":\"unsealed\",\"word\":\"000\
0000000000000_0000000000000000\"},\"c31\":{\"base\":\"0000000080000000\",\"perms\":\"78fff\",\
\"tag\":true,\"top\":\"00000000080000010\",\"type\":\"262139\",\"word\":\"ffff000024058004_000\
0000080000000\"}},\"status\":\"trapped\"},{\"pcc\":{\"base\":\"0000000080000000\",\"perms\":\"\
78fff\",\"tag\":true,\"top\":\"00000000080000010\",\"type\":\"sentry\",\"word\":\"ffff00000c05\
8004_0000000080000000\"},\"regs\":{},\"status\":\"halted\"},{\"pcc\":{\"base\":\"0000000080000\
000\",\"perms\":\"78fff\",\"tag\":true,\"top\":\"00000000080000010\",\"type\":\"unsealed\",\"w\
ord\":\"ffff000004058004_0000000080000000\"},\"regs\":{\"c2\":{\"base\":\"0000000080000000\",\
\"perms\":\"78fff\",\"tag\":true,\"top\":\"00000000080000010\",\"type\":\"0\",\"word\":\"ffff1\
ffffc058004_0000000080000000\"},\"c9\":{\"tag\":false,\"word\":\"ffffffffffffffff_000000000000\
0001\"}},\"status\":\"running\"}],\"image\":{\"code\":1,\"harts\":3,\"ram\":48},\"mem\":{\"000\
0000080000000\":{\"tag\":false,\"word\":\"000500000405aa04_0000000080000000\"},\"0000000080000\
020\":{\"base\":\"0000000080000000\",\"perms\":\"00005\",\"tag\":true,\"top\":\"00000000080000\
010\",\"type\":\"unsealed\",\"word\":\"0005000004058004_0000000080000000\"}},\"report\":1}";

/// The JSON report of one hart that halted at its first instruction.
pub(super) const HALTED_JSON: &str = "\
{\"entries\":[{\"hart\":0,\"outcome\":\"halt\",\"pc\":\"0000000010000000\"}],\"harts\":[{\"pcc\
\":{\"base\":\"0000000010000000\",\"perms\":\"00002\",\"tag\":true,\"top\":\"00000000010000004\
\",\"type\":\"unsealed\",\"word\":\"0002000004008004_0000000010000000\"},\"regs\":{},\"status\
\":\"halted\"}],\"image\":{\"code\":1,\"harts\":1,\"ram\":16},\"mem\":{},\"report\":1}";

/// The JSON report of the first worked run where its data is swept after two steps.
pub(super) const SWEPT_JSON: &str = "\
{\"entries\":[{\"hart\":0,\"outcome\":\"done\",\"pc\":\"0000000010000000\"},{\"hart\":0,\"outc\
ome\":\"done\",\"pc\":\"0000000010000004\"},{\"cleared\":3,\"hi\":\"00000000080000001\",\"lo\"\
:\"0000000080000000\",\"outcome\":\"sweep\"},{\"hart\":0,\"outcome\":\"done\",\"pc\":\"0000000\
010000008\"}],\"harts\":[{\"pcc\":{\"base\":\"0000000010000000\",\"perms\":\"00006\",\"tag\":t\
rue,\"top\":\"00000000010000010\",\"type\":\"unsealed\",\"word\":\"0006000004058004_0000000010\
00000c\"},\"regs\":{\"c5\":{\"tag\":false,\"word\":\"000c000000018004_0000000080000000\"},\"c6\
\":{\"tag\":false,\"word\":\"0000000000000000_0000000000000064\"},\"c7\":{\"tag\":false,\"word\
\":\"000c000004188004_0000000080000000\"},\"c8\":{\"tag\":false,\"word\":\"0000000000000000_00\
00000000000064\"}},\"status\":\"running\"},{\"pcc\":{\"base\":\"0000000010000000\",\"perms\":\
\"00006\",\"tag\":true,\"top\":\"00000000010000010\",\"type\":\"unsealed\",\"word\":\"00060000\
04058004_0000000010000000\"},\"regs\":{\"c5\":{\"tag\":false,\"word\":\"000c000000018004_00000\
00080000000\"}},\"status\":\"running\"}],\"image\":{\"code\":4,\"harts\":2,\"ram\":4096},\"mem\
\":{},\"report\":2}";

/// The same where the whole address space is swept after one step.
pub(super) const SWEPT_LAST_JSON: &str = "\
{\"entries\":[{\"hart\":0,\"outcome\":\"done\",\"pc\":\"0000000010000000\"},{\"cleared\":4,\"h\
i\":\"10000000000000000\",\"lo\":\"0000000000000000\",\"outcome\":\"sweep\"}],\"harts\":[{\"pc\
c\":{\"tag\":false,\"word\":\"0006000004058004_0000000010000004\"},\"regs\":{\"c5\":{\"tag\":f\
alse,\"word\":\"000c000000018004_0000000080000000\"},\"c6\":{\"tag\":false,\"word\":\"00000000\
00000000_0000000000000064\"}},\"status\":\"running\"},{\"pcc\":{\"tag\":false,\"word\":\"00060\
00004058004_0000000010000000\"},\"regs\":{\"c5\":{\"tag\":false,\"word\":\"000c000000018004_00\
00000080000000\"}},\"status\":\"running\"}],\"image\":{\"code\":4,\"harts\":2,\"ram\":4096},\"\
mem\":{},\"report\":2}";
