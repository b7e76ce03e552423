//! What conditions say of a state.
#![tactic(auto, unfolding(cheri_model::specs::runs::Machine::hart_at))]

use bitflags::Flags;
use cap_ops::Cap;
use cheri_model::{Image, Perms, RAM_BASE, Reg, Status, Trap};
use condition_texts::read_condition;
use conditions::StateView;
use grammar::labels::{Labels, labels_of};
use hart::Hart;
use listing_maps::Names;
use listings::read_listing;
use std::alloc::Global;
use std::process::Abort;
use std::test::Fail;
use tagged_mem::Ram;

const LISTING: &[u8] = b".ram 16\n\
.hart 0x10000000 4 0x10000000 execute\n\
here:\n\
ecall\n\
there:\n";

/// The harts and the memory of a machine.
#[derive(Clone, Copy)]
struct Shown<'a> {
    harts: &'a [Hart],
    ram: &'a Ram,
}

impl StateView for Shown<'_> {
    ghost state = { λ shown. record { harts = shown.harts.now; memory = shown.ram.now } };

    fn hart_count(&self) -> usize {
        self.harts.len()
    }

    fn granule_count(&self) -> usize {
        self.ram.granule_count()
    }

    fn register(&self, hart: usize, reg: Reg) -> Cap {
        self.harts[hart].register(reg)
    }

    fn pcc(&self, hart: usize) -> Cap {
        self.harts[hart].pcc()
    }

    fn status(&self, hart: usize) -> Status {
        self.harts[hart].status()
    }

    fn granule(&self, number: usize) -> Cap {
        self.ram.granule(number)
    }
}

/// Conditions, and whether they hold where `c1` and PCC are a capability of 64 bytes at 0x8000_0000
/// with its address in them and Load and Store, the hart was stopped by cause 8, and the granule is
/// 0x1122_3344_5566_7788_99AA_BBCC_DDEE_FF00 without a tag.
const ANSWERS: &[(&str, bool)] = &[
    ("0.c1 = 0x80000010", true),
    ("0.c1.tag = 1", true),
    ("0.c1.base = 0x80000000", true),
    ("0.c1.len = 64", true),
    ("0.c1.perms = 12", true),
    ("0.c1.sealed = 0", true),
    ("0.c1.top = 0x80000040", true),
    ("0.c1.type = 262143", true),
    ("0.pcc.word = 0xc0000041180040000000080000010", true),
    ("0.c0.tag = 0", true),
    ("0.c2.len = 0xffffffffffffffff", true),
    ("0.c2.top = 0x10000000000000000", true),
    ("mem[0x80000000] = 0x99aabbccddeeff00", true),
    (
        "mem[0x80000000].word = 0x112233445566778899aabbccddeeff00",
        true,
    ),
    ("mem1[0x80000001] = 0xff", true),
    ("mem2[0x80000002] = 0xddee", true),
    ("mem4[0x80000004] = 0x99aabbcc", true),
    ("mem8[0x80000008] = 0x1122334455667788", true),
    ("0.c1 != 0x80000010", false),
    ("0.c1 < 0x80000010", false),
    ("0.c1 <= 0x80000010", true),
    ("0.c1 > 0x8000000f", true),
    ("0.c1 >= 0x80000011", false),
    ("0 is running", false),
    ("0 is halted", false),
    ("0 is trapped", true),
    ("0 is trapped:8", true),
    ("0 is trapped:9", false),
    ("0 reaches 0x80000000 load", true),
    ("0 reaches 0x8000003f load+store", true),
    ("0 reaches 0x80000040 load", false),
    ("0 reaches 0x7fffffff none", false),
    ("0 reaches 0x80000000 execute", false),
    ("0 is trapped and 0.c1.tag = 1", true),
    ("0 is trapped and 0.c1.tag = 0", false),
    ("0.c1.tag = 0 and 0 is trapped", false),
    ("0.c1 = 0.pcc", true),
    ("0.c1 != 0.c2", true),
    ("0.c2.len > 0.c1.len", true),
    ("0.c1 < mem[0x80000000]", true),
    ("mem8[0x80000000] <= 0.c1", false),
    ("0.c1 = &here", false),
    ("0.c2 < &there", true),
    ("not 0 is trapped", false),
    ("not (0 is trapped and 0.c1.tag = 0)", true),
    ("0 is halted or 0 is trapped", true),
    ("0 is halted or 0 is running", false),
    ("not 0 is trapped and 0 is halted or 0 is trapped", true),
    ("not 0 is trapped and (0 is halted or 0 is trapped)", false),
    ("0 is trapped or 0 is trapped and 0 is halted", true),
    ("(0 is trapped or 0 is trapped) and 0 is halted", false),
    ("any hart is trapped", true),
    ("no hart is trapped", false),
    ("two harts are trapped", false),
    ("all harts are trapped", true),
    ("any hart is trapped:Length", true),
    ("any hart is trapped:Tag", false),
    ("count(h is trapped) = 1", true),
    ("count(h is trapped) != 1", false),
    ("count(h is trapped) > 1", false),
    ("count(h is halted) < 1", true),
    ("any hart (h.c1 = 0.pcc and h.c1.tag = 1)", true),
    ("no hart (h.c1 != 0.pcc)", true),
    ("any hart reaches 0x80000000 load", true),
    ("0 at here", false),
    ("0 in here..there", false),
    ("not 0 in here..there", true),
    ("all harts (not h at there)", true),
];

/// The first hart of the image, trapped, with this capability as PCC and in c1.
fn trapped_hart(image: &Image, held: Cap) -> Option<Hart> {
    let opening = image.harts().first()?;
    let mut hart = Hart::open(opening);
    hart.put(Reg::new(1), held);
    hart.set_pcc(held);
    hart.set_status(Status::Trapped(Trap {
        cause: Trap::LENGTH,
        reg: 1,
    }));
    Some(hart)
}

/// Memory of one granule that has a value.
fn filled_ram(alloc: Global) -> Result<Ram, Fail> {
    let mut ram = Ram::new(alloc, 16)?;
    let granule = Cap::from_word(0x1122_3344_5566_7788_99AA_BBCC_DDEE_FF00);
    ram.store_cap(RAM_BASE, granule);
    Ok(ram)
}

/// Whether a condition holds in a state, or nothing of a text that is none.
fn answer(
    alloc: Global,
    labels: &Labels<'_>,
    image: &Image,
    shown: &Shown<'_>,
    text: &str,
) -> Option<bool> {
    let names = Names {
        labels,
        sources: None,
    };
    let condition = read_condition(alloc, &names, image, text).ok()?;
    Some(condition.holds(shown))
}

fn conditions_are_asked(
    rt: &impl Abort,
    alloc: Global,
    labels: &Labels<'_>,
    image: &Image,
    shown: &Shown<'_>,
) {
    for (text, holds) in ANSWERS {
        assert!(rt;
            answer(alloc, labels, image, shown, text) == Some(*holds),
            "{text:?}"
        );
    }
}

#[test]
fn conditions_hold_as_the_model_says(rt: HostRuntime) -> Result<(), Fail> {
    let image = read_listing(rt.alloc(), LISTING)?;
    let held = Cap::make(RAM_BASE, 64, RAM_BASE + 16, Perms::LOAD.union(Perms::STORE))?;
    let Some(hart) = trapped_hart(&image, held) else {
        return Err(Fail::from("the image has a hart"));
    };
    let ram = filled_ram(rt.alloc())?;
    let harts = [hart];
    let shown = Shown {
        harts: &harts,
        ram: &ram,
    };
    let labels = labels_of(rt.alloc(), LISTING)?;
    conditions_are_asked(&rt, rt.alloc(), &labels, &image, &shown);
    Ok(())
}
