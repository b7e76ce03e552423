//! Looks at a machine that nobody steps.

ghost use Rattle.std.specs.Prelude.{◌≡◌};

use cores::Core;
use listings::read_listing;
use shared_machine::{Blanks, Machine, Naming};
use sim_program::look_often;
use std::alloc::Global;
use std::marker::Brand;
use std::process::Abort;
use std::sync::Wait;
use std::test::Fail;

/// One instruction, to which a hart jumps back for ever.
const LOOP: &[u8] = b".ram 16\n.hart 0x10000000 4 0x10000000 execute\ncjal c0, @0\n";

/// A closed machine shows nothing, and so no look at it counts; each look at one that stays as it
/// is does.
fn count_looks<J: Naming, R: Wait + Abort>(
    rt: &R,
    alloc: Global,
    core: Core,
    blanks: Blanks,
) -> Result<(), Fail>
    requires names { blanks ≡ J.names }
    requires image { core.image ≡ J.image }
{
    let Ok((mut machine, shares, sweeper)) = Machine::<J>::open(alloc, core, blanks) else {
        return Err(Fail::from("the machine opens"));
    };
    let watch = machine.watch().expect(rt, "there is a place");
    let (watch, looks) = look_often(watch);
    assert_eq!(rt; looks, 100);
    let _core = machine.close(rt, shares, sweeper);
    let (_watch, looks) = look_often(watch);
    assert_eq!(rt; looks, 0);
    Ok(())
}

#[test]
fn looks_that_show_nothing_do_not_count(rt: HostRuntime) -> Result<(), Fail> {
    let image = read_listing(rt.alloc(), LOOP).expect(&rt, "the listing is good");
    let core = Core::boot(rt.alloc(), image, 100).expect(&rt, "it boots");
    count_looks::<Brand, _>(&rt, rt.alloc(), core, Blanks::new())
}
