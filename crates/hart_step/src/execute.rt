//! One step of one hart: the fetch, then what the instruction asks for.
#![tactic(auto, unfolding(crate::proofs::Unfold::done))]

ghost use Rattle.std.specs.Prelude.{◌≡◌, true, if◌then◌else◌};
ghost use Rattle.cheri_model.specs.steps.Actions.{
  Branch,
  Invoke,
  Jump,
  JumpThrough,
  Load,
  LoadCap,
  Store,
  StoreCap,
  Swap,
};
ghost use Rattle.cheri_model.specs.runs.Authority.{IsConfinedTo, alone};
ghost use Rattle.cap_model.specs.values.CapValue.{IsLawfulValue};
ghost use Rattle.cheri_model.specs.steps.HartStep.{execute, hart_step, loaded, permitted};
ghost use Rattle.cap_model.specs.results.Addresses.{address_of, in_bounds, is_open};
ghost use Rattle.instructions.specs.Actions.{action_of};

use crate::checks::access::access_check;
use crate::checks::fetch::fetch;
use crate::checks::jumps::{invoke_check, jump_check, target_check};
use cap_ops::Cap;
use cheri_model::permission::LOAD_CAP;
use cheri_model::{Access, Instr, Outcome, Reg, Status, Width};
use hart::{Hart, at_target, jumped_to, link};
use instructions::{Action, extended, instr_action};
use tagged_mem::Ram;

/// A loaded number, sign-extended or not.
fn loaded(signed: bool, width: Width, number: u64) -> u64
    ensures { result ≡ loaded signed width number }
{
    if signed {
        extended(width, number)
    } else {
        number
    }
}

/// A loaded capability, which keeps its tag only under the permission Load_Capability.
fn permitted(auth: Cap, value: Cap) -> Cap
    ensures { result ≡ permitted auth value }
{
    if auth.has_permission(LOAD_CAP) {
        value
    } else {
        value.clear_tag()
    }
}

/// A number in memory: its width, and whether it has a sign.
#[derive(Clone, Copy)]
struct Number {
    width: Width,
    signed: bool,
}

/// Loads a number.
fn load(hart: &mut Hart, ram: &Ram, cd: Reg, c1: Reg, addr: u64, number: Number) -> Outcome
    requires open { is_open hart.old.pcc ≡ true }
    requires within { in_bounds hart.old.pcc (address_of hart.old.pcc) 4 ≡ true }
    ensures { execute (Load cd c1 addr number.width number.signed) hart.old ram.now
        ≡ record { hart = hart.new; memory = ram.now; outcome = result } }
{
    let auth = hart.register(c1);
    let width = number.width;
    match access_check(auth, c1.number(), addr, Access::Load(width), None, ram) {
        Ok(()) => {
            let number = loaded(number.signed, width, ram.load(addr, width));
            hart.put(cd, Cap::of_int(number));
            hart.advance();
            Outcome::Done
        }
        Err(trap) => hart.trap(trap),
    }
}

/// Stores the low bytes of a number.
fn store(hart: &mut Hart, ram: &mut Ram, c1: Reg, addr: u64, width: Width, number: u64) -> Outcome
    requires open { is_open hart.old.pcc ≡ true }
    requires within { in_bounds hart.old.pcc (address_of hart.old.pcc) 4 ≡ true }
    ensures { execute (Store c1 addr width number) hart.old ram.old
        ≡ record { hart = hart.new; memory = ram.new; outcome = result } }
{
    let auth = hart.register(c1);
    match access_check(auth, c1.number(), addr, Access::Store(width), None, ram) {
        Ok(()) => {
            ram.store(addr, width, number);
            hart.advance();
            Outcome::Done
        }
        Err(trap) => hart.trap(trap),
    }
}

/// Loads a capability.
fn load_cap(hart: &mut Hart, ram: &Ram, cd: Reg, c1: Reg, addr: u64) -> Outcome
    requires open { is_open hart.old.pcc ≡ true }
    requires within { in_bounds hart.old.pcc (address_of hart.old.pcc) 4 ≡ true }
    ensures { execute (LoadCap cd c1 addr) hart.old ram.now
        ≡ record { hart = hart.new; memory = ram.now; outcome = result } }
{
    let auth = hart.register(c1);
    match access_check(auth, c1.number(), addr, Access::LoadCap, None, ram) {
        Ok(()) => {
            hart.put(cd, permitted(auth, ram.load_cap(addr)));
            hart.advance();
            Outcome::Done
        }
        Err(trap) => hart.trap(trap),
    }
}

/// Stores a capability.
fn store_cap(hart: &mut Hart, ram: &mut Ram, c1: Reg, addr: u64, value: Cap) -> Outcome
    requires open { is_open hart.old.pcc ≡ true }
    requires within { in_bounds hart.old.pcc (address_of hart.old.pcc) 4 ≡ true }
    ensures { execute (StoreCap c1 addr value) hart.old ram.old
        ≡ record { hart = hart.new; memory = ram.new; outcome = result } }
{
    let auth = hart.register(c1);
    match access_check(auth, c1.number(), addr, Access::StoreCap, Some(value), ram) {
        Ok(()) => {
            ram.store_cap(addr, value);
            hart.advance();
            Outcome::Done
        }
        Err(trap) => hart.trap(trap),
    }
}

/// Loads a capability and stores another in its place.
fn swap(hart: &mut Hart, ram: &mut Ram, cd: Reg, c1: Reg, addr: u64, value: Cap) -> Outcome
    requires open { is_open hart.old.pcc ≡ true }
    requires within { in_bounds hart.old.pcc (address_of hart.old.pcc) 4 ≡ true }
    ensures { execute (Swap cd c1 addr value) hart.old ram.old
        ≡ record { hart = hart.new; memory = ram.new; outcome = result } }
{
    let auth = hart.register(c1);
    match access_check(auth, c1.number(), addr, Access::Swap, Some(value), ram) {
        Ok(()) => {
            let old = ram.swap_cap(addr, value);
            hart.put(cd, permitted(auth, old));
            hart.advance();
            Outcome::Done
        }
        Err(trap) => hart.trap(trap),
    }
}

/// Goes to a target where a condition holds.
fn branch(hart: &mut Hart, ram: &Ram, taken: bool, target: u64) -> Outcome
    requires open { is_open hart.old.pcc ≡ true }
    requires within { in_bounds hart.old.pcc (address_of hart.old.pcc) 4 ≡ true }
    ensures { execute (Branch taken target) hart.old ram.now
        ≡ record { hart = hart.new; memory = ram.now; outcome = result } }
{
    if !taken {
        hart.advance();
        return Outcome::Done;
    }
    let pcc = hart.pcc();
    match target_check(pcc, target) {
        Ok(()) => {
            hart.set_pcc(at_target(pcc, target));
            Outcome::Done
        }
        Err(trap) => hart.trap(trap),
    }
}

/// Goes to a target, and leaves a link.
fn jump(hart: &mut Hart, ram: &Ram, cd: Reg, target: u64) -> Outcome
    requires open { is_open hart.old.pcc ≡ true }
    requires within { in_bounds hart.old.pcc (address_of hart.old.pcc) 4 ≡ true }
    ensures { execute (Jump cd target) hart.old ram.now
        ≡ record { hart = hart.new; memory = ram.now; outcome = result } }
{
    let pcc = hart.pcc();
    match target_check(pcc, target) {
        Ok(()) => {
            hart.put(cd, link(pcc));
            hart.set_pcc(at_target(pcc, target));
            Outcome::Done
        }
        Err(trap) => hart.trap(trap),
    }
}

/// Goes to a target through a capability, and leaves a link.
fn jump_through(
    hart: &mut Hart,
    ram: &Ram,
    cd: Reg,
    c1: Reg,
    is_entry: bool,
    target: u64,
) -> Outcome
    requires open { is_open hart.old.pcc ≡ true }
    requires within { in_bounds hart.old.pcc (address_of hart.old.pcc) 4 ≡ true }
    ensures { execute (JumpThrough cd c1 is_entry target) hart.old ram.now
        ≡ record { hart = hart.new; memory = ram.now; outcome = result } }
{
    let through = hart.register(c1);
    match jump_check(through, c1.number(), is_entry, target) {
        Ok(()) => {
            let back = link(hart.pcc());
            hart.put(cd, back);
            hart.set_pcc(jumped_to(through, target));
            Outcome::Done
        }
        Err(trap) => hart.trap(trap),
    }
}

/// Goes to a target through a sealed pair, and leaves its data in c31.
fn invoke(hart: &mut Hart, ram: &Ram, c1: Reg, c2: Reg, target: u64) -> Outcome
    ensures { execute (Invoke c1 c2 target) hart.old ram.now
        ≡ record { hart = hart.new; memory = ram.now; outcome = result } }
{
    let (code, data) = (hart.register(c1), hart.register(c2));
    match invoke_check(code, c1.number(), data, c2.number(), target) {
        Ok(()) => {
            hart.put(Reg::new(31), data.unsealed());
            hart.set_pcc(jumped_to(code, target));
            Outcome::Done
        }
        Err(trap) => hart.trap(trap),
    }
}

/// Does what an instruction asks for after a fetch, which found PCC open and the instruction in its
/// bounds.
fn execute(action: Action, hart: &mut Hart, ram: &mut Ram) -> Outcome
    requires open { is_open hart.old.pcc ≡ true }
    requires within { in_bounds hart.old.pcc (address_of hart.old.pcc) 4 ≡ true }
    ensures { execute (action_of action) hart.old ram.old
        ≡ record { hart = hart.new; memory = ram.new; outcome = result } }
{
    match action {
        Action::Put { cd, value } => {
            hart.put(cd, value);
            hart.advance();
            Outcome::Done
        }
        Action::Load {
            cd,
            c1,
            addr,
            width,
            signed,
        } => load(hart, ram, cd, c1, addr, Number { width, signed }),
        Action::Store {
            c1,
            addr,
            width,
            number,
        } => store(hart, ram, c1, addr, width, number),
        Action::LoadCap { cd, c1, addr } => load_cap(hart, ram, cd, c1, addr),
        Action::StoreCap { c1, addr, value } => store_cap(hart, ram, c1, addr, value),
        Action::Swap {
            cd,
            c1,
            addr,
            value,
        } => swap(hart, ram, cd, c1, addr, value),
        Action::Branch { taken, target } => branch(hart, ram, taken, target),
        Action::Jump { cd, target } => jump(hart, ram, cd, target),
        Action::JumpThrough {
            cd,
            c1,
            is_entry,
            target,
        } => jump_through(hart, ram, cd, c1, is_entry, target),
        Action::Invoke { c1, c2, target } => invoke(hart, ram, c1, c2, target),
        Action::Halt => {
            hart.set_status(Status::Halted);
            Outcome::Halt
        }
    }
}

/// One step of a hart that runs: the first failing check of the fetch traps and changes nothing but
/// the status, else the instruction at PCC acts. No step makes authority (CHERI ISA v9, "capability
/// monotonicity"). Takes no memory.
pub fn step(program: &[Instr], hart: &mut Hart, ram: &mut Ram) -> Outcome
    ensures value { hart_step program.now hart.old ram.old
        ≡ record { hart = hart.new; memory = ram.new; outcome = result } }
    ensures confined { IsConfinedTo (alone hart.old ram.old) (alone hart.new ram.new) }
{
    // The count's clause says that every granule's value is lawful.
    let _granules = ram.granule_count();
    match fetch(program, hart.pcc()) {
        Ok(instr) => { execute(instr_action(instr, hart), hart, ram) }
        Err(trap) => hart.trap(trap),
    }
}
