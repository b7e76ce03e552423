//! One hart: its registers, PCC and status.
#![tactic(auto, unfolding(crate::proofs::Unfold::hart))]

ghost use Rattle.std.specs.Prelude.{◌≡◌, ◌≤◌, ◌∷◌, All, count_by, map, true};
ghost use Rattle.cheri_model.specs.runs.Authority.{EachOfHart};
ghost use Rattle.cap_model.specs.values.CapValue.{IsLawfulValue};
ghost use Rattle.cheri_model.specs.steps.Hart.{next, null, put, register};
ghost use Rattle.cheri_model.specs.runs.Image.{opening_hart};
ghost use Rattle.cap_model.specs.results.Readings.{number_of};
ghost use Rattle.cap_model.specs.results.Addresses.{address_of, in_bounds, is_open};
ghost use Rattle.cap_model.specs.results.Swept.{is_in_sweep, swept};
ghost use Rattle.cheri_model.specs.runs.Sweeps.{swept_hart, cleared_in_hart};
ghost use Rattle.hart.specs.Hart.{IsHart};

use crate::next_pcc::next_pcc;
use cap_ops::Cap;
use cheri_model::{HartImage, Outcome, Reg, Status, Trap, Value};
use std::marker::Model;

/// A hart: the registers c0 to c31, of which c0 is always null, PCC, and whether it runs.
#[derive(Clone, Copy, Debug, PartialEq, Eq)]
pub struct Hart {
    regs: [Cap; 32],
    pcc: Cap,
    status: Status,
}

impl Model for Hart {
    ghost use Rattle.cheri_model.specs.steps.Hart.{HartState};

    ghost Value = { HartState };

    ghost use Rattle.hart.specs.Hart.{IsHart};

    ghost view = { λ h. record { regs = h.regs; pcc = h.pcc; status = h.status } };

    ghost invariant = { λ h. IsHart h.regs h.pcc };

    ghost inverse = { λ h. record { regs = h.regs; pcc = h.pcc; status = h.status } };
}

/// c0 and the 31 registers of an image.
fn opening_registers(regs: &[Value; 31]) -> [Cap; 32]
    ensures same { result ≡ null ∷ regs.now }
    ensures lawful { All IsLawfulValue result }
{
    let mut opened = [Cap::null(); 32];
    for (i, value) in regs.iter().enumerate() {
        let cap = Cap::of_value(*value);
        // The contract of `bits` says that the value is lawful, here and below.
        let _bits = cap.bits();
        opened[i + 1] = cap;
    }
    opened
}

/// Clears the tag of a value where a sweep of the addresses from `lo` up to `hi` does, and says how
/// many tags that is: 0 or 1.
fn sweep_value(value: &mut Cap, lo: u64, hi: u128) -> u32
    ensures swept { value.new ≡ swept lo hi value.old }
    ensures cleared { result ≡ number_of (is_in_sweep lo hi value.old) }
{
    if !value.is_in_sweep(lo, hi) {
        return 0;
    }
    *value = value.clear_tag();
    1
}

/// The same of each register.
fn sweep_registers(regs: &mut [Cap; 32], lo: u64, hi: u128) -> u32
    ensures swept { regs.new ≡ map (swept lo hi) regs.old }
    ensures cleared { result ≡ count_by (is_in_sweep lo hi) regs.old }
{
    let mut cleared = 0;
    for value in regs.iter_mut() {
        cleared += sweep_value(value, lo, hi);
    }
    cleared
}

impl Hart {
    /// The hart before its first step.
    pub fn open(image: &HartImage) -> Hart
        ensures same { result ≡ opening_hart image.now }
        ensures lawful { EachOfHart IsLawfulValue result }
    {
        let pcc = Cap::of_value(image.pcc);
        let _bits = pcc.bits();
        Hart {
            regs: opening_registers(&image.regs),
            pcc,
            status: Status::Running,
        }
    }

    /// A register's value.
    pub fn register(&self, reg: Reg) -> Cap
        ensures value { result ≡ register self.now reg }
        ensures lawful { IsLawfulValue result }
    {
        self.regs[usize::from(reg.number())]
    }

    /// PCC.
    pub fn pcc(&self) -> Cap
        ensures value { result ≡ self.now.pcc }
        ensures lawful { IsLawfulValue result }
        ensures hart { EachOfHart IsLawfulValue self.now }
        ensures formed { IsHart self.now.regs self.now.pcc }
    {
        self.pcc
    }

    /// Whether the hart runs.
    pub fn status(&self) -> Status
        ensures { result ≡ self.now.status }
    {
        self.status
    }

    /// Writes a register; a write to c0 is dropped.
    pub fn put(&mut self, cd: Reg, value: Cap)
        ensures value { self.new ≡ put cd value self.old }
        ensures pcc { self.new.pcc ≡ self.old.pcc }
    {
        let _bits = value.bits();
        let number = usize::from(cd.number());
        if number != 0 {
            self.regs[number] = value;
        }
    }

    /// Advances PCC after a successful fetch.
    pub fn advance(&mut self)
        requires open { is_open self.old.pcc ≡ true }
        requires within { in_bounds self.old.pcc (address_of self.old.pcc) 4 ≡ true }
        ensures { self.new ≡ next self.old }
    {
        self.pcc = next_pcc(self.pcc);
    }

    /// Replaces PCC.
    pub fn set_pcc(&mut self, pcc: Cap)
        ensures { self.new ≡ record self.old { pcc = pcc } }
    {
        // The getter says that it is lawful.
        let _lawful = pcc.tag();
        self.pcc = pcc;
    }

    /// Stops or starts the hart.
    pub fn set_status(&mut self, status: Status)
        ensures { self.new ≡ record self.old { status = status } }
    {
        self.status = status;
    }

    /// Stops the hart by a trap, which changes nothing else.
    pub fn trap(&mut self, trap: Trap) -> Outcome
        ensures outcome { result ≡ Outcome.Trap trap }
        ensures hart { self.new ≡ record self.old { status = Status.Trapped trap } }
    {
        self.set_status(Status::Trapped(trap));
        Outcome::Trap(trap)
    }
    /// Clears the tag of every capability whose base lies in the addresses from `lo` up to `hi`, in
    /// the registers and in PCC, and says how many that is. The status stays.
    pub fn sweep(&mut self, lo: u64, hi: u128) -> u32
        ensures hart { self.new ≡ swept_hart lo hi self.old }
        ensures cleared { result ≡ cleared_in_hart lo hi self.old }
        ensures few { result ≤ 33 }
    {
        let counter = sweep_value(&mut self.pcc, lo, hi);
        counter + sweep_registers(&mut self.regs, lo, hi)
    }
}
