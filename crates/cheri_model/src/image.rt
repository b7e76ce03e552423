//! Images: a program, and what the machine holds before its first step.
#![tactic(auto, unfolding(crate::proofs::Unfold::images))]

ghost use Rattle.std.specs.Prelude.{◌≡◌, IfOk, true};
ghost use Rattle.std.specs.Cmp.Rules.{comparing};
ghost use Rattle.std.proofs.Common.{rules};
ghost use Rattle.cheri_model.specs.contracts.instr.InstrPartialEq.TheImpl.Laws as instr_laws;
ghost use Rattle.cap_model.specs.contracts.value.ValuePartialEq.TheImpl.Laws as value_laws;
ghost use Rattle.cheri_model.specs.contracts.image.HartImagePartialEq.TheImpl.Laws as hart_laws;
ghost use Rattle.cheri_model.specs.contracts.instr.InstrEq.TheImpl.Laws as instr_equal;
ghost use Rattle.cap_model.specs.contracts.value.ValueEq.TheImpl.Laws as value_equal;
ghost use Rattle.cheri_model.specs.contracts.image.HartImageEq.TheImpl.Laws as hart_equal;
ghost use Rattle.cheri_model.specs.runs.ImageRules.{
  image_of,
  is_image,
  are_sizes,
  are_granules,
  is_granule,
};
ghost use Rattle.cheri_model.specs.steps.Memory.{ram_base};

use crate::instr::Instr;
use crate::memory::{GRANULE_BYTES, MAX_RAM_BYTES, RAM_BASE};
use cap_model::Value;
use std::alloc::{AllocError, Global};
use std::marker::Model;

/// Out of memory.
pub type NoMemory = AllocError;

/// The most instructions of a program; it has at least one.
pub const MAX_INSTRUCTIONS: usize = 16_384;

/// The most harts of an image; it has at least one.
pub const MAX_HARTS: usize = 8;

/// What a hart holds before its first step: PCC and the registers c1 to c31.
#[derive(Clone, Copy, Debug, PartialEq, Eq)]
pub struct HartImage {
    pub pcc: Value,
    pub regs: [Value; 31],
}

/// A program of 1 to 16,384 instructions, the size of RAM (a multiple of 16 bytes, from 16 to
/// 1,048,576), the granules that are tagged or not all 0, each with its address, in rising order,
/// and 1 to 8 harts.
#[derive(Debug, Drop)]
pub struct Image {
    program: Vec<Instr>,
    ram: u32,
    granules: Vec<(u64, Value)>,
    harts: Vec<HartImage>,
}

impl Model for Image {
    ghost use Rattle.std.specs.Prelude.{◌≡◌, true};
    ghost use Rattle.cheri_model.specs.runs.Image.{ImageParts};

    ghost Value = { ImageParts };

    ghost use Rattle.cheri_model.specs.runs.ImageRules.{is_image};

    ghost view = { λ i. record {
      program = i.program.items;
      ram = i.ram;
      granules = i.granules.items;
      harts = i.harts.items;
    } };

    ghost invariant = { λ i. is_image (record {
      program = i.program.items;
      ram = i.ram;
      granules = i.granules.items;
      harts = i.harts.items;
    }) ≡ true };
}

impl PartialEq for Image {
    ghost use Rattle.cheri_model.specs.runs.SameImages.{same_images};

    ghost eq = { same_images };

    ghost laws = { Prim.search (
      comparing,
      rules,
      instr_laws.laws-law,
      value_laws.laws-law,
      hart_laws.laws-law,
    ) depth 9 };

    fn eq(&self, other: &Image) -> bool {
        self.program() == other.program()
            && self.ram == other.ram
            && self.granules() == other.granules()
            && self.harts() == other.harts()
    }
}

impl Eq for Image {
    ghost laws = { Prim.search (
      comparing,
      rules,
      instr_equal.laws-law,
      value_equal.laws-law,
      hart_equal.laws-law,
    ) depth 9 };
}

/// Whether an image may have this many instructions, bytes of RAM and harts.
fn are_sizes(instructions: usize, ram: u32, harts: usize) -> bool
    ensures { result ≡ are_sizes instructions ram harts }
{
    (1..=MAX_INSTRUCTIONS).contains(&instructions)
        && (GRANULE_BYTES..=MAX_RAM_BYTES).contains(&ram)
        && ram % GRANULE_BYTES == 0
        && (1..=MAX_HARTS).contains(&harts)
}

/// Whether a granule may be listed in an image with this RAM, after granules below `from`.
fn is_granule(ram: u32, from: u64, addr: u64, value: Value) -> bool
    ensures { result ≡ is_granule ram from addr value }
{
    from <= addr
        && addr % u64::from(GRANULE_BYTES) == 0
        && u128::from(addr) + u128::from(GRANULE_BYTES) <= u128::from(RAM_BASE) + u128::from(ram)
        && (value.tag() || value.bits() != 0)
}

/// Whether these granules, in this order, may be those of an image with this RAM.
fn are_granules(ram: u32, granules: &[(u64, Value)]) -> bool
    ensures { result ≡ are_granules ram ram_base granules.now }
{
    let mut from = RAM_BASE;
    for (addr, value) in granules {
        if !is_granule(ram, from, *addr, *value) {
            return false;
        }
        from = *addr + 1;
    }
    true
}

impl Image {
    /// The image of these parts. `None` exactly where a size is outside its limits or a granule
    /// cannot be listed at its place. Takes no memory.
    pub fn new(
        program: Vec<Instr>,
        ram: u32,
        granules: Vec<(u64, Value)>,
        harts: Vec<HartImage>,
    ) -> Option<Image>
        ensures { result ≡ image_of program.items ram granules.items harts.items }
    {
        if !are_sizes(program.len(), ram, harts.len()) || !are_granules(ram, granules.as_slice()) {
            return None;
        }
        Some(Image {
            program,
            ram,
            granules,
            harts,
        })
    }

    /// The program, instruction 0 first.
    pub fn program(&self) -> &[Instr]
        ensures { result.now ≡ self.now.program }
    {
        self.program.as_slice()
    }

    /// The size of RAM in bytes.
    pub fn ram(&self) -> u32
        ensures { result ≡ self.now.ram }
    {
        self.ram
    }

    /// The granules that are tagged or not all 0, each with its address.
    pub fn granules(&self) -> &[(u64, Value)]
        ensures value { result.now ≡ self.now.granules }
        ensures formed { is_image self.now ≡ true }
    {
        self.granules.as_slice()
    }

    /// What each hart holds, in hart order.
    pub fn harts(&self) -> &[HartImage]
        ensures { result.now ≡ self.now.harts }
    {
        self.harts.as_slice()
    }

    /// An image with the same parts. Fails only when out of memory.
    pub fn copy(&self, alloc: Global) -> Result<Image, NoMemory>
        ensures { IfOk result (λ copy. copy ≡ self.now) }
    {
        Ok(Image {
            program: Vec::from_slice(alloc, self.program.as_slice())?,
            ram: self.ram,
            granules: Vec::from_slice(alloc, self.granules.as_slice())?,
            harts: Vec::from_slice(alloc, self.harts.as_slice())?,
        })
    }
}
