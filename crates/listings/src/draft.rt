//! What the lines of a listing make, one after another.
#![tactic(auto, using(crate::proofs::Rulesets::image), unfolding(crate::proofs::Unfold::draft))]

ghost use Rattle.std.specs.Prelude.{◌≡◌, IfOk};
ghost use Rattle.listings.specs.Faults.{Gives, FillsLine};
ghost use Rattle.listings.specs.Draft.{
  empty_draft,
  with_ram,
  hart_from,
  add_hart,
  with_hart,
  set_register,
  value_of,
  with_set,
  with_bytes,
  with_capability,
  with_instruction,
};
ghost use Rattle.listings.specs.Meaning.{finished};

use crate::fault::{LineFault, ListingFault};
use crate::granules::{listed_granules, store_bytes};
use cap_ops::Cap;
use cheri_model::{
    GRANULE_BYTES, HartImage, Image, Instr, MAX_HARTS, MAX_INSTRUCTIONS, Reg, Value,
};
use grammar::capability::CapParts;
use grammar::fault::ListingFaultKind;
use std::alloc::{AllocError, Global};
use std::marker::Model;
use tagged_mem::{MemFault, Ram};

/// The size of RAM in bytes where no line says it.
pub const RAM_SIZE: u32 = 4_096;

/// The most bytes of one line.
pub const BYTES_LIMIT: usize = 4_096;

/// The bytes of a line.
#[derive(Debug, Drop)]
pub struct Data {
    pub bytes: Vec<u8>,
}

impl Model for Data {
    ghost use Rattle.std.specs.Prelude.{ℕ, List};

    ghost Value = { List ℕ };

    ghost view = { λ d. d.bytes.items };
}

/// What a line sets a register to.
#[derive(Clone, Copy)]
pub enum Setting {
    /// An untagged word.
    Word(u128),
    /// A tagged capability.
    Capability(CapParts),
}

impl Setting {
    /// The register's value, if there is such a capability.
    fn value(self) -> Result<Cap, ListingFaultKind>
        ensures { result ≡ value_of self }
    {
        match self {
            Setting::Word(bits) => Ok(Cap::from_word(bits)),
            Setting::Capability(parts) => parts.capability(),
        }
    }
}

/// The instructions and the harts so far, which registers of the latest hart were set, RAM, and
/// whether a line has settled its size.
#[derive(Drop)]
pub struct Draft {
    program: Vec<Instr>,
    harts: Vec<HartImage>,
    set: [bool; 32],
    ram: Ram,
    sized: bool,
}

impl Model for Draft {
    ghost use Rattle.std.specs.Prelude.{◌≤◌, length};
    ghost use Rattle.cheri_model.specs.declared.image.TheConstants.{MAX_HARTS, MAX_INSTRUCTIONS};
    ghost use Rattle.listings.specs.Draft.{DraftParts};

    ghost Value = { DraftParts };

    ghost view = { λ d. record {
      program = d.program.items;
      harts = d.harts.items;
      set = d.set;
      memory = d.ram;
      sized = d.sized;
    } };

    ghost invariant = { λ d. (length d.program.items ≤ MAX_INSTRUCTIONS)
        × (length d.harts.items ≤ MAX_HARTS) };
}

/// A hart with this PCC, whose registers are null.
fn hart_from(pcc: Value) -> HartImage
    ensures { result ≡ hart_from pcc }
{
    HartImage {
        pcc,
        regs: [Value::raw(0); 31],
    }
}

impl Draft {
    /// Before the first line.
    pub fn new(alloc: Global) -> Result<Draft, AllocError>
        ensures { IfOk result (λ draft. draft ≡ empty_draft) }
    {
        let ram = match Ram::new(alloc, RAM_SIZE) {
            Ok(ram) => ram,
            Err(_) => return Err(AllocError),
        };
        Ok(Draft {
            program: Vec::new(alloc),
            harts: Vec::new(alloc),
            set: [false; 32],
            ram,
            sized: false,
        })
    }

    /// RAM of this size, before any line has settled it.
    pub fn with_ram(&mut self, alloc: Global, size: Option<u128>) -> Result<(), LineFault>
        ensures { FillsLine result self.new (with_ram self.old size) }
    {
        if self.sized {
            return Err(LineFault::Kind(ListingFaultKind::Twice));
        }
        let bytes = match size {
            Some(bytes) if bytes <= 0xFFFF_FFFF => bytes as u32,
            _ => return Err(LineFault::Kind(ListingFaultKind::Size)),
        };
        self.ram = match Ram::new(alloc, bytes) {
            Ok(ram) => ram,
            Err(MemFault::Size) => return Err(LineFault::Kind(ListingFaultKind::Size)),
            Err(MemFault::NoMemory) => return Err(LineFault::NoMemory),
        };
        self.sized = true;
        Ok(())
    }

    /// One more hart, of at most 8, with this PCC.
    fn add_hart(&mut self, pcc: Value) -> Result<(), LineFault>
        ensures { FillsLine result self.new (add_hart self.old pcc) }
    {
        if self.harts.len() >= MAX_HARTS {
            return Err(LineFault::Kind(ListingFaultKind::Size));
        }
        self.harts.push(hart_from(pcc))?;
        self.set = [false; 32];
        Ok(())
    }

    /// One more hart, whose PCC has these parts.
    pub fn with_hart(&mut self, parts: CapParts) -> Result<(), LineFault>
        ensures { FillsLine result self.new (with_hart self.old parts) }
    {
        let pcc = parts.capability()?;
        self.add_hart(pcc.value())
    }

    /// The value of a register of the latest hart, not of `c0`, of which no hart keeps a value.
    fn set_register(&mut self, reg: Reg, value: Value) -> Result<(), LineFault>
        ensures { FillsLine result self.new (set_register self.old reg value) }
    {
        if self.harts.is_empty() {
            return Err(LineFault::Kind(ListingFaultKind::NoHart));
        }
        let number = usize::from(reg.number());
        let last = self.harts.len() - 1;
        let mut hart = self.harts[last];
        hart.regs[number.saturating_sub(1)] = value;
        self.harts[last] = hart;
        self.set[number] = true;
        Ok(())
    }

    /// The same of a register that was not set before.
    pub fn with_set(&mut self, reg: Reg, setting: Setting) -> Result<(), LineFault>
        ensures { FillsLine result self.new (with_set self.old reg setting) }
    {
        if self.set[usize::from(reg.number())] {
            return Err(LineFault::Kind(ListingFaultKind::Twice));
        }
        let value = setting.value()?;
        self.set_register(reg, value.value())
    }

    /// At most 4,096 bytes, stored from an address on, wholly in RAM.
    pub fn with_bytes(&mut self, addr: u64, stored: Data) -> Result<(), LineFault>
        ensures { FillsLine result self.new (with_bytes self.old addr stored) }
    {
        let bytes = stored.bytes.as_slice();
        if bytes.len() > BYTES_LIMIT || !self.ram.holds(addr, bytes.len() as u64) {
            return Err(LineFault::Kind(ListingFaultKind::Range));
        }
        store_bytes(&mut self.ram, addr, bytes);
        self.sized = true;
        Ok(())
    }

    /// A capability of these parts in the granule at an address.
    pub fn with_capability(&mut self, addr: u64, parts: CapParts) -> Result<(), LineFault>
        ensures { FillsLine result self.new (with_capability self.old addr parts) }
    {
        if !self.ram.fits(addr, u64::from(GRANULE_BYTES)) {
            return Err(LineFault::Kind(ListingFaultKind::Range));
        }
        let value = parts.capability()?;
        self.ram.store_cap(addr, value);
        self.sized = true;
        Ok(())
    }

    /// One more instruction, of at most `MAX_INSTRUCTIONS`.
    pub fn with_instruction(&mut self, instr: Instr) -> Result<(), LineFault>
        ensures { FillsLine result self.new (with_instruction self.old instr) }
    {
        if self.program.len() >= MAX_INSTRUCTIONS {
            return Err(LineFault::Kind(ListingFaultKind::Size));
        }
        self.program.push(instr)?;
        Ok(())
    }

    /// The image of all lines.
    pub fn finish(self, alloc: Global) -> Result<Image, ListingFault>
        ensures { Gives result (finished self) }
    {
        let Draft {
            program,
            harts,
            ram,
            ..
        } = self;
        if harts.is_empty() {
            return Err(ListingFault {
                line: 0,
                kind: ListingFaultKind::NoHart,
            });
        }
        let granules = listed_granules(alloc, &ram)?;
        Image::new(program, ram.size(), granules, harts).ok_or(ListingFault {
            line: 0,
            kind: ListingFaultKind::Size,
        })
    }
}
