//! RAM as its bytes and a bitmap of tags. A data access touches its bytes and one bit; a capability
//! is unpacked where it is loaded and packed where it is stored.
#![tactic(auto, unfolding(crate::proofs::Unfold::memory))]

ghost use Rattle.std.specs.Prelude.{
  ◌≡◌,
  ℕ,
  ◌*◌,
  ◌/◌,
  ◌%◌,
  ◌<◌,
  ◌≤◌,
  ◌↔◌,
  false,
  length,
  slice_index_or,
  IfOk,
  IfErr,
  IsTrue,
};
ghost use Rattle.cap_model.specs.values.CapValue.{bits_of, IsLawfulValue};
ghost use Rattle.cheri_model.specs.steps.Memory.{
  ram_base,
  bytes_of,
  bytes_at,
  granule_number,
  granule_at,
  is_ram_size,
  cleared_memory,
  is_in_ram,
  fits,
  load_data,
  store_data,
  load_capability,
  store_capability,
  IsMemory,
};
ghost use Rattle.cheri_model.specs.runs.Sweeps.{swept_memory, cleared_in_memory};

use crate::fault::MemFault;
use crate::packed::{data_at, put_bytes, put_tag, tag_at, unpacked, word_at};
use crate::sweeping::sweep_tags;
use cap_ops::Cap;
use cheri_model::{GRANULE_BYTES, MAX_RAM_BYTES, RAM_BASE, Width};
use std::alloc::Global;
use std::marker::Model;

/// RAM from 0x8000_0000 on, of a multiple of 16 bytes from 16 to 1,048,576. Each granule of 16
/// aligned bytes has a tag.
#[derive(Debug, Drop)]
pub struct Ram {
    bytes: Vec<u8>,
    tags: Vec<u8>,
}

impl Model for Ram {
    ghost use Rattle.std.specs.Prelude.{List};
    ghost use Rattle.cap_model.specs.values.CapValue.{CapValue};
    ghost use Rattle.tagged_mem.specs.Packed.{unpacked_memory, IsPackedRam};

    ghost Value = { List CapValue };

    ghost view = { λ ram. unpacked_memory ram.bytes.items ram.tags.items };

    ghost invariant = { λ ram. IsPackedRam ram.bytes.items ram.tags.items };
}

/// The number of the granule that the byte at `addr` is in.
fn granule_number(addr: u64) -> usize
    requires { ram_base ≤ addr }
    ensures { result ≡ granule_number addr }
{
    ((addr - RAM_BASE) / u64::from(GRANULE_BYTES)) as usize
}

impl Ram {
    /// RAM of this size in bytes, with an untagged 0 in every granule. Fails with `Size` exactly
    /// where the size is not a multiple of 16 from 16 to 1,048,576, and otherwise only when out of
    /// memory.
    pub fn new(alloc: Global, bytes: u32) -> Result<Ram, MemFault>
        ensures cleared { IfOk result (λ ram. ram ≡ cleared_memory bytes) }
        ensures size { (result ≡ Err MemFault.Size) ↔ (is_ram_size bytes ≡ false) }
    {
        if !(GRANULE_BYTES..=MAX_RAM_BYTES).contains(&bytes) || bytes % GRANULE_BYTES != 0 {
            return Err(MemFault::Size);
        }
        let tags = vec![in alloc; 0; bytes as usize / 128 + 1]?;
        let bytes = vec![in alloc; 0; bytes as usize]?;
        Ok(Ram { bytes, tags })
    }

    /// RAM of the same size and values. Fails only when out of memory.
    pub fn copy(&self, alloc: Global) -> Result<Ram, MemFault>
        ensures same { IfOk result (λ copy. copy ≡ self.now) }
        ensures refused { IfErr result (λ fault. fault ≡ MemFault.NoMemory) }
    {
        let bytes = Vec::from_slice(alloc, self.bytes.as_slice())?;
        let tags = Vec::from_slice(alloc, self.tags.as_slice())?;
        Ok(Ram { bytes, tags })
    }

    /// The size in bytes.
    pub fn size(&self) -> u32
        ensures { result ≡ GRANULE_BYTES * length self.now }
    {
        self.bytes.len() as u32
    }

    /// The number of granules.
    pub fn granule_count(&self) -> usize
        ensures count { result ≡ length self.now }
        ensures memory { IsMemory self.now }
    {
        self.bytes.len() / 16
    }

    /// The value of a granule, by its number from 0 on.
    pub fn granule(&self, number: usize) -> Cap
        requires { number < length self.now }
        ensures value { result ≡ granule_at self.now number }
        ensures lawful { IsLawfulValue result }
    {
        let word = word_at(self.bytes.as_slice(), 16 * number);
        unpacked(tag_at(self.tags.as_slice(), number), word)
    }

    /// Lends the bytes in the order of their addresses, without the tags.
    pub fn bytes(&self) -> &[u8]
        ensures size { length result.now ≡ GRANULE_BYTES * length self.now }
        ensures each { (i : ℕ) → i < length result.now → slice_index_or result.now i 0
            ≡ bytes_at (bits_of (granule_at self.now (i / 16))) (i % 16) 1 }
    {
        self.bytes.as_slice()
    }

    /// Whether `bytes` bytes from `addr` on lie wholly in RAM.
    pub fn holds(&self, addr: u64, bytes: u64) -> bool
        ensures { result ≡ is_in_ram self.now addr bytes }
    {
        let end = u128::from(addr) + u128::from(bytes);
        let ram_end = u128::from(RAM_BASE) + u128::from(self.size());
        addr >= RAM_BASE && end <= ram_end
    }

    /// Whether an access of `bytes` bytes, at least one, is aligned to them and lies wholly in RAM.
    pub fn fits(&self, addr: u64, bytes: u64) -> bool
        ensures { result ≡ fits self.now addr bytes }
    {
        bytes > 0 && addr % bytes == 0 && self.holds(addr, bytes)
    }

    /// The number that the bytes from `addr` on are, the least significant first, whatever the tag.
    pub fn load(&self, addr: u64, width: Width) -> u64
        requires { IsTrue (fits self.now addr (bytes_of width)) }
        ensures { result ≡ load_data self.now addr (bytes_of width) }
    {
        data_at(self.bytes.as_slice(), (addr - RAM_BASE) as usize, width)
    }

    /// Stores the low bytes of `number` from `addr` on, the least significant first. The granule
    /// loses its tag.
    pub fn store(&mut self, addr: u64, width: Width, number: u64)
        requires { IsTrue (fits self.old addr (bytes_of width)) }
        ensures { self.new ≡ store_data self.old addr (bytes_of width) number }
    {
        let index = (addr - RAM_BASE) as usize;
        let count = width.bytes() as usize;
        put_bytes(&mut self.bytes, index, count, u128::from(number));
        put_tag(&mut self.tags, granule_number(addr), false);
    }

    /// The granule at `addr`, with its tag.
    pub fn load_cap(&self, addr: u64) -> Cap
        requires { IsTrue (fits self.now addr 16) }
        ensures value { result ≡ load_capability self.now addr }
        ensures lawful { IsLawfulValue result }
    {
        self.granule(granule_number(addr))
    }

    /// Replaces the granule at `addr`, tag and all.
    pub fn store_cap(&mut self, addr: u64, value: Cap)
        requires { IsTrue (fits self.old addr 16) }
        ensures { self.new ≡ store_capability self.old addr value }
    {
        let index = (addr - RAM_BASE) as usize;
        put_bytes(&mut self.bytes, index, 16, value.bits());
        put_tag(&mut self.tags, granule_number(addr), value.tag());
    }

    /// Replaces the granule at `addr`, tag and all, and gives what it had.
    pub fn swap_cap(&mut self, addr: u64, value: Cap) -> Cap
        requires { IsTrue (fits self.old addr 16) }
        ensures old { result ≡ load_capability self.old addr }
        ensures new { self.new ≡ store_capability self.old addr value }
        ensures lawful { IsLawfulValue result }
    {
        let old = self.load_cap(addr);
        self.store_cap(addr, value);
        old
    }

    /// Clears the tag of every capability whose base lies in the addresses from `lo` up to `hi`,
    /// and says how many that is. The bytes stay. Takes no memory.
    pub fn sweep(&mut self, lo: u64, hi: u128) -> u32
        ensures memory { self.new ≡ swept_memory lo hi self.old }
        ensures cleared { result ≡ cleared_in_memory lo hi self.old }
    {
        sweep_tags(self.bytes.as_slice(), &mut self.tags, lo, hi)
    }
}
