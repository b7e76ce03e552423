//! The capabilities of code: PCC, and sentries with its bounds.
#![tactic(auto, unfolding(crate::proofs::Unfold::code))]

ghost use Rattle.std.specs.Prelude.{◌≡◌};
ghost use Rattle.asm_capabilities.specs.Capabilities.{
  reach_length,
  reach_permissions,
  pcc_at,
  sentry_at,
};

use crate::permissions::{CODE, CODE_AND_MEMORY};
use bitflags::Flags;
use cap_bounds::crrl;
use cap_model::{OType, Perms};
use cap_ops::{Cap, MakeFault};
use cheri_model::{CODE_BASE, INSTRUCTION_BYTES};

/// Where the least capability ends that reaches all of code and memory: its bounds have to be
/// representable.
pub const WIDE_TOP: u64 = 0x8020_0000;

/// What PCC and sentries reach.
#[derive(Clone, Copy)]
pub enum Reach {
    /// Code alone, of so many instructions.
    Code(u32),
    /// Code and all of memory: for code that reaches its data by PCC.
    CodeAndMemory,
}

impl Reach {
    /// How many bytes that is, from the beginning of code on.
    fn length(self) -> u64
        ensures { result ≡ reach_length self }
    {
        match self {
            Reach::Code(count) => crrl(INSTRUCTION_BYTES * u64::from(count)),
            Reach::CodeAndMemory => WIDE_TOP - CODE_BASE,
        }
    }

    /// The permissions.
    fn permissions(self) -> u32
        ensures { result ≡ reach_permissions self }
    {
        match self {
            Reach::Code(_) => CODE,
            Reach::CodeAndMemory => CODE_AND_MEMORY,
        }
    }

    /// PCC at an address. Fails where there is no such capability.
    pub fn pcc(self, addr: u64) -> Result<Cap, MakeFault>
        ensures { result ≡ pcc_at self addr }
    {
        let perms = Perms::from_bits_retain(self.permissions());
        Cap::make(CODE_BASE, u128::from(self.length()), addr, perms)
    }

    /// A sentry to an address. Fails where there is no such capability.
    pub fn sentry(self, addr: u64) -> Result<Cap, MakeFault>
        ensures { result ≡ sentry_at self addr }
    {
        let length = u128::from(self.length());
        let perms = Perms::from_bits_retain(self.permissions());
        Cap::make_sealed(CODE_BASE, length, addr, perms, OType::sentry())
    }
}
