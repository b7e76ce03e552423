//! Permission sets (CHERI ISA v9, "capability permissions").

ghost use Rattle.std.specs.Prelude.{⊤, ◌≡◌, [], ◌∷◌, codes, option_map};
ghost use Rattle.bitflags.specs.Sets.{find_name};
ghost use Rattle.cap_model.specs.values.Capability.{IsPermissionSet};
ghost use Rattle.cap_model.specs.words.PermissionNames.{known_permissions};

use crate::permission;
use bitflags::{Flag, Flags};

/// A set of permissions in the form that CGetPerm shows: bit n is the permission with this number,
/// from 0 to 11 for the architectural ones and from 15 to 18 for those left to software.
#[derive(Clone, Copy, Debug, PartialEq, Eq)]
pub struct Perms(u32);

impl Perms {
    pub const GLOBAL: Perms = Perms(1 << permission::GLOBAL);

    pub const EXECUTE: Perms = Perms(1 << permission::EXECUTE);

    pub const LOAD: Perms = Perms(1 << permission::LOAD);

    pub const STORE: Perms = Perms(1 << permission::STORE);

    pub const LOAD_CAP: Perms = Perms(1 << permission::LOAD_CAP);

    pub const STORE_CAP: Perms = Perms(1 << permission::STORE_CAP);

    pub const STORE_LOCAL: Perms = Perms(1 << permission::STORE_LOCAL);

    pub const SEAL: Perms = Perms(1 << permission::SEAL);

    pub const CINVOKE: Perms = Perms(1 << permission::CINVOKE);

    pub const UNSEAL: Perms = Perms(1 << permission::UNSEAL);

    pub const SYSREGS: Perms = Perms(1 << permission::SYSREGS);

    pub const SET_CID: Perms = Perms(1 << permission::SET_CID);

    pub const SW0: Perms = Perms(1 << permission::SW0);

    pub const SW1: Perms = Perms(1 << permission::SW1);

    pub const SW2: Perms = Perms(1 << permission::SW2);

    pub const SW3: Perms = Perms(1 << permission::SW3);

    /// Every permission that there is.
    pub const ALL: Perms = Perms(
        Perms::GLOBAL.0
            | Perms::EXECUTE.0
            | Perms::LOAD.0
            | Perms::STORE.0
            | Perms::LOAD_CAP.0
            | Perms::STORE_CAP.0
            | Perms::STORE_LOCAL.0
            | Perms::SEAL.0
            | Perms::CINVOKE.0
            | Perms::UNSEAL.0
            | Perms::SYSREGS.0
            | Perms::SET_CID.0
            | Perms::SW0.0
            | Perms::SW1.0
            | Perms::SW2.0
            | Perms::SW3.0,
    );

    /// The flags in bit order, under their names in listings.
    const FLAGS: &'static [Flag<Perms>] = &[
        Flag {
            name: "global",
            value: Perms::GLOBAL,
        },
        Flag {
            name: "execute",
            value: Perms::EXECUTE,
        },
        Flag {
            name: "load",
            value: Perms::LOAD,
        },
        Flag {
            name: "store",
            value: Perms::STORE,
        },
        Flag {
            name: "load_cap",
            value: Perms::LOAD_CAP,
        },
        Flag {
            name: "store_cap",
            value: Perms::STORE_CAP,
        },
        Flag {
            name: "store_local",
            value: Perms::STORE_LOCAL,
        },
        Flag {
            name: "seal",
            value: Perms::SEAL,
        },
        Flag {
            name: "cinvoke",
            value: Perms::CINVOKE,
        },
        Flag {
            name: "unseal",
            value: Perms::UNSEAL,
        },
        Flag {
            name: "sysregs",
            value: Perms::SYSREGS,
        },
        Flag {
            name: "set_cid",
            value: Perms::SET_CID,
        },
        Flag {
            name: "sw0",
            value: Perms::SW0,
        },
        Flag {
            name: "sw1",
            value: Perms::SW1,
        },
        Flag {
            name: "sw2",
            value: Perms::SW2,
        },
        Flag {
            name: "sw3",
            value: Perms::SW3,
        },
    ];

    /// The permissions among these bits, as CGetPerm shows them. Bits that no permission has are
    /// dropped.
    #[tactic(auto, using(crate::proofs::Results::PermissionSets::dropped_bits_leave_set))]
    pub fn known_bits(self) -> u32
        ensures value { result ≡ known_permissions self.0 }
        ensures known { IsPermissionSet result }
    {
        self.bits() & Perms::ALL.bits()
    }
}

impl Flags for Perms {
    type Bits = u32;

    ghost exact = { ⊤ };

    ghost use Rattle.cap_model.specs.words.PermissionNames.{permission_table};

    ghost table = { permission_table };

    ghost set_of = { λ p. p.0 };

    fn flags<'a>() -> &'a [Flag<Perms>] {
        Perms::FLAGS
    }

    fn bits(&self) -> u32 {
        self.0
    }

    fn from_bits_retain(bits: u32) -> Perms {
        Perms(bits)
    }
}
