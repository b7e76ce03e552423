//! The numbers that code and definitions share, each by its numeral. Definitions take them from the
//! code, so that a wrong one would be wrong on both sides; these laws hold them to what the
//! documents say.

ghost use Rattle.std.specs.Prelude.{◌≡◌, ◌^◌, List, [], ◌∷◌};
ghost use Rattle.cap_model.specs.declared.encoding.TheConstants.{
  ADDRESS_SPACE,
  MAX_EXPONENT,
  NULL_FIELDS,
};
ghost use Rattle.cap_model.specs.declared.otype.TheConstants.{
  LAST_SEALABLE_TYPE,
  SENTRY_TYPE,
  UNSEALED_TYPE,
};
ghost use Rattle.cap_model.specs.declared.permission.TheConstants as permission;
ghost use Rattle.cap_model.specs.declared.perms.TheConstants.Perms.{ALL};

/// The format's numbers: the address space, the greatest exponent, null's fields, and the object
/// types.
pub fn format_numbers()
    ensures address_space { ADDRESS_SPACE ≡ 2 ^ 64 }
    ensures max_exponent { MAX_EXPONENT ≡ 52 }
    ensures null_fields { NULL_FIELDS ≡ 0x1FFFFC018004 }
    ensures unsealed { UNSEALED_TYPE ≡ 262143 }
    ensures sentry { SENTRY_TYPE ≡ 262142 }
    ensures last_sealable { LAST_SEALABLE_TYPE ≡ 262139 }
{}

/// The permissions' numbers, in the order of their names in listings, and the set of them all.
pub fn permission_numbers()
    ensures access { permission.GLOBAL ∷ permission.EXECUTE ∷ permission.LOAD ∷ permission.STORE
        ∷ permission.LOAD_CAP ∷ permission.STORE_CAP ∷ permission.STORE_LOCAL ∷ []
        ≡ 0 ∷ 1 ∷ 2 ∷ 3 ∷ 4 ∷ 5 ∷ 6 ∷ [] }
    ensures authority { permission.SEAL ∷ permission.CINVOKE ∷ permission.UNSEAL
        ∷ permission.SYSREGS ∷ permission.SET_CID ∷ [] ≡ 7 ∷ 8 ∷ 9 ∷ 10 ∷ 11 ∷ [] }
    ensures software { permission.SW0 ∷ permission.SW1 ∷ permission.SW2 ∷ permission.SW3 ∷ []
        ≡ 15 ∷ 16 ∷ 17 ∷ 18 ∷ [] }
    ensures all { ALL.0 ≡ 0x78FFF }
{}
