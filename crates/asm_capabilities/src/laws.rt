//! The permissions by their numbers.

ghost use Rattle.std.specs.Prelude.{◌≡◌, ◌+◌, ◌^◌};
ghost use Rattle.cap_model.specs.declared.permission.TheConstants as permission;
ghost use Rattle.asm_capabilities.specs.declared.code.TheConstants.{WIDE_TOP};
ghost use Rattle.asm_capabilities.specs.declared.permissions.TheConstants.{
  CODE,
  CODE_AND_MEMORY,
  READ_ONLY,
  WRITABLE,
  STACK,
};

/// The permissions of what a program begins with.
pub fn permissions_by_number()
    ensures code { CODE
        ≡ 2 ^ permission.GLOBAL + 2 ^ permission.EXECUTE + 2 ^ permission.CINVOKE }
    ensures code_and_memory { CODE_AND_MEMORY
        ≡ CODE + 2 ^ permission.LOAD + 2 ^ permission.LOAD_CAP }
    ensures read_only { READ_ONLY
        ≡ 2 ^ permission.GLOBAL + 2 ^ permission.LOAD + 2 ^ permission.LOAD_CAP
        + 2 ^ permission.CINVOKE }
    ensures writable { WRITABLE
        ≡ READ_ONLY + 2 ^ permission.STORE + 2 ^ permission.STORE_CAP }
    ensures stack { STACK ≡ WRITABLE + 2 ^ permission.STORE_LOCAL }
{}

/// Where PCC ends that reaches memory.
pub fn wide_top()
    ensures { WIDE_TOP ≡ 0x80200000 }
{}
