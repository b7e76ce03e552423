//! What some command lines ask for, which the definitions decide by themselves: examples to read
//! them by.

ghost use Rattle.std.specs.Prelude.{◌≡◌, Some, None, [], ◌∷◌, codes, true, false};
ghost use Rattle.asm_line.specs.Requests.{asm_asked};
ghost use Rattle.asm_line.specs.declared.requests.TheConstants.{MAX_FILES, MAX_HARTS};

/// The numbers that the definitions take from the code, by their numerals.
pub fn limits()
    ensures files { MAX_FILES ≡ 16 }
    ensures harts { MAX_HARTS ≡ 8 }
{}

/// Command lines of `cheri_asm`.
pub fn known_asm_lines()
    ensures plain { asm_asked (codes "cheri_asm" ∷ codes "prog.s" ∷ [])
        ≡ Some (record { files = codes "prog.s" ∷ []; harts = []; count = None; map = false }) }
    ensures mapped { asm_asked (codes "cheri_asm" ∷ codes "--map" ∷ codes "a.s" ∷ codes "b.s" ∷ [])
        ≡ Some (record {
          files = codes "a.s" ∷ codes "b.s" ∷ [];
          harts = [];
          count = None;
          map = true;
        }) }
    ensures counted { asm_asked (codes "cheri_asm" ∷ codes "a.s" ∷ codes "--harts" ∷ codes "8" ∷ [])
        ≡ Some (record { files = codes "a.s" ∷ []; harts = []; count = Some 8; map = false }) }
    ensures told { asm_asked (codes "cheri_asm" ∷ codes "a.s" ∷ codes "--hart" ∷ codes "entry=f"
        ∷ codes "--hart=stack=64" ∷ [])
        ≡ Some (record {
          files = codes "a.s" ∷ [];
          harts = codes "entry=f" ∷ codes "stack=64" ∷ [];
          count = None;
          map = false;
        }) }
    ensures told_twice { asm_asked (codes "cheri_asm" ∷ codes "a.s" ∷ codes "--hart"
        ∷ codes "entry=f" ∷ codes "--harts" ∷ codes "2" ∷ [])
        ≡ None }
    ensures none { asm_asked (codes "cheri_asm" ∷ codes "a.s" ∷ codes "--harts" ∷ codes "0" ∷ [])
        ≡ None }
    ensures nine { asm_asked (codes "cheri_asm" ∷ codes "a.s" ∷ codes "--harts" ∷ codes "9" ∷ [])
        ≡ None }
    ensures two_digits { asm_asked (codes "cheri_asm" ∷ codes "a.s" ∷ codes "--harts"
        ∷ codes "01" ∷ [])
        ≡ None }
    ensures counted_twice { asm_asked (codes "cheri_asm" ∷ codes "a.s" ∷ codes "--harts"
        ∷ codes "1" ∷ codes "--harts" ∷ codes "1" ∷ [])
        ≡ None }
    ensures mapped_twice { asm_asked (codes "cheri_asm" ∷ codes "a.s" ∷ codes "--map"
        ∷ codes "--map" ∷ [])
        ≡ None }
    ensures unknown { asm_asked (codes "cheri_asm" ∷ codes "a.s" ∷ codes "-o" ∷ codes "a.lst" ∷ [])
        ≡ None }
    ensures alone { asm_asked (codes "cheri_asm" ∷ [])
        ≡ None }
{}
