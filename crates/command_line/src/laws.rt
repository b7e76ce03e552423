//! What some command lines ask for, which the definitions decide by themselves: examples to read
//! them by.

ghost use Rattle.std.specs.Prelude.{◌≡◌, Some, None, [], ◌∷◌, codes, true, false};
ghost use Rattle.command_line.specs.Requests.{asked, Check, Run, Race, Bounds, Decode};
ghost use Rattle.command_line.specs.declared.requests.TheConstants.{GREATEST_TURNS};

use crate::found::Format;

/// The number that the definitions take from the code, by its numeral.
pub fn limits()
    ensures { GREATEST_TURNS ≡ 100000 }
{}

/// Command lines of `cheri_sim`.
pub fn known_command_lines()
    ensures check { asked (codes "cheri_sim" ∷ codes "check" ∷ codes "first.lst" ∷ [])
        ≡ Some (Check (codes "first.lst")) }
    ensures run { asked (codes "cheri_sim" ∷ codes "run" ∷ codes "first.lst"
        ∷ codes "--order" ∷ codes "zeros.txt" ∷ [])
        ≡ Some (Run (codes "first.lst") (codes "zeros.txt") Format.Text) }
    ensures order_first { asked (codes "cheri_sim" ∷ codes "run"
        ∷ codes "--order=zeros.txt" ∷ codes "first.lst" ∷ [])
        ≡ Some (Run (codes "first.lst") (codes "zeros.txt") Format.Text) }
    ensures json { asked (codes "cheri_sim" ∷ codes "run" ∷ codes "--json"
        ∷ codes "--order=zeros.txt" ∷ codes "first.lst" ∷ [])
        ≡ Some (Run (codes "first.lst") (codes "zeros.txt") Format.Json) }
    ensures json_twice { asked (codes "cheri_sim" ∷ codes "run" ∷ codes "--json"
        ∷ codes "--json" ∷ codes "--order=zeros.txt" ∷ codes "first.lst" ∷ [])
        ≡ None }
    ensures race { asked (codes "cheri_sim" ∷ codes "race" ∷ codes "first.lst"
        ∷ codes "--turns" ∷ codes "4" ∷ [])
        ≡ Some (Race (codes "first.lst") 4 false) }
    ensures race_with_zeros { asked (codes "cheri_sim" ∷ codes "race"
        ∷ codes "--turns=0100000" ∷ codes "first.lst" ∷ [])
        ≡ Some (Race (codes "first.lst") 100000 false) }
    ensures watched { asked (codes "cheri_sim" ∷ codes "race" ∷ codes "first.lst"
        ∷ codes "--watch" ∷ codes "--turns" ∷ codes "4" ∷ [])
        ≡ Some (Race (codes "first.lst") 4 true) }
    ensures watched_twice { asked (codes "cheri_sim" ∷ codes "race" ∷ codes "first.lst"
        ∷ codes "--watch" ∷ codes "--watch" ∷ codes "--turns" ∷ codes "4" ∷ []) ≡ None }
    ensures no_turns { asked (codes "cheri_sim" ∷ codes "race" ∷ codes "first.lst"
        ∷ codes "--turns" ∷ codes "0" ∷ []) ≡ None }
    ensures too_many_turns { asked (codes "cheri_sim" ∷ codes "race" ∷ codes "first.lst"
        ∷ codes "--turns" ∷ codes "100001" ∷ []) ≡ None }
    ensures turns_with_plus { asked (codes "cheri_sim" ∷ codes "race" ∷ codes "first.lst"
        ∷ codes "--turns" ∷ codes "+4" ∷ []) ≡ None }
    ensures hexadecimal_turns { asked (codes "cheri_sim" ∷ codes "race" ∷ codes "first.lst"
        ∷ codes "--turns" ∷ codes "0x4" ∷ []) ≡ None }
    ensures without_turns { asked (codes "cheri_sim" ∷ codes "race" ∷ codes "first.lst" ∷ [])
        ≡ None }
    ensures bounds { asked (codes "cheri_sim" ∷ codes "bounds" ∷ codes "1" ∷ codes "4096" ∷ [])
        ≡ Some (Bounds (codes "1") (codes "4096")) }
    ensures decode { asked (codes "cheri_sim" ∷ codes "decode" ∷ codes "0" ∷ [])
        ≡ Some (Decode (codes "0")) }
    ensures alone { asked (codes "cheri_sim" ∷ []) ≡ None }
    ensures unknown { asked (codes "cheri_sim" ∷ codes "walk" ∷ []) ≡ None }
    ensures help { asked (codes "cheri_sim" ∷ codes "run" ∷ codes "--help" ∷ []) ≡ None }
    ensures without_order { asked (codes "cheri_sim" ∷ codes "run" ∷ codes "first.lst" ∷ [])
        ≡ None }
    ensures one_more { asked (codes "cheri_sim" ∷ codes "decode" ∷ codes "0" ∷ codes "1" ∷ [])
        ≡ None }
    ensures minus { asked (codes "cheri_sim" ∷ codes "decode" ∷ codes "-1" ∷ []) ≡ None }
{}
