//! What command lines with `--alike` ask for, which the definitions decide by themselves: examples
//! to read them by.

ghost use Rattle.std.specs.Prelude.{◌≡◌, Some, None, true, false, [], ◌∷◌, codes};
ghost use Rattle.explore_line.specs.Requests.{Alike, Search, explore_asked};

use command_line::Format;

/// Command lines with `--alike`.
pub fn known_alike_lines()
    ensures alike { explore_asked (codes "cheri_explore" ∷ codes "outcomes"
        ∷ codes "first.lst" ∷ codes "--alike" ∷ [])
        ≡ Some (Search (record {
          listing = codes "first.lst";
          map = None;
          sweeps = [];
          states = 1000000;
          jobs = None;
          every_step = false;
          keeps_registers = false;
          keeps_harts = false;
          form = Format.Text;
          explained = false;
          question = Alike None;
        })) }
    ensures alike_shown { explore_asked (codes "cheri_explore" ∷ codes "outcomes"
        ∷ codes "--alike" ∷ codes "first.lst" ∷ codes "--show" ∷ codes "0.c7"
        ∷ codes "--json" ∷ [])
        ≡ Some (Search (record {
          listing = codes "first.lst";
          map = None;
          sweeps = [];
          states = 1000000;
          jobs = None;
          every_step = false;
          keeps_registers = false;
          keeps_harts = false;
          form = Format.Json;
          explained = false;
          question = Alike (Some (codes "0.c7"));
        })) }
    ensures alike_keeping_harts { explore_asked (codes "cheri_explore" ∷ codes "outcomes"
        ∷ codes "first.lst" ∷ codes "--keep" ∷ codes "harts" ∷ codes "--alike" ∷ [])
        ≡ Some (Search (record {
          listing = codes "first.lst";
          map = None;
          sweeps = [];
          states = 1000000;
          jobs = None;
          every_step = false;
          keeps_registers = false;
          keeps_harts = true;
          form = Format.Text;
          explained = false;
          question = Alike None;
        })) }
    ensures alike_swept { explore_asked (codes "cheri_explore" ∷ codes "outcomes"
        ∷ codes "first.lst" ∷ codes "--alike" ∷ codes "--sweep" ∷ codes "7,7" ∷ [])
        ≡ Some (Search (record {
          listing = codes "first.lst";
          map = None;
          sweeps = record { lo = 7; hi = 7 } ∷ [];
          states = 1000000;
          jobs = None;
          every_step = false;
          keeps_registers = false;
          keeps_harts = false;
          form = Format.Text;
          explained = false;
          question = Alike None;
        })) }
{}

/// Command lines with `--alike` that ask for nothing.
pub fn wrong_alike_lines()
    ensures alike_twice { explore_asked (codes "cheri_explore" ∷ codes "outcomes"
        ∷ codes "first.lst" ∷ codes "--alike" ∷ codes "--alike" ∷ [])
        ≡ None }
    ensures alike_of_a_number { explore_asked (codes "cheri_explore" ∷ codes "outcomes"
        ∷ codes "first.lst" ∷ codes "--alike=1" ∷ [])
        ≡ None }
    ensures alike_find { explore_asked (codes "cheri_explore" ∷ codes "find"
        ∷ codes "first.lst" ∷ codes "0 is halted" ∷ codes "--alike" ∷ [])
        ≡ None }
    ensures alike_check { explore_asked (codes "cheri_explore" ∷ codes "check"
        ∷ codes "first.lst" ∷ codes "--alike" ∷ [])
        ≡ None }
    ensures alike_authority { explore_asked (codes "cheri_explore" ∷ codes "authority"
        ∷ codes "first.lst" ∷ codes "--alike" ∷ [])
        ≡ None }
{}
