//! What command lines with `--keep` ask for, which the definitions decide by themselves: examples to
//! read them by.

ghost use Rattle.std.specs.Prelude.{◌≡◌, Some, None, true, false, [], ◌∷◌, codes};
ghost use Rattle.explore_line.specs.Requests.{Authority, Check, Find, Outcomes, Search, explore_asked};

use command_line::Format;

/// Command lines with `--keep`.
pub fn known_keeping_lines()
    ensures find_keeping { explore_asked (codes "cheri_explore" ∷ codes "find"
        ∷ codes "first.lst" ∷ codes "0 is halted" ∷ codes "--keep" ∷ codes "registers" ∷ [])
        ≡ Some (Search (record {
          listing = codes "first.lst";
          map = None;
          sweeps = [];
          states = 1000000;
          jobs = None;
          every_step = false;
          keeps_registers = true;
          keeps_harts = false;
          form = Format.Text;
          explained = false;
          question = Find (codes "0 is halted");
        })) }
    ensures keeping_harts { explore_asked (codes "cheri_explore" ∷ codes "find"
        ∷ codes "first.lst" ∷ codes "0 is halted" ∷ codes "--keep" ∷ codes "harts" ∷ [])
        ≡ Some (Search (record {
          listing = codes "first.lst";
          map = None;
          sweeps = [];
          states = 1000000;
          jobs = None;
          every_step = false;
          keeps_registers = false;
          keeps_harts = true;
          form = Format.Text;
          explained = false;
          question = Find (codes "0 is halted");
        })) }
    ensures keeping_both { explore_asked (codes "cheri_explore" ∷ codes "find"
        ∷ codes "first.lst" ∷ codes "0 is halted" ∷ codes "--keep=registers,harts" ∷ [])
        ≡ Some (Search (record {
          listing = codes "first.lst";
          map = None;
          sweeps = [];
          states = 1000000;
          jobs = None;
          every_step = false;
          keeps_registers = true;
          keeps_harts = true;
          form = Format.Text;
          explained = false;
          question = Find (codes "0 is halted");
        })) }
    ensures keeping_both_in_turn { explore_asked (codes "cheri_explore" ∷ codes "find"
        ∷ codes "first.lst" ∷ codes "0 is halted" ∷ codes "--keep=harts,registers" ∷ [])
        ≡ Some (Search (record {
          listing = codes "first.lst";
          map = None;
          sweeps = [];
          states = 1000000;
          jobs = None;
          every_step = false;
          keeps_registers = true;
          keeps_harts = true;
          form = Format.Text;
          explained = false;
          question = Find (codes "0 is halted");
        })) }
    ensures outcomes_keeping { explore_asked (codes "cheri_explore" ∷ codes "outcomes"
        ∷ codes "first.lst" ∷ codes "--keep=registers" ∷ codes "--show" ∷ codes "0.c7" ∷ [])
        ≡ Some (Search (record {
          listing = codes "first.lst";
          map = None;
          sweeps = [];
          states = 1000000;
          jobs = None;
          every_step = false;
          keeps_registers = true;
          keeps_harts = false;
          form = Format.Text;
          explained = false;
          question = Outcomes (Some (codes "0.c7"));
        })) }
    ensures authority_keeping { explore_asked (codes "cheri_explore" ∷ codes "authority"
        ∷ codes "first.lst" ∷ codes "--keep=harts" ∷ [])
        ≡ Some (Search (record {
          listing = codes "first.lst";
          map = None;
          sweeps = [];
          states = 1000000;
          jobs = None;
          every_step = false;
          keeps_registers = false;
          keeps_harts = true;
          form = Format.Text;
          explained = false;
          question = Authority;
        })) }
    ensures check_keeping { explore_asked (codes "cheri_explore" ∷ codes "check"
        ∷ codes "first.lst" ∷ codes "--keep" ∷ codes "registers" ∷ [])
        ≡ Some (Search (record {
          listing = codes "first.lst";
          map = None;
          sweeps = [];
          states = 1000000;
          jobs = None;
          every_step = false;
          keeps_registers = true;
          keeps_harts = false;
          form = Format.Text;
          explained = false;
          question = Check;
        })) }
{}

/// Command lines with `--keep` that ask for nothing.
pub fn wrong_keeping_lines()
    ensures sample_keeping { explore_asked (codes "cheri_explore" ∷ codes "sample"
        ∷ codes "first.lst" ∷ codes "--orders=8" ∷ codes "--keep=harts" ∷ [])
        ≡ None }
    ensures keeping_nothing { explore_asked (codes "cheri_explore" ∷ codes "find"
        ∷ codes "first.lst" ∷ codes "0 is halted" ∷ codes "--keep=" ∷ [])
        ≡ None }
    ensures keeping_another_word { explore_asked (codes "cheri_explore" ∷ codes "find"
        ∷ codes "first.lst" ∷ codes "0 is halted" ∷ codes "--keep=granules" ∷ [])
        ≡ None }
    ensures keeping_a_word_twice { explore_asked (codes "cheri_explore" ∷ codes "find"
        ∷ codes "first.lst" ∷ codes "0 is halted" ∷ codes "--keep=registers,registers" ∷ [])
        ≡ None }
    ensures keeping_harts_twice { explore_asked (codes "cheri_explore" ∷ codes "find"
        ∷ codes "first.lst" ∷ codes "0 is halted" ∷ codes "--keep=harts,harts" ∷ [])
        ≡ None }
    ensures keeping_no_second_word { explore_asked (codes "cheri_explore" ∷ codes "find"
        ∷ codes "first.lst" ∷ codes "0 is halted" ∷ codes "--keep=registers," ∷ [])
        ≡ None }
    ensures keeping_twice { explore_asked (codes "cheri_explore" ∷ codes "find"
        ∷ codes "first.lst" ∷ codes "0 is halted" ∷ codes "--keep=registers"
        ∷ codes "--keep=registers" ∷ [])
        ≡ None }
{}
