//! What some command lines ask for, which the definitions decide by themselves: examples to read
//! them by.

ghost use Rattle.std.specs.Prelude.{◌≡◌, Some, None, true, false, [], ◌∷◌, codes};
ghost use Rattle.explore_line.specs.Requests.{Authority, Check, Find, Outcomes, Search};
ghost use Rattle.explore_line.specs.Requests.{explore_asked};
ghost use Rattle.explore_line.specs.declared.requests.TheConstants.{GREATEST_STATES, USUAL_STATES};
ghost use Rattle.explore_sweeps.specs.declared.TheConstants.{MAX_SWEEPS};

use command_line::Format;

/// The numbers that the definitions take from the code, each by its numeral.
pub fn limits()
    ensures states { GREATEST_STATES ≡ 100000000 }
    ensures usual { USUAL_STATES ≡ 1000000 }
    ensures sweeps { MAX_SWEEPS ≡ 8 }
{}

/// Command lines of `cheri_explore`.
pub fn known_explore_lines()
    ensures outcomes { explore_asked (codes "cheri_explore" ∷ codes "outcomes"
        ∷ codes "first.lst" ∷ [])
        ≡ Some (Search (record {
          listing = codes "first.lst";
          map = None;
          sweeps = [];
          states = 1000000;
          jobs = None;
          every_step = false;
          keeps_registers = false;
          keeps_harts = false;
          form = Format.Text;
          explained = false;
          question = Outcomes None;
        })) }
    ensures shown { explore_asked (codes "cheri_explore" ∷ codes "outcomes" ∷ codes "first.lst"
        ∷ codes "--show" ∷ codes "0.c7,mem8[0x10]" ∷ [])
        ≡ Some (Search (record {
          listing = codes "first.lst";
          map = None;
          sweeps = [];
          states = 1000000;
          jobs = None;
          every_step = false;
          keeps_registers = false;
          keeps_harts = false;
          form = Format.Text;
          explained = false;
          question = Outcomes (Some (codes "0.c7,mem8[0x10]"));
        })) }
    ensures shown_nothing { explore_asked (codes "cheri_explore" ∷ codes "outcomes"
        ∷ codes "--show=" ∷ codes "first.lst" ∷ [])
        ≡ Some (Search (record {
          listing = codes "first.lst";
          map = None;
          sweeps = [];
          states = 1000000;
          jobs = None;
          every_step = false;
          keeps_registers = false;
          keeps_harts = false;
          form = Format.Text;
          explained = false;
          question = Outcomes (Some []);
        })) }
    ensures find { explore_asked (codes "cheri_explore" ∷ codes "find" ∷ codes "first.lst"
        ∷ codes "0 is halted" ∷ codes "--json" ∷ [])
        ≡ Some (Search (record {
          listing = codes "first.lst";
          map = None;
          sweeps = [];
          states = 1000000;
          jobs = None;
          every_step = false;
          keeps_registers = false;
          keeps_harts = false;
          form = Format.Json;
          explained = false;
          question = Find (codes "0 is halted");
        })) }
    ensures authority { explore_asked (codes "cheri_explore" ∷ codes "authority"
        ∷ codes "--states=010" ∷ codes "first.lst" ∷ [])
        ≡ Some (Search (record {
          listing = codes "first.lst";
          map = None;
          sweeps = [];
          states = 10;
          jobs = None;
          every_step = false;
          keeps_registers = false;
          keeps_harts = false;
          form = Format.Text;
          explained = false;
          question = Authority;
        })) }
    ensures steps { explore_asked (codes "cheri_explore" ∷ codes "find" ∷ codes "first.lst"
        ∷ codes "--steps" ∷ codes "0 is halted" ∷ [])
        ≡ Some (Search (record {
          listing = codes "first.lst";
          map = None;
          sweeps = [];
          states = 1000000;
          jobs = None;
          every_step = true;
          keeps_registers = false;
          keeps_harts = false;
          form = Format.Text;
          explained = false;
          question = Find (codes "0 is halted");
        })) }
    ensures swept { explore_asked (codes "cheri_explore" ∷ codes "authority" ∷ codes "first.lst"
        ∷ codes "--sweep" ∷ codes "16,0x20" ∷ codes "--sweep=0,0x10000000000000000" ∷ [])
        ≡ Some (Search (record {
          listing = codes "first.lst";
          map = None;
          sweeps = record { lo = 16; hi = 32 }
              ∷ record { lo = 0; hi = 18446744073709551616 } ∷ [];
          states = 1000000;
          jobs = None;
          every_step = false;
          keeps_registers = false;
          keeps_harts = false;
          form = Format.Text;
          explained = false;
          question = Authority;
        })) }
    ensures empty_sweep { explore_asked (codes "cheri_explore" ∷ codes "outcomes"
        ∷ codes "first.lst" ∷ codes "--sweep" ∷ codes "7,7" ∷ [])
        ≡ Some (Search (record {
          listing = codes "first.lst";
          map = None;
          sweeps = record { lo = 7; hi = 7 } ∷ [];
          states = 1000000;
          jobs = None;
          every_step = false;
          keeps_registers = false;
          keeps_harts = false;
          form = Format.Text;
          explained = false;
          question = Outcomes None;
        })) }
    ensures most_states { explore_asked (codes "cheri_explore" ∷ codes "outcomes"
        ∷ codes "first.lst" ∷ codes "--states" ∷ codes "100000000" ∷ [])
        ≡ Some (Search (record {
          listing = codes "first.lst";
          map = None;
          sweeps = [];
          states = 100000000;
          jobs = None;
          every_step = false;
          keeps_registers = false;
          keeps_harts = false;
          form = Format.Text;
          explained = false;
          question = Outcomes None;
        })) }
    ensures too_many_states { explore_asked (codes "cheri_explore" ∷ codes "outcomes"
        ∷ codes "first.lst" ∷ codes "--states" ∷ codes "100000001" ∷ [])
        ≡ None }
    ensures no_states { explore_asked (codes "cheri_explore" ∷ codes "outcomes"
        ∷ codes "first.lst" ∷ codes "--states" ∷ codes "0" ∷ [])
        ≡ None }
    ensures hexadecimal_states { explore_asked (codes "cheri_explore" ∷ codes "outcomes"
        ∷ codes "first.lst" ∷ codes "--states" ∷ codes "0x10" ∷ [])
        ≡ None }
    ensures backwards { explore_asked (codes "cheri_explore" ∷ codes "outcomes"
        ∷ codes "first.lst" ∷ codes "--sweep" ∷ codes "2,1" ∷ [])
        ≡ None }
    ensures beyond { explore_asked (codes "cheri_explore" ∷ codes "outcomes" ∷ codes "first.lst"
        ∷ codes "--sweep" ∷ codes "0,18446744073709551617" ∷ [])
        ≡ None }
    ensures from_the_end { explore_asked (codes "cheri_explore" ∷ codes "outcomes"
        ∷ codes "first.lst" ∷ codes "--sweep"
        ∷ codes "18446744073709551616,18446744073709551616" ∷ [])
        ≡ None }
    ensures sweep_of_one { explore_asked (codes "cheri_explore" ∷ codes "outcomes"
        ∷ codes "first.lst" ∷ codes "--sweep" ∷ codes "16" ∷ [])
        ≡ None }
    ensures sweep_with_space { explore_asked (codes "cheri_explore" ∷ codes "outcomes"
        ∷ codes "first.lst" ∷ codes "--sweep" ∷ codes "0, 16" ∷ [])
        ≡ None }
    ensures sweep_of_three { explore_asked (codes "cheri_explore" ∷ codes "outcomes"
        ∷ codes "first.lst" ∷ codes "--sweep" ∷ codes "0,1,2" ∷ [])
        ≡ None }
    ensures nine_sweeps { explore_asked (codes "cheri_explore" ∷ codes "outcomes"
        ∷ codes "first.lst" ∷ codes "--sweep=0,1" ∷ codes "--sweep=0,1" ∷ codes "--sweep=0,1"
        ∷ codes "--sweep=0,1" ∷ codes "--sweep=0,1" ∷ codes "--sweep=0,1" ∷ codes "--sweep=0,1"
        ∷ codes "--sweep=0,1" ∷ codes "--sweep=0,1" ∷ [])
        ≡ None }
    ensures shown_twice { explore_asked (codes "cheri_explore" ∷ codes "outcomes"
        ∷ codes "first.lst" ∷ codes "--show" ∷ codes "0.c1" ∷ codes "--show" ∷ codes "0.c2" ∷ [])
        ≡ None }
    ensures states_twice { explore_asked (codes "cheri_explore" ∷ codes "outcomes"
        ∷ codes "first.lst" ∷ codes "--states" ∷ codes "1" ∷ codes "--states" ∷ codes "1" ∷ [])
        ≡ None }
    ensures steps_twice { explore_asked (codes "cheri_explore" ∷ codes "outcomes"
        ∷ codes "first.lst" ∷ codes "--steps" ∷ codes "--steps" ∷ [])
        ≡ None }
    ensures steps_of_a_number { explore_asked (codes "cheri_explore" ∷ codes "outcomes"
        ∷ codes "first.lst" ∷ codes "--steps=1" ∷ [])
        ≡ None }
    ensures shown_authority { explore_asked (codes "cheri_explore" ∷ codes "authority"
        ∷ codes "first.lst" ∷ codes "--show" ∷ codes "0.c1" ∷ [])
        ≡ None }
    ensures check { explore_asked (codes "cheri_explore" ∷ codes "check" ∷ codes "first.lst"
        ∷ codes "--steps" ∷ codes "--json" ∷ codes "--states=7" ∷ [])
        ≡ Some (Search (record {
          listing = codes "first.lst";
          map = None;
          sweeps = [];
          states = 7;
          jobs = None;
          every_step = true;
          keeps_registers = false;
          keeps_harts = false;
          form = Format.Json;
          explained = false;
          question = Check;
        })) }
    ensures check_explained { explore_asked (codes "cheri_explore" ∷ codes "check"
        ∷ codes "first.lst" ∷ codes "--explain" ∷ [])
        ≡ Some (Search (record {
          listing = codes "first.lst";
          map = None;
          sweeps = [];
          states = 1000000;
          jobs = None;
          every_step = false;
          keeps_registers = false;
          keeps_harts = false;
          form = Format.Text;
          explained = true;
          question = Check;
        })) }
    ensures find_explained { explore_asked (codes "cheri_explore" ∷ codes "find"
        ∷ codes "--explain" ∷ codes "first.lst" ∷ codes "0 is halted" ∷ [])
        ≡ Some (Search (record {
          listing = codes "first.lst";
          map = None;
          sweeps = [];
          states = 1000000;
          jobs = None;
          every_step = false;
          keeps_registers = false;
          keeps_harts = false;
          form = Format.Text;
          explained = true;
          question = Find (codes "0 is halted");
        })) }
    ensures find_mapped { explore_asked (codes "cheri_explore" ∷ codes "find"
        ∷ codes "first.lst" ∷ codes "--map" ∷ codes "first.map" ∷ codes "0 at main" ∷ [])
        ≡ Some (Search (record {
          listing = codes "first.lst";
          map = Some (codes "first.map");
          sweeps = [];
          states = 1000000;
          jobs = None;
          every_step = false;
          keeps_registers = false;
          keeps_harts = false;
          form = Format.Text;
          explained = false;
          question = Find (codes "0 at main");
        })) }
    ensures check_mapped { explore_asked (codes "cheri_explore" ∷ codes "check"
        ∷ codes "--map=first.map" ∷ codes "first.lst" ∷ codes "--json" ∷ [])
        ≡ Some (Search (record {
          listing = codes "first.lst";
          map = Some (codes "first.map");
          sweeps = [];
          states = 1000000;
          jobs = None;
          every_step = false;
          keeps_registers = false;
          keeps_harts = false;
          form = Format.Json;
          explained = false;
          question = Check;
        })) }
    ensures mapped_twice { explore_asked (codes "cheri_explore" ∷ codes "check"
        ∷ codes "first.lst" ∷ codes "--map=first.map" ∷ codes "--map=first.map" ∷ [])
        ≡ None }
    ensures map_without_a_name { explore_asked (codes "cheri_explore" ∷ codes "check"
        ∷ codes "first.lst" ∷ codes "--map" ∷ [])
        ≡ None }
    ensures mapped_outcomes { explore_asked (codes "cheri_explore" ∷ codes "outcomes"
        ∷ codes "first.lst" ∷ codes "--map" ∷ codes "first.map" ∷ [])
        ≡ None }
    ensures mapped_authority { explore_asked (codes "cheri_explore" ∷ codes "authority"
        ∷ codes "first.lst" ∷ codes "--map" ∷ codes "first.map" ∷ [])
        ≡ None }
    ensures explained_twice { explore_asked (codes "cheri_explore" ∷ codes "check"
        ∷ codes "first.lst" ∷ codes "--explain" ∷ codes "--explain" ∷ [])
        ≡ None }
    ensures explained_with_a_value { explore_asked (codes "cheri_explore" ∷ codes "check"
        ∷ codes "first.lst" ∷ codes "--explain=1" ∷ [])
        ≡ None }
    ensures explained_in_json { explore_asked (codes "cheri_explore" ∷ codes "check"
        ∷ codes "first.lst" ∷ codes "--explain" ∷ codes "--json" ∷ [])
        ≡ None }
    ensures explained_outcomes { explore_asked (codes "cheri_explore" ∷ codes "outcomes"
        ∷ codes "first.lst" ∷ codes "--explain" ∷ [])
        ≡ None }
    ensures check_with_sweep { explore_asked (codes "cheri_explore" ∷ codes "check"
        ∷ codes "first.lst" ∷ codes "--sweep" ∷ codes "0,1" ∷ [])
        ≡ None }
    ensures check_of_condition { explore_asked (codes "cheri_explore" ∷ codes "check"
        ∷ codes "first.lst" ∷ codes "0 is halted" ∷ [])
        ≡ None }
    ensures without_condition { explore_asked (codes "cheri_explore" ∷ codes "find"
        ∷ codes "first.lst" ∷ [])
        ≡ None }
    ensures without_command { explore_asked (codes "cheri_explore" ∷ codes "first.lst" ∷ [])
        ≡ None }
    ensures help { explore_asked (codes "cheri_explore" ∷ codes "outcomes" ∷ codes "--help" ∷ [])
        ≡ None }
    ensures alone { explore_asked (codes "cheri_explore" ∷ [])
        ≡ None }
{}
