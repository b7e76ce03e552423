//! What command lines of searches with `--jobs` ask for, which the definitions decide by themselves:
//! examples to read them by.

ghost use Rattle.std.specs.Prelude.{◌≡◌, Some, None, false, [], ◌∷◌, codes};
ghost use Rattle.explore_line.specs.Requests.{Authority, Check, Find, Outcomes, Search};
ghost use Rattle.explore_line.specs.Requests.{explore_asked};

use command_line::Format;

/// Searches with `--jobs`.
pub fn known_job_lines()
    ensures outcomes { explore_asked (codes "cheri_explore" ∷ codes "outcomes"
        ∷ codes "first.lst" ∷ codes "--jobs" ∷ codes "4" ∷ [])
        ≡ Some (Search (record {
          listing = codes "first.lst";
          map = None;
          sweeps = [];
          states = 1000000;
          jobs = Some 4;
          every_step = false;
          keeps_registers = false;
          keeps_harts = false;
          form = Format.Text;
          explained = false;
          question = Outcomes None;
        })) }
    ensures find { explore_asked (codes "cheri_explore" ∷ codes "find" ∷ codes "first.lst"
        ∷ codes "0 is halted" ∷ codes "--jobs=256" ∷ codes "--states=10" ∷ [])
        ≡ Some (Search (record {
          listing = codes "first.lst";
          map = None;
          sweeps = [];
          states = 10;
          jobs = Some 256;
          every_step = false;
          keeps_registers = false;
          keeps_harts = false;
          form = Format.Text;
          explained = false;
          question = Find (codes "0 is halted");
        })) }
    ensures authority { explore_asked (codes "cheri_explore" ∷ codes "authority"
        ∷ codes "--jobs=1" ∷ codes "first.lst" ∷ codes "--json" ∷ [])
        ≡ Some (Search (record {
          listing = codes "first.lst";
          map = None;
          sweeps = [];
          states = 1000000;
          jobs = Some 1;
          every_step = false;
          keeps_registers = false;
          keeps_harts = false;
          form = Format.Json;
          explained = false;
          question = Authority;
        })) }
    ensures check { explore_asked (codes "cheri_explore" ∷ codes "check" ∷ codes "first.lst"
        ∷ codes "--jobs=03" ∷ [])
        ≡ Some (Search (record {
          listing = codes "first.lst";
          map = None;
          sweeps = [];
          states = 1000000;
          jobs = Some 3;
          every_step = false;
          keeps_registers = false;
          keeps_harts = false;
          form = Format.Text;
          explained = false;
          question = Check;
        })) }
{}

/// Searches with `--jobs` that ask for nothing.
pub fn wrong_job_lines()
    ensures no_jobs { explore_asked (codes "cheri_explore" ∷ codes "outcomes"
        ∷ codes "first.lst" ∷ codes "--jobs=0" ∷ [])
        ≡ None }
    ensures many_jobs { explore_asked (codes "cheri_explore" ∷ codes "find" ∷ codes "first.lst"
        ∷ codes "0 is halted" ∷ codes "--jobs=257" ∷ [])
        ≡ None }
    ensures jobs_of_nothing { explore_asked (codes "cheri_explore" ∷ codes "authority"
        ∷ codes "first.lst" ∷ codes "--jobs=" ∷ [])
        ≡ None }
    ensures hexadecimal_jobs { explore_asked (codes "cheri_explore" ∷ codes "check"
        ∷ codes "first.lst" ∷ codes "--jobs=0x2" ∷ [])
        ≡ None }
    ensures jobs_without_a_number { explore_asked (codes "cheri_explore" ∷ codes "check"
        ∷ codes "first.lst" ∷ codes "--jobs" ∷ [])
        ≡ None }
    ensures jobs_twice { explore_asked (codes "cheri_explore" ∷ codes "outcomes"
        ∷ codes "first.lst" ∷ codes "--jobs=2" ∷ codes "--jobs=2" ∷ [])
        ≡ None }
{}
