//! What some command lines of `sample` and `merge` ask for, which the definitions decide by
//! themselves: examples to read them by.

ghost use Rattle.std.specs.Prelude.{◌≡◌, Some, None, true, false, [], ◌∷◌, codes};
ghost use Rattle.explore_line.specs.Requests.{Merge, Sample, explore_asked};
ghost use Rattle.explore_line.specs.declared.numbers.TheConstants.{GREATEST_RUN};
ghost use Rattle.explore_line.specs.declared.samples.TheConstants.{GREATEST_DEPTH, GREATEST_JOBS};
ghost use Rattle.explore_line.specs.declared.samples.TheConstants.{GREATEST_LENGTH};
ghost use Rattle.explore_line.specs.declared.samples.TheConstants.{GREATEST_ORDERS, GREATEST_SEED};
ghost use Rattle.explore_line.specs.declared.samples.TheConstants.{USUAL_LENGTH};

use command_line::Format;

/// The numbers that the definitions take from the code, each by its numeral.
pub fn sample_limits()
    ensures orders { GREATEST_ORDERS ≡ 1000000000 }
    ensures seed { GREATEST_SEED ≡ 16777215 }
    ensures run { GREATEST_RUN ≡ 99999999999 }
    ensures length { GREATEST_LENGTH ≡ 100000 }
    ensures usual { USUAL_LENGTH ≡ 1000 }
    ensures depth { GREATEST_DEPTH ≡ 16 }
    ensures jobs { GREATEST_JOBS ≡ 256 }
{}

/// Command lines of `sample`.
pub fn known_sample_lines()
    ensures sample { explore_asked (codes "cheri_explore" ∷ codes "sample" ∷ codes "first.lst"
        ∷ codes "--orders" ∷ codes "20" ∷ [])
        ≡ Some (Sample (record {
          listing = codes "first.lst";
          orders = 20;
          seed = 0;
          first = 0;
          length = 1000;
          depth = None;
          show = None;
          sweeps = [];
          is_checked = false;
          jobs = None;
          form = Format.Text;
        })) }
    ensures all { explore_asked (codes "cheri_explore" ∷ codes "sample" ∷ codes "--orders=020"
        ∷ codes "--seed=261127" ∷ codes "--from=5" ∷ codes "--length=24" ∷ codes "--depth=3"
        ∷ codes "--show=0.c7" ∷ codes "--sweep=16,0x20" ∷ codes "--sweep=7,7" ∷ codes "--check"
        ∷ codes "--jobs=4" ∷ codes "--json" ∷ codes "first.lst" ∷ [])
        ≡ Some (Sample (record {
          listing = codes "first.lst";
          orders = 20;
          seed = 261127;
          first = 5;
          length = 24;
          depth = Some 3;
          show = Some (codes "0.c7");
          sweeps = record { lo = 16; hi = 32 } ∷ record { lo = 7; hi = 7 } ∷ [];
          is_checked = true;
          jobs = Some 4;
          form = Format.Json;
        })) }
    ensures most { explore_asked (codes "cheri_explore" ∷ codes "sample" ∷ codes "first.lst"
        ∷ codes "--orders=1000000000" ∷ codes "--seed=16777215" ∷ codes "--from=99000000000"
        ∷ codes "--length=100000" ∷ codes "--depth=16" ∷ codes "--jobs=256" ∷ [])
        ≡ Some (Sample (record {
          listing = codes "first.lst";
          orders = 1000000000;
          seed = 16777215;
          first = 99000000000;
          length = 100000;
          depth = Some 16;
          show = None;
          sweeps = [];
          is_checked = false;
          jobs = Some 256;
          form = Format.Text;
        })) }
    ensures least { explore_asked (codes "cheri_explore" ∷ codes "sample" ∷ codes "first.lst"
        ∷ codes "--orders=1" ∷ codes "--seed=0" ∷ codes "--from=99999999999" ∷ codes "--length=1"
        ∷ codes "--depth=1" ∷ codes "--jobs=1" ∷ [])
        ≡ Some (Sample (record {
          listing = codes "first.lst";
          orders = 1;
          seed = 0;
          first = 99999999999;
          length = 1;
          depth = Some 1;
          show = None;
          sweeps = [];
          is_checked = false;
          jobs = Some 1;
          form = Format.Text;
        })) }
    ensures merge { explore_asked (codes "cheri_explore" ∷ codes "merge" ∷ codes "first.lst"
        ∷ codes "slices.jsonl" ∷ [])
        ≡ Some (Merge (record {
          listing = codes "first.lst";
          slices = codes "slices.jsonl";
          jobs = None;
          form = Format.Text;
        })) }
    ensures merge_in_json { explore_asked (codes "cheri_explore" ∷ codes "merge" ∷ codes "--json"
        ∷ codes "first.lst" ∷ codes "--jobs" ∷ codes "2" ∷ codes "slices.jsonl" ∷ [])
        ≡ Some (Merge (record {
          listing = codes "first.lst";
          slices = codes "slices.jsonl";
          jobs = Some 2;
          form = Format.Json;
        })) }
{}

/// Command lines of `sample` with a number that is too small, too large or none.
pub fn wrong_sample_numbers()
    ensures no_orders { explore_asked (codes "cheri_explore" ∷ codes "sample" ∷ codes "first.lst"
        ∷ codes "--orders=0" ∷ []) ≡ None }
    ensures too_many_orders { explore_asked (codes "cheri_explore" ∷ codes "sample"
        ∷ codes "first.lst" ∷ codes "--orders=1000000001" ∷ []) ≡ None }
    ensures hexadecimal_orders { explore_asked (codes "cheri_explore" ∷ codes "sample"
        ∷ codes "first.lst" ∷ codes "--orders=0x10" ∷ []) ≡ None }
    ensures great_seed { explore_asked (codes "cheri_explore" ∷ codes "sample"
        ∷ codes "first.lst" ∷ codes "--orders=1" ∷ codes "--seed=16777216" ∷ []) ≡ None }
    ensures hexadecimal_seed { explore_asked (codes "cheri_explore" ∷ codes "sample"
        ∷ codes "first.lst" ∷ codes "--orders=1" ∷ codes "--seed=0x1" ∷ []) ≡ None }
    ensures past_all_runs { explore_asked (codes "cheri_explore" ∷ codes "sample"
        ∷ codes "first.lst" ∷ codes "--orders=1" ∷ codes "--from=100000000000" ∷ []) ≡ None }
    ensures past_the_last_run { explore_asked (codes "cheri_explore" ∷ codes "sample"
        ∷ codes "first.lst" ∷ codes "--orders=2" ∷ codes "--from=99999999999" ∷ []) ≡ None }
    ensures hexadecimal_from { explore_asked (codes "cheri_explore" ∷ codes "sample"
        ∷ codes "first.lst" ∷ codes "--orders=1" ∷ codes "--from=0x1" ∷ []) ≡ None }
    ensures no_length { explore_asked (codes "cheri_explore" ∷ codes "sample"
        ∷ codes "first.lst" ∷ codes "--orders=1" ∷ codes "--length=0" ∷ []) ≡ None }
    ensures great_length { explore_asked (codes "cheri_explore" ∷ codes "sample"
        ∷ codes "first.lst" ∷ codes "--orders=1" ∷ codes "--length=100001" ∷ []) ≡ None }
    ensures no_depth { explore_asked (codes "cheri_explore" ∷ codes "sample"
        ∷ codes "first.lst" ∷ codes "--orders=1" ∷ codes "--depth=0" ∷ []) ≡ None }
    ensures great_depth { explore_asked (codes "cheri_explore" ∷ codes "sample"
        ∷ codes "first.lst" ∷ codes "--orders=1" ∷ codes "--depth=17" ∷ []) ≡ None }
    ensures no_jobs { explore_asked (codes "cheri_explore" ∷ codes "sample"
        ∷ codes "first.lst" ∷ codes "--orders=1" ∷ codes "--jobs=0" ∷ []) ≡ None }
    ensures many_jobs { explore_asked (codes "cheri_explore" ∷ codes "sample"
        ∷ codes "first.lst" ∷ codes "--orders=1" ∷ codes "--jobs=257" ∷ []) ≡ None }
    ensures merged_by_no_jobs { explore_asked (codes "cheri_explore" ∷ codes "merge"
        ∷ codes "first.lst" ∷ codes "slices.jsonl" ∷ codes "--jobs=0" ∷ []) ≡ None }
    ensures merged_by_many_jobs { explore_asked (codes "cheri_explore" ∷ codes "merge"
        ∷ codes "first.lst" ∷ codes "slices.jsonl" ∷ codes "--jobs=257" ∷ []) ≡ None }
{}

/// Command lines of `sample` and `merge` that ask for nothing for another reason.
pub fn wrong_sample_lines()
    ensures without_orders { explore_asked (codes "cheri_explore" ∷ codes "sample"
        ∷ codes "first.lst" ∷ []) ≡ None }
    ensures orders_twice { explore_asked (codes "cheri_explore" ∷ codes "sample"
        ∷ codes "first.lst" ∷ codes "--orders=1" ∷ codes "--orders=1" ∷ []) ≡ None }
    ensures orders_of_nothing { explore_asked (codes "cheri_explore" ∷ codes "sample"
        ∷ codes "first.lst" ∷ codes "--orders=" ∷ []) ≡ None }
    ensures check_with_a_value { explore_asked (codes "cheri_explore" ∷ codes "sample"
        ∷ codes "first.lst" ∷ codes "--orders=1" ∷ codes "--check=1" ∷ []) ≡ None }
    ensures check_twice { explore_asked (codes "cheri_explore" ∷ codes "sample"
        ∷ codes "first.lst" ∷ codes "--orders=1" ∷ codes "--check" ∷ codes "--check" ∷ [])
        ≡ None }
    ensures backwards { explore_asked (codes "cheri_explore" ∷ codes "sample"
        ∷ codes "first.lst" ∷ codes "--orders=1" ∷ codes "--sweep=2,1" ∷ []) ≡ None }
    ensures nine_sweeps { explore_asked (codes "cheri_explore" ∷ codes "sample"
        ∷ codes "first.lst" ∷ codes "--orders=1" ∷ codes "--sweep=0,1" ∷ codes "--sweep=0,1"
        ∷ codes "--sweep=0,1" ∷ codes "--sweep=0,1" ∷ codes "--sweep=0,1" ∷ codes "--sweep=0,1"
        ∷ codes "--sweep=0,1" ∷ codes "--sweep=0,1" ∷ codes "--sweep=0,1" ∷ [])
        ≡ None }
    ensures states { explore_asked (codes "cheri_explore" ∷ codes "sample" ∷ codes "first.lst"
        ∷ codes "--orders=1" ∷ codes "--states=1" ∷ []) ≡ None }
    ensures without_listing { explore_asked (codes "cheri_explore" ∷ codes "sample"
        ∷ codes "--orders=1" ∷ []) ≡ None }
    ensures merge_without_slices { explore_asked (codes "cheri_explore" ∷ codes "merge"
        ∷ codes "first.lst" ∷ []) ≡ None }
    ensures merge_with_seed { explore_asked (codes "cheri_explore" ∷ codes "merge"
        ∷ codes "first.lst" ∷ codes "slices.jsonl" ∷ codes "--seed=1" ∷ []) ≡ None }
    ensures merge_with_orders { explore_asked (codes "cheri_explore" ∷ codes "merge"
        ∷ codes "first.lst" ∷ codes "slices.jsonl" ∷ codes "--orders=1" ∷ []) ≡ None }
    ensures help { explore_asked (codes "cheri_explore" ∷ codes "sample" ∷ codes "--help" ∷ [])
        ≡ None }
{}
