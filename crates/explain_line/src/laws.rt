//! What some command lines ask for, which the definitions decide by themselves: examples to read
//! them by.

ghost use Rattle.std.specs.Prelude.{◌≡◌, Some, None, [], ◌∷◌, codes};
ghost use Rattle.explain_line.specs.Requests.{explain_asked};
ghost use Rattle.explain_line.specs.declared.requests.TheConstants.{LAST_EVENT};

use crate::requests::{ExplainFormat, Filter};

/// The number that the definitions take from the code, by its numeral.
pub fn limits()
    ensures { LAST_EVENT ≡ 99999 }
{}

/// Command lines of `cheri_explain`.
pub fn known_explain_lines()
    ensures plain { explain_asked (codes "cheri_explain" ∷ codes "first.lst" ∷ codes "--order"
        ∷ codes "zeros.txt" ∷ [])
        ≡ Some (record {
          listing = codes "first.lst";
          order = codes "zeros.txt";
          map = None;
          first = 0;
          last = 99999;
          form = ExplainFormat.Text Filter.All;
        }) }
    ensures order_first { explain_asked (codes "cheri_explain" ∷ codes "--order=zeros.txt"
        ∷ codes "first.lst" ∷ [])
        ≡ Some (record {
          listing = codes "first.lst";
          order = codes "zeros.txt";
          map = None;
          first = 0;
          last = 99999;
          form = ExplainFormat.Text Filter.All;
        }) }
    ensures range { explain_asked (codes "cheri_explain" ∷ codes "first.lst" ∷ codes "--order"
        ∷ codes "zeros.txt" ∷ codes "--from" ∷ codes "007" ∷ codes "--to=99999" ∷ [])
        ≡ Some (record {
          listing = codes "first.lst";
          order = codes "zeros.txt";
          map = None;
          first = 7;
          last = 99999;
          form = ExplainFormat.Text Filter.All;
        }) }
    ensures one_event { explain_asked (codes "cheri_explain" ∷ codes "first.lst"
        ∷ codes "--order" ∷ codes "zeros.txt" ∷ codes "--to" ∷ codes "3" ∷ codes "--from"
        ∷ codes "3" ∷ [])
        ≡ Some (record {
          listing = codes "first.lst";
          order = codes "zeros.txt";
          map = None;
          first = 3;
          last = 3;
          form = ExplainFormat.Text Filter.All;
        }) }
    ensures json { explain_asked (codes "cheri_explain" ∷ codes "first.lst" ∷ codes "--json"
        ∷ codes "--order" ∷ codes "zeros.txt" ∷ [])
        ≡ Some (record {
          listing = codes "first.lst";
          order = codes "zeros.txt";
          map = None;
          first = 0;
          last = 99999;
          form = ExplainFormat.Json Filter.All;
        }) }
    ensures traps { explain_asked (codes "cheri_explain" ∷ codes "first.lst" ∷ codes "--order"
        ∷ codes "zeros.txt" ∷ codes "--only" ∷ codes "traps" ∷ [])
        ≡ Some (record {
          listing = codes "first.lst";
          order = codes "zeros.txt";
          map = None;
          first = 0;
          last = 99999;
          form = ExplainFormat.Text Filter.Traps;
        }) }
    ensures clears { explain_asked (codes "cheri_explain" ∷ codes "first.lst" ∷ codes "--order"
        ∷ codes "zeros.txt" ∷ codes "--json" ∷ codes "--only=clears" ∷ [])
        ≡ Some (record {
          listing = codes "first.lst";
          order = codes "zeros.txt";
          map = None;
          first = 0;
          last = 99999;
          form = ExplainFormat.Json Filter.Clears;
        }) }
    ensures both { explain_asked (codes "cheri_explain" ∷ codes "first.lst" ∷ codes "--order"
        ∷ codes "zeros.txt" ∷ codes "--only" ∷ codes "clears,traps" ∷ [])
        ≡ Some (record {
          listing = codes "first.lst";
          order = codes "zeros.txt";
          map = None;
          first = 0;
          last = 99999;
          form = ExplainFormat.Text Filter.TrapsOrClears;
        }) }
    ensures page { explain_asked (codes "cheri_explain" ∷ codes "first.lst" ∷ codes "--order"
        ∷ codes "zeros.txt" ∷ codes "--html" ∷ codes "--from" ∷ codes "1" ∷ [])
        ≡ Some (record {
          listing = codes "first.lst";
          order = codes "zeros.txt";
          map = None;
          first = 1;
          last = 99999;
          form = ExplainFormat.Page;
        }) }
    ensures mapped { explain_asked (codes "cheri_explain" ∷ codes "first.lst" ∷ codes "--order"
        ∷ codes "zeros.txt" ∷ codes "--map" ∷ codes "first.map" ∷ [])
        ≡ Some (record {
          listing = codes "first.lst";
          order = codes "zeros.txt";
          map = Some (codes "first.map");
          first = 0;
          last = 99999;
          form = ExplainFormat.Text Filter.All;
        }) }
    ensures page_of_a_map { explain_asked (codes "cheri_explain" ∷ codes "first.lst"
        ∷ codes "--order" ∷ codes "zeros.txt" ∷ codes "--html" ∷ codes "--map=first.map" ∷ [])
        ≡ None }
    ensures page_of_json { explain_asked (codes "cheri_explain" ∷ codes "first.lst"
        ∷ codes "--order" ∷ codes "zeros.txt" ∷ codes "--html" ∷ codes "--json" ∷ [])
        ≡ None }
    ensures page_of_traps { explain_asked (codes "cheri_explain" ∷ codes "first.lst"
        ∷ codes "--order" ∷ codes "zeros.txt" ∷ codes "--html" ∷ codes "--only" ∷ codes "traps"
        ∷ [])
        ≡ None }
    ensures traps_twice { explain_asked (codes "cheri_explain" ∷ codes "first.lst"
        ∷ codes "--order" ∷ codes "zeros.txt" ∷ codes "--only" ∷ codes "traps,traps" ∷ [])
        ≡ None }
    ensures only_nothing { explain_asked (codes "cheri_explain" ∷ codes "first.lst"
        ∷ codes "--order" ∷ codes "zeros.txt" ∷ codes "--only=" ∷ [])
        ≡ None }
    ensures backwards { explain_asked (codes "cheri_explain" ∷ codes "first.lst"
        ∷ codes "--order" ∷ codes "zeros.txt" ∷ codes "--from" ∷ codes "2" ∷ codes "--to"
        ∷ codes "1" ∷ [])
        ≡ None }
    ensures beyond { explain_asked (codes "cheri_explain" ∷ codes "first.lst" ∷ codes "--order"
        ∷ codes "zeros.txt" ∷ codes "--to" ∷ codes "100000" ∷ [])
        ≡ None }
    ensures hexadecimal { explain_asked (codes "cheri_explain" ∷ codes "first.lst"
        ∷ codes "--order" ∷ codes "zeros.txt" ∷ codes "--from" ∷ codes "0x1" ∷ [])
        ≡ None }
    ensures from_nothing { explain_asked (codes "cheri_explain" ∷ codes "first.lst"
        ∷ codes "--order" ∷ codes "zeros.txt" ∷ codes "--from=" ∷ [])
        ≡ None }
    ensures from_twice { explain_asked (codes "cheri_explain" ∷ codes "first.lst"
        ∷ codes "--order" ∷ codes "zeros.txt" ∷ codes "--from" ∷ codes "1" ∷ codes "--from"
        ∷ codes "1" ∷ [])
        ≡ None }
    ensures from_minus { explain_asked (codes "cheri_explain" ∷ codes "first.lst"
        ∷ codes "--order" ∷ codes "zeros.txt" ∷ codes "--from" ∷ codes "-1" ∷ [])
        ≡ None }
    ensures json_twice { explain_asked (codes "cheri_explain" ∷ codes "first.lst"
        ∷ codes "--order" ∷ codes "zeros.txt" ∷ codes "--json" ∷ codes "--json" ∷ [])
        ≡ None }
    ensures without_order { explain_asked (codes "cheri_explain" ∷ codes "first.lst" ∷ [])
        ≡ None }
    ensures one_more { explain_asked (codes "cheri_explain" ∷ codes "first.lst"
        ∷ codes "second.lst" ∷ codes "--order" ∷ codes "zeros.txt" ∷ [])
        ≡ None }
    ensures help { explain_asked (codes "cheri_explain" ∷ codes "--help" ∷ [])
        ≡ None }
    ensures alone { explain_asked (codes "cheri_explain" ∷ [])
        ≡ None }
{}
