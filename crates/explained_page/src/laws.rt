//! Laws of pages: each function's contract is one law, and the function does nothing.

ghost use Rattle.std.specs.Prelude.{◌≡◌, ℕ, List, false};
ghost use Rattle.cheri_model.specs.declared.operation.Op.{Op};
ghost use Rattle.cheri_model.specs.runs.Image.{ImageParts};
ghost use Rattle.explanations.specs.declared.selection.Selection.{Selection};
ghost use Rattle.explanations.specs.InstructionLines.{unmapped};
ghost use Rattle.explanations.specs.Explanation.{explanation_json};
ghost use Rattle.explained_page.specs.Page.{state_text};
ghost use Rattle.explained_page.specs.ScriptText.{has_mark, script_text};
ghost use Rattle.explained_page.specs.declared.pages.TheConstants.{MOST_EVENTS};

/// None of the three texts of a page can end the element that holds it: they have no `<`, and so no
/// `</`.
pub fn texts_end_no_element()
    ensures explanation { (image : ImageParts) (lines : List ℕ) (selection : Selection)
        (order : List Op) →
        has_mark (explanation_json image (unmapped lines) selection order) ≡ false }
    ensures state { (image : ImageParts) (count : ℕ) (order : List Op) →
        has_mark (state_text image count order) ≡ false }
    ensures listing { (text : List ℕ) → has_mark (script_text text) ≡ false }
{}

/// The most events that a page shows, by its numeral.
pub fn limits()
    ensures { MOST_EVENTS ≡ 5000 }
{}
