//! That rows are the same exactly where they are equal. The function does nothing: its contract is
//! the law, which is shown in `specs/lemmas/RowLaws.antt`.

ghost use Rattle.std.specs.Prelude.{◌≡◌, List, IsTrue, ◌↔◌};
ghost use Rattle.cpa_model.specs.declared.facts.Elem.{Elem as AnElem};
ghost use Rattle.cpa_reached_key.specs.Rows.{same_row};

/// A law: the test of two rows is true exactly where they are equal, to the letter of each fact.
pub fn same_rows_are_equal()
    ensures { (es fs : List AnElem) → IsTrue (same_row es fs) ↔ (es ≡ fs) }
{}
