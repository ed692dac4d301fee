//! What holds of the texts of expressions, by `specs/Laws.antt`.
ghost use Rattle.cpa_expr_text.specs.Laws.{TextIsOfOne};

/// No two expressions whose numbers fit have one text.
pub fn a_text_is_of_one_expression()
    ensures { TextIsOfOne }
{}
