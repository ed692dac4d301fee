//! What an expression names (`names` of `rows`, `c_core_rules`, `specs/Expressions.antt`). Proved
//! with the lemmas of `proofs/Variants.antt` and `proofs/Suffixes.antt`.
ghost use Rattle.std.specs.Prelude.{◌≡◌, ◌≤◌, ℕ, List, length, take};
ghost use Rattle.c_types_rules.specs.declared.typed.TypedSuffix.{TypedSuffix};
ghost use Rattle.c_core_rules.specs.Expressions.{Frames, rows};
ghost use Rattle.c_lower_expressions.specs.Rows.{suffixed_by};

use c_types_rules::{Meaning, TypedExpression};

/// What an expression names.
#[tactic(auto, using(crate::proofs::Suffixes::names_of_rules))]
fn names_of(e: &TypedExpression) -> Option<Meaning>
    ensures { (frames : Frames) → (rows frames e.now).names ≡ result }
{
    match e {
        TypedExpression::Name { meaning, .. } => meaning.get(),
        TypedExpression::Bracketed { inner, .. } => names_of(inner.get()),
        TypedExpression::Postfix { base, suffixes, .. } => {
            if suffixes.len() == 0 {
                names_of(base.get())
            } else {
                None
            }
        }
        TypedExpression::Number { .. }
        | TypedExpression::Character { .. }
        | TypedExpression::PrefixStep { .. }
        | TypedExpression::Unary { .. }
        | TypedExpression::Cast { .. }
        | TypedExpression::Chain { .. }
        | TypedExpression::Conditional { .. }
        | TypedExpression::Assignment { .. }
        | TypedExpression::Comma { .. } => None,
    }
}

/// What an expression with so many suffixes names.
pub(crate) fn front_names(base: &TypedExpression, count: usize) -> Option<Meaning>
    ensures { (origin : ℕ) (frames : Frames) (suffixes : List TypedSuffix) → count ≤ length suffixes
        → (suffixed_by origin frames base.now (take count suffixes)).names ≡ result }
{
    if count == 0 { names_of(base) } else { None }
}
