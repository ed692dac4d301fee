//! Expressions that are made of their parts, as `Expressions.antt` of `c_grammar_tree` says, and
//! tests of expressions, which are those of `Parts.antt` there. Proved by the checker alone.
ghost use Rattle.std.specs.Prelude.{◌≡◌, IfOk, IfErr, [], ◌∷◌};
ghost use Rattle.c_grammar_forms.specs.declared.fault.ReadError.TheVariants.{OutOfMemory};
ghost use Rattle.c_grammar_tree.specs.declared.expression.Expression.TheVariants as expression;
ghost use Rattle.c_grammar_tree.specs.Parts.{names_assert, is_unary};
ghost use Rattle.c_grammar_tree.specs.Expressions.{suffixed};
ghost use Rattle.c_parser_expressions.specs.Steps.{option_list};

use c_grammar_forms::ReadError;
use c_grammar_tree::{Expression, Integer, Suffix};
use cpa_ints::{Boxed, IntType, Seq};
use std::alloc::Global;

/// An integer constant.
pub(crate) fn number(ty: IntType, value: i128, place: u32) -> Expression
    ensures { result ≡ expression.Number ty value place }
{
    let value = Integer::new(value);
    Expression::Number { ty, value, place }
}

/// A character constant.
pub(crate) fn character(value: i128, place: u32) -> Expression
    ensures { result ≡ expression.Character value place }
{
    let value = Integer::new(value);
    Expression::Character { value, place }
}

/// Whether the expression is the name `__assert_fail`, in brackets or not.
pub(crate) fn names_assert(expression: &Expression) -> bool
    ensures { result ≡ names_assert expression.now }
{
    match expression {
        Expression::Name(name) => name.bytes.as_slice() == b"__assert_fail".as_slice(),
        Expression::Bracketed { inner, .. } => names_assert(inner.get()),
        _ => false,
    }
}

/// Whether the expression is a unary one (C11 6.5.3).
pub(crate) fn is_unary(expression: &Expression) -> bool
    ensures { result ≡ is_unary expression.now }
{
    !matches!(
        expression,
        Expression::Cast { .. }
            | Expression::Chain { .. }
            | Expression::Conditional { .. }
            | Expression::Assignment { .. }
            | Expression::Comma { .. }
    )
}

/// The list of this one expression.
pub(crate) fn list_of(alloc: Global, first: Expression) -> Result<Seq<Expression>, ReadError>
    ensures listed { IfOk result (λ list. list ≡ first ∷ []) }
    ensures memory { IfErr result (λ error. error ≡ OutOfMemory) }
{
    let mut items = Vec::with_capacity(alloc, 1)?;
    items.push(first)?;
    Ok(Seq::from_vec(items))
}

/// The list of this one suffix.
fn one_suffix(alloc: Global, suffix: Suffix) -> Result<Seq<Suffix>, ReadError>
    ensures listed { IfOk result (λ list. list ≡ suffix ∷ []) }
    ensures memory { IfErr result (λ error. error ≡ OutOfMemory) }
{
    let mut items = Vec::with_capacity(alloc, 1)?;
    items.push(suffix)?;
    Ok(Seq::from_vec(items))
}

/// No suffix, and room for one: most bases have one suffix, where they have any.
fn no_suffix(alloc: Global) -> Result<Seq<Suffix>, ReadError>
    ensures listed { IfOk result (λ list. list ≡ []) }
    ensures memory { IfErr result (λ error. error ≡ OutOfMemory) }
{
    let items = Vec::with_capacity(alloc, 1)?;
    Ok(Seq::from_vec(items))
}

/// The list of the skipped call, if there is one.
pub(crate) fn list_of_skipped(
    alloc: Global,
    skipped: Option<Suffix>,
) -> Result<Seq<Suffix>, ReadError>
    ensures listed { IfOk result (λ list. list ≡ option_list skipped) }
    ensures memory { IfErr result (λ error. error ≡ OutOfMemory) }
{
    match skipped {
        None => no_suffix(alloc),
        Some(call) => one_suffix(alloc, call),
    }
}

/// A base with the suffixes behind it, or the base alone where there are none.
pub(crate) fn suffixed(place: u32, base: Boxed<Expression>, suffixes: Seq<Suffix>) -> Expression
    ensures { result ≡ suffixed place base suffixes }
{
    if suffixes.is_empty() {
        return base.into_inner();
    }
    Expression::Postfix {
        place,
        base,
        suffixes,
    }
}
