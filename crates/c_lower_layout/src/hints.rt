//! Where the functions of a text are likely to begin, counted without a rule. Nothing is proved of
//! these numbers, and a layout is right whatever they are: where they are those that the rules come
//! to, the trees that are made on the way are those of the text.

use c_grammar_symbols::BinaryOperator;
use c_types_rules::{
    Kind, KnownFunction, Meaning, Object, TypedDeclarator, TypedExpression, TypedForStart,
    TypedFunction, TypedInitializer, TypedItem, TypedStatement, TypedSuffix, cells_of, operator_of,
};
use std::alloc::{AllocError, Global};

/// What the rules are likely to make of an expression.
#[derive(Clone, Copy)]
struct Hint {
    /// How many cells they take for it.
    cells: u32,
    /// Whether no statement stands before its value.
    is_pure: bool,
    /// Whether its value is a number.
    is_constant: bool,
}

/// A number.
fn constant() -> Hint {
    Hint {
        cells: 0,
        is_pure: true,
        is_constant: true,
    }
}

/// What is no number, behind so many cells.
fn value(cells: u32, is_pure: bool) -> Hint {
    Hint {
        cells,
        is_pure,
        is_constant: false,
    }
}

/// The cells of a value that is held unless it is a number.
fn fixed(hint: Hint) -> u32 {
    if hint.is_constant {
        hint.cells
    } else {
        hint.cells.saturating_add(1)
    }
}

/// The same of an index, if there is one.
fn fixed_index(index: Option<Hint>) -> u32 {
    match index {
        Some(index) => fixed(index),
        None => 0,
    }
}

/// A value, which is held where it is not used.
fn finished(hint: Hint, is_used: bool) -> Hint {
    if is_used {
        hint
    } else {
        value(fixed(hint), false)
    }
}

/// What a name stands for.
fn named(meaning: Option<Meaning>) -> Hint {
    match meaning {
        Some(Meaning::Enumerator(_)) => constant(),
        _ => value(0, true),
    }
}

/// The known function that an expression names.
fn known(base: &TypedExpression) -> Option<KnownFunction> {
    match base {
        TypedExpression::Name { meaning, .. } => match meaning.get() {
            Some(Meaning::Known(function)) => Some(function),
            _ => None,
        },
        _ => None,
    }
}

/// Two operands: the first is held, or one cell holds both, where statements stand before the
/// second.
fn joined(left: Hint, right: Hint) -> Hint {
    let cells = left.cells.saturating_add(right.cells);
    if right.is_pure {
        value(cells, left.is_pure)
    } else {
        value(cells.saturating_add(1), false)
    }
}

/// The ends of a conditional behind its test.
fn chosen(test: Hint, yes: Hint, no: Hint) -> Hint {
    let cells = test
        .cells
        .saturating_add(yes.cells)
        .saturating_add(no.cells);
    if yes.is_pure && no.is_pure {
        value(cells, test.is_pure)
    } else {
        value(cells.saturating_add(1), false)
    }
}

/// The cells of an assignment to a scalar, or to what an index names.
fn assigned(index: Option<Hint>, updates: bool, right: Hint, is_used: bool) -> u32 {
    let place = match index {
        Some(index) => {
            if updates || (is_used && right.is_pure) {
                fixed(index)
            } else {
                index.cells
            }
        }
        None => 0,
    };
    let cells = place.saturating_add(right.cells);
    let is_held = !right.is_pure && (updates || index.is_some());
    let is_kept = !right.is_pure && !updates && index.is_some() && is_used;
    let cells = if is_held {
        cells.saturating_add(1)
    } else {
        cells
    };
    if is_kept {
        cells.saturating_add(1)
    } else {
        cells
    }
}

/// An expression, by whether its value is used.
#[cycle(hinting)]
fn hint_of(e: &TypedExpression, is_used: bool) -> Hint {
    match e {
        TypedExpression::Name { meaning, .. } => finished(named(meaning.get()), is_used),
        TypedExpression::Number { .. } | TypedExpression::Character { .. } => constant(),
        TypedExpression::Bracketed { inner, .. } => hint_of(inner.get(), is_used),
        TypedExpression::Postfix { base, suffixes, .. } => {
            let all = suffixes.as_slice();
            let count = all.len();
            if count == 0 {
                return hint_of(base.get(), is_used);
            }
            let last = count - 1;
            match &all[last] {
                TypedSuffix::Index { index, .. } => {
                    let index = hint_of(index, true);
                    finished(value(index.cells, index.is_pure), is_used)
                }
                TypedSuffix::Call { arguments, .. } => {
                    called(known(base.get()), arguments.as_slice())
                }
                TypedSuffix::Skipped { .. } => called(known(base.get()), &[]),
                TypedSuffix::Step { .. } => {
                    let index = if last == 0 {
                        index_of(base.get())
                    } else {
                        index_in(&all[last - 1])
                    };
                    let place = fixed_index(index);
                    if is_used {
                        value(place.saturating_add(1), false)
                    } else {
                        value(place, false)
                    }
                }
            }
        }
        TypedExpression::PrefixStep { operand, .. } => {
            value(fixed_index(index_of(operand.get())), false)
        }
        TypedExpression::Unary { operand, .. } => {
            let inside = hint_of(operand.get(), true);
            finished(value(inside.cells, inside.is_pure), is_used)
        }
        TypedExpression::Cast { operand, kind, .. } => match kind {
            Some(Kind::Value(_)) => {
                let inside = hint_of(operand.get(), true);
                finished(value(inside.cells, inside.is_pure), is_used)
            }
            Some(Kind::Void) | None => value(hint_of(operand.get(), false).cells, false),
        },
        TypedExpression::Chain { first, rest, .. } => {
            let left = hint_of(first.get(), true);
            finished(linked(left, rest.as_slice()), is_used)
        }
        TypedExpression::Conditional {
            test,
            yes,
            no,
            kind,
            ..
        } => {
            let ends = match kind {
                Some(Kind::Void) => is_used,
                Some(Kind::Value(_)) | None => true,
            };
            let test = hint_of(test.get(), true);
            let yes = hint_of(yes.get(), ends);
            let no = hint_of(no.get(), ends);
            if ends {
                finished(chosen(test, yes, no), is_used)
            } else {
                let cells = test
                    .cells
                    .saturating_add(yes.cells)
                    .saturating_add(no.cells);
                value(cells, false)
            }
        }
        TypedExpression::Assignment {
            left,
            operator,
            right,
            ..
        } => {
            let index = index_of(left.get());
            let right = hint_of(right.get(), true);
            let updates = operator_of(*operator).is_some();
            value(assigned(index, updates, right, is_used), false)
        }
        TypedExpression::Comma { items, .. } => hint_of_items(items.as_slice(), is_used),
    }
}

/// A chain behind its first operand.
#[cycle(hinting)]
fn linked(left: Hint, rest: &[(BinaryOperator, TypedExpression)]) -> Hint {
    let mut left = left;
    for link in rest {
        left = joined(left, hint_of(&link.1, true));
    }
    left
}

/// Items of a comma expression, of which only the value of the last may be used.
#[cycle(hinting)]
fn hint_of_items(items: &[TypedExpression], is_used: bool) -> Hint {
    let mut cells = 0u32;
    let mut left = items.len();
    let mut is_pure = true;
    for item in items {
        let hint = hint_of(item, is_used && left == 1);
        cells = cells.saturating_add(hint.cells);
        is_pure = is_pure && hint.is_pure;
        left = left.saturating_sub(1);
    }
    value(cells, is_pure)
}

/// A call behind its arguments, each of which is held where statements stand before a later one.
#[cycle(hinting)]
fn called(function: Option<KnownFunction>, arguments: &[TypedExpression]) -> Hint {
    match function {
        Some(KnownFunction::Input(_)) => value(1, false),
        Some(KnownFunction::Exit) => match arguments {
            [] => value(0, false),
            [first, ..] => value(hint_of(first, false).cells, false),
        },
        Some(_) => value(0, false),
        None => value(passed(arguments), false),
    }
}

/// The cells of arguments.
#[cycle(hinting)]
fn passed(arguments: &[TypedExpression]) -> u32 {
    let mut cells = 0u32;
    let mut waiting = 0u32;
    for argument in arguments {
        let hint = hint_of(argument, true);
        cells = cells.saturating_add(hint.cells);
        if !hint.is_pure {
            cells = cells.saturating_add(waiting);
            waiting = 0;
        }
        waiting = waiting.saturating_add(1);
    }
    cells
}

/// The index of what is assigned to, if it is an element.
#[cycle(hinting)]
fn index_of(e: &TypedExpression) -> Option<Hint> {
    match e {
        TypedExpression::Bracketed { inner, .. } => index_of(inner.get()),
        TypedExpression::Postfix { base, suffixes, .. } => {
            let all = suffixes.as_slice();
            let count = all.len();
            if count == 0 {
                return index_of(base.get());
            }
            index_in(&all[count - 1])
        }
        _ => None,
    }
}

/// The index of a suffix, if it is one.
#[cycle(hinting)]
fn index_in(suffix: &TypedSuffix) -> Option<Hint> {
    match suffix {
        TypedSuffix::Index { index, .. } => Some(hint_of(index, true)),
        _ => None,
    }
}

/// The cells of an expression whose value is used.
fn used(e: &TypedExpression) -> u32 {
    hint_of(e, true).cells
}

/// The cells of an object.
fn object_cells(object: Object) -> u32 {
    u32::try_from(cells_of(object)).unwrap_or(u32::MAX)
}

/// Those of objects and their initializers.
fn declarators_cells(declarators: &[TypedDeclarator]) -> u32 {
    let mut cells = 0u32;
    for declarator in declarators {
        cells = cells.saturating_add(object_cells(declarator.object));
        match &declarator.initializer {
            None => {}
            Some(TypedInitializer::Scalar(item)) => {
                cells = cells.saturating_add(used(item.get()));
            }
            Some(TypedInitializer::List(items)) => {
                for item in items.as_slice() {
                    cells = cells.saturating_add(used(item));
                }
            }
        }
    }
    cells
}

/// Those of the first part of a `for`.
fn start_cells(start: &TypedForStart) -> u32 {
    match start {
        TypedForStart::Declaration(declarators) => declarators_cells(declarators.as_slice()),
        TypedForStart::Expression(Some(e)) => hint_of(e.get(), false).cells,
        TypedForStart::Expression(None) => 0,
    }
}

/// Those of a statement.
#[cycle(counting)]
fn statement_cells(s: &TypedStatement) -> u32 {
    match s {
        TypedStatement::Block { items, .. } => items_cells(items.as_slice()),
        TypedStatement::Expression { expression, .. } => match expression {
            Some(e) => hint_of(e.get(), false).cells,
            None => 0,
        },
        TypedStatement::If { test, yes, no, .. } => {
            let cells = used(test.get()).saturating_add(statement_cells(yes.get()));
            match no {
                None => cells,
                Some(no) => cells.saturating_add(statement_cells(no.get())),
            }
        }
        TypedStatement::While { test, body, .. } => {
            used(test.get()).saturating_add(statement_cells(body.get()))
        }
        TypedStatement::Do { body, test, .. } => {
            used(test.get()).saturating_add(statement_cells(body.get()))
        }
        TypedStatement::For {
            start,
            test,
            step,
            body,
            ..
        } => {
            let mut cells = start_cells(start);
            if let Some(test) = test {
                cells = cells.saturating_add(used(test.get()));
            }
            if let Some(step) = step {
                cells = cells.saturating_add(hint_of(step.get(), false).cells);
            }
            cells.saturating_add(statement_cells(body.get()))
        }
        TypedStatement::Return { value, .. } => match value {
            Some(e) => used(e.get()),
            None => 0,
        },
        TypedStatement::Labeled { body, .. } => statement_cells(body.get()),
        TypedStatement::Switch { value, body, .. } => {
            let cells = used(value.get()).saturating_add(statement_cells(body.get()));
            cells.saturating_add(1)
        }
        _ => 0,
    }
}

/// Those of an item of a block.
#[cycle(counting)]
fn item_cells(item: &TypedItem) -> u32 {
    match item {
        TypedItem::Declaration(declarators) => declarators_cells(declarators.as_slice()),
        TypedItem::Statement(s) => statement_cells(s),
    }
}

/// Those of the items of a block.
#[cycle(counting)]
fn items_cells(items: &[TypedItem]) -> u32 {
    let mut cells = 0u32;
    for item in items {
        cells = cells.saturating_add(item_cells(item));
    }
    cells
}

/// Those of a function.
fn function_cells(function: &TypedFunction) -> u32 {
    let mut cells = match function.result {
        Kind::Void => 0u32,
        Kind::Value(_) => 1u32,
    };
    for object in function.parameters.as_slice() {
        cells = cells.saturating_add(object_cells(*object));
    }
    cells.saturating_add(items_cells(function.items.as_slice()))
}

/// Where functions are likely to begin, the first of them at this cell.
pub(crate) fn likely_first_cells(
    alloc: Global,
    first: u32,
    functions: &[TypedFunction],
) -> Result<Vec<u32>, AllocError> {
    let mut firsts = Vec::with_capacity(alloc, functions.len())?;
    let mut next = first;
    for function in functions {
        firsts.push(next)?;
        next = next.saturating_add(function_cells(function));
    }
    Ok(firsts)
}
