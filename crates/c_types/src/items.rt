//! Items in order: what is known behind them, their faults, and what is gathered of them
//! (`specs/Items.antt` and `specs/Sound.antt` of `c_types_rules`). Proved with `proofs/Steps`.
ghost use Rattle.std.specs.Prelude.{◌≡◌, ◌++◌, [], ◌∷◌, None, OnOk};
ghost use Rattle.c_types_rules.specs.First.{first_with};
ghost use Rattle.c_types_rules.specs.Items.{item_behind, item_faults, item_calls, nothing_before};
ghost use Rattle.c_types_rules.specs.Items.{items_faults, items_calls};
ghost use Rattle.c_types_rules.specs.Sound.{item_starts, item_function, items_behind, starts_of};
ghost use Rattle.c_types_rules.specs.Sound.{functions_of};
ghost use Rattle.c_types_globals.specs.Scopes.{before_of};
ghost use Rattle.c_types_bodies.specs.Bodies.{AreNumbered};
ghost use Rattle.c_types.specs.Blocks.{block_behind, block_faults, block_calls, block_function};

use c_grammar_tree::{Body, Item};
use c_lexer::TextFault;
use c_types_bodies::{FunctionDefinition, read_body};
use c_types_globals::{
    Scope, Start, declare_enumeration, declare_function, declare_objects, declare_typedefs,
};
use c_types_names::Survey;
use c_types_recursion::Call;
use c_types_rules::TypedFunction;
use std::alloc::{AllocError, Global};

/// What is known behind some items, and what was gathered of them.
#[derive(Drop)]
pub(crate) struct Gathered {
    pub(crate) scope: Scope,
    pub(crate) starts: Vec<Start>,
    pub(crate) functions: Vec<TypedFunction>,
    pub(crate) calls: Vec<Call>,
    /// The first fault.
    pub(crate) first: Option<TextFault>,
}

impl Gathered {
    /// What is gathered of no item.
    pub(crate) fn new(alloc: Global) -> Gathered
        ensures scope { before_of result.scope ≡ nothing_before }
        ensures starts { result.starts.items ≡ [] }
        ensures functions { result.functions.items ≡ [] }
        ensures calls { result.calls.items ≡ [] }
        ensures first { result.first ≡ None }
    {
        Gathered {
            scope: Scope::new(alloc),
            starts: Vec::new(alloc),
            functions: Vec::new(alloc),
            calls: Vec::new(alloc),
            first: None,
        }
    }
}

/// Gathers the body of a function, whose name is declared, and which stands behind so many objects.
fn gather_block(
    alloc: Global,
    survey: &Survey,
    gathered: &mut Gathered,
    function: &FunctionDefinition,
) -> Result<(), AllocError>
    requires { AreNumbered gathered.old.scope.objects gathered.old.scope.names }
    ensures scope { OnOk result (before_of gathered.new.scope
        ≡ block_behind survey.now function.now (before_of gathered.old.scope)) }
    ensures first { OnOk result (gathered.new.first ≡ first_with gathered.old.first
        (block_faults survey.now function.now (before_of gathered.old.scope))) }
    ensures calls { OnOk result (gathered.new.calls.items ≡ gathered.old.calls.items
        ++ block_calls survey.now function.now (before_of gathered.old.scope)) }
    ensures functions { OnOk result (gathered.new.functions.items ≡ gathered.old.functions.items
        ++ block_function survey.now function.now (before_of gathered.old.scope) ∷ []) }
    ensures starts { gathered.new.starts.items ≡ gathered.old.starts.items }
{
    let bodies = gathered.scope.bodies.checked_add(1).ok_or(AllocError)?;
    let body = read_body(
        alloc,
        survey,
        function,
        &mut gathered.scope.names,
        gathered.scope.objects,
        &mut gathered.first,
        &mut gathered.calls,
    )?;
    gathered.functions.push(body.typed)?;
    gathered.scope.objects = body.objects;
    gathered.scope.bodies = bodies;
    Ok(())
}

/// Gathers the parameters of a function whose body is skipped.
fn gather_parameters(
    alloc: Global,
    survey: &Survey,
    gathered: &mut Gathered,
    function: &FunctionDefinition,
) -> Result<(), AllocError>
    requires { AreNumbered gathered.old.scope.objects gathered.old.scope.names }
    ensures scope { OnOk result (before_of gathered.new.scope ≡ before_of gathered.old.scope) }
    ensures first { OnOk result (gathered.new.first ≡ first_with gathered.old.first
        (block_faults survey.now function.now (before_of gathered.old.scope))) }
    ensures calls { OnOk result (gathered.new.calls.items ≡ gathered.old.calls.items
        ++ block_calls survey.now function.now (before_of gathered.old.scope)) }
    ensures functions { gathered.new.functions.items ≡ gathered.old.functions.items }
    ensures starts { gathered.new.starts.items ≡ gathered.old.starts.items }
{
    read_body(
        alloc,
        survey,
        function,
        &mut gathered.scope.names,
        gathered.scope.objects,
        &mut gathered.first,
        &mut gathered.calls,
    )?;
    Ok(())
}

/// Gathers an item.
#[tactic(auto, using(crate::proofs::Steps::gather_item_rules))]
fn gather_item(
    alloc: Global,
    survey: &Survey,
    gathered: &mut Gathered,
    item: &Item,
) -> Result<(), AllocError>
    requires { AreNumbered gathered.old.scope.objects gathered.old.scope.names }
    ensures scope { OnOk result (before_of gathered.new.scope
        ≡ item_behind survey.now item.now (before_of gathered.old.scope)) }
    ensures first { OnOk result (gathered.new.first ≡ first_with gathered.old.first
        (item_faults survey.now item.now (before_of gathered.old.scope))) }
    ensures calls { OnOk result (gathered.new.calls.items ≡ gathered.old.calls.items
        ++ item_calls survey.now item.now (before_of gathered.old.scope)) }
    ensures functions { OnOk result (gathered.new.functions.items ≡ gathered.old.functions.items
        ++ item_function survey.now item.now (before_of gathered.old.scope)) }
    ensures starts { OnOk result (gathered.new.starts.items ≡ gathered.old.starts.items
        ++ item_starts survey.now item.now (before_of gathered.old.scope)) }
{
    let scope = &mut gathered.scope;
    let first = &mut gathered.first;
    match item {
        Item::Empty { .. } => Ok(()),
        Item::Typedef {
            specifiers,
            names,
            ..
        } => {
            declare_enumeration(alloc, survey, scope, specifiers, first)?;
            declare_typedefs(alloc, survey, scope, specifiers, names.as_slice(), first)
        }
        Item::Objects(declaration) => {
            declare_enumeration(alloc, survey, scope, &declaration.specifiers, first)?;
            declare_objects(
                alloc,
                survey,
                scope,
                declaration,
                first,
                &mut gathered.starts,
            )
        }
        Item::Prototype {
            specifiers,
            declarator,
        } => declare_function(alloc, survey, scope, false, specifiers, declarator, first),
        Item::Function {
            specifiers,
            declarator,
            body,
        } => {
            declare_function(alloc, survey, scope, true, specifiers, declarator, first)?;
            match body {
                Body::Skipped => {
                    let function = FunctionDefinition {
                        number: gathered.scope.bodies,
                        specifiers,
                        parameters: &declarator.parameters,
                        items: &[],
                        place: 0,
                        end: 0,
                    };
                    gather_parameters(alloc, survey, gathered, &function)
                }
                Body::Block { items, place, end } => {
                    let function = FunctionDefinition {
                        number: gathered.scope.bodies,
                        specifiers,
                        parameters: &declarator.parameters,
                        items: items.as_slice(),
                        place: *place,
                        end: *end,
                    };
                    gather_block(alloc, survey, gathered, &function)
                }
            }
        }
    }
}

/// Gathers items in order.
pub(crate) fn gather_items(
    alloc: Global,
    survey: &Survey,
    gathered: &mut Gathered,
    items: &[Item],
) -> Result<(), AllocError>
    requires { AreNumbered gathered.old.scope.objects gathered.old.scope.names }
    ensures scope { OnOk result (before_of gathered.new.scope
        ≡ items_behind survey.now items.now (before_of gathered.old.scope)) }
    ensures first { OnOk result (gathered.new.first ≡ first_with gathered.old.first
        (items_faults survey.now items.now (before_of gathered.old.scope))) }
    ensures calls { OnOk result (gathered.new.calls.items ≡ gathered.old.calls.items
        ++ items_calls survey.now items.now (before_of gathered.old.scope)) }
    ensures functions { OnOk result (gathered.new.functions.items ≡ gathered.old.functions.items
        ++ functions_of survey.now items.now (before_of gathered.old.scope)) }
    ensures starts { OnOk result (gathered.new.starts.items ≡ gathered.old.starts.items
        ++ starts_of survey.now items.now (before_of gathered.old.scope)) }
{
    for item in items {
        gather_item(alloc, survey, gathered, item)?;
    }
    Ok(())
}
