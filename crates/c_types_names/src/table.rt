//! The declarations in order, with the number of the earlier one of each name and the latest of
//! each found by hash. They keep `IsTied` of `specs/Tables.antt`, proved in `proofs/Lasts`.

ghost use Rattle.std.specs.Prelude.{◌≡◌, ◌↔◌, ◌+◌, ◌-◌, ◌<◌, [], ◌++◌, ◌∷◌, length};
ghost use Rattle.std.specs.Prelude.{take, drop, IsTrue, Some, OnOk, OnErr, option_map, vec_len};
ghost use Rattle.std.specs.Prelude.{vec_capacity};
ghost use Rattle.std.specs.Option.{option_copied};
ghost use Rattle.c_types_rules.specs.Names.{declared_as, function_of, meaning_by, meaning_of};
ghost use Rattle.c_types_rules.specs.Declarations.{is_declared_among};
ghost use Rattle.c_types_names.specs.Again.{said_again};
ghost use Rattle.c_types_names.specs.Tables.{IsCounted, AreCounted, IsTied};

use crate::numbers::{Numbers, number_of, put_back, set};
use crate::{Declaration, Survey};
use c_types_rules::{
    Declared, Entry, Function, Kind, KnownFunction, Meaning, ParameterType, known_function,
};
use cpa_ints::Seq;
use std::alloc::{AllocError, Global};
use std::collections::HashMap;

/// The parts of a table of names.
#[derive(Drop)]
pub(crate) struct Table {
    pub(crate) entries: Vec<Declaration>,
    /// For each declaration the number of the one before it that has its name.
    pub(crate) earlier: Vec<Option<u32>>,
    /// The number of the last declaration of each name.
    pub(crate) latest: Numbers,
}

/// No declarations.
pub(crate) fn new(alloc: Global) -> Table
    ensures tied { IsTied result }
    ensures empty { result.entries.items ≡ [] }
{
    Table {
        entries: Vec::new(alloc),
        earlier: Vec::new(alloc),
        latest: HashMap::new(alloc),
    }
}

/// Whether a u32 counts the parameters that a declaration gives its function.
fn is_counted(declared: &Declared) -> bool
    ensures { IsTrue result ↔ IsCounted declared.now }
{
    match declared {
        Declared::Function {
            parameters: Some(types),
            ..
        } => types.len() <= u32::MAX as usize,
        _ => true,
    }
}

/// Room for one declaration more.
fn reserve(table: &mut Table) -> Result<(), AllocError>
    ensures entries { table.new.entries.items ≡ table.old.entries.items }
    ensures earlier { table.new.earlier.items ≡ table.old.earlier.items }
    ensures latest { table.new.latest ≡ table.old.latest }
    ensures room { OnOk result (vec_len table.new.entries < vec_capacity table.new.entries) }
    ensures earlier_room { OnOk result
        (vec_len table.new.earlier < vec_capacity table.new.earlier) }
{
    table.entries.reserve(1)?;
    table.earlier.reserve(1)
}

/// Adds a declaration at the end.
fn push(table: &mut Table, alloc: Global, declaration: Declaration) -> Result<(), AllocError>
    requires tied { IsTied table.old }
    requires counted { IsCounted declaration.declared }
    ensures tied { IsTied table.new }
    ensures ok { OnOk result
        (table.new.entries.items ≡ table.old.entries.items ++ declaration ∷ []) }
    ensures err { OnErr result (table.new.entries.items ≡ table.old.entries.items) }
{
    let number = table.entries.len();
    if number > u32::MAX as usize {
        return Err(AllocError);
    }
    reserve(table)?;
    let name = declaration.entry().name.as_slice();
    let earlier = set(alloc, &mut table.latest, name, number as u32)?;
    table.earlier.push_reserved(earlier);
    table.entries.push_reserved(declaration);
    Ok(())
}

/// Adds a declaration. Where memory runs out the declarations stay as they were.
pub(crate) fn declare(table: &mut Table, alloc: Global, entry: Entry) -> Result<(), AllocError>
    requires { IsTied table.old }
    ensures tied { IsTied table.new }
    ensures ok { OnOk result (table.new.entries.items ≡ table.old.entries.items ++ entry ∷ []) }
    ensures err { OnErr result (table.new.entries.items ≡ table.old.entries.items) }
{
    if !is_counted(&entry.declared) {
        return Err(AllocError);
    }
    let declaration = Declaration::new(alloc, entry)?;
    push(table, alloc, declaration)
}

/// Adds the last declaration of a name once more.
pub(crate) fn declare_again(table: &mut Table, alloc: Global, name: &[u8]) -> Result<(), AllocError>
    requires { IsTied table.old }
    ensures tied { IsTied table.new }
    ensures ok { OnOk result (table.new.entries.items
        ≡ table.old.entries.items ++ said_again table.old.entries.items name.now) }
    ensures err { OnErr result (table.new.entries.items ≡ table.old.entries.items) }
{
    match number_of(&table.latest, name) {
        Some(number) => {
            let declaration = table.entries[number as usize].repeated()?;
            push(table, alloc, declaration)
        }
        None => Ok(()),
    }
}

/// Forgets the last declaration.
fn forget_last(table: &mut Table)
    requires tied { IsTied table.old }
    ensures tied { IsTied table.new }
    ensures entries { table.new.entries.items
        ≡ take (length table.old.entries.items - 1) table.old.entries.items }
{
    if let Some(declaration) = table.entries.pop() {
        if let Some(earlier) = table.earlier.pop() {
            let name = declaration.entry().name.as_slice();
            put_back(&mut table.latest, name, earlier);
        }
    }
}

/// Forgets all but the first `count` declarations.
pub(crate) fn keep(table: &mut Table, count: usize)
    requires { IsTied table.old }
    ensures tied { IsTied table.new }
    ensures entries { table.new.entries.items ≡ take count table.old.entries.items }
{
    while table.entries.len() > count {
        forget_last(table);
    }
}

/// What the last declaration of a name says of it.
pub(crate) fn declared<'a>(table: &'a Table, name: &[u8]) -> Option<&'a Declared>
    requires { IsTied table.now }
    ensures { option_copied result ≡ declared_as table.now.entries.items name.now }
{
    match number_of(&table.latest, name) {
        Some(number) => Some(&table.entries[number as usize].entry().declared),
        None => None,
    }
}

/// Whether a declaration behind the first `outer` ones has the name.
pub(crate) fn is_declared_from(table: &Table, outer: usize, name: &[u8]) -> bool
    requires { IsTied table.now }
    ensures { result ≡ is_declared_among (drop outer table.now.entries.items) name.now }
{
    match number_of(&table.latest, name) {
        Some(number) => outer <= number as usize,
        None => false,
    }
}

/// How many parameters a declaration gives its function, if it says so.
fn parameter_count(parameters: &Option<Seq<ParameterType>>) -> Option<u32>
    requires { AreCounted parameters.now }
    ensures { result ≡ option_map (λ types. length types) parameters.now }
{
    match parameters {
        Some(types) => Some(types.len() as u32),
        None => None,
    }
}

/// The function that a declaration and the whole text make of a name.
fn function_of(
    survey: &Survey,
    name: &[u8],
    kind: Kind,
    parameters: &Option<Seq<ParameterType>>,
) -> Function
    requires { AreCounted parameters.now }
    ensures { result ≡ function_of survey.now name.now kind parameters.now }
{
    let arity = match parameter_count(parameters) {
        Some(count) => Some(count),
        None => survey.arity_of(name),
    };
    Function {
        body: survey.body_of(name),
        result: kind,
        arity,
    }
}

/// What a name stands for that is declared so.
fn meaning_by(
    survey: &Survey,
    name: &[u8],
    known: Option<KnownFunction>,
    declared: &Declared,
) -> Option<Meaning>
    requires { IsCounted declared.now }
    ensures { result ≡ meaning_by survey.now name.now known (Some declared.now) }
{
    match declared {
        Declared::Object { object, .. } => Some(Meaning::Object(*object)),
        Declared::Function {
            result,
            parameters,
            ..
        } => match known {
            Some(function) => Some(Meaning::Known(function)),
            None => Some(Meaning::Function(function_of(survey, name, *result, parameters))),
        },
        Declared::Enumerator { value } => Some(Meaning::Enumerator(*value)),
        Declared::Tag => known.map(Meaning::Known),
    }
}

/// What a name stands for.
pub(crate) fn meaning(table: &Table, survey: &Survey, name: &[u8]) -> Option<Meaning>
    requires { IsTied table.now }
    ensures { result ≡ meaning_of survey.now table.now.entries.items name.now }
{
    match declared(table, name) {
        Some(Declared::Object { object, .. }) => Some(Meaning::Object(*object)),
        Some(declared) => {
            meaning_by(survey, name, known_function(survey.model(), name), declared)
        }
        None => known_function(survey.model(), name).map(Meaning::Known),
    }
}
