//! What a whole text is read by: `Text` of `specs/Names.antt` of `c_types_rules`, which `text_in`
//! makes of a data model and the items. What the parts keep is `IsSurveyed`, proved in
//! `proofs/Places`.

ghost use Rattle.std.specs.Prelude.{◌≡◌, ◌<◌, [], ◌++◌, ◌∷◌, true, false};
ghost use Rattle.std.specs.Prelude.{length, IfOk, OnOk, option_map};
ghost use Rattle.std.specs.List.{filter_map};
ghost use Rattle.std.specs.Option.{option_to_list};
ghost use Rattle.c_types_rules.specs.Names.{body_of, arity_of};
ghost use Rattle.c_types_rules.specs.Items.{given_parameters, body_name, named_arity, item_arity};
ghost use Rattle.c_types_rules.specs.Items.{text_in};
ghost use Rattle.c_types_names.specs.Tables.{IsSurveyed};

use crate::Firsts;
use crate::numbers::{Numbers, number_of, set_first};
use c_grammar_tree::{Body, FunctionDeclarator, Item, Parameters};
use cpa_ints::{DataModel, Seq};
use std::alloc::{AllocError, Global};
use std::collections::HashMap;
use std::marker::Model;

/// The parts of a survey.
#[derive(Drop)]
pub(crate) struct Parts {
    /// The names of the functions that have a body, body by body.
    pub(crate) bodies: Firsts,
    /// How many parameters a name has by each declaration that says so.
    pub(crate) arities: Vec<(Seq<u8>, u32)>,
    /// Each name's first count of parameters.
    pub(crate) first_arities: Numbers,
}

/// The data model of a text, and what its declarations say of its functions, the first of each name
/// found by hash.
#[derive(Drop)]
pub struct Survey {
    model: DataModel,
    parts: Parts,
}

impl Model for Survey {
    ghost use Rattle.c_types_rules.specs.Names.{Text};
    ghost use Rattle.c_types_names.specs.Tables.{IsSurveyed};

    ghost Value = { Text };

    ghost view = { λ s. record {
      model = s.model;
      bodies = s.parts.bodies;
      arities = s.parts.arities.items;
    } };

    ghost invariant = { λ s. IsSurveyed s.parts };
}

impl Survey {
    /// What these items say in a data model. A text with more than 2^32 bodies, or a function with
    /// 2^32 parameters or more, is want of memory.
    pub fn of(alloc: Global, model: DataModel, items: &[Item]) -> Result<Survey, AllocError>
        ensures { IfOk result (λ survey. survey ≡ text_in model items.now) }
    {
        Ok(Survey {
            model,
            parts: survey_items(alloc, items)?,
        })
    }

    /// The data model, by which words of types and known functions are read.
    pub fn model(&self) -> DataModel
        ensures { result ≡ self.now.model }
    {
        self.model
    }

    /// The number of the function's body, if it has one.
    pub fn body_of(&self, name: &[u8]) -> Option<u32>
        ensures { result ≡ body_of self.now name.now }
    {
        self.parts.bodies.place_of(name)
    }

    /// How many parameters the function has by the first declaration that says so.
    pub fn arity_of(&self, name: &[u8]) -> Option<u32>
        ensures { result ≡ arity_of self.now name.now }
    {
        number_of(&self.parts.first_arities, name)
    }
}

/// Notes that a declaration of this name comes next that says how many parameters there are.
fn note_arity(parts: &mut Parts, alloc: Global, name: &[u8], count: usize) -> Result<(), AllocError>
    requires { IsSurveyed parts.old }
    ensures surveyed { OnOk result (IsSurveyed parts.new) }
    ensures bodies { parts.new.bodies ≡ parts.old.bodies }
    ensures arities { OnOk result
        (parts.new.arities.items ≡ parts.old.arities.items ++ (name.now, count) ∷ []) }
{
    if count > u32::MAX as usize {
        return Err(AllocError);
    }
    let row = (Seq::from_vec(name.to_vec(alloc)?), count as u32);
    parts.arities.push(row)?;
    set_first(alloc, &mut parts.first_arities, name, count as u32)?;
    Ok(())
}

/// How many parameters a declarator gives its function, if it says so.
fn parameter_count(defines: bool, parameters: &Parameters) -> Option<usize>
    ensures { result ≡ option_map (λ all. length all) (given_parameters defines parameters.now) }
{
    match parameters {
        Parameters::Unspecified if !defines => None,
        Parameters::Unspecified | Parameters::Void => Some(0),
        Parameters::Listed(all) => Some(all.len()),
    }
}

/// Notes what a declarator says of its function's parameters.
fn note_declarator(
    parts: &mut Parts,
    alloc: Global,
    defines: bool,
    declarator: &FunctionDeclarator,
) -> Result<(), AllocError>
    requires { IsSurveyed parts.old }
    ensures surveyed { OnOk result (IsSurveyed parts.new) }
    ensures bodies { parts.new.bodies ≡ parts.old.bodies }
    ensures arities { OnOk result (parts.new.arities.items ≡ parts.old.arities.items
        ++ option_to_list (named_arity declarator.now.name.bytes
        (given_parameters defines declarator.now.parameters))) }
{
    match parameter_count(defines, &declarator.parameters) {
        Some(count) => note_arity(parts, alloc, declarator.name.bytes.as_slice(), count),
        None => Ok(()),
    }
}

/// Notes what an item says.
fn note_item(parts: &mut Parts, alloc: Global, item: &Item) -> Result<(), AllocError>
    requires { IsSurveyed parts.old }
    ensures surveyed { OnOk result (IsSurveyed parts.new) }
    ensures bodies { OnOk result (parts.new.bodies ≡ parts.old.bodies
        ++ option_to_list (body_name item.now)) }
    ensures arities { OnOk result (parts.new.arities.items ≡ parts.old.arities.items
        ++ option_to_list (item_arity item.now)) }
{
    match item {
        Item::Empty { .. } | Item::Typedef { .. } | Item::Objects(_) => Ok(()),
        Item::Prototype { declarator, .. } => note_declarator(parts, alloc, false, declarator),
        Item::Function {
            declarator,
            body,
            ..
        } => {
            note_declarator(parts, alloc, true, declarator)?;
            match body {
                Body::Block { .. } => parts.bodies.push(alloc, declarator.name.bytes.as_slice()),
                Body::Skipped => Ok(()),
            }
        }
    }
}

/// The parts of what these items say.
#[tactic(auto, using(crate::proofs::Places::found_more))]
fn survey_items(alloc: Global, items: &[Item]) -> Result<Parts, AllocError>
    ensures surveyed { IfOk result (λ parts. IsSurveyed parts) }
    ensures bodies { IfOk result (λ parts. parts.bodies ≡ filter_map body_name items.now) }
    ensures arities { IfOk result (λ parts. parts.arities.items ≡ filter_map item_arity items.now) }
{
    let mut parts = Parts {
        bodies: Firsts::new(alloc),
        arities: Vec::new(alloc),
        first_arities: HashMap::new(alloc),
    };
    for item in items {
        note_item(&mut parts, alloc, item)?;
    }
    Ok(parts)
}
