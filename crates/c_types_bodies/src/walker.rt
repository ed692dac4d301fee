//! What a walk through statements is told and what it keeps.
//! What it stands for is in `specs/Views.antt`. Plain data.
use c_lexer::TextFault;
use c_types_jumps::Jumps;
use c_types_names::{Firsts, Names, Survey};
use c_types_recursion::Call;
use c_types_rules::{Choice, Kind};
use cpa_ints::IntType;
use std::alloc::Global;
use std::collections::HashMap;

/// What holds in a whole function.
#[derive(Drop)]
pub(crate) struct Frame<'a> {
    pub(crate) survey: &'a Survey,
    /// The names of its labels in order, of those without a name empty.
    pub(crate) labels: &'a Firsts,
    /// How many names stand in file scope before its parameters.
    pub(crate) file: usize,
    /// How many bodies stand before its own.
    pub(crate) caller: u32,
    pub(crate) result: Kind,
}

/// What a case knows of its switch.
#[derive(Clone, Copy)]
pub(crate) struct Switch {
    /// The promoted type of its value, if it has one.
    pub(crate) ty: Option<IntType>,
    /// How many names are declared where it stands.
    pub(crate) names: usize,
}

/// Where a statement stands in a function.
#[derive(Clone, Copy)]
pub(crate) struct Nest {
    /// How many names stand outside its scope.
    pub(crate) outer: usize,
    pub(crate) in_loop: bool,
    /// The label behind the nearest loop or switch, where that is a switch.
    pub(crate) break_to: Option<u32>,
    /// The nearest switch.
    pub(crate) switch: Option<Switch>,
}

/// The cases of a switch so far.
#[derive(Drop)]
pub(crate) struct Cases {
    /// In the order of the text.
    pub(crate) choices: Vec<Choice>,
    /// The labels of them by their values, found by hash.
    pub(crate) values: HashMap<i128, u32>,
    /// The label of its default.
    pub(crate) otherwise: Option<u32>,
}

/// What is known and noted up to a place in a text.
#[derive(Drop)]
pub(crate) struct Walker {
    /// The names in scope.
    pub(crate) names: Names,
    /// How many objects are declared.
    pub(crate) objects: u32,
    /// How many labels stand before.
    pub(crate) passed: u32,
    /// The cases of the nearest switch so far.
    pub(crate) cases: Cases,
    /// The first fault.
    pub(crate) first: Option<TextFault>,
    /// The calls in order.
    pub(crate) calls: Vec<Call>,
}

/// A place of a function at which statements are walked through.
#[derive(Drop)]
pub(crate) struct Scope<'a> {
    pub(crate) alloc: Global,
    pub(crate) frame: &'a Frame<'a>,
    pub(crate) nest: Nest,
}

/// What is known and noted up to a place, and the labels and the gotos of the function so far.
#[derive(Drop)]
pub(crate) struct Progress {
    pub(crate) walker: Walker,
    pub(crate) jumps: Jumps,
}
