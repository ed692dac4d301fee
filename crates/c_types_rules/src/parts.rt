//! What a name and an expression stand for (`specs/Parts.antt`), and the places at which a use of
//! one breaks a rule (`specs/ExpressionRules.antt`). Proved by the checker alone.
ghost use Rattle.std.specs.Prelude.{◌≡◌, is_some};
ghost use Rattle.c_types_rules.specs.Parts.{
  with_value,
  named_kind,
  element_kind,
  result_kind,
  element_form,
  element_of,
  result_of,
  is_changeable_by,
  is_changeable,
  changed_kind,
};
ghost use Rattle.c_types_rules.specs.Expressions.{plain, taken, given, named, tagged, cast_role};
ghost use Rattle.c_types_rules.specs.ExpressionRules.{
  undeclared,
  names_function,
  may_be_called,
  function_name,
  misused_function,
  takes_another,
  arity_faults,
  miscounted,
  names_array,
  array_name,
  is_void,
  misused_array,
  void_value,
  void_end,
  bodyless,
  without_body,
  at_if,
  has_own_fault,
  not_changeable,
  option_places,
};

use crate::{Form, Kind, Meaning, Part, Role, as_kind, value_kind};
use cpa_ints::IntType;

/// The type of what a name stands for.
pub fn named_kind(meaning: Option<Meaning>) -> Option<Kind>
    ensures { result ≡ named_kind meaning }
{
    match meaning {
        Some(Meaning::Object(object)) => match object.length {
            None => Some(Kind::Value(object.ty)),
            Some(_) => None,
        },
        Some(Meaning::Enumerator(_)) => Some(Kind::Value(IntType::I32)),
        _ => None,
    }
}

/// The type of the elements of what a name stands for.
fn element_kind(meaning: Option<Meaning>) -> Option<Kind>
    ensures { result ≡ element_kind meaning }
{
    match meaning {
        Some(Meaning::Object(object)) => match object.length {
            None => None,
            Some(_) => Some(Kind::Value(object.ty)),
        },
        _ => None,
    }
}

/// The type of a call of what a name stands for.
fn result_kind(meaning: Option<Meaning>) -> Option<Kind>
    ensures { result ≡ result_kind meaning }
{
    match meaning {
        Some(Meaning::Function(function)) => Some(function.result),
        Some(Meaning::Known(function)) => Some(function.result()),
        _ => None,
    }
}

/// A type, where another one is that of a value.
pub fn with_value(kind: Option<Kind>, other: Option<Kind>) -> Option<Kind>
    ensures { result ≡ with_value kind other }
{
    match value_kind(other) {
        Some(_) => kind,
        None => None,
    }
}

/// Whether a scalar object that is not `const`, or an array of such, is what a name stands for.
fn is_changeable_by(of_array: bool, meaning: Option<Meaning>) -> bool
    ensures { result ≡ is_changeable_by of_array meaning }
{
    match meaning {
        Some(Meaning::Object(object)) => !object.is_const && object.length.is_some() == of_array,
        _ => false,
    }
}

impl Form {
    /// What an index makes of it.
    pub fn element(self) -> Form
        ensures { result ≡ element_form self }
    {
        match self {
            Form::Bare { meaning, .. } => Form::Element { meaning },
            Form::Element { .. } | Form::Plain => Form::Plain,
        }
    }

    /// The type of an element of it.
    pub fn element_kind(self) -> Option<Kind>
        ensures { result ≡ element_of self }
    {
        match self {
            Form::Bare { meaning, .. } => element_kind(meaning),
            Form::Element { .. } | Form::Plain => None,
        }
    }

    /// The type of a call of it.
    pub fn result_kind(self) -> Option<Kind>
        ensures { result ≡ result_of self }
    {
        match self {
            Form::Bare { meaning, .. } => result_kind(meaning),
            Form::Element { .. } | Form::Plain => None,
        }
    }

    /// Whether it can be assigned to.
    pub fn is_changeable(self) -> bool
        ensures { result ≡ is_changeable self }
    {
        match self {
            Form::Bare { meaning, .. } => is_changeable_by(false, meaning),
            Form::Element { meaning } => is_changeable_by(true, meaning),
            Form::Plain => false,
        }
    }
}

impl Part {
    /// A part that is neither a name nor an element.
    pub fn plain(place: u32, kind: Option<Kind>) -> Part
        ensures { result ≡ plain place kind }
    {
        Part {
            place,
            kind,
            form: Form::Plain,
        }
    }

    /// The type of an assignment to it.
    pub fn changed_kind(self) -> Option<Kind>
        ensures { result ≡ changed_kind self }
    {
        as_kind(value_kind(self.kind))
    }
}

/// The role of what is cast to a type.
pub fn cast_role(to: Kind) -> Role
    ensures { result ≡ cast_role to }
{
    match to {
        Kind::Void => Role::Evaluated,
        Kind::Value(_) => Role::Valued,
    }
}

/// A place where something holds.
fn place_if(holds: bool, place: u32) -> Option<u32>
    ensures { option_places result ≡ at_if holds place }
{
    if holds { Some(place) } else { None }
}

/// The place of a name that is not declared.
pub fn undeclared(place: u32, meaning: Option<Meaning>) -> Option<u32>
    ensures { option_places result ≡ undeclared (named place meaning) }
{
    match meaning {
        None => Some(place),
        Some(_) => None,
    }
}

/// The place of a tag that is not declared.
pub fn undeclared_tag(place: u32, is_declared: bool) -> Option<u32>
    ensures { option_places result ≡ undeclared (tagged place is_declared) }
{
    place_if(!is_declared, place)
}

/// Whether a name is a function's.
fn names_function(meaning: Option<Meaning>) -> bool
    ensures { result ≡ names_function meaning }
{
    match meaning {
        Some(Meaning::Function(_)) | Some(Meaning::Known(_)) => true,
        _ => false,
    }
}

/// Whether it can be called, or has a fault of its own.
fn may_be_called(form: Form) -> bool
    ensures { result ≡ may_be_called form }
{
    match form {
        Form::Bare { meaning: None, .. } => true,
        Form::Bare { meaning, .. } => names_function(meaning),
        Form::Element { .. } | Form::Plain => false,
    }
}

/// The place of a function's name.
fn function_name(form: Form) -> Option<u32>
    ensures { option_places result ≡ function_name form }
{
    match form {
        Form::Bare { place, meaning } => place_if(names_function(meaning), place),
        Form::Element { .. } | Form::Plain => None,
    }
}

/// Where a function's name stands as a value, or something else is called.
pub fn misused_function(role: Role, part: Part) -> Option<u32>
    ensures { option_places result ≡ misused_function (taken role part) }
{
    match role {
        Role::Called => place_if(!may_be_called(part.form), part.place),
        Role::Valued | Role::Evaluated | Role::Changed | Role::Indexed => function_name(part.form),
    }
}

/// Whether a function takes another number of arguments.
fn takes_another(wanted: Option<u32>, handed: usize) -> bool
    ensures { result ≡ takes_another wanted handed }
{
    match wanted {
        None => false,
        Some(wanted) => wanted as usize != handed,
    }
}

/// Where a call has another number of arguments than its function has parameters.
fn arity_fault(meaning: Option<Meaning>, place: u32, handed: usize) -> Option<u32>
    ensures { option_places result ≡ arity_faults meaning place handed }
{
    match meaning {
        Some(Meaning::Function(function)) => place_if(takes_another(function.arity, handed), place),
        Some(Meaning::Known(function)) => place_if(takes_another(function.arity(), handed), place),
        _ => None,
    }
}

/// Where so many arguments are handed to another number of parameters.
pub fn miscounted(form: Form, handed: usize) -> Option<u32>
    ensures { option_places result ≡ miscounted (given form handed) }
{
    match form {
        Form::Bare { place, meaning } => arity_fault(meaning, place, handed),
        Form::Element { .. } | Form::Plain => None,
    }
}

/// Whether a name is an array's.
fn names_array(meaning: Option<Meaning>) -> bool
    ensures { result ≡ names_array meaning }
{
    match meaning {
        Some(Meaning::Object(object)) => object.length.is_some(),
        _ => false,
    }
}

/// The place of an array's name.
fn array_name(form: Form) -> Option<u32>
    ensures { option_places result ≡ array_name form }
{
    match form {
        Form::Bare { place, meaning } => place_if(names_array(meaning), place),
        Form::Element { .. } | Form::Plain => None,
    }
}

/// Where an array's name stands as a value, or an index stands behind what has a type.
pub fn misused_array(role: Role, part: Part) -> Option<u32>
    ensures { option_places result ≡ misused_array role part }
{
    match role {
        Role::Valued | Role::Evaluated | Role::Changed => array_name(part.form),
        Role::Indexed => place_if(part.kind.is_some(), part.place),
        Role::Called => None,
    }
}

/// Whether a type is void.
fn is_void(kind: Option<Kind>) -> bool
    ensures { result ≡ is_void kind }
{
    match kind {
        Some(Kind::Void) => true,
        _ => false,
    }
}

/// Where a void expression stands as a value, or is assigned to.
pub fn void_value(role: Role, part: Part) -> Option<u32>
    ensures { option_places result ≡ void_value role part }
{
    match role {
        Role::Valued | Role::Changed => place_if(is_void(part.kind), part.place),
        Role::Evaluated | Role::Indexed | Role::Called => None,
    }
}

/// Where one end of a conditional is void and the other one is not.
pub fn void_end(first: Part, second: Part) -> Option<u32>
    ensures { option_places result ≡ void_end first second }
{
    match (first.kind, second.kind) {
        (Some(Kind::Void), Some(Kind::Value(_))) => Some(first.place),
        (Some(Kind::Value(_)), Some(Kind::Void)) => Some(second.place),
        _ => None,
    }
}

/// The place of a function's name that has no body.
fn bodyless(meaning: Option<Meaning>, place: u32) -> Option<u32>
    ensures { option_places result ≡ bodyless meaning place }
{
    match meaning {
        Some(Meaning::Function(function)) => place_if(!function.body.is_some(), place),
        _ => None,
    }
}

/// Where a function without a body is called.
pub fn called_without_body(form: Form) -> Option<u32>
    ensures { option_places result ≡ without_body form }
{
    match form {
        Form::Bare { place, meaning } => bodyless(meaning, place),
        Form::Element { .. } | Form::Plain => None,
    }
}

/// Whether its name breaks a rule by itself.
fn has_own_fault(form: Form) -> bool
    ensures { result ≡ has_own_fault form }
{
    match form {
        Form::Bare { meaning: None, .. } | Form::Element { meaning: None } => true,
        Form::Bare { meaning, .. } | Form::Element { meaning } => names_function(meaning),
        Form::Plain => false,
    }
}

/// Where something is assigned to that can't be.
pub fn not_changeable(role: Role, part: Part) -> Option<u32>
    ensures { option_places result ≡ not_changeable (taken role part) }
{
    match role {
        Role::Changed => place_if(
            !(part.form.is_changeable() || has_own_fault(part.form)),
            part.place,
        ),
        Role::Valued | Role::Evaluated | Role::Indexed | Role::Called => None,
    }
}
