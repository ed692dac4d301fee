//! Laws of the known functions, and the numbers of the limits that definitions name. Each function
//! does nothing: its contract is the law.
ghost use Rattle.std.specs.Prelude.{◌≡◌, Some};
ghost use Rattle.std.specs.Option.{is_some};
ghost use Rattle.cpa_ints.specs.declared.data_model.DataModel.{DataModel};
ghost use Rattle.c_grammar_tree.specs.declared.TheConstants.{MAX_LEVEL};
ghost use Rattle.c_grammar_tree.specs.declared.name.Name.{Name};
ghost use Rattle.c_grammar_tree.specs.Items.{is_known};
ghost use Rattle.c_types_rules.specs.declared.TheConstants.{MAX_ELEMENTS};
ghost use Rattle.c_types_rules.specs.declared.known.KnownName.{KnownName};
ghost use Rattle.c_types_rules.specs.Known.{known, spelling_of_known, function_named};

/// Each known function is found by its names in each data model, and the functions whose bodies the
/// grammar skips are those that are found.
pub fn known_functions_are_found()
    ensures each { (model : DataModel) (name : KnownName) →
        known model (spelling_of_known name) ≡ Some (function_named model name) }
    ensures skipped { (model : DataModel) (name : Name) →
        is_known name ≡ is_some (known model name.bytes) }
{}

/// The limits of this project on a text: its levels, and the elements of an array.
pub fn limits()
    ensures levels { MAX_LEVEL ≡ 200 }
    ensures elements { MAX_ELEMENTS ≡ 4096 }
{}
