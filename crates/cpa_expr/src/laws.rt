//! Laws of expressions: functions with an empty body, whose contract is the law of
//! `specs/Laws.antt`. A lemma of another crate cites that one by its name, an answer also the call.

ghost use Rattle.cpa_expr.specs.Laws.{ValueAtVariants, TypeAtVariants, TypedAtVariants};
ghost use Rattle.cpa_expr.specs.Laws.{ReadsAtVariants, SizeAtVariants, HeightAtVariants};
ghost use Rattle.cpa_expr.specs.Laws.{ConstantIsItsNumber, ScalarIsItsCell, ValuesLieInRange};
ghost use Rattle.cpa_expr.specs.Laws.{ReadsWithinTheArray, NoneIsATrap, DependsOnWhatIsRead};
ghost use Rattle.cpa_expr.specs.Laws.{ReplacedAtNodes, ReplacingIsSetting, ReplacingKeepsTypes};
ghost use Rattle.cpa_expr.specs.Laws.{SameWhereEqual};

/// The value of each variant, from the values of its parts.
///
/// Each of the laws `.._at_variants` has a field for each variant: `constant`, `read`, `unary`,
/// `binary`, `comparison`, `cast`, `conjunction`, `disjunction`, `negation` and `conditional`.
#[tactic(auto, using(crate::specs::Laws::value_at_variants))]
pub fn value_at_variants()
    ensures { ValueAtVariants }
{}

/// The type of each variant.
#[tactic(auto, using(crate::specs::Laws::type_at_variants))]
pub fn type_at_variants()
    ensures { TypeAtVariants }
{}

/// Each variant is well typed exactly where its node is and its parts are.
#[tactic(auto, using(crate::specs::Laws::typed_at_variants))]
pub fn typed_at_variants()
    ensures { TypedAtVariants }
{}

/// Which cells each variant may read.
#[tactic(auto, using(crate::specs::Laws::reads_at_variants))]
pub fn reads_at_variants()
    ensures { ReadsAtVariants }
{}

/// The size of each variant: one more than the sizes of its parts.
#[tactic(auto, using(crate::specs::Laws::size_at_variants))]
pub fn size_at_variants()
    ensures { SizeAtVariants }
{}

/// The height of each variant: one more than that of its highest part.
#[tactic(auto, using(crate::specs::Laws::height_at_variants))]
pub fn height_at_variants()
    ensures { HeightAtVariants }
{}

/// A constant is an expression where its number lies in the type's range.
pub fn a_constant_is_its_number()
    ensures { ConstantIsItsNumber }
{}

/// The read of a scalar has the cell's type and value, and is an expression where the cell has its
/// type.
#[tactic(auto, using(crate::specs::Laws::a_scalar_is_its_cell))]
pub fn a_scalar_is_its_cell()
    ensures { ScalarIsItsCell }
{}

/// A value of a well-typed expression lies in the range of its type, where each cell's value does.
pub fn values_lie_in_range()
    ensures { ValuesLieInRange }
{}

/// A well-typed read whose index has a value has one exactly where that lies from 0 to `len` - 1.
pub fn reads_have_values_within_the_array()
    ensures { ReadsWithinTheArray }
{}

/// A well-typed expression has no value exactly where its evaluation traps.
pub fn no_value_is_a_trap()
    ensures { NoneIsATrap }
{}

/// A value depends on no cell but those that the expression may read. So do traps.
#[tactic(auto, using(crate::specs::Laws::value_depends_on_what_is_read))]
pub fn value_depends_on_what_is_read()
    ensures { DependsOnWhatIsRead }
{}

/// What `replace_cell` makes of a node: `by` of a scalar read of the cell, and of any other node
/// the same with each part replaced.
#[tactic(auto, using(crate::specs::Laws::replaced_at_nodes))]
pub fn replaced_at_nodes()
    ensures { ReplacedAtNodes }
{}

/// Where every read of a cell is a scalar one, to replace the cell by an expression is to set the
/// cell to the expression's value: where it has one, the value is the same, and so is each trap;
/// where it traps, the result traps or does not depend on the cell. An expression that does not
/// read the cell stays as it is.
#[tactic(auto, using(crate::specs::Laws::to_replace_is_to_set))]
pub fn to_replace_is_to_set()
    ensures { ReplacingIsSetting }
{}

/// To replace a cell by an expression of the cell's type keeps the type, and what is well typed.
/// The heights add up at most.
#[tactic(auto, using(crate::specs::Laws::to_replace_keeps_types))]
pub fn to_replace_keeps_types()
    ensures { ReplacingKeepsTypes }
{}

/// The test of two expressions is true exactly where they are equal.
#[tactic(auto, using(crate::specs::Laws::same_where_equal))]
pub fn same_where_equal()
    ensures { SameWhereEqual }
{}
