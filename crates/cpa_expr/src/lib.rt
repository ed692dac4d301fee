//! Pure expressions over integer cells: their shape, and their value on a store.
//! `specs/Shape.antt` and `specs/Values.antt` define them; their laws stand in `specs/Laws.antt`.
#![tactic(auto)]

mod equality;
mod evaluation;
mod laws;
mod nodes;
mod operators;
mod parts;
mod replacing;
mod scalars;
mod shape;
mod spelling;
mod tree;
mod typing;
mod words;

pub use equality::same_expr;
pub use evaluation::value;
pub use laws::{
    a_constant_is_its_number, a_scalar_is_its_cell, height_at_variants, no_value_is_a_trap,
    reads_at_variants, reads_have_values_within_the_array, replaced_at_nodes, same_where_equal,
    size_at_variants, to_replace_is_to_set, to_replace_keeps_types, type_at_variants,
    typed_at_variants, value_at_variants, value_depends_on_what_is_read, values_lie_in_range,
};
pub use nodes::{both, cast, comparison, constant, copied, either, negation};
pub use operators::{bin_value, compares, is_nonzero, truth, un_value};
pub use parts::{Parts, parts_of};
pub use replacing::{copy, replace_cell};
pub use scalars::read_scalar;
pub use shape::{MAX_HEIGHT, height, may_read, size, type_of};
pub use spelling::push_expr;
pub use tree::{BinOp, CmpOp, Expr, Store, UnOp};
pub use typing::{Typed, is_expr, is_expr_over};
pub use words::{bin_word, cmp_word, type_word, un_word};
