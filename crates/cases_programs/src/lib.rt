//! Programs that rows give, statement by statement, with tables that show them well formed, and the
//! elements and precisions of rows. What fits is `specs/Fits.antt`, and when tables show a program
//! well formed, `specs/Samples.antt`.
#![tactic(auto)]

mod automata;
mod calls;
mod elements;
mod fitting;
mod laws;
mod shapes;
mod statements;
mod table;

pub use automata::automaton;
pub use calls::{order_of_word, rule_of_word, settings_of};
pub use elements::{elem_of, elems_of};
pub use laws::tables_suffice;
pub use shapes::{are_elems, are_precisions, is_path, is_precision};
pub use table::Table;
