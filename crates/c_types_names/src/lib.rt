//! The table of the names that are declared at a place of a C text, and what the whole text says
//! of its functions: each look-up is by hash, and meets `specs/Names.antt` of `c_types_rules`.
#![tactic(auto)]

mod declaration;
mod firsts;
mod names;
mod numbers;
mod survey;
mod table;
mod tags;

pub use declaration::Declaration;
pub use firsts::Firsts;
pub use names::Names;
pub use survey::Survey;
pub use tags::tag_key;
