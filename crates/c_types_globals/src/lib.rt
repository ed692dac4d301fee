//! Declarations in file scope: which object or function a name is declared as, what objects start
//! at, and the rules that they break (`specs/Items.antt` of `c_types_rules`).
#![tactic(auto)]

mod enumerations;
mod functions;
mod merging;
mod objects;
mod parameters;
mod scope;
mod type_names;
mod typedefs;

pub use enumerations::declare_enumeration;
pub use functions::declare_function;
pub use merging::same_kind;
pub use objects::declare_objects;
pub use scope::{Scope, Start};
pub use type_names::TypeNames;
pub use typedefs::declare_typedefs;
