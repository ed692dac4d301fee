//! A declared name and what it is declared as, of which contracts see the `Entry` of
//! `c_types_rules`. Proved by the checker alone.
ghost use Rattle.std.specs.Prelude.{◌≡◌, IfOk};

use c_types_rules::Entry;
use std::alloc::{AllocError, Global};
use std::marker::Model;
use std::rc::Rc;

/// What one declaration says, shared by those that say the same of the same name: a list of
/// parameters is kept once, however often its function is declared.
#[derive(Drop)]
pub struct Declaration {
    entry: Rc<Entry>,
}

impl Model for Declaration {
    ghost use Rattle.c_types_rules.specs.declared.meaning.Entry.{Entry};
    ghost use Rattle.c_types_rules.specs.contracts.meaning.Entry as e;

    ghost Value = { Entry };

    ghost coded = { e.the_row.coded };

    ghost view = { λ d. d.entry.value };
}

impl Declaration {
    /// A declaration that says this.
    pub(crate) fn new(alloc: Global, entry: Entry) -> Result<Declaration, AllocError>
        ensures { IfOk result (λ made. made ≡ entry) }
    {
        Ok(Declaration {
            entry: Rc::new(alloc, entry)?,
        })
    }

    /// The name, and what it is declared as.
    pub fn entry(&self) -> &Entry
        ensures { result.now ≡ self.now }
    {
        &self.entry
    }

    /// The same once more.
    pub(crate) fn repeated(&self) -> Result<Declaration, AllocError>
        ensures { IfOk result (λ made. made ≡ self.now) }
    {
        Ok(Declaration {
            entry: self.entry.clone()?,
        })
    }
}
