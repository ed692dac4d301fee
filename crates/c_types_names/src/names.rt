//! The names declared so far. Contracts see the list of the declarations (`specs/Names.antt` of
//! `c_types_rules`); what the parts keep beside it is `IsTied`, proved in `proofs/Lasts`.

ghost use Rattle.std.specs.Prelude.{◌≡◌, [], ◌++◌, ◌∷◌, length, take, drop, OnOk, OnErr, IfOk};
ghost use Rattle.std.specs.Option.{option_copied};
ghost use Rattle.c_types_rules.specs.Names.{declared_as, is_tag, meaning_of};
ghost use Rattle.c_types_rules.specs.Declarations.{is_declared_among};
ghost use Rattle.c_types_names.specs.Again.{said_again};

use crate::table::{self, Table};
use crate::{Declaration, Survey, tag_key};
use c_types_rules::{Declared, Entry, Meaning};
use std::alloc::{AllocError, Global};
use std::marker::Model;

/// The declared names in order, the latest of each found by hash.
#[derive(Drop)]
pub struct Names {
    table: Table,
}

impl Model for Names {
    ghost use Rattle.std.specs.Prelude.{List};
    ghost use Rattle.std.specs.Coded.{coded_list};
    ghost use Rattle.c_types_rules.specs.declared.meaning.Entry.{Entry};
    ghost use Rattle.c_types_rules.specs.contracts.meaning.Entry as e;
    ghost use Rattle.c_types_names.specs.Tables.{IsTied};

    ghost Value = { List Entry };

    ghost coded = { coded_list e.the_row.coded };

    ghost view = { λ n. n.table.entries.items };

    ghost invariant = { λ n. IsTied n.table };
}

impl Names {
    /// No names.
    pub fn new(alloc: Global) -> Names
        ensures { result ≡ [] }
    {
        Names {
            table: table::new(alloc),
        }
    }

    /// How many declarations there are.
    pub fn len(&self) -> usize
        ensures { result ≡ length self.now }
    {
        self.table.entries.len()
    }

    /// The declarations in order.
    pub fn declarations(&self) -> &[Declaration]
        ensures { result.now ≡ self.now }
    {
        self.table.entries.as_slice()
    }

    /// Declares a name. Where memory runs out, or a function has more parameters than a u32 counts,
    /// the names stay as they were.
    pub fn declare(&mut self, alloc: Global, entry: Entry) -> Result<(), AllocError>
        ensures declared { OnOk result (self.new ≡ self.old ++ entry ∷ []) }
        ensures kept { OnErr result (self.new ≡ self.old) }
    {
        table::declare(&mut self.table, alloc, entry)
    }

    /// Declares a name once more, as its last declaration has it, by a share in what that one says.
    /// A name that is not declared stays so.
    pub fn declare_again(&mut self, alloc: Global, name: &[u8]) -> Result<(), AllocError>
        ensures declared { OnOk result (self.new ≡ self.old ++ said_again self.old name.now) }
        ensures kept { OnErr result (self.new ≡ self.old) }
    {
        table::declare_again(&mut self.table, alloc, name)
    }

    /// Forgets all but the first `count` declarations, as at the end of a scope.
    pub fn keep(&mut self, count: usize)
        ensures { self.new ≡ take count self.old }
    {
        table::keep(&mut self.table, count);
    }

    /// What the last declaration of a name says of it.
    pub fn declared(&self, name: &[u8]) -> Option<&Declared>
        ensures { option_copied result ≡ declared_as self.now name.now }
    {
        table::declared(&self.table, name)
    }

    /// Whether a declaration behind the first `outer` ones has the name.
    pub fn is_declared_from(&self, outer: usize, name: &[u8]) -> bool
        ensures { result ≡ is_declared_among (drop outer self.now) name.now }
    {
        table::is_declared_from(&self.table, outer, name)
    }

    /// Whether a tag is declared.
    pub fn has_tag(&self, alloc: Global, tag: &[u8]) -> Result<bool, AllocError>
        ensures { IfOk result (λ found. found ≡ is_tag self.now tag.now) }
    {
        let key = tag_key(alloc, tag)?;
        Ok(self.declared(key.as_slice()).is_some())
    }

    /// What a name stands for.
    pub fn meaning(&self, survey: &Survey, name: &[u8]) -> Option<Meaning>
        ensures { result ≡ meaning_of survey.now self.now name.now }
    {
        table::meaning(&self.table, survey, name)
    }
}
