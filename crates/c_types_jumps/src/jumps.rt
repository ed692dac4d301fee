//! The labels and gotos of a function, gathered as its statements are walked. Contracts see `Found`
//! of `specs/Found.antt`; what the parts keep is `AreFound`, proved in proofs/Trees and Views.

ghost use Rattle.std.specs.Prelude.{◌≡◌, ◌<◌, ◌≤◌, ℕ, List, [], ◌++◌, length, map, IfOk, OnOk};
ghost use Rattle.std.specs.Prelude.{OnErr};
ghost use Rattle.std.specs.List.{AllByRecursion};
ghost use Rattle.c_lexer.specs.declared.fault.Rule.TheVariants as rule;
ghost use Rattle.c_types_rules.specs.First.{first_with};
ghost use Rattle.c_types_rules.specs.ExpressionRules.{broken};
ghost use Rattle.c_types_rules.specs.StatementRules.{repeated_labels, entering_gotos};
ghost use Rattle.c_types_jumps.specs.Found.{nothing_found, entered, left_to, labeled, jumping};
ghost use Rattle.c_types_jumps.specs.Found.{with_base};

use crate::noting::{Placed, note_entering, note_repeated};
use crate::tree::{self, Tree};
use c_grammar_tree::{Name, Spelling};
use c_lexer::TextFault;
use std::alloc::{AllocError, Global};
use std::marker::Model;

/// The labels and gotos of a function so far, with the scopes in which they stand.
#[derive(Drop)]
pub struct Jumps {
    tree: Tree,
    labels: Vec<Placed>,
    gotos: Vec<Placed>,
}

impl Model for Jumps {
    ghost use Rattle.c_types_jumps.specs.Found.{Found};

    ghost Value = { Found };

    ghost use Rattle.c_types_jumps.specs.Trees.{found_by, AreFound};

    ghost view = { λ j. found_by j.tree j.labels.items j.gotos.items };

    ghost invariant = { λ j. AreFound j.tree j.labels.items j.gotos.items };
}

impl Jumps {
    /// Nothing is in scope, and objects are numbered from `first` on.
    pub fn new(alloc: Global, first: u32) -> Result<Jumps, AllocError>
        ensures { IfOk result (λ jumps. jumps ≡ nothing_found first) }
    {
        let tree = tree::new(alloc, first)?;
        Ok(Jumps {
            tree,
            labels: Vec::new(alloc),
            gotos: Vec::new(alloc),
        })
    }

    /// How many objects are in scope.
    pub fn depth(&self) -> usize
        ensures { result ≡ length self.now.current }
    {
        tree::depth(&self.tree)
    }

    /// The scope of an object begins.
    pub fn enter(&mut self, number: u32) -> Result<(), AllocError>
        requires { self.old.next ≤ number }
        ensures entered { OnOk result (self.new ≡ entered number self.old) }
        ensures kept { OnErr result (self.new ≡ self.old) }
    {
        tree::enter(&mut self.tree, number)?;
        Ok(())
    }

    /// All scopes end but those of the first `count` objects.
    pub fn leave(&mut self, count: usize)
        ensures { self.new ≡ left_to count self.old }
    {
        tree::leave(&mut self.tree, count);
    }

    /// A label stands here.
    pub fn label(&mut self, alloc: Global, name: &Name) -> Result<(), AllocError>
        ensures labeled { OnOk result (self.new ≡ labeled name.now self.old) }
        ensures kept { OnErr result (self.new ≡ self.old) }
    {
        let placed = placed(alloc, name, self.tree.here)?;
        self.labels.push(placed)?;
        Ok(())
    }

    /// A goto to a label of this name stands here.
    pub fn goto(&mut self, alloc: Global, name: &Name) -> Result<(), AllocError>
        ensures jumping { OnOk result (self.new ≡ jumping name.now self.old) }
        ensures kept { OnErr result (self.new ≡ self.old) }
    {
        let placed = placed(alloc, name, self.tree.here)?;
        self.gotos.push(placed)?;
        Ok(())
    }

    /// Notes the labels that stand twice, and the gotos that enter the scope of an object. The
    /// objects of file scope are in scope at each of them.
    pub fn note(&self, alloc: Global, first: &mut Option<TextFault>) -> Result<(), AllocError>
        ensures { (base : List ℕ) → AllByRecursion (λ number. number < self.now.first) base
            → OnOk result (first.new ≡ first_with first.old
            (broken rule.N7 (repeated_labels [] (map (with_base base) self.now.labels))
            ++ broken rule.N9 (entering_gotos (map (with_base base) self.now.labels)
            (map (with_base base) self.now.gotos)))) }
    {
        let index = note_repeated(alloc, first, &self.labels)?;
        note_entering(first, &self.tree, &index, &self.labels, &self.gotos);
        Ok(())
    }
}

/// A name at a position.
fn placed(alloc: Global, name: &Name, position: usize) -> Result<Placed, AllocError>
    ensures name { IfOk result (λ placed. placed.name ≡ name.now) }
    ensures position { IfOk result (λ placed. placed.position ≡ position) }
{
    let name = Name {
        bytes: Spelling::new(alloc, name.bytes.as_slice())?,
        place: name.place,
    };
    Ok(Placed { name, position })
}
