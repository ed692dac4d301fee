//! The faults of labels and gotos by their positions: N7 and N9 of `specs/StatementRules.antt` of
//! `c_types_rules`. Proved in proofs/Faults.

ghost use Rattle.std.specs.Prelude.{◌≡◌, ◌<◌, ℕ, List, [], map, find, unwrap_or, option_map};
ghost use Rattle.std.specs.Prelude.{is_some, false, length, IfOk, OnOk};
ghost use Rattle.std.specs.List.{AllByRecursion};
ghost use Rattle.std.specs.Str.{bytes_eq};
ghost use Rattle.c_lexer.specs.declared.fault.Rule.TheVariants as rule;
ghost use Rattle.c_types_rules.specs.Names.{place_of};
ghost use Rattle.c_types_rules.specs.First.{first_with};
ghost use Rattle.c_types_rules.specs.ExpressionRules.{broken, at_if, option_places};
ghost use Rattle.c_types_rules.specs.StatementRules.{repeated_labels, entering_gotos, enters_scope};
ghost use Rattle.c_types_jumps.specs.declared.tree.Node.{Node as TreeNode};
ghost use Rattle.c_types_jumps.specs.Trees.{stands_in, bytes_of, ArePlaced, IsTree};

use crate::tree::{Tree, contains};
use c_grammar_tree::Name;
use c_lexer::{Rule, TextFault};
use c_types_names::Firsts;
use c_types_rules::note_place;
use std::alloc::{AllocError, Global};

/// A label or a goto: its name, and its position among the scopes of its function.
#[derive(Drop)]
pub(crate) struct Placed {
    pub(crate) name: Name,
    pub(crate) position: usize,
}

/// The place of a label whose name one of these has.
fn repeated(index: &Firsts, label: &Placed) -> Option<u32>
    ensures { option_places result ≡ at_if (is_some (place_of (bytes_eq label.now.name.bytes)
        index.now)) label.now.name.place }
{
    match index.place_of(label.name.bytes.as_slice()) {
        Some(_) => Some(label.name.place),
        None => None,
    }
}

/// Notes the labels whose name stands before them, and gives all names.
pub(crate) fn note_repeated(
    alloc: Global,
    first: &mut Option<TextFault>,
    labels: &[Placed],
) -> Result<Firsts, AllocError>
    ensures names { IfOk result (λ index. index ≡ map bytes_of labels.now) }
    ensures first { (base : List ℕ) (nodes : List TreeNode) → OnOk result (first.new
        ≡ first_with first.old (broken rule.N7 (repeated_labels []
        (map (stands_in base nodes) labels.now)))) }
{
    let mut index = Firsts::new(alloc);
    for label in labels {
        note_place(first, Rule::N7, repeated(&index, label));
        index.push(alloc, label.name.bytes.as_slice())?;
    }
    Ok(index)
}

/// The place of a goto that enters the scope of an object.
fn entering(tree: &Tree, index: &Firsts, labels: &[Placed], goto: &Placed) -> Option<u32>
    requires tree { IsTree tree.now }
    requires index { index.now ≡ map bytes_of labels.now }
    requires labels { ArePlaced tree.now.nodes.items labels.now }
    requires goto { goto.now.position < length tree.now.nodes.items }
    ensures { (base : List ℕ) → AllByRecursion (λ number. number < tree.now.first) base
        → option_places result ≡ at_if (unwrap_or (option_map
        (enters_scope (stands_in base tree.now.nodes.items goto.now))
        (find (λ label. bytes_eq label.name.bytes goto.now.name.bytes)
        (map (stands_in base tree.now.nodes.items) labels.now))) false) goto.now.name.place }
{
    let number = index.place_of(goto.name.bytes.as_slice())?;
    let label = &labels[number as usize];
    let inside = contains(tree, label.position, goto.position);
    if inside { None } else { Some(goto.name.place) }
}

/// Notes the gotos that enter the scope of an object.
pub(crate) fn note_entering(
    first: &mut Option<TextFault>,
    tree: &Tree,
    index: &Firsts,
    labels: &[Placed],
    gotos: &[Placed],
)
    requires tree { IsTree tree.now }
    requires index { index.now ≡ map bytes_of labels.now }
    requires labels { ArePlaced tree.now.nodes.items labels.now }
    requires gotos { ArePlaced tree.now.nodes.items gotos.now }
    ensures { (base : List ℕ) → AllByRecursion (λ number. number < tree.now.first) base
        → first.new ≡ first_with first.old (broken rule.N9 (entering_gotos
        (map (stands_in base tree.now.nodes.items) labels.now)
        (map (stands_in base tree.now.nodes.items) gotos.now))) }
{
    for goto in gotos {
        let place = entering(tree, index, labels, goto);
        note_place(first, Rule::N9, place);
    }
}
