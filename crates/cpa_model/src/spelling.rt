//! How facts, elements, statements, acts and edges are spelled in reports and messages, as
//! `specs/Spelling.antt` says.
ghost use Rattle.std.specs.Prelude.{◌≡◌, ◌++◌, ◌∷◌, List, ℕ, OnOk, decimal};
ghost use Rattle.std.specs.List.{flat_map};
ghost use Rattle.std.specs.String.{string_bytes};
ghost use Rattle.cpa_expr.specs.Spelling.{expr_text};
ghost use Rattle.cpa_model.specs.Spelling.{list_text, fact_text, elem_text, assign_text, stmt_text};
ghost use Rattle.cpa_model.specs.Spelling.{act_text, edge_text};

use crate::automaton::{Act, Edge};
use crate::facts::Elem;
use crate::program::Stmt;
use cpa_expr::{Expr, push_expr};
use cpa_facts::{Fact, Facts, Iter};
use std::alloc::AllocError;

/// What has one spelling.
pub trait Spell {
    ghost spelled: { Self → List ℕ };

    /// Adds the spelling at the end. Nothing is said of the text after an error, which comes for
    /// want of memory alone.
    fn spell(&self, out: &mut String) -> Result<(), AllocError>
        ensures { OnOk result (string_bytes out.new ≡ string_bytes out.old ++ spelled self.now) };
}

impl Spell for u32 {
    ghost spelled = { decimal };

    fn spell(&self, out: &mut String) -> Result<(), AllocError> {
        push_number(out, *self)
    }
}

/// Adds the number in decimal.
fn push_number(out: &mut String, number: u32) -> Result<(), AllocError>
    ensures { OnOk result (string_bytes out.new ≡ string_bytes out.old ++ decimal number) }
{
    write!(out, "{number}")
}

impl Spell for Expr {
    ghost spelled = { expr_text };

    fn spell(&self, out: &mut String) -> Result<(), AllocError> {
        push_expr(out, self)
    }
}

impl Spell for Fact {
    ghost spelled = { fact_text };

    fn spell(&self, out: &mut String) -> Result<(), AllocError> {
        match self {
            Fact::At { point } => write!(out, "[\"at\",{point}]"),
            Fact::Stack { sites } => {
                out.push_str("[\"stack\",")?;
                push_list(out, sites.as_slice())?;
                out.push_str("]")
            }
            Fact::Equals { cell, value } => write!(out, "[\"equals\",{cell},{value}]"),
            Fact::Within { cell, lo, hi } => write!(out, "[\"within\",{cell},{lo},{hi}]"),
            Fact::Truth { expr, holds } => {
                out.push_str("[\"truth\",\"")?;
                push_expr(out, expr)?;
                out.push_str(if *holds { "\",1]" } else { "\",0]" })
            }
        }
    }
}

impl Spell for Elem {
    ghost spelled = { elem_text };

    fn spell(&self, out: &mut String) -> Result<(), AllocError> {
        push_facts(out, &self.facts)
    }
}

impl Spell for Stmt {
    ghost spelled = { stmt_text };

    fn spell(&self, out: &mut String) -> Result<(), AllocError> {
        match self {
            Stmt::Block { items } => {
                out.push_str("block ")?;
                push_list(out, items.as_slice())
            }
            Stmt::If { test, yes, no } => {
                write!(out, "if {yes} {no} ")?;
                push_expr(out, test)
            }
            Stmt::Loop { body, step } => write!(out, "loop {body} {step}"),
            Stmt::Assign {
                base,
                len,
                index,
                value,
            } => push_assignment(out, *base, *len, index, value),
            Stmt::Input { cell } => write!(out, "input {cell}"),
            Stmt::Call { function } => write!(out, "call {function}"),
            Stmt::Goto { to } => write!(out, "goto {to}"),
            Stmt::Break => out.push_str("break"),
            Stmt::Continue => out.push_str("continue"),
            Stmt::Leave => out.push_str("leave"),
            Stmt::Stop => out.push_str("stop"),
            Stmt::Error => out.push_str("error"),
        }
    }
}

impl Spell for Act {
    ghost spelled = { act_text };

    fn spell(&self, out: &mut String) -> Result<(), AllocError> {
        match self {
            Act::Skip => out.push_str("skip"),
            Act::Assign {
                base,
                len,
                index,
                value,
            } => push_assignment(out, *base, *len, index, value),
            Act::Assume { test, holds } => {
                out.push_str(if *holds {
                    "assume true "
                } else {
                    "assume false "
                })?;
                push_expr(out, test)
            }
            Act::Input { cell } => write!(out, "input {cell}"),
            Act::Call { site } => write!(out, "call {site}"),
            Act::Return { site } => write!(out, "return {site}"),
        }
    }
}

impl Spell for Edge {
    ghost spelled = { edge_text };

    fn spell(&self, out: &mut String) -> Result<(), AllocError> {
        let Edge { from, to, act } = self;
        write!(out, "{from} to {to}: ")?;
        act.spell(out)
    }
}

/// Adds an assignment, which a statement and an act spell alike.
fn push_assignment(
    out: &mut String,
    base: u32,
    len: u32,
    index: &Expr,
    value: &Expr,
) -> Result<(), AllocError>
    ensures { OnOk result (string_bytes out.new
        ≡ string_bytes out.old ++ assign_text base len index.now value.now) }
{
    write!(out, "assign {base} {len} ")?;
    push_expr(out, index)?;
    out.push_str(" := ")?;
    push_expr(out, value)
}

/// Adds the facts between square brackets, with commas between them.
fn push_facts(out: &mut String, facts: &Facts) -> Result<(), AllocError>
    ensures { OnOk result
        (string_bytes out.new ≡ string_bytes out.old ++ list_text fact_text facts.now) }
{
    out.push_str("[")?;
    let mut left = facts.iter();
    if let Some(first) = left.next() {
        first.spell(out)?;
        push_left(out, left)?;
    }
    out.push_str("]")
}

/// Adds each fact that is left with a comma before it.
fn push_left(out: &mut String, left: Iter<'_>) -> Result<(), AllocError>
    ensures { OnOk result (string_bytes out.new
        ≡ string_bytes out.old ++ flat_map (λ fact. 44 ∷ fact_text fact) left.entry) }
{
    for fact in left {
        out.push_str(",")?;
        fact.spell(out)?;
    }
    Ok(())
}

/// Adds the items between square brackets, with commas between them. Nothing is said of the text
/// after an error, which comes for want of memory alone.
pub fn push_list<T: Spell>(out: &mut String, items: &[T]) -> Result<(), AllocError>
    ensures { OnOk result
        (string_bytes out.new ≡ string_bytes out.old ++ list_text T.spelled items.now) }
{
    out.push_str("[")?;
    if let Some((first, rest)) = items.split_first() {
        first.spell(out)?;
        push_rest(out, rest)?;
    }
    out.push_str("]")
}

/// Adds each item with a comma before it.
fn push_rest<T: Spell>(out: &mut String, items: &[T]) -> Result<(), AllocError>
    ensures { OnOk result (string_bytes out.new
        ≡ string_bytes out.old ++ flat_map (λ x. 44 ∷ T.spelled x) items.now) }
{
    for item in items {
        out.push_str(",")?;
        item.spell(out)?;
    }
    Ok(())
}
