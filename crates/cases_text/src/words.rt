//! A program in a line: its length, its cells, its bodies, its main, its statements; and an
//! automaton. Proved safe by the checker alone.

use cpa_expr::{Expr, push_expr, type_word};
use cpa_model::{Cell, Cfa, Program, Spell, Stmt, push_list};
use std::alloc::{AllocError, Global};

/// A program in a line.
pub(crate) fn program_line(alloc: Global, program: &Program) -> Result<String, AllocError> {
    let mut line = String::new(alloc);
    push_program(&mut line, program)?;
    Ok(line)
}

/// Adds a program.
fn push_program(line: &mut String, program: &Program) -> Result<(), AllocError> {
    write!(line, "text {}", program.text_len)?;
    for cell in &program.cells {
        push_cell(line, *cell)?;
    }
    for body in &program.bodies {
        write!(line, "; body {body}")?;
    }
    write!(line, "; main {}", program.main)?;
    for statement in &program.stmts {
        line.push_str("; ")?;
        push_statement(line, statement)?;
    }
    Ok(())
}

/// An automaton in a line: its points, where it starts, its error points, its edges.
pub(crate) fn automaton_line(alloc: Global, cfa: &Cfa) -> Result<String, AllocError> {
    let mut line = String::new(alloc);
    push_automaton(&mut line, cfa)?;
    Ok(line)
}

/// Adds an automaton.
fn push_automaton(line: &mut String, cfa: &Cfa) -> Result<(), AllocError> {
    write!(line, "points {}; start {}; errors ", cfa.points, cfa.start)?;
    push_list(line, cfa.errors.as_slice())?;
    for edge in &cfa.edges {
        line.push_str("; ")?;
        edge.spell(line)?;
    }
    Ok(())
}

/// Adds a cell: its type, and what it starts at.
fn push_cell(line: &mut String, cell: Cell) -> Result<(), AllocError> {
    let word = type_word(cell.ty);
    write!(line, "; cell {word} start {}", cell.start)
}

/// Adds a statement.
fn push_statement(line: &mut String, statement: &Stmt) -> Result<(), AllocError> {
    match statement {
        Stmt::Block { items } => push_block(line, items.as_slice()),
        Stmt::If { test, yes, no } => push_if(line, test, *yes, *no),
        Stmt::Loop { body, step } => write!(line, "Loop body {body} step {step}"),
        Stmt::Assign {
            base,
            len,
            index,
            value,
        } => push_assign(line, *base, *len, index, value),
        Stmt::Input { cell } => write!(line, "Input {cell}"),
        Stmt::Call { function } => write!(line, "Call function {function}"),
        Stmt::Goto { to } => write!(line, "Goto {to}"),
        Stmt::Break => line.push_str("Break"),
        Stmt::Continue => line.push_str("Continue"),
        Stmt::Leave => line.push_str("Leave"),
        Stmt::Stop => line.push_str("Stop"),
        Stmt::Error => line.push_str("Error"),
    }
}

/// Adds a block.
fn push_block(line: &mut String, items: &[u32]) -> Result<(), AllocError> {
    line.push_str("Block")?;
    for item in items {
        write!(line, " {item}")?;
    }
    Ok(())
}

/// Adds a choice between two statements.
fn push_if(line: &mut String, test: &Expr, yes: u32, no: u32) -> Result<(), AllocError> {
    write!(line, "If yes {yes} no {no} test (")?;
    push_expr(line, test)?;
    line.push_str(")")
}

/// Adds an assignment.
fn push_assign(
    line: &mut String,
    base: u32,
    len: u32,
    index: &Expr,
    value: &Expr,
) -> Result<(), AllocError> {
    write!(line, "Assign {base} {len} (")?;
    push_expr(line, index)?;
    line.push_str(") := (")?;
    push_expr(line, value)?;
    line.push_str(")")
}
