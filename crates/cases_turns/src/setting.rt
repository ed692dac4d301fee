//! What the rows of a subject have set so far. Nothing is proved of it here.

use crate::composites::picks_of;
use cases_programs::Table;
use cases_reader::{RowFault, index_of_word, indices_of, whole_expr};
use cpa_iface::{Cells, Pick, Precision, Settings, empty_precision};
use cpa_model::{Expr, Seq, Shared};
use std::alloc::Global;

/// What the rows have set.
#[derive(Drop)]
pub struct Setting {
    pub table: Table,
    /// The precision that an analysis is handed.
    pub precision: Precision,
    /// The settings that `first` of a `Predicate` is handed.
    pub settings: Settings,
    /// The analyses that a composite uses.
    pub picks: Vec<Pick>,
    /// The precision of each pick.
    pub precisions: Vec<Precision>,
}

impl Setting {
    /// No program, no picks, and a precision without cells and predicates. It takes no memory.
    pub fn new(alloc: Global) -> Setting {
        Setting {
            table: Table::new(alloc),
            precision: empty_precision(alloc),
            settings: with_budgets(0, 0),
            picks: Vec::new(alloc),
            precisions: Vec::new(alloc),
        }
    }

    /// Sets what a row names, and says whether it names something:
    /// `precision LIMIT : CELL .. : PREDICATE : ..`, `predicates : PREDICATE : ..`,
    /// `settings LEARNT GATES`, `picks NAME RULE ..`, `precisions : LIMIT, CELL .. : ..`, a part
    /// for each pick, or a row of `Table::set`.
    pub fn set(&mut self, alloc: Global, words: &[&str], parts: &[&str]) -> Result<bool, RowFault> {
        match (words, parts) {
            (["precision", limit], [cells, preds @ ..]) => {
                self.precision = precision_of(alloc, limit, cells, preds)?;
            }
            (["predicates"], preds) => self.precision = precision_of(alloc, "0", "", preds)?,
            (["settings", learnt, gates], []) => self.settings = settings_of(learnt, gates)?,
            (["picks", picks @ ..], []) => self.picks = picks_of(alloc, picks)?,
            (["precisions"], parts) => self.precisions = precisions_of(alloc, parts)?,
            _ => return self.table.set(alloc, words, parts),
        }
        Ok(true)
    }
}

/// `LIMIT : CELL .. : PREDICATE : ..`, whether or not it fits the program.
fn precision_of(
    alloc: Global,
    limit: &str,
    cells: &str,
    preds: &[&str],
) -> Result<Precision, RowFault> {
    let limit = index_of_word(limit)?;
    let tracked = indices_of(alloc, cells)?;
    let preds = exprs_of(alloc, preds)?;
    Ok(Precision {
        tracked: Cells::from_seq(alloc, tracked)?,
        limit,
        preds: Shared::from_seq(alloc, preds)?,
    })
}

/// The expressions that texts spell.
fn exprs_of(alloc: Global, texts: &[&str]) -> Result<Seq<Expr>, RowFault> {
    let mut exprs = Seq::new(alloc);
    for text in texts {
        exprs.push(whole_expr(alloc, text)?)?;
    }
    Ok(exprs)
}

/// `LEARNT GATES`
fn settings_of(learnt: &str, gates: &str) -> Result<Settings, RowFault> {
    let learnt = index_of_word(learnt)?;
    let gates = gates.parse::<u64>()?;
    Ok(with_budgets(learnt, gates))
}

/// Settings that track no cell, with these budgets.
fn with_budgets(learnt: u32, gates: u64) -> Settings {
    Settings {
        tracked_all: false,
        limit: 0,
        learnt,
        gates,
    }
}

/// `LIMIT, CELL .. : ..`, a precision for each part, none with predicates.
fn precisions_of(alloc: Global, parts: &[&str]) -> Result<Vec<Precision>, RowFault> {
    let mut precisions = Vec::new(alloc);
    for part in parts {
        let (limit, cells) = part.split_once(',').unwrap_or((part, ""));
        precisions.push(precision_of(alloc, limit.trim(), cells, &[])?)?;
    }
    Ok(precisions)
}
