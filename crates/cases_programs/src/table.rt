//! What the rows so far have set: a program, and the tables that go with it. Nothing is proved of
//! it here.

use crate::statements::stmt_of;
use cases_reader::{RowFault, index_of_word, indices_of_words, number_of_word, type_of_word};
use cpa_model::{Cell, Program, Seq};
use std::alloc::Global;
use std::mem;

/// A program of rows, with its tables.
#[derive(Drop)]
pub struct Table {
    pub program: Program,
    /// Where the tree of each statement ends: the number behind its last one.
    pub ends: Seq<u32>,
    /// The function in which each statement stands.
    pub owners: Seq<u32>,
    /// A number for each function that is above those of the functions which it calls.
    pub levels: Seq<u32>,
}

impl Table {
    /// No program. It takes no memory.
    pub fn new(alloc: Global) -> Table {
        Table {
            program: Program {
                cells: Seq::new(alloc),
                bodies: Seq::new(alloc),
                main: 0,
                stmts: Seq::new(alloc),
                text_len: 0,
            },
            ends: Seq::new(alloc),
            owners: Seq::new(alloc),
            levels: Seq::new(alloc),
        }
    }

    /// Sets what the words and parts of a row name, and says whether they name something: a part of
    /// `set_part`, `stmt` with one more statement, or `put N` with another one in the place of the
    /// statement N.
    pub fn set(&mut self, alloc: Global, words: &[&str], parts: &[&str]) -> Result<bool, RowFault> {
        match words {
            ["stmt", words @ ..] => self.push_stmt(alloc, words, parts)?,
            ["put", number, words @ ..] => self.put_stmt(alloc, number, words, parts)?,
            _ => return self.set_part(alloc, words),
        }
        Ok(true)
    }

    /// Sets what words name: `program`, which begins another one, `main FUNCTION`,
    /// `cells T START ..`, or a list of `set_numbers`.
    fn set_part(&mut self, alloc: Global, words: &[&str]) -> Result<bool, RowFault> {
        match words {
            ["program"] => *self = Table::new(alloc),
            ["main", function] => self.program.main = index_of_word(function)?,
            ["cells", cells @ ..] => self.program.cells = cells_of(alloc, cells)?,
            [word, numbers @ ..] => return self.set_numbers(alloc, word, numbers),
            [] => return Ok(false),
        }
        Ok(true)
    }

    /// Adds the statement that the words and parts spell.
    fn push_stmt(&mut self, alloc: Global, words: &[&str], parts: &[&str]) -> Result<(), RowFault> {
        let stmt = stmt_of(alloc, words, parts)?;
        self.program.stmts.push(stmt)?;
        Ok(())
    }

    /// The statement comes in the place of the one of this number. It is added first, since a
    /// statement that lives on beside another one is dear to prove.
    fn put_stmt(
        &mut self,
        alloc: Global,
        number: &str,
        words: &[&str],
        parts: &[&str],
    ) -> Result<(), RowFault> {
        let number = index_of_word(number)? as usize;
        if self.program.stmts.len() <= number {
            return Err(RowFault::Unreadable);
        }
        self.push_stmt(alloc, words, parts)?;
        self.move_last(alloc, number);
        Ok(())
    }

    /// Puts the last statement in the place of another one.
    fn move_last(&mut self, alloc: Global, number: usize) {
        let mut stmts = mem::replace(&mut self.program.stmts, Seq::new(alloc)).into_vec();
        let last = stmts.len().saturating_sub(1);
        if number < last {
            stmts.swap(number, last);
            stmts.truncate(last);
        }
        self.program.stmts = Seq::from_vec(stmts);
    }

    /// Sets `bodies N ..`, `ends N ..`, `owners N ..` or `levels N ..`; false where the word names
    /// none of them.
    fn set_numbers(
        &mut self,
        alloc: Global,
        word: &str,
        numbers: &[&str],
    ) -> Result<bool, RowFault> {
        let list = match word {
            "bodies" => &mut self.program.bodies,
            "ends" => &mut self.ends,
            "owners" => &mut self.owners,
            "levels" => &mut self.levels,
            _ => return Ok(false),
        };
        *list = indices_of_words(alloc, numbers)?;
        Ok(true)
    }
}

/// The cells of these words, a type and a start each.
fn cells_of(alloc: Global, words: &[&str]) -> Result<Seq<Cell>, RowFault> {
    let mut cells = Seq::new(alloc);
    let mut rest = words;
    while let [ty, start, behind @ ..] = rest {
        cells.push(cell_of(ty, start)?)?;
        rest = behind;
    }
    if !rest.is_empty() {
        return Err(RowFault::Unreadable);
    }
    Ok(cells)
}

/// A cell of the type, with the number that it has at the start.
fn cell_of(ty: &str, start: &str) -> Result<Cell, RowFault> {
    let ty = type_of_word(ty)?;
    let start = number_of_word(start)?;
    Ok(Cell { ty, start })
}
