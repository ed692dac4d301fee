//! Whether a line is good: its chain is followed in a table of marks, which is cleared again by
//! what was touched.

ghost use Rattle.std.specs.Prelude.{◌≡◌, ◌↔◌, ◌⊎◌, ◌||◌, ◌&&◌, ◌*◌, ◌+◌, ◌<◌, ℕ, not, true, false};
ghost use Rattle.std.specs.Prelude.{None, [], length, slice_index_or, IsTrue};
ghost use Rattle.std.specs.Bool.{OnTrue, OnFalse};
ghost use Rattle.cpa_cnf.specs.Literals.{opposite};
ghost use Rattle.cpa_cnf.specs.Clauses.{has, IsClause};
ghost use Rattle.cpa_cnf.specs.Resolution.{clash_on, in_union_without};
ghost use Rattle.cpa_cnf.specs.Lines.{known, IsInRange, IsGoodLine, IsGoodAt};
ghost use Rattle.cpa_cnf.specs.Marking.{marked, IsBlankFor, HasBeyond, IsMarkedResolvent};
ghost use Rattle.cpa_cnf.specs.Marking.{is_touched, AreTouched, IsInRangeOf, Reaches, ReachesNone};

use crate::clause::Clause;
use crate::formula::{Cnf, Line, Step};
use crate::literal::Lit;
use crate::marks::{Marks, all_marked, clear, is_marked, mark, none_marked};

/// The clause that a number names.
fn named<'a>(cnf: &'a Cnf, earlier: &'a [Line], number: u32) -> &'a Clause
    requires { number < length (known cnf.now earlier.now) }
    ensures { result.now ≡ slice_index_or (known cnf.now earlier.now) number [] }
{
    let clauses = cnf.clauses.as_slice();
    let number = number as usize;
    if number < clauses.len() {
        &clauses[number]
    } else {
        &earlier[number - clauses.len()].clause
    }
}

/// The literal of the pivot that is marked and whose opposite the clause has, if there is one.
fn clash(table: &[bool], clause: &Clause, pivot: u32) -> Option<Lit>
    ensures { result ≡ clash_on (marked table.now) (has clause.now) pivot }
{
    let positive = Lit::new(pivot, false);
    let negative = Lit::new(pivot, true);
    if is_marked(table, positive) && clause.contains(negative) {
        Some(positive)
    } else if is_marked(table, negative) && clause.contains(positive) {
        Some(negative)
    } else {
        None
    }
}

/// Takes the literal out of the marked ones and its opposite out of the clause, and marks what is
/// left; false where the clause has a literal beyond the table.
fn mark_union(table: &mut [bool], clause: &Clause, literal: Lit) -> bool
    requires here { literal < length table.old }
    requires there { opposite literal < length table.old }
    ensures union { OnTrue result ((l : ℕ)
        → marked table.new l ≡ in_union_without (marked table.old) (has clause.now) literal l) }
    ensures beyond { OnFalse result (HasBeyond table.old clause.now) }
    ensures only { (l : ℕ) → marked table.new l ≡ true
        → (marked table.old l || has clause.now l) ≡ true }
{
    let other = literal.opposite().number();
    let stays = table[other];
    table[literal.number()] = false;
    if !mark(table, clause.literals()) {
        return false;
    }
    table[other] = stays;
    true
}

/// Resolves the marked literals with the clause; false where they do not clash on the pivot, or a
/// literal lies beyond the table.
fn take_step(table: &mut [bool], clause: &Clause, pivot: u32) -> bool
    requires { 2 * pivot + 1 < length table.old }
    ensures resolves { OnTrue result (IsMarkedResolvent table.old clause.now pivot table.new) }
    ensures fails { OnFalse result ((clash_on (marked table.old) (has clause.now) pivot ≡ None)
        ⊎ HasBeyond table.old clause.now) }
    ensures only { (l : ℕ) → marked table.new l ≡ true
        → (marked table.old l || has clause.now l) ≡ true }
{
    match clash(table, clause, pivot) {
        Some(literal) => mark_union(table, clause, literal),
        None => false,
    }
}

/// Marks the literals of the clause that the line's chain gives; false where a step does not
/// resolve or a literal lies beyond the table.
fn follow(cnf: &Cnf, earlier: &[Line], line: &Line, table: &mut [bool]) -> bool
    requires range { IsInRange cnf.now.vars (known cnf.now earlier.now) line.now }
    requires blank { IsBlankFor cnf.now.vars table.old }
    ensures reaches { OnTrue result (Reaches (known cnf.now earlier.now) line.now table.new) }
    ensures none { OnFalse result (ReachesNone cnf.now.vars (known cnf.now earlier.now) line.now) }
    ensures touched { AreTouched (known cnf.now earlier.now) line.now.first line.now.steps
        table.new }
{
    if !mark(table, named(cnf, earlier, line.first).literals()) {
        return false;
    }
    for step in &line.steps {
        if !take_step(table, named(cnf, earlier, step.clause), step.pivot) {
            return false;
        }
    }
    true
}

/// Whether no literal of a clause that the chain names is marked.
fn none_touched(cnf: &Cnf, earlier: &[Line], line: &Line, table: &[bool]) -> bool
    requires { IsInRange cnf.now.vars (known cnf.now earlier.now) line.now }
    ensures { IsTrue result ↔ ((l : ℕ)
        → is_touched (known cnf.now earlier.now) line.now.first line.now.steps l ≡ true
        → marked table.now l ≡ false) }
{
    if !none_marked(table, named(cnf, earlier, line.first).literals()) {
        return false;
    }
    for step in &line.steps {
        if !none_marked(table, named(cnf, earlier, step.clause).literals()) {
            return false;
        }
    }
    true
}

/// Takes the marks off the literals of the clauses that the chain names.
fn clear_touched(cnf: &Cnf, earlier: &[Line], line: &Line, table: &mut [bool])
    requires { IsInRange cnf.now.vars (known cnf.now earlier.now) line.now }
    ensures { (l : ℕ) → marked table.new l
        ≡ (marked table.old l && not
        (is_touched (known cnf.now earlier.now) line.now.first line.now.steps l)) }
{
    clear(table, named(cnf, earlier, line.first).literals());
    for step in &line.steps {
        clear(table, named(cnf, earlier, step.clause).literals());
    }
}

/// Whether the line's numbers and variables are in range.
fn is_in_range(vars: u32, count: usize, line: &Line) -> bool
    ensures { IsTrue result ↔ IsInRangeOf vars count line.now }
{
    (line.first as usize) < count
        && line
            .steps
            .iter()
            .all(|step| (step.clause as usize) < count && step.pivot < vars)
        && line
            .clause
            .literals()
            .iter()
            .all(|literal| literal.var() < vars)
}

/// Whether the marked literals are those of the line's clause, whose marks it takes off.
fn take_clause(cnf: &Cnf, earlier: &[Line], line: &Line, table: &mut [bool]) -> bool
    requires range { IsInRange cnf.now.vars (known cnf.now earlier.now) line.now }
    requires touched { AreTouched (known cnf.now earlier.now) line.now.first line.now.steps
        table.old }
    ensures same { IsTrue result ↔ ((l : ℕ) → has line.now.clause l ≡ marked table.old l) }
    ensures sorted { IsClause line.now.clause }
    ensures touched { AreTouched (known cnf.now earlier.now) line.now.first line.now.steps
        table.new }
{
    let is_reached = all_marked(table, line.clause.literals());
    clear(table, line.clause.literals());
    is_reached && none_touched(cnf, earlier, line, table)
}

/// `check_line` over a table without marks, which it leaves without marks.
fn check(cnf: &Cnf, earlier: &[Line], line: &Line, table: &mut [bool]) -> bool
    requires range { IsInRange cnf.now.vars (known cnf.now earlier.now) line.now }
    requires blank { IsBlankFor cnf.now.vars table.old }
    ensures good { IsTrue result ↔ IsGoodLine cnf.now.vars (known cnf.now earlier.now) line.now }
    ensures blank { IsBlankFor cnf.now.vars table.new }
{
    let is_followed = follow(cnf, earlier, line, table);
    let is_same = take_clause(cnf, earlier, line, table);
    clear_touched(cnf, earlier, line, table);
    is_followed && is_same
}

/// Whether line `i` is good: its numbers name clauses of the formula or earlier lines, its
/// variables are below `vars`, each step resolves, and the chain gives the line's clause. It takes
/// no memory, and time linear in the literals of the clauses that the line names.
pub fn check_line(cnf: &Cnf, log: &[Line], i: u32, marks: &mut Marks) -> bool
    requires inside { i < length log.now }
    requires fits { marks.old ≡ cnf.now.vars }
    ensures good { IsTrue result ↔ IsGoodAt cnf.now log.now i }
    ensures same { marks.new ≡ marks.old }
{
    let i = i as usize;
    let line = &log[i];
    if !is_in_range(cnf.vars, cnf.clauses.as_slice().len() + i, line) {
        return false;
    }
    check(cnf, &log[..i], line, &mut marks.table)
}
