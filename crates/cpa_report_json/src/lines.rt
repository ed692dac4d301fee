//! Literals, clauses and lines of a refutation. A chain is told as one list of numbers.
ghost use Rattle.std.specs.Prelude.{◌≡◌, ◌∷◌, ◌<◌, ◌^◌, ℕ, List, length, Ok, OnOk, IfOk};
ghost use Rattle.std.specs.List.{AllByRecursion};
ghost use Rattle.json.specs.Token.{Token as Piece};
ghost use Rattle.cpa_cnf.specs.declared.formula.Step.{Step as AStep};
ghost use Rattle.cpa_report_json.specs.Fits.{AreSmall, LiteralFits, ClauseFits, StepFits, LineFits};
ghost use Rattle.cpa_report_json.specs.Taking.{literal_integer, numbers_of, Made, Took};
ghost use Rattle.cpa_report_print.specs.Reports.{literal_data, list_data, line_data, numbers_data};
ghost use Rattle.cpa_report_print.specs.Tokens.{onto};

use crate::fault::ReadFault;
use crate::lists::FromJson;
use crate::steps::{close_list, open_list};
use cpa_cnf::{Clause, Line, Lit, Step};
use cpa_ints::Seq;
use json::Reader;
use std::alloc::Global;

/// The literal of the number: of variable v it is v + 1, of its negation -(v + 1).
fn literal(number: i128) -> Result<Lit, ReadFault>
    ensures read { (l : ℕ) → LiteralFits l → literal_integer l ≡ number → result ≡ Ok l }
    ensures fit { IfOk result LiteralFits }
{
    let Some(var) = number.unsigned_abs().checked_sub(1) else {
        return Err(ReadFault::Other);
    };
    match u32::try_from(var) {
        Ok(var) => Ok(Lit::new(var, number < 0)),
        Err(_) => Err(ReadFault::Other),
    }
}

impl FromJson for Lit {
    ghost json = { literal_data };

    ghost fits = { LiteralFits };

    /// Takes a literal.
    fn take(alloc: Global, reader: &mut Reader<'_>) -> Result<Lit, ReadFault> {
        let number = i128::take(alloc, reader)?;
        literal(number)
    }
}

/// The clause of the literals. It is them where they are sorted without repeats.
fn clause_of(literals: Seq<Lit>) -> Result<Clause, ReadFault>
    ensures made { ClauseFits literals → Made literals result }
    ensures fit { AllByRecursion LiteralFits literals → IfOk result ClauseFits }
{
    let clause = Clause::from_lits(literals.into_vec())?;
    Ok(clause)
}

impl FromJson for Clause {
    ghost json = { list_data literal_data };

    ghost fits = { ClauseFits };

    /// Takes a clause.
    fn take(alloc: Global, reader: &mut Reader<'_>) -> Result<Clause, ReadFault> {
        let literals = FromJson::take(alloc, reader)?;
        clause_of(literals)
    }
}

/// The steps whose numbers these are.
fn steps_of(alloc: Global, numbers: &[u32]) -> Result<Seq<Step>, ReadFault>
    ensures made { (steps : List AStep) → numbers.now ≡ numbers_of steps → Made steps result }
    ensures fit { AreSmall numbers.now → IfOk result (AllByRecursion StepFits) }
{
    let mut found = Seq::new(alloc);
    let mut rest = numbers;
    'steps: while let Some((pivot, more)) = rest.split_first() {
        let Some((clause, behind)) = more.split_first() else {
            return Err(ReadFault::Other);
        };
        found.push(Step {
            pivot: *pivot,
            clause: *clause,
        })?;
        rest = behind;
    }
    Ok(found)
}

/// The number of the first clause of a chain, and its steps.
fn chain_of(alloc: Global, numbers: &[u32]) -> Result<(u32, Seq<Step>), ReadFault>
    ensures made { (first : ℕ) (steps : List AStep) → numbers.now ≡ first ∷ numbers_of steps
        → Made (first, steps) result }
    ensures fit { AreSmall numbers.now
        → IfOk result (λ p. (p.0 < 2 ^ 32) × AllByRecursion StepFits p.1) }
{
    match numbers.split_first() {
        Some((first, behind)) => {
            let steps = steps_of(alloc, behind)?;
            Ok((*first, steps))
        }
        None => Err(ReadFault::Other),
    }
}

/// Takes a chain: the number of its first clause, and the pivot and the clause of each step.
fn take_chain(alloc: Global, reader: &mut Reader<'_>) -> Result<(u32, Seq<Step>), ReadFault>
    ensures took { (first : ℕ) (steps : List AStep) (rest : List Piece) → first < 2 ^ 32
        → AllByRecursion StepFits steps
        → reader.old ≡ onto (numbers_data (first ∷ numbers_of steps)) rest
        → Took (first, steps) rest result reader.new }
    ensures fit { IfOk result (λ p. (p.0 < 2 ^ 32) × AllByRecursion StepFits p.1) }
    ensures shorter { OnOk result (length reader.new < length reader.old) }
{
    let numbers: Seq<u32> = match FromJson::take(alloc, reader) {
        Ok(numbers) => numbers,
        Err(fault) => return Err(fault),
    };
    chain_of(alloc, numbers.as_slice())
}

impl FromJson for Line {
    ghost json = { line_data };

    ghost fits = { LineFits };

    /// Takes a line.
    fn take(alloc: Global, reader: &mut Reader<'_>) -> Result<Line, ReadFault> {
        open_list(reader)?;
        let clause = Clause::take(alloc, reader)?;
        let (first, steps) = take_chain(alloc, reader)?;
        close_list(reader)?;
        Ok(Line {
            clause,
            first,
            steps,
        })
    }
}
