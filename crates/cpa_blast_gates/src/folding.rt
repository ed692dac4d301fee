//! What an operator comes to once constants, equal literals and opposite ones are folded, as
//! specs/Plans defines it; that it has the operator's value is proved in specs/lemmas/Folding.

ghost use Rattle.std.specs.Prelude.{◌≡◌, ◌*◌, ◌/◌};
ghost use Rattle.cpa_blast_gates.specs.Plans.{flipped, ordered_and, and_plan, or_plan, signed_xor};
ghost use Rattle.cpa_blast_gates.specs.Plans.{ordered_xor, xor_plan, constant_majority};
ghost use Rattle.cpa_blast_gates.specs.Plans.{distinct_majority, majority_plan, under};
ghost use Rattle.cpa_blast_gates.specs.Plans.{folded_choice};
ghost use Rattle.cpa_blast_gates.specs.Plans.{choice_plan};

use crate::gate::Gate;
use cpa_cnf::Lit;

/// A literal that is there already, a gate to be made, or the opposite of one.
#[derive(Clone, Copy)]
pub(crate) enum Plan {
    Known(Lit),
    Made(Gate),
    Negated(Gate),
}

/// The literal that is true.
pub fn always() -> Lit
    ensures { result ≡ 0 }
{
    Lit::new(0, false)
}

/// The literal that is false.
pub fn never() -> Lit
    ensures { result ≡ 1 }
{
    Lit::new(0, true)
}

/// The opposite of what a plan gives.
fn flipped(plan: Plan) -> Plan
    ensures { result ≡ flipped plan }
{
    match plan {
        Plan::Known(literal) => Plan::Known(literal.opposite()),
        Plan::Made(gate) => Plan::Negated(gate),
        Plan::Negated(gate) => Plan::Made(gate),
    }
}

/// Both of two literals, the lesser one first.
fn ordered_and(a: Lit, b: Lit) -> Plan
    ensures { result ≡ ordered_and a b }
{
    if a == always() {
        Plan::Known(b)
    } else if a == never() {
        Plan::Known(never())
    } else if a == b {
        Plan::Known(a)
    } else if b == a.opposite() {
        Plan::Known(never())
    } else {
        Plan::Made(Gate::And(a, b))
    }
}

/// Both of two literals.
#[tactic(auto, unfolding(crate::specs::Plans::and_plan))]
pub(crate) fn and_plan(a: Lit, b: Lit) -> Plan
    ensures { result ≡ and_plan a b }
{
    if b.number() < a.number() {
        ordered_and(b, a)
    } else {
        ordered_and(a, b)
    }
}

/// One of two literals, or both.
#[tactic(auto, unfolding(crate::specs::Plans::or_plan))]
pub(crate) fn or_plan(a: Lit, b: Lit) -> Plan
    ensures { result ≡ or_plan a b }
{
    flipped(and_plan(a.opposite(), b.opposite()))
}

/// The positive literal of the variable.
fn positive(literal: Lit) -> Lit
    ensures { result ≡ 2 * (literal / 2) }
{
    Lit::new(literal.var(), false)
}

/// One of two literals of different variables: a gate of their variables.
fn signed_xor(a: Lit, b: Lit) -> Plan
    ensures { result ≡ signed_xor a b }
{
    let gate = Gate::Xor(positive(a), positive(b));
    if a.is_negative() {
        if b.is_negative() {
            Plan::Made(gate)
        } else {
            Plan::Negated(gate)
        }
    } else if b.is_negative() {
        Plan::Negated(gate)
    } else {
        Plan::Made(gate)
    }
}

/// One of two literals and not both, the lesser one first.
fn ordered_xor(a: Lit, b: Lit) -> Plan
    ensures { result ≡ ordered_xor a b }
{
    if a == always() {
        Plan::Known(b.opposite())
    } else if a == never() {
        Plan::Known(b)
    } else if a == b {
        Plan::Known(never())
    } else if b == a.opposite() {
        Plan::Known(always())
    } else {
        signed_xor(a, b)
    }
}

/// One of two literals and not both.
#[tactic(auto, unfolding(crate::specs::Plans::xor_plan))]
pub(crate) fn xor_plan(a: Lit, b: Lit) -> Plan
    ensures { result ≡ xor_plan a b }
{
    if b.number() < a.number() {
        ordered_xor(b, a)
    } else {
        ordered_xor(a, b)
    }
}

/// Two of three literals, of which the first is a constant.
fn constant_majority(constant: Lit, a: Lit, b: Lit) -> Plan
    ensures { result ≡ constant_majority constant a b }
{
    if constant == always() {
        or_plan(a, b)
    } else {
        and_plan(a, b)
    }
}

/// Two of three literals that are no constants.
fn distinct_majority(a: Lit, b: Lit, c: Lit) -> Plan
    ensures { result ≡ distinct_majority a b c }
{
    if a == b {
        Plan::Known(a)
    } else if a == b.opposite() {
        Plan::Known(c)
    } else if a == c {
        Plan::Known(a)
    } else if a == c.opposite() {
        Plan::Known(b)
    } else if b == c {
        Plan::Known(b)
    } else if b == c.opposite() {
        Plan::Known(a)
    } else {
        Plan::Made(Gate::Majority(a, b, c))
    }
}

/// Two of three literals.
#[tactic(auto, unfolding(crate::specs::Plans::majority_plan))]
pub(crate) fn majority_plan(a: Lit, b: Lit, c: Lit) -> Plan
    ensures { result ≡ majority_plan a b c }
{
    if a.var() == 0 {
        constant_majority(a, b, c)
    } else if b.var() == 0 {
        constant_majority(b, a, c)
    } else if c.var() == 0 {
        constant_majority(c, a, b)
    } else {
        distinct_majority(a, b, c)
    }
}

/// What a literal is where the test is true.
fn under(test: Lit, literal: Lit) -> Lit
    ensures { result ≡ under test literal }
{
    if literal == test {
        always()
    } else if literal == test.opposite() {
        never()
    } else {
        literal
    }
}

/// The first where the test is true, else the second, with the test taken out of both.
fn folded_choice(test: Lit, first: Lit, second: Lit) -> Plan
    ensures { result ≡ folded_choice test first second }
{
    if first == second {
        Plan::Known(first)
    } else if first == second.opposite() {
        flipped(xor_plan(test, first))
    } else if first == always() {
        or_plan(test, second)
    } else if first == never() {
        and_plan(test.opposite(), second)
    } else if second == always() {
        or_plan(test.opposite(), first)
    } else if second == never() {
        and_plan(test, first)
    } else {
        Plan::Made(Gate::Choice(test, first, second))
    }
}

/// The first where the test is true, else the second.
#[tactic(auto, unfolding(crate::specs::Plans::choice_plan))]
pub(crate) fn choice_plan(test: Lit, first: Lit, second: Lit) -> Plan
    ensures { result ≡ choice_plan test first second }
{
    if test == always() {
        Plan::Known(first)
    } else if test == never() {
        Plan::Known(second)
    } else {
        folded_choice(test, under(test, first), under(test.opposite(), second))
    }
}
