//! The analysis: at an edge it does what the one of predicates does, after a path it keeps what
//! specs/Refining says, and it walks by specs/Walks. That it keeps the laws, and that a walk ends
//! where interpolants are predicates, is shown in `proofs/`.

ghost use Rattle.std.specs.Prelude.{◌≡◌, ◌<◌, ◌-◌, ◌^◌, List, [], ◌∷◌, Some, length, slice_get};
ghost use Rattle.std.specs.Prelude.{IfOk, OnErr};
ghost use Rattle.std.specs.List.{AllByRecursion};
ghost use Rattle.cpa_expr.specs.declared.tree.Expr.{Expr as AnExpr};
ghost use Rattle.cpa_model.specs.declared.automaton.Edge.{Edge as AnEdge};
ghost use Rattle.cpa_model.specs.Automata.{IsAutomaton};
ghost use Rattle.cpa_iface.specs.Common.{no_precision, merged_facts};
ghost use Rattle.cpa_iface.specs.Laws.{InitialLaws, FirstPrecisionLaws, TransferLaws};
ghost use Rattle.cpa_iface.specs.Laws.{StrengthenLaws, MergeLaws, AdjustLaws, RefineLaws};
ghost use Rattle.cpa_iface.specs.Meanings.{IsShaped, AreShaped, IsPrecision, IsPathOf};
ghost use Rattle.cpa_folds.specs.Along.{acts_along};
ghost use Rattle.cpa_predicate.specs.Predicates.{no_facts, default_budgets, budgets_of};
ghost use Rattle.cpa_predicate.specs.Questions.{Spends, SomeBeyond, IsOpen};
ghost use Rattle.cpa_predicate.specs.Transfer.{IsCartesian, NoneOpen};
ghost use Rattle.cpa_interpolant_rules.specs.Interpolants.{ArePathInterpolants};
ghost use Rattle.cpa_craig.specs.Craigs.{craigs};
ghost use Rattle.cpa_craig.specs.Refining.{IsRefined};
ghost use Rattle.cpa_craig.specs.Walks.{Walks, NeverOpen, SomeBeyondAlong};
ghost use Rattle.cpa_craig.specs.Walks.{IsPredIfRead};

use crate::refining::{refined_by, stops_in};
use crate::walking::walk_from;
use cpa_folds::carried_are_expressions;
use cpa_iface::{Analysis, Entry, MergeRule, Part, Precision, Settings};
use cpa_interpolant::along;
use cpa_model::{Cfa, Elem, Path, edges_are_sound, steps_keep_states};
use cpa_predicate::Predicate;
use std::alloc::{AllocError, Global};
use std::marker::Model;

/// The analysis of predicates that come of interpolants: behind an edge it knows what the one of
/// predicates knows, and after a path that has no run it keeps the interpolants along the path.
/// What it finds hangs on the budgets of the settings that `first_precision` was last given.
#[derive(Drop)]
pub struct Craig {
    predicate: Predicate,
    /// How many refinements stopped at a cut, at most the greatest `u64`.
    stops: u64,
}

impl Model for Craig {
    ghost use Rattle.cpa_predicate.specs.declared.asking.Budgets.{Budgets};
    ghost use Rattle.cpa_craig.specs.Craigs.{spent_more};

    ghost Value = { Budgets };

    ghost view = { λ c. spent_more c.stops c.predicate };
}

impl Craig {
    /// One that was given no settings yet. Takes no memory.
    pub fn new() -> Craig
        ensures { result ≡ default_budgets }
    {
        Craig {
            predicate: Predicate::new(),
            stops: 0,
        }
    }

    /// How many questions were not decided within the budgets, and how many refinements stopped at
    /// a cut, together at most the greatest `u64`. Takes no memory.
    pub fn spent(&self) -> u64
        ensures { result ≡ self.now.spent }
    {
        self.predicate.spent().saturating_add(self.stops)
    }

    /// The elements behind the last edge of the path, by transfers from the initial element on,
    /// edge after edge, with this precision. Where the predicates have each interpolant of the path
    /// that reads a cell, there is none, unless some question was not decided.
    pub fn walk(
        &mut self,
        alloc: Global,
        cfa: &Cfa,
        path: &Path,
        precision: &Precision,
    ) -> Result<Vec<Elem>, AllocError>
        requires automaton { IsAutomaton cfa.now }
        requires path { IsPathOf cfa.now path.now }
        requires precision { IsPrecision cfa.now precision.now }
        ensures shaped { IfOk result (λ es. AreShaped cfa.now es.items) }
        ensures exact { IfOk result (λ es.
            self.new.spent ≡ self.old.spent → self.new.spent < 2 ^ 64 - 1
            → Walks NeverOpen cfa.now precision.now.preds path.now.edges (no_facts ∷ [])
            es.items) }
        ensures known { IfOk result (λ es. Walks (IsOpen self.old self.new cfa.now) cfa.now
            precision.now.preds path.now.edges (no_facts ∷ []) es.items) }
        ensures spends { Spends self.old self.new
            (SomeBeyondAlong self.old cfa.now precision.now.preds path.now.edges) }
        ensures progress { IfOk result (λ es. (exprs : List AnExpr)
            → ArePathInterpolants cfa.now.cells (acts_along cfa.now path.now.edges) exprs
            → AllByRecursion (IsPredIfRead precision.now.preds) exprs
            → self.new.spent ≡ self.old.spent → self.new.spent < 2 ^ 64 - 1
            → es.items ≡ []) }
    {
        edges_are_sound();
        steps_keep_states();
        let mut first = Vec::new(alloc);
        first.push(self.initial(alloc, cfa)?)?;
        walk_from(alloc, self, cfa, path.edges.as_slice(), first, precision)
    }
}

impl Analysis for Craig {
    ghost meaning = { λ _. craigs };

    fn name(&self) -> &str {
        "craig"
    }

    fn exact_on(&self) -> Part {
        Part::Nothing
    }

    fn initial(&mut self, alloc: Global, cfa: &Cfa) -> Result<Elem, AllocError>
        requires { IsAutomaton cfa.now }
        ensures laws { IfOk result (λ e. InitialLaws craigs cfa.now e) }
        ensures given { IfOk result (λ e. e ≡ no_facts) }
        ensures budgets { self.new ≡ self.old }
    {
        self.predicate.initial(alloc, cfa)
    }

    fn first_precision(
        &mut self,
        alloc: Global,
        cfa: &Cfa,
        settings: &Settings,
    ) -> Result<Precision, AllocError>
        requires { IsAutomaton cfa.now }
        ensures laws { IfOk result (λ p. FirstPrecisionLaws craigs cfa.now settings.now p) }
        ensures given { IfOk result (λ p. p ≡ no_precision) }
        ensures budgets { self.new ≡ budgets_of settings.now self.old }
    {
        self.predicate.first_precision(alloc, cfa, settings)
    }

    fn transfer(
        &mut self,
        alloc: Global,
        cfa: &Cfa,
        edge: u32,
        elem: &Elem,
        precision: &Precision,
    ) -> Result<Vec<Elem>, AllocError>
        requires automaton { IsAutomaton cfa.now }
        requires edge { edge < length cfa.now.edges }
        requires elem { IsShaped cfa.now elem.now }
        requires precision { IsPrecision cfa.now precision.now }
        ensures laws { IfOk result (λ es.
            TransferLaws craigs cfa.now edge elem.now precision.now es.items) }
        ensures exact { IfOk result (λ es. (g : AnEdge) → slice_get cfa.now.edges edge ≡ Some g
            → self.new.spent ≡ self.old.spent → self.new.spent < 2 ^ 64 - 1
            → IsCartesian NoneOpen cfa.now elem.now g precision.now.preds es.items) }
        ensures known { IfOk result (λ es. (g : AnEdge) → slice_get cfa.now.edges edge ≡ Some g
            → IsCartesian (IsOpen self.old self.new cfa.now elem.now g) cfa.now elem.now g
            precision.now.preds es.items) }
        ensures spends { (g : AnEdge) → slice_get cfa.now.edges edge ≡ Some g
            → Spends self.old self.new
            (SomeBeyond self.old cfa.now elem.now g precision.now.preds) }
    {
        self.predicate.transfer(alloc, cfa, edge, elem, precision)
    }

    fn strengthen(
        &mut self,
        alloc: Global,
        cfa: &Cfa,
        own: &Elem,
        others: &[Elem],
        precision: &Precision,
    ) -> Result<Option<Elem>, AllocError>
        requires { IsShaped cfa.now own.now }
        ensures laws { IfOk result (λ e.
            StrengthenLaws craigs cfa.now own.now others.now precision.now e) }
        ensures given { IfOk result (λ e. e ≡ Some own.now) }
        ensures budgets { self.new ≡ self.old }
    {
        self.predicate
            .strengthen(alloc, cfa, own, others, precision)
    }

    fn merge(
        &mut self,
        alloc: Global,
        cfa: &Cfa,
        rule: MergeRule,
        new: &Elem,
        old: &Elem,
        precision: &Precision,
    ) -> Result<Elem, AllocError>
        requires { IsShaped cfa.now old.now }
        ensures laws { IfOk result (λ e.
            MergeLaws craigs cfa.now rule new.now old.now precision.now e) }
        ensures given { IfOk result (λ e. e ≡ merged_facts rule new.now old.now) }
        ensures budgets { self.new ≡ self.old }
    {
        self.predicate.merge(alloc, cfa, rule, new, old, precision)
    }

    fn covered_by(&self, elem: &Elem, other: &Elem) -> bool {
        self.predicate.covered_by(elem, other)
    }

    fn adjust(
        &mut self,
        alloc: Global,
        cfa: &Cfa,
        elem: &Elem,
        precision: &Precision,
        reached: &[Entry],
        place: u32,
    ) -> Result<(Elem, Precision), AllocError>
        requires elem { IsShaped cfa.now elem.now }
        requires precision { IsPrecision cfa.now precision.now }
        ensures laws { IfOk result (λ pair.
            AdjustLaws craigs cfa.now elem.now precision.now reached.now place pair.0 pair.1) }
        ensures given { IfOk result (λ pair. (pair.0 ≡ elem.now) × (pair.1 ≡ precision.now)) }
        ensures budgets { self.new ≡ self.old }
    {
        self.predicate
            .adjust(alloc, cfa, elem, precision, reached, place)
    }

    fn refine(
        &mut self,
        alloc: Global,
        cfa: &Cfa,
        path: &Path,
        precision: &Precision,
    ) -> Result<Precision, AllocError>
        requires automaton { IsAutomaton cfa.now }
        requires path { IsPathOf cfa.now path.now }
        requires precision { IsPrecision cfa.now precision.now }
        ensures laws { IfOk result (λ p. RefineLaws craigs cfa.now path.now precision.now p) }
        ensures refined { IfOk result (λ p.
            IsRefined cfa.now path.now self.old self.new precision.now p) }
        ensures unchanged { OnErr result (self.new ≡ self.old) }
    {
        carried_are_expressions();
        let budgets = self.predicate.budgets();
        let found = along(alloc, cfa, path, budgets.learnt, budgets.gates)?;
        let stops = stops_in(&found);
        let refined = refined_by(alloc, cfa, path, found, precision)?;
        self.stops = self.stops.saturating_add(stops);
        Ok(refined)
    }
}
