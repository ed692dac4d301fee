//! Forms: queries on runs of stores along edges. Contracts see the `Form` of `cpa_form_rules`,
//! whose laws say what the models of its query are.

ghost use Rattle.std.specs.Prelude.{◌≡◌, ◌<◌, length, slice_get, Some, IfOk, OnOk, OnErr};
ghost use Rattle.cpa_model.specs.declared.automaton.Edge.{Edge as AnEdge};
ghost use Rattle.cpa_form_rules.specs.Runs.{taken, holding, failing};
ghost use Rattle.cpa_form_rules.specs.Forms.{begun, with_added, first_store, last_store};
ghost use Rattle.cpa_form_rules.specs.Forms.{inputs_at, place_now};

use crate::parts::{Parts, copy};
use crate::settling::push_copies;
use crate::{adding, beginning, reading};
use cpa_expr::Store;
use cpa_form_renaming::number_at;
use cpa_ints::Seq;
use cpa_model::{Cfa, Elem};
use cpa_query::Query;
use std::alloc::{AllocError, Global};
use std::marker::Model;

/// The query of a beginning and of the edges and elements that were added to it, in order. What is
/// said of a store is said of the one that is there when it is said.
///
/// An edge that traps has no run. Facts on the point and on the stack are passed over, so an
/// element without other facts cannot fail. Each write and each input takes new cells, so that the
/// query grows with what is added, and no expression is put into another one. Where memory ends, or
/// the query would have 2^32 cells, a call leaves the form as it was.
#[derive(Drop)]
pub struct EdgeForm {
    parts: Parts,
}

impl Model for EdgeForm {
    ghost use Rattle.std.specs.Coded.{codes};
    ghost use Rattle.cpa_expr.specs.contracts.tree.Expr as e;
    ghost use Rattle.cpa_form_rules.specs.Forms.{Form};
    ghost use Rattle.cpa_edgeform.specs.Parts.{form_in};

    ghost Value = { Form };

    ghost coded = { Prim.hlevel (codes, e.the_row.coded) };

    ghost view = { λ f. form_in f.parts };
}

impl EdgeForm {
    /// Nothing added yet: at the initial store, or at any store of the automaton's cells.
    pub fn begin(alloc: Global, cfa: &Cfa, from_initial: bool) -> Result<EdgeForm, AllocError>
        ensures { IfOk result (λ form. form ≡ begun cfa.now.cells from_initial) }
    {
        Ok(EdgeForm {
            parts: beginning::begin(alloc, cfa.cells.as_slice(), from_initial)?,
        })
    }

    /// The store's part of a step along the edge. The automaton is that of the beginning.
    pub fn take_edge(&mut self, cfa: &Cfa, edge: u32) -> Result<(), AllocError>
        requires { edge < length cfa.now.edges }
        ensures ok { (g : AnEdge) → slice_get cfa.now.edges edge ≡ Some g
            → OnOk result (self.new ≡ with_added (taken g.act) self.old) }
        ensures err { OnErr result (self.new ≡ self.old) }
    {
        adding::take(&mut self.parts, &cfa.edge(edge).act)
    }

    /// The facts of the element that are on the store all hold.
    pub fn holds_now(&mut self, elem: &Elem) -> Result<(), AllocError>
        ensures ok { OnOk result (self.new ≡ with_added (holding elem.now) self.old) }
        ensures err { OnErr result (self.new ≡ self.old) }
    {
        adding::hold(&mut self.parts, elem)
    }

    /// Of each element some fact on the store does not hold.
    pub fn fails_now(&mut self, elems: &[Elem]) -> Result<(), AllocError>
        ensures ok { OnOk result (self.new ≡ with_added (failing elems.now) self.old) }
        ensures err { OnErr result (self.new ≡ self.old) }
    {
        adding::fail(&mut self.parts, elems)
    }

    /// The sum of the weights of what was added, or the greatest `u64` where it is more. Takes no
    /// memory.
    pub fn weight(&self) -> u64
        ensures { result ≡ self.now.weight }
    {
        self.parts.weight
    }

    /// An equal form. It fails only where memory runs out.
    pub fn copy(&self) -> Result<EdgeForm, AllocError>
        ensures { IfOk result (λ form. form ≡ self.now) }
    {
        Ok(EdgeForm {
            parts: copy(&self.parts)?,
        })
    }

    /// A copy of the query.
    pub fn query(&self) -> Result<Query, AllocError>
        ensures { IfOk result (λ query. query ≡ self.now.query) }
    {
        let alloc = self.parts.alloc;
        let mut wanted = Seq::new(alloc);
        push_copies(alloc, &mut wanted, self.parts.wanted.as_slice())?;
        Ok(Query {
            cells: Seq::from_vec(self.parts.cells.to_vec(alloc)?),
            wanted,
        })
    }

    /// The inputs of the run that a model of the query is, in order.
    pub fn inputs_of(&self, store: &Store) -> Result<Vec<i128>, AllocError>
        ensures { IfOk result (λ vs. vs.items ≡ inputs_at self.now store.now.values) }
    {
        let values = store.values.as_slice();
        reading::values_at(self.parts.alloc, self.parts.inputs.as_slice(), values)
    }

    /// The first and the last store of the run that a model of the query is.
    pub fn stores_of(&self, store: &Store) -> Result<(Store, Store), AllocError>
        ensures first { IfOk result (λ stores.
            stores.0.values ≡ first_store self.now store.now.values) }
        ensures last { IfOk result (λ stores.
            stores.1.values ≡ last_store self.now store.now.values) }
    {
        let alloc = self.parts.alloc;
        let places = self.parts.places.as_slice();
        let values = store.values.as_slice();
        let first = reading::first_values(alloc, places.len(), values)?;
        let last = reading::present_values(alloc, places, values)?;
        let first = Store {
            values: Seq::from_vec(first),
        };
        let last = Store {
            values: Seq::from_vec(last),
        };
        Ok((first, last))
    }

    /// The number of the query's cell that has the present value of a cell of the program, 0 where
    /// there is no such cell. Takes no memory.
    pub fn place_now(&self, cell: u32) -> u32
        ensures { result ≡ place_now self.now cell }
    {
        number_at(self.parts.places.as_slice(), cell as usize)
    }
}
