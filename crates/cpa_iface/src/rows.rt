//! A row that entries share, which contracts see as the list of its items. `row_items` stands in
//! `specs/Rows.antt`.

ghost use Rattle.std.specs.Prelude.{◌≡◌, length, IfOk, IfSome};

use cpa_model::Seq;
use std::alloc::{AllocError, Global};
use std::marker::Model;
use std::sync::Arc;

/// Where the items of a row stand.
#[derive(Drop)]
enum Place<T> {
    /// In the row itself.
    Own(Seq<T>),
    /// Where other rows may have theirs as well.
    Common(Arc<Seq<T>>),
}

/// A list of its own, or one that other rows share. Contracts see the list of its items.
#[derive(Drop)]
pub struct Row<T> {
    place: Place<T>,
}

impl<T> Model for Row<T> {
    ghost use Rattle.std.specs.Prelude.{List};
    ghost use Rattle.std.specs.Coded.{coded_list};
    ghost use Rattle.cpa_iface.specs.Rows.{row_items};

    ghost Value = { List T };

    ghost coded = { coded_list T.code };

    ghost view = { λ r. row_items r.place };
}

impl<T> Row<T> {
    /// A row of its own. It takes no memory.
    pub fn own(items: Seq<T>) -> Row<T>
        ensures { result ≡ items }
    {
        Row {
            place: Place::Own(items),
        }
    }

    /// The items, in order.
    pub fn as_slice(&self) -> &[T]
        ensures { result.now ≡ self.now }
    {
        match &self.place {
            Place::Own(items) => items.as_slice(),
            Place::Common(items) => items.as_slice(),
        }
    }

    /// How many items there are.
    pub fn len(&self) -> usize
        ensures { result ≡ length self.now }
    {
        self.as_slice().len()
    }

    /// The same row once more, where it is one that rows may share, and they can still be counted.
    /// It takes no memory.
    pub fn share(&self) -> Option<Row<T>>
        ensures { IfSome result (λ row. row ≡ self.now) }
    {
        match &self.place {
            Place::Own(_) => None,
            Place::Common(items) => match Arc::try_clone(items) {
                Ok(same) => Some(Row {
                    place: Place::Common(same),
                }),
                Err(_) => None,
            },
        }
    }
}

impl<T: Drop> Row<T> {
    /// A row that others may share.
    pub fn common(alloc: Global, items: Seq<T>) -> Result<Row<T>, AllocError>
        ensures { IfOk result (λ row. row ≡ items) }
    {
        Ok(Row {
            place: Place::Common(Arc::new(alloc, items)?),
        })
    }
}
