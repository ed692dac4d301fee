//! What is one JSON value and is read from its tokens, and lists and members of such.
ghost use Rattle.std.specs.Prelude.{◌≡◌, ◌∷◌, ◌<◌, List, length, map, OnOk, IfOk};
ghost use Rattle.std.specs.List.{AllByRecursion};
ghost use Rattle.json.specs.Token as piece;
ghost use Rattle.json.specs.Token.{Token as Piece};
ghost use Rattle.serde_json.specs.Data.{Data, array};
ghost use Rattle.serde_json.specs.View.{items_of};
ghost use Rattle.cpa_report_json.specs.Taking.{Took};
ghost use Rattle.cpa_report_print.specs.Tokens.{onto};

use crate::fault::ReadFault;
use crate::steps::{open_list, pass_key};
use cpa_ints::Seq;
use json::Reader;
use std::alloc::Global;

/// What is one JSON value.
pub trait FromJson: Drop {
    ghost json: { Self → Data };

    ghost fits: { Self → Type 0 };

    /// Takes the value whose tokens come next.
    fn take(alloc: Global, reader: &mut Reader<'_>) -> Result<Self, ReadFault>
        ensures took { (x : Self) (rest : List Piece) → fits x
            → reader.old ≡ onto (json x) rest → Took x rest result reader.new }
        ensures fit { IfOk result fits }
        ensures shorter { OnOk result (length reader.new < length reader.old) };
}

/// Takes a list of such values.
pub fn take_list<T: FromJson>(alloc: Global, reader: &mut Reader<'_>) -> Result<Seq<T>, ReadFault>
    ensures took { (xs : List T) (rest : List Piece) → AllByRecursion T.fits xs
        → reader.old ≡ onto (array (items_of (map T.json xs))) rest
        → Took xs rest result reader.new }
    ensures fit { IfOk result (AllByRecursion T.fits) }
    ensures shorter { OnOk result (length reader.new < length reader.old) }
{
    open_list(reader)?;
    let mut found = Seq::new(alloc);
    'items: while !reader.take_end_array() {
        let item = match T::take(alloc, reader) {
            Ok(item) => item,
            Err(fault) => return Err(fault),
        };
        found.push(item)?;
    }
    Ok(found)
}

/// Takes the value of this key.
pub fn take_member<T: FromJson>(
    alloc: Global,
    reader: &mut Reader<'_>,
    name: &'static str,
) -> Result<T, ReadFault>
    ensures took { (x : T) (rest : List Piece) → T.fits x
        → reader.old ≡ piece.key name.entry.now ∷ onto (T.json x) rest
        → Took x rest result reader.new }
    ensures fit { IfOk result T.fits }
    ensures shorter { OnOk result (length reader.new < length reader.old) }
{
    pass_key(reader, name)?;
    T::take(alloc, reader)
}

impl<T: FromJson> FromJson for Seq<T> {
    ghost json = { λ xs. array (items_of (map T.json xs)) };

    ghost fits = { AllByRecursion T.fits };

    fn take(alloc: Global, reader: &mut Reader<'_>) -> Result<Seq<T>, ReadFault> {
        take_list(alloc, reader)
    }
}
