//! The answer of a row that calls a composite, turns over it or a whole analysis. Nothing is proved
//! of it but that it comes: what is right, the file `stdout` says.

ghost use Rattle.std.specs.Prelude.{◌≡◌, length};

use crate::composites::asking::push_called;
use crate::composites::picking::placed;
use crate::composites::questions::Question;
use crate::setting::Setting;
use cases_programs::automaton;
use cases_reader::RowFault;
use cpa_composite::Composite;
use cpa_iface::Analysis;
use std::alloc::Global;

/// Adds the answer of the composite that the rows have set.
pub fn push_asked<A: Analysis>(
    alloc: Global,
    out: &mut String,
    handed: Vec<A>,
    setting: &Setting,
    question: &Question,
) -> Result<(), RowFault>
    requires { length handed.items ≡ 8 }
{
    let cfa = automaton(alloc, &setting.table)?;
    let picks = placed(alloc, &setting.picks)?;
    let count = picks.len();
    let mut composite = Composite::new(handed, picks);
    push_called(
        alloc,
        out,
        &mut composite,
        count,
        &cfa,
        &setting.precisions,
        question,
    )
}
