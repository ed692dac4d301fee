//! The bound in a row and a column of a list, by `specs/Distances.antt`.

ghost use Rattle.std.specs.Prelude.{◌≡◌, ◌+◌, ◌*◌, ◌<◌, ◌≤◌, length, slice_set};
ghost use Rattle.cpa_zone_bounds.specs.Distances.{entry};

/// The bound in row i and column j.
#[tactic(auto, using(crate::specs::lemmas::Places::place_rules))]
pub(crate) fn at(most: &[i64], rows: usize, i: usize, j: usize) -> i64
    requires square { length most.now ≡ rows * rows }
    requires few { rows ≤ 17 }
    requires row { i < rows }
    requires column { j < rows }
    ensures { result ≡ entry rows most.now i j }
{
    most[i * rows + j]
}

/// Puts a bound in row i and column j.
#[tactic(auto, using(crate::specs::lemmas::Places::place_rules))]
pub(crate) fn put(most: &mut [i64], rows: usize, i: usize, j: usize, own: i64)
    requires square { length most.old ≡ rows * rows }
    requires few { rows ≤ 17 }
    requires row { i < rows }
    requires column { j < rows }
    ensures { most.new ≡ slice_set most.old (i * rows + j) own }
{
    most[i * rows + j] = own;
}
