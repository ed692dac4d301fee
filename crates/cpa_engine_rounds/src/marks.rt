//! A set of cells as a mark for each cell of an automaton, `is_marked` of `cpa_query`.

ghost use Rattle.std.specs.Prelude.{◌≡◌, ◌==◌, ◌&&◌, ◌||◌, ℕ, nat_lt, not, length};
ghost use Rattle.cpa_query.specs.Queries.{is_marked};
ghost use Rattle.cpa_reached.specs.Members.{is_in};

/// Whether the cell is marked. One for which there is no mark is not.
pub(crate) fn is_marked(marks: &[bool], cell: usize) -> bool
    ensures { result ≡ is_marked marks.now cell }
{
    match marks.get(cell) {
        Some(mark) => *mark,
        None => false,
    }
}

/// Marks the cell, if it is there.
pub(crate) fn mark(marks: &mut [bool], cell: u32)
    ensures length { length marks.new ≡ length marks.old }
    ensures marks { (c : ℕ) → is_marked marks.new c
        ≡ (is_marked marks.old c || ((cell == c) && nat_lt c (length marks.old))) }
{
    if (cell as usize) < marks.len() {
        marks[cell as usize] = true;
    }
}

/// Marks the cell, if it is there, and has no mark among others.
pub(crate) fn mark_unless(marks: &mut [bool], others: &[bool], cell: u32)
    ensures length { length marks.new ≡ length marks.old }
    ensures marks { (c : ℕ) → is_marked marks.new c ≡ (is_marked marks.old c
        || (((cell == c) && not (is_marked others.now c)) && nat_lt c (length marks.old))) }
{
    if !is_marked(others, cell as usize) {
        mark(marks, cell);
    }
}

/// Marks the cells that have no mark among others, as far as they are there.
pub(crate) fn mark_all_unless(marks: &mut [bool], others: &[bool], cells: &[u32])
    ensures length { length marks.new ≡ length marks.old }
    ensures marks { (c : ℕ) → is_marked marks.new c ≡ (is_marked marks.old c
        || ((is_in c cells.now && not (is_marked others.now c))
        && nat_lt c (length marks.old))) }
{
    for cell in cells {
        mark_unless(marks, others, *cell);
    }
}

/// Marks the cells, as far as they are there.
pub(crate) fn mark_all(marks: &mut [bool], cells: &[u32])
    ensures length { length marks.new ≡ length marks.old }
    ensures marks { (c : ℕ) → is_marked marks.new c ≡ (is_marked marks.old c
        || (is_in c cells.now && nat_lt c (length marks.old))) }
{
    for cell in cells {
        mark(marks, *cell);
    }
}
