//! Which cells an expression reads, by specs/Carried, read off its form alone.
//! Proved by the checker alone.

ghost use Rattle.std.specs.Prelude.{◌≡◌, ◌+◌, nat_lt, max, min};
ghost use Rattle.std.specs.List.{list_any};
ghost use Rattle.cpa_expr.specs.declared.tree.Expr.{out-Expr};
ghost use Rattle.cpa_expr.specs.Shape.{parts};
ghost use Rattle.cpa_folds.specs.Carried.{is_read, reads_some, reads_among_here, reads_among};

use cpa_expr::{Expr, Parts, parts_of};

/// Whether some node of the expression reads a cell.
#[cycle(reading)]
pub(crate) fn reads_some(e: &Expr) -> bool
    ensures { result ≡ reads_some e.now }
{
    is_read(e) || do_parts_read(e)
}

/// Whether some part reads a cell.
#[cycle(reading)]
fn do_parts_read(e: &Expr) -> bool
    ensures { result ≡ list_any reads_some (parts (out-Expr e.now)) }
{
    match parts_of(e) {
        Parts::None => false,
        Parts::One(part) => reads_some(part),
        Parts::Two(left, right) => reads_some(left) || reads_some(right),
        Parts::Three(test, yes, no) => reads_some(test) || reads_some(yes) || reads_some(no),
    }
}

/// Whether the node itself reads a cell.
fn is_read(e: &Expr) -> bool
    ensures { result ≡ is_read (out-Expr e.now) }
{
    match e {
        Expr::Read { len, .. } => 0 < *len,
        _ => false,
    }
}

/// Whether some node of the expression reads one of `len` cells from `base` on.
#[cycle(reading_among)]
pub(crate) fn reads_among(e: &Expr, base: u32, len: u32) -> bool
    ensures { result ≡ reads_among base len e.now }
{
    reads_among_here(e, base, len) || do_parts_read_among(e, base, len)
}

/// Whether some part reads one of them.
#[cycle(reading_among)]
fn do_parts_read_among(e: &Expr, base: u32, len: u32) -> bool
    ensures { result ≡ list_any (reads_among base len) (parts (out-Expr e.now)) }
{
    match parts_of(e) {
        Parts::None => false,
        Parts::One(part) => reads_among(part, base, len),
        Parts::Two(left, right) => reads_among(left, base, len) || reads_among(right, base, len),
        Parts::Three(test, yes, no) => {
            reads_among(test, base, len)
                || reads_among(yes, base, len)
                || reads_among(no, base, len)
        }
    }
}

/// Whether the node itself reads one of them.
fn reads_among_here(e: &Expr, base: u32, len: u32) -> bool
    ensures { result ≡ reads_among_here base len (out-Expr e.now) }
{
    match e {
        Expr::Read {
            base: first,
            len: count,
            ..
        } => share_a_cell(base, len, *first, *count),
        _ => false,
    }
}

/// Whether `len` cells from `base` on and `count` cells from `first` on have one in common.
fn share_a_cell(base: u32, len: u32, first: u32, count: u32) -> bool
    ensures { result ≡ nat_lt (max base first) (min (base + len) (first + count)) }
{
    let from = base.max(first) as u64;
    let end = (base as u64 + len as u64).min(first as u64 + count as u64);
    from < end
}
