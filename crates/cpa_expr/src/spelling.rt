//! The one spelling of an expression, `expr_text` of `specs/Spelling.antt`: a node's words, and
//! behind them its parts.

ghost use Rattle.std.specs.Prelude.{◌≡◌, ◌++◌, OnOk, OnErr, Some};
ghost use Rattle.std.specs.String.{string_bytes};
ghost use Rattle.cpa_expr.specs.declared.tree.Expr.{out-Expr};
ghost use Rattle.cpa_expr.specs.Spelling.{head_text, expr_text};

use crate::parts::{Parts, parts_of};
use crate::tree::Expr;
use crate::words::{bin_word, cmp_word, type_word, un_word};
use std::alloc::AllocError;
use std::fmt;

/// The words of a node before those of its parts.
#[derive(Clone, Copy)]
pub(crate) struct Head<'a> {
    node: &'a Expr,
}

impl<'a> fmt::Display for Head<'a> {
    ghost output = { λ h. Some (head_text (out-Expr h.node.now)) };

    fn fmt<W: fmt::Write>(&self, f: &mut fmt::Formatter<W>) -> fmt::Result {
        match self.node {
            Expr::Const { ty, value } => {
                let word = type_word(*ty);
                write!(f, "const {word} {value}")
            }
            Expr::Read { ty, base, len, .. } => {
                let word = type_word(*ty);
                write!(f, "read {word} {base} {len}")
            }
            Expr::Un { op, ty, .. } => {
                let word = un_word(*op);
                let name = type_word(*ty);
                write!(f, "{word} {name}")
            }
            Expr::Bin { op, ty, .. } => {
                let word = bin_word(*op);
                let name = type_word(*ty);
                write!(f, "{word} {name}")
            }
            Expr::Cmp { op, ty, .. } => {
                let word = cmp_word(*op);
                let name = type_word(*ty);
                write!(f, "{word} {name}")
            }
            Expr::Cast { ty, .. } => {
                let name = type_word(*ty);
                write!(f, "cast {name}")
            }
            Expr::And { .. } => write!(f, "both"),
            Expr::Or { .. } => write!(f, "either"),
            Expr::Not { .. } => write!(f, "not"),
            Expr::Cond { ty, .. } => {
                let name = type_word(*ty);
                write!(f, "cond {name}")
            }
        }
    }
}

/// In prefix order, as `add i32 const i32 1 const i32 2`.
impl fmt::Display for Expr {
    ghost output = { λ e. Some (expr_text e) };

    fn fmt<W: fmt::Write>(&self, f: &mut fmt::Formatter<W>) -> fmt::Result {
        let head = Head { node: self };
        match parts_of(self) {
            Parts::None => write!(f, "{head}"),
            Parts::One(part) => {
                write!(f, "{head} ")?;
                part.fmt(f)
            }
            Parts::Two(left, right) => {
                write!(f, "{head} ")?;
                left.fmt(f)?;
                write!(f, " ")?;
                right.fmt(f)
            }
            Parts::Three(test, yes, no) => {
                write!(f, "{head} ")?;
                test.fmt(f)?;
                write!(f, " ")?;
                yes.fmt(f)?;
                write!(f, " ")?;
                no.fmt(f)
            }
        }
    }
}

/// Adds the expression's text at the end.
///
/// The text is made beside `out` first, since a write into `out` that fails says nothing of what
/// stands there.
pub fn push_expr(out: &mut String, expr: &Expr) -> Result<(), AllocError>
    ensures ok { OnOk result (string_bytes out.new ≡ string_bytes out.old ++ expr_text expr.now) }
    ensures err { OnErr result (string_bytes out.new ≡ string_bytes out.old) }
{
    let text = format!(in *out.allocator(); "{expr}")?;
    out.push_str(text.as_str())
}
