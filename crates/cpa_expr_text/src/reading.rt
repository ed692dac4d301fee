//! The expression whose text a text is. `proofs/reading` ties the words of a text to the text.
ghost use Rattle.std.specs.Prelude.{◌≡◌, ◌≤◌, ◌==◌, ◌↔◌, IsTrue, IfOk, IfSome, Some};
ghost use Rattle.std.specs.List.{slice_split};
ghost use Rattle.cpa_expr.specs.declared.tree.Expr.{Expr as Tree};
ghost use Rattle.cpa_expr.specs.declared.shape.TheConstants.{MAX_HEIGHT};
ghost use Rattle.cpa_expr.specs.Shape.{height};
ghost use Rattle.cpa_expr.specs.Spelling.{expr_text};
ghost use Rattle.cpa_expr_text.specs.Reading.{Fits, texts, IsSpelled};

use crate::fault::ReadFault;
use crate::trees::take_tree;
use cpa_expr::{Expr, MAX_HEIGHT, height};
use cpa_ints::Boxed;
use std::alloc::{AllocError, Global};

/// The pieces of the text between its spaces.
pub(crate) fn words_of(alloc: Global, text: &str) -> Result<Vec<&str>, AllocError>
    ensures { IfOk result (λ words. texts words.items ≡ slice_split (λ b. b == 32) text.now) }
{
    text.split(' ').collect(alloc)
}

/// The expression whose text it is, if it is one of at most `MAX_HEIGHT` levels; else any
/// expression, or none.
fn guessed(alloc: Global, text: &str) -> Result<Option<Boxed<Expr>>, AllocError>
    ensures read { IfOk result (λ found. (e : Tree) → Fits e → height e ≤ MAX_HEIGHT
        → text.now ≡ expr_text e → found ≡ Some e) }
    ensures fit { IfOk result (λ found. IfSome found Fits) }
{
    let words = words_of(alloc, text)?;
    match take_tree(alloc, words.as_slice(), MAX_HEIGHT) {
        Ok((expr, _)) => Ok(Some(expr)),
        Err(ReadFault::Other) => Ok(None),
        Err(ReadFault::OutOfMemory) => Err(AllocError),
    }
}

/// Whether it is the text of the expression.
fn is_text(alloc: Global, text: &str, expr: &Expr) -> Result<bool, AllocError>
    ensures { IfOk result (λ b. IsTrue b ↔ (text.now ≡ expr_text expr.now)) }
{
    let spelled = format!(in alloc; "{expr}")?;
    Ok(spelled.as_str() == text)
}

/// The expression of at most `MAX_HEIGHT` levels whose text this is, if there is one: its numbers
/// fit what holds them. There is one at most.
///
/// A text of more levels is refused without reading it deeper.
pub fn read(alloc: Global, text: &str) -> Result<Option<Boxed<Expr>>, AllocError>
    ensures found { IfOk result (λ found. IfSome found (IsSpelled text.now)) }
    ensures every { IfOk result (λ found. (e : Tree) → IsSpelled text.now e → found ≡ Some e) }
{
    let Some(expr) = guessed(alloc, text)? else {
        return Ok(None);
    };
    if height(expr.get()) <= MAX_HEIGHT && is_text(alloc, text, expr.get())? {
        Ok(Some(expr))
    } else {
        Ok(None)
    }
}
