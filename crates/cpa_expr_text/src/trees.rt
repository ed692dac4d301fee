//! An expression from its words in prefix order, by `words_onto` of `specs/Reading.antt`. It goes
//! no deeper than it is told, so that no text ends the machine's stack.
ghost use Rattle.std.specs.Prelude.{◌≡◌, ◌≤◌, List, IfOk};
ghost use Rattle.cpa_expr.specs.declared.tree.Expr.{Expr as Tree};
ghost use Rattle.cpa_expr.specs.declared.tree.Expr.TheVariants.{Const, Cond};
ghost use Rattle.cpa_expr.specs.Shape.{height};
ghost use Rattle.cpa_expr_text.specs.Reading.{Word, texts, words_onto, one_of, two_of, Fits};
ghost use Rattle.cpa_expr_text.specs.Reading.{Took};
ghost use Rattle.cpa_expr_text.specs.Kinds.{FitsHead};
ghost use Rattle.cpa_expr_text.specs.declared.heads.Head.TheVariants as head_of;

use crate::fault::ReadFault;
use crate::heads::{Head, One, Two, take_head};
use cpa_expr::{Expr, both, cast, comparison, constant, either, negation};
use cpa_ints::{Boxed, IntType};
use std::alloc::{AllocError, Global};

/// The node of one part.
fn one_node(alloc: Global, head: One, part: Boxed<Expr>) -> Result<Boxed<Expr>, AllocError>
    ensures { IfOk result (λ r. r ≡ one_of head part) }
{
    match head {
        One::Read { ty, base, len } => Boxed::new(
            alloc,
            Expr::Read {
                ty,
                base,
                len,
                index: part,
            },
        ),
        One::Un { op, ty } => Boxed::new(alloc, Expr::Un { op, ty, arg: part }),
        One::Cast { ty } => cast(alloc, ty, part),
        One::Not => negation(alloc, part),
    }
}

/// The node of two parts.
fn two_node(
    alloc: Global,
    head: Two,
    left: Boxed<Expr>,
    right: Boxed<Expr>,
) -> Result<Boxed<Expr>, AllocError>
    ensures { IfOk result (λ r. r ≡ two_of head left right) }
{
    match head {
        Two::Bin { op, ty } => Boxed::new(
            alloc,
            Expr::Bin {
                op,
                ty,
                left,
                right,
            },
        ),
        Two::Cmp { op, ty } => comparison(alloc, op, ty, left, right),
        Two::Both => both(alloc, left, right),
        Two::Either => either(alloc, left, right),
    }
}

/// The choice of these parts.
fn choice(
    alloc: Global,
    ty: IntType,
    test: Boxed<Expr>,
    yes: Boxed<Expr>,
    no: Boxed<Expr>,
) -> Result<Boxed<Expr>, AllocError>
    ensures { IfOk result (λ r. r ≡ Cond ty test yes no) }
{
    Boxed::new(alloc, Expr::Cond { ty, test, yes, no })
}

/// The expression of at most so many levels that comes first, and the words behind it.
#[cycle(trees)]
pub(crate) fn take_tree<'w>(
    alloc: Global,
    words: &'w [&'w str],
    levels: u32,
) -> Result<(Boxed<Expr>, &'w [&'w str]), ReadFault>
    ensures read { (e : Tree) (rest : List Word) → Fits e → height e ≤ levels
        → texts words.entry.now ≡ words_onto e rest → Took e rest result }
    ensures fit { IfOk result (λ p. Fits p.0) }
{
    if levels == 0 {
        return Err(ReadFault::Other);
    }
    let Some((head, rest)) = take_head(words) else {
        return Err(ReadFault::Other);
    };
    match head {
        Head::Leaf { ty, value } => {
            let leaf = constant(alloc, ty, value)?;
            Ok((leaf, rest))
        }
        Head::One(one) => take_one(alloc, one, rest, levels - 1),
        Head::Two(two) => take_two(alloc, two, rest, levels - 1),
        Head::Three { ty } => take_three(alloc, ty, rest, levels - 1),
    }
}

/// The node of one part that comes behind its own words.
#[cycle(trees)]
fn take_one<'w>(
    alloc: Global,
    head: One,
    words: &'w [&'w str],
    levels: u32,
) -> Result<(Boxed<Expr>, &'w [&'w str]), ReadFault>
    ensures read { (a : Tree) (rest : List Word) → Fits a → height a ≤ levels
        → texts words.entry.now ≡ words_onto a rest → Took (one_of head a) rest result }
    ensures fit { FitsHead (head_of.One head) → IfOk result (λ p. Fits p.0) }
{
    let (part, rest) = take_tree(alloc, words, levels)?;
    let node = one_node(alloc, head, part)?;
    Ok((node, rest))
}

/// The node of two parts that come behind its own words.
#[cycle(trees)]
fn take_two<'w>(
    alloc: Global,
    head: Two,
    words: &'w [&'w str],
    levels: u32,
) -> Result<(Boxed<Expr>, &'w [&'w str]), ReadFault>
    ensures read { (a b : Tree) (rest : List Word) → Fits a → Fits b
        → height a ≤ levels → height b ≤ levels
        → texts words.entry.now ≡ words_onto a (words_onto b rest)
        → Took (two_of head a b) rest result }
    ensures fit { IfOk result (λ p. Fits p.0) }
{
    let (left, rest) = take_tree(alloc, words, levels)?;
    let (right, rest) = take_tree(alloc, rest, levels)?;
    let node = two_node(alloc, head, left, right)?;
    Ok((node, rest))
}

/// The choice whose parts come behind its own words.
#[cycle(trees)]
fn take_three<'w>(
    alloc: Global,
    ty: IntType,
    words: &'w [&'w str],
    levels: u32,
) -> Result<(Boxed<Expr>, &'w [&'w str]), ReadFault>
    ensures read { (a b d : Tree) (rest : List Word) → Fits a → Fits b → Fits d
        → height a ≤ levels → height b ≤ levels → height d ≤ levels
        → texts words.entry.now ≡ words_onto a (words_onto b (words_onto d rest))
        → Took (Cond ty a b d) rest result }
    ensures fit { IfOk result (λ p. Fits p.0) }
{
    let (test, rest) = take_tree(alloc, words, levels)?;
    let (yes, rest) = take_tree(alloc, rest, levels)?;
    let (no, rest) = take_tree(alloc, rest, levels)?;
    let node = choice(alloc, ty, test, yes, no)?;
    Ok((node, rest))
}
