//! Whether words are those of an expression, by a count of the parts that are still due: no tree is
//! made, so a text may have any height. Proved with `proofs/Counting.antt`.
ghost use Rattle.std.specs.Prelude.{◌≡◌, ◌∷◌, ◌^◌, ◌<◌, ℕ, ℤ, List, IfOk, IsTrue, ◌↔◌, decimal};
ghost use Rattle.std.specs.Fmt.{signed_decimal};
ghost use Rattle.cpa_expr.specs.Words.{type_word};
ghost use Rattle.cpa_expr_text.specs.Kinds.{kind_of, further_onto, head_onto};
ghost use Rattle.cpa_expr_text.specs.Due.{AreDue, Behind, HasNext, IsExprText, own_of, parts_of};
ghost use Rattle.cpa_expr_text.specs.Reading.{texts};

use crate::heads::{Head, One, Two, take_head};
use crate::kinds::{Kind, kind_word};
use crate::reading::words_of;
use cpa_expr::type_word;
use cpa_ints::IntType;
use std::alloc::{AllocError, Global};

/// How many parts the node has.
fn parts_of(head: Head) -> u64
    ensures { result ≡ parts_of head }
{
    match head {
        Head::Leaf { .. } => 0,
        Head::One(_) => 1,
        Head::Two(_) => 2,
        Head::Three { .. } => 3,
    }
}

/// The kind of the node.
fn kind_of(head: Head) -> Kind
    ensures { result ≡ kind_of head }
{
    match head {
        Head::Leaf { .. } => Kind::Const,
        Head::One(One::Read { .. }) => Kind::Read,
        Head::One(One::Un { op, .. }) => Kind::Un(op),
        Head::One(One::Cast { .. }) => Kind::Cast,
        Head::One(One::Not) => Kind::Not,
        Head::Two(Two::Bin { op, .. }) => Kind::Bin(op),
        Head::Two(Two::Cmp { op, .. }) => Kind::Cmp(op),
        Head::Two(Two::Both) => Kind::Both,
        Head::Two(Two::Either) => Kind::Either,
        Head::Three { .. } => Kind::Cond,
    }
}

/// The words behind this one, where it comes first.
fn behind_word<'w>(words: &'w [&'w str], word: &str) -> Option<&'w [&'w str]>
    ensures { Behind (λ ws. word.now ∷ ws) (texts words.entry.now) result }
{
    let (first, rest) = words.split_first()?;
    if *first == word { Some(rest) } else { None }
}

/// The words behind the type's.
fn behind_type<'w>(words: &'w [&'w str], ty: IntType) -> Option<&'w [&'w str]>
    ensures { Behind (λ ws. type_word ty ∷ ws) (texts words.entry.now) result }
{
    behind_word(words, type_word(ty))
}

/// The words behind that of the number.
fn behind_number<'w>(
    alloc: Global,
    words: &'w [&'w str],
    number: u32,
) -> Result<Option<&'w [&'w str]>, AllocError>
    ensures { IfOk result (Behind (λ ws. decimal number ∷ ws) (texts words.entry.now)) }
{
    let spelled = format!(in alloc; "{number}")?;
    Ok(behind_word(words, spelled.as_str()))
}

/// The words behind that of the number with its sign.
fn behind_integer<'w>(
    alloc: Global,
    words: &'w [&'w str],
    number: i128,
) -> Result<Option<&'w [&'w str]>, AllocError>
    ensures { IfOk result (Behind (λ ws. signed_decimal number ∷ ws) (texts words.entry.now)) }
{
    let spelled = format!(in alloc; "{number}")?;
    Ok(behind_word(words, spelled.as_str()))
}

/// The words behind those of a constant that follow its first.
fn behind_constant<'w>(
    alloc: Global,
    words: &'w [&'w str],
    ty: IntType,
    value: i128,
) -> Result<Option<&'w [&'w str]>, AllocError>
    ensures { IfOk result (Behind (λ ws. type_word ty ∷ signed_decimal value ∷ ws)
        (texts words.entry.now)) }
{
    let Some(rest) = behind_type(words, ty) else {
        return Ok(None);
    };
    behind_integer(alloc, rest, value)
}

/// The words behind those of a read that follow its first.
fn behind_read<'w>(
    alloc: Global,
    words: &'w [&'w str],
    ty: IntType,
    base: u32,
    len: u32,
) -> Result<Option<&'w [&'w str]>, AllocError>
    ensures { IfOk result (Behind (λ ws. type_word ty ∷ decimal base ∷ decimal len ∷ ws)
        (texts words.entry.now)) }
{
    let Some(rest) = behind_type(words, ty) else {
        return Ok(None);
    };
    let Some(rest) = behind_number(alloc, rest, base)? else {
        return Ok(None);
    };
    behind_number(alloc, rest, len)
}

/// The words behind those of the node that follow its first.
fn behind_further<'w>(
    alloc: Global,
    words: &'w [&'w str],
    head: Head,
) -> Result<Option<&'w [&'w str]>, AllocError>
    ensures { IfOk result (Behind (further_onto head) (texts words.entry.now)) }
{
    match head {
        Head::Leaf { ty, value } => behind_constant(alloc, words, ty, value),
        Head::One(One::Read { ty, base, len }) => behind_read(alloc, words, ty, base, len),
        Head::One(One::Un { ty, .. }) => Ok(behind_type(words, ty)),
        Head::One(One::Cast { ty }) => Ok(behind_type(words, ty)),
        Head::One(One::Not) => Ok(Some(words)),
        Head::Two(Two::Bin { ty, .. }) => Ok(behind_type(words, ty)),
        Head::Two(Two::Cmp { ty, .. }) => Ok(behind_type(words, ty)),
        Head::Two(Two::Both) => Ok(Some(words)),
        Head::Two(Two::Either) => Ok(Some(words)),
        Head::Three { ty } => Ok(behind_type(words, ty)),
    }
}

/// The words behind those of the node.
fn behind_head<'w>(
    alloc: Global,
    words: &'w [&'w str],
    head: Head,
) -> Result<Option<&'w [&'w str]>, AllocError>
    ensures { IfOk result (Behind (head_onto head) (texts words.entry.now)) }
{
    let Some(rest) = behind_word(words, kind_word(kind_of(head))) else {
        return Ok(None);
    };
    behind_further(alloc, rest, head)
}

/// How many words of its own the node has.
fn own_words(head: Head) -> usize
    ensures { result ≡ own_of head }
{
    match head {
        Head::Leaf { .. } => 3,
        Head::One(One::Read { .. }) => 4,
        Head::One(One::Not) | Head::Two(Two::Both | Two::Either) => 1,
        Head::One(_) | Head::Two(_) | Head::Three { .. } => 2,
    }
}

/// The node that comes first, where its own words are spelled exactly so.
fn next_head(alloc: Global, words: &[&str]) -> Result<Option<Head>, AllocError>
    ensures { IfOk result (HasNext (texts words.now)) }
{
    let Some((head, _)) = take_head(words) else {
        return Ok(None);
    };
    let behind = behind_head(alloc, words, head)?;
    if behind.is_some() {
        Ok(Some(head))
    } else {
        Ok(None)
    }
}

/// Whether the words are those of one expression.
fn are_of_one(alloc: Global, words: &[&str]) -> Result<bool, AllocError>
    ensures { IfOk result (λ b. IsTrue b ↔ AreDue 1 (texts words.now)) }
{
    let mut place: usize = 0;
    let mut due: u64 = 1;
    while due > 0 {
        let Some(head) = next_head(alloc, &words[place..])? else {
            return Ok(false);
        };
        due = due - 1 + parts_of(head);
        place += own_words(head);
    }
    Ok(place == words.len())
}

/// Whether it is the text of an expression of any height, whose numbers fit what holds them.
///
/// No tree is made: it takes time linear in the text, and a machine's word or two for each word.
pub fn is_expr_text(alloc: Global, text: &str) -> Result<bool, AllocError>
    ensures { IfOk result (λ b. IsTrue b ↔ IsExprText text.now) }
{
    let words = words_of(alloc, text)?;
    let is = are_of_one(alloc, words.as_slice())?;
    Ok(is)
}
