//! The words by which nodes begin, and those of types, looked up in tables; that no table lacks one
//! is a lemma of `proofs/Tables.antt`.
ghost use Rattle.std.specs.Prelude.{◌≡◌};
ghost use Rattle.cpa_expr_text.specs.Kinds.{kind_word, kind_spelled, type_spelled};

use cpa_expr::{BinOp, CmpOp, UnOp, bin_word, cmp_word, type_word, un_word};
use cpa_ints::IntType;

/// What a node is, by its first word.
#[derive(Clone, Copy)]
pub(crate) enum Kind {
    Const,
    Read,
    Un(UnOp),
    Bin(BinOp),
    Cmp(CmpOp),
    Cast,
    Both,
    Either,
    Not,
    Cond,
}

/// Every kind.
pub(crate) const KINDS: [Kind; 25] = [
    Kind::Const,
    Kind::Read,
    Kind::Un(UnOp::Neg),
    Kind::Un(UnOp::Flip),
    Kind::Bin(BinOp::Add),
    Kind::Bin(BinOp::Sub),
    Kind::Bin(BinOp::Mul),
    Kind::Bin(BinOp::Div),
    Kind::Bin(BinOp::Rem),
    Kind::Bin(BinOp::BitAnd),
    Kind::Bin(BinOp::BitOr),
    Kind::Bin(BinOp::BitXor),
    Kind::Bin(BinOp::Shl),
    Kind::Bin(BinOp::Shr),
    Kind::Cmp(CmpOp::Eq),
    Kind::Cmp(CmpOp::Ne),
    Kind::Cmp(CmpOp::Lt),
    Kind::Cmp(CmpOp::Le),
    Kind::Cmp(CmpOp::Gt),
    Kind::Cmp(CmpOp::Ge),
    Kind::Cast,
    Kind::Both,
    Kind::Either,
    Kind::Not,
    Kind::Cond,
];

/// Every type.
pub(crate) const TYPES: [IntType; 9] = [
    IntType::Bool,
    IntType::I8,
    IntType::U8,
    IntType::I16,
    IntType::U16,
    IntType::I32,
    IntType::U32,
    IntType::I64,
    IntType::U64,
];

/// The first word of a node of the kind.
pub(crate) fn kind_word(kind: Kind) -> &'static str
    ensures { result.now ≡ kind_word kind }
{
    match kind {
        Kind::Const => "const",
        Kind::Read => "read",
        Kind::Un(op) => un_word(op),
        Kind::Bin(op) => bin_word(op),
        Kind::Cmp(op) => cmp_word(op),
        Kind::Cast => "cast",
        Kind::Both => "both",
        Kind::Either => "either",
        Kind::Not => "not",
        Kind::Cond => "cond",
    }
}

/// The kind of the nodes that begin with the word.
#[tactic(auto, unfolding(crate::specs::Kinds::kind_spelled))]
pub(crate) fn kind_spelled(word: &str) -> Option<Kind>
    ensures { result ≡ kind_spelled word.now }
{
    KINDS.iter().copied().find(|kind| kind_word(*kind) == word)
}

/// The type that the word names.
#[tactic(auto, unfolding(crate::specs::Kinds::type_spelled))]
pub(crate) fn type_spelled(word: &str) -> Option<IntType>
    ensures { result ≡ type_spelled word.now }
{
    TYPES.iter().copied().find(|ty| type_word(*ty) == word)
}
