//! Reads an expression from its words in prefix order, as reports spell it: `neg i32 const i32 1`.
//! The words are taken from the last one on, so that a node's parts are there before it.

use crate::fault::RowFault;
use crate::row::words_of;
use crate::words::{
    binary_of_word, comparison_of_word, index_of_word, number_of_word, type_of_word, unary_of_word,
};
use cpa_expr::{BinOp, CmpOp, Expr, UnOp};
use cpa_ints::{Boxed, IntType};
use std::alloc::Global;

/// A node, without its words and parts.
#[derive(Clone, Copy)]
enum Head {
    Const,
    Read,
    One(One),
    Two(Two),
    Cond,
}

/// A node of one part.
#[derive(Clone, Copy)]
enum One {
    Un(UnOp),
    Cast,
    Not,
}

/// A node of two parts.
#[derive(Clone, Copy)]
enum Two {
    Bin(BinOp),
    Cmp(CmpOp),
    Both,
    Either,
}

/// The expression that a text spells.
pub fn whole_expr(alloc: Global, text: &str) -> Result<Expr, RowFault> {
    let words = words_of(alloc, text)?;
    expr_of(alloc, &words)
}

/// The expression that these words spell.
pub fn expr_of(alloc: Global, words: &[&str]) -> Result<Expr, RowFault> {
    let mut pending = Pending {
        words: Vec::new(alloc),
        parts: Vec::new(alloc),
    };
    for word in words.iter().rev() {
        pending.take(alloc, *word)?;
    }
    pending.last()
}

/// The node that a word begins: of the operator that it names, or `const`, `read`, `cast`, and
/// `both` for `&&`, `either` for `||`, `not` for `!` and `cond` for `?:`.
fn named_head(word: &str) -> Option<Head> {
    match word {
        "const" => Some(Head::Const),
        "read" => Some(Head::Read),
        "cast" => Some(Head::One(One::Cast)),
        "not" => Some(Head::One(One::Not)),
        "both" => Some(Head::Two(Two::Both)),
        "either" => Some(Head::Two(Two::Either)),
        "cond" => Some(Head::Cond),
        _ => operator(word),
    }
}

/// The node of the operator that a word names.
fn operator(word: &str) -> Option<Head> {
    if let Some(op) = unary_of_word(word) {
        Some(Head::One(One::Un(op)))
    } else if let Some(op) = binary_of_word(word) {
        Some(Head::Two(Two::Bin(op)))
    } else if let Some(op) = comparison_of_word(word) {
        Some(Head::Two(Two::Cmp(op)))
    } else {
        None
    }
}

/// Whether a type stands behind the node's first word.
fn is_typed(head: Head) -> bool {
    match head {
        Head::One(One::Not) | Head::Two(Two::Both) | Head::Two(Two::Either) => false,
        _ => true,
    }
}

/// What no node has taken yet, the first one last.
#[derive(Drop)]
struct Pending<'a> {
    words: Vec<&'a str>,
    parts: Vec<Boxed<Expr>>,
}

impl<'a> Pending<'a> {
    /// Takes the next word to the left.
    fn take(&mut self, alloc: Global, word: &'a str) -> Result<(), RowFault> {
        match named_head(word) {
            Some(head) => self.put(alloc, head),
            None => Ok(self.words.push(word)?),
        }
    }

    /// Holds the node of this head for the one to the left of it.
    fn put(&mut self, alloc: Global, head: Head) -> Result<(), RowFault> {
        let node = self.node(head)?;
        let part = Boxed::new(alloc, node)?;
        Ok(self.parts.push(part)?)
    }

    /// The node of this head, with the words and parts that stand right behind it: a type, where it
    /// has one, and what its form asks for.
    fn node(&mut self, head: Head) -> Result<Expr, RowFault> {
        let ty = if is_typed(head) {
            self.ty()?
        } else {
            IntType::Bool
        };
        match head {
            Head::Const => self.constant(ty),
            Head::Read => self.read(ty),
            Head::One(one) => self.of_one(one, ty),
            Head::Two(two) => self.of_two(two, ty),
            Head::Cond => self.conditional(ty),
        }
    }

    /// A number of the type T: `const T NUMBER`.
    fn constant(&mut self, ty: IntType) -> Result<Expr, RowFault> {
        let value = number_of_word(self.word()?)?;
        Ok(Expr::Const { ty, value })
    }

    /// One of LEN cells from BASE on, which have the type T: `read T BASE LEN INDEX`.
    fn read(&mut self, ty: IntType) -> Result<Expr, RowFault> {
        let base = index_of_word(self.word()?)?;
        let len = index_of_word(self.word()?)?;
        let index = self.part()?;
        Ok(Expr::Read {
            ty,
            base,
            len,
            index,
        })
    }

    /// `OP T ARG`, an operator whose result has the type T, `cast T ARG` or `not ARG`.
    fn of_one(&mut self, one: One, ty: IntType) -> Result<Expr, RowFault> {
        let arg = self.part()?;
        Ok(match one {
            One::Un(op) => Expr::Un { op, ty, arg },
            One::Cast => Expr::Cast { ty, arg },
            One::Not => Expr::Not { arg },
        })
    }

    /// `OP T LEFT RIGHT`, an operator whose result has the type T or a comparison of two values of
    /// the type T, `both LEFT RIGHT` or `either LEFT RIGHT`.
    fn of_two(&mut self, two: Two, ty: IntType) -> Result<Expr, RowFault> {
        let left = self.part()?;
        let right = self.part()?;
        Ok(match two {
            Two::Bin(op) => Expr::Bin {
                op,
                ty,
                left,
                right,
            },
            Two::Cmp(op) => Expr::Cmp {
                op,
                ty,
                left,
                right,
            },
            Two::Both => Expr::And { left, right },
            Two::Either => Expr::Or { left, right },
        })
    }

    /// One of two values of the type T: `cond T TEST YES NO`.
    fn conditional(&mut self, ty: IntType) -> Result<Expr, RowFault> {
        let test = self.part()?;
        let yes = self.part()?;
        let no = self.part()?;
        Ok(Expr::Cond { ty, test, yes, no })
    }

    /// The next word of the node that is read.
    fn word(&mut self) -> Result<&'a str, RowFault> {
        self.words.pop().ok_or(RowFault::Unreadable)
    }

    /// The next word of the node that is read, as a type.
    fn ty(&mut self) -> Result<IntType, RowFault> {
        type_of_word(self.word()?)
    }

    /// The next part of the node that is read.
    fn part(&mut self) -> Result<Boxed<Expr>, RowFault> {
        self.parts.pop().ok_or(RowFault::Unreadable)
    }

    /// The one expression that is left.
    fn last(&mut self) -> Result<Expr, RowFault> {
        if self.parts.len() != 1 || !self.words.is_empty() {
            return Err(RowFault::Unreadable);
        }
        Ok(self.part()?.into_inner())
    }
}
