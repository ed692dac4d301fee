//! Types of words and operators: the tables of `specs/Types.antt` and `specs/Parts.antt`,
//! line for line. Proved by the checker alone.
ghost use Rattle.std.specs.Prelude.{◌≡◌};
ghost use Rattle.c_types_rules.specs.Types.{has, repeats, signed_or, type_of_words, kind_of_words};
ghost use Rattle.c_types_rules.specs.Types.{type_of_named, kind_of_type_name, object_type};
ghost use Rattle.c_types_rules.specs.Types.{value_kind, binary_type};
ghost use Rattle.c_types_rules.specs.Parts.{unary_type, cast_kind, ends_kind, value};

use crate::Kind;
use c_grammar_symbols::{BinaryOperator, NamedType, Size, TypeWord};
use c_grammar_tree::{TypeName, UnaryOperator};
use cpa_ints::{DataModel, IntType, common, promote};

/// Whether a word stands among these.
fn has(wanted: TypeWord, words: &[TypeWord]) -> bool
    ensures { result ≡ has wanted words.now }
{
    words.contains(&wanted)
}

/// Whether it stands more than once among these.
fn repeats(wanted: TypeWord, words: &[TypeWord]) -> bool
    ensures { result ≡ repeats wanted words.now }
{
    words.iter().filter(|found| **found == wanted).count() > 1
}

/// The signed or the unsigned type.
fn signed_or(words: &[TypeWord], signed: IntType, unsigned: IntType) -> IntType
    ensures { result ≡ signed_or words.now signed unsigned }
{
    if has(TypeWord::Unsigned, words) {
        unsigned
    } else {
        signed
    }
}

/// The integer type that words name.
fn type_of_words(model: DataModel, words: &[TypeWord]) -> IntType
    ensures { result ≡ type_of_words model words.now }
{
    if has(TypeWord::Bool, words) {
        IntType::Bool
    } else if has(TypeWord::Char, words) {
        signed_or(words, IntType::I8, IntType::U8)
    } else if has(TypeWord::Short, words) {
        signed_or(words, IntType::I16, IntType::U16)
    } else if repeats(TypeWord::Long, words) {
        signed_or(words, IntType::I64, IntType::U64)
    } else if has(TypeWord::Long, words) {
        signed_or(words, model.long(), model.unsigned_long())
    } else {
        signed_or(words, IntType::I32, IntType::U32)
    }
}

/// The type that words name in a data model.
pub fn kind_of_words(model: DataModel, words: &[TypeWord]) -> Kind
    ensures { result ≡ kind_of_words model words.now }
{
    if has(TypeWord::Void, words) {
        Kind::Void
    } else {
        Kind::Value(type_of_words(model, words))
    }
}

/// The integer type that a typedef name stands for in a data model.
pub fn type_of_named(model: DataModel, named: NamedType) -> IntType
    ensures { result ≡ type_of_named model named }
{
    match (named.size, named.is_unsigned) {
        (Size::Bool, _) => IntType::Bool,
        (Size::Char, false) => IntType::I8,
        (Size::Char, true) => IntType::U8,
        (Size::Short, false) => IntType::I16,
        (Size::Short, true) => IntType::U16,
        (Size::Int, false) => IntType::I32,
        (Size::Int, true) => IntType::U32,
        (Size::Long, false) => model.long(),
        (Size::Long, true) => model.unsigned_long(),
        (Size::LongLong, false) => IntType::I64,
        (Size::LongLong, true) => IntType::U64,
    }
}

/// The type that a cast names in a data model.
pub fn kind_of_type_name(model: DataModel, name: &TypeName) -> Kind
    ensures { result ≡ kind_of_type_name model name.now }
{
    match name {
        TypeName::Words { words, .. } => kind_of_words(model, words.as_slice()),
        TypeName::Typedef { named, .. } => Kind::Value(type_of_named(model, *named)),
        TypeName::Enum { .. } => Kind::Value(IntType::I32),
    }
}

impl Kind {
    /// The type of an object that is declared so.
    pub fn object_type(self) -> IntType
        ensures { result ≡ object_type self }
    {
        match self {
            Kind::Void => IntType::I32,
            Kind::Value(ty) => ty,
        }
    }
}

/// The integer type of what has a type, where it is one.
pub fn value_kind(kind: Option<Kind>) -> Option<IntType>
    ensures { result ≡ value_kind kind }
{
    match kind {
        Some(Kind::Value(ty)) => Some(ty),
        Some(Kind::Void) | None => None,
    }
}

/// An integer type, as the type of an expression.
pub fn as_kind(ty: Option<IntType>) -> Option<Kind>
    ensures { result ≡ value ty }
{
    match ty {
        Some(ty) => Some(Kind::Value(ty)),
        None => None,
    }
}

/// The type of `left operator right`.
pub fn binary_type(operator: BinaryOperator, left: IntType, right: IntType) -> IntType
    ensures { result ≡ binary_type operator left right }
{
    match operator {
        BinaryOperator::LogicalOr
        | BinaryOperator::LogicalAnd
        | BinaryOperator::Equal
        | BinaryOperator::NotEqual
        | BinaryOperator::Less
        | BinaryOperator::Greater
        | BinaryOperator::LessEqual
        | BinaryOperator::GreaterEqual => IntType::I32,
        BinaryOperator::ShiftLeft | BinaryOperator::ShiftRight => promote(left),
        BinaryOperator::BitOr
        | BinaryOperator::BitXor
        | BinaryOperator::BitAnd
        | BinaryOperator::Add
        | BinaryOperator::Subtract
        | BinaryOperator::Multiply
        | BinaryOperator::Divide
        | BinaryOperator::Remainder => common(left, right),
    }
}

/// The type of `operator operand`.
pub fn unary_type(operator: UnaryOperator, operand: IntType) -> IntType
    ensures { result ≡ unary_type operator operand }
{
    match operator {
        UnaryOperator::Not => IntType::I32,
        UnaryOperator::Plus | UnaryOperator::Minus | UnaryOperator::Complement => promote(operand),
    }
}

/// The type of a cast to a type.
pub fn cast_kind(to: Kind, operand: Option<Kind>) -> Option<Kind>
    ensures { result ≡ cast_kind to operand }
{
    match (to, operand) {
        (_, None) => None,
        (Kind::Void, Some(_)) => Some(Kind::Void),
        (Kind::Value(_), Some(Kind::Void)) => None,
        (Kind::Value(ty), Some(Kind::Value(_))) => Some(Kind::Value(ty)),
    }
}

/// The type of a conditional with ends of these types.
pub fn ends_kind(first: Option<Kind>, second: Option<Kind>) -> Option<Kind>
    ensures { result ≡ ends_kind first second }
{
    match (first, second) {
        (Some(Kind::Void), Some(Kind::Void)) => Some(Kind::Void),
        (Some(Kind::Value(first)), Some(Kind::Value(second))) => {
            Some(Kind::Value(common(first, second)))
        }
        _ => None,
    }
}
