//! What a typedef name stands for: a type as its words say it, without a number of bits.

/// How wide an integer type is, as its words say it (C11 6.7.2p2).
#[derive(Clone, Copy, PartialEq, Eq)]
pub enum Size {
    /// `_Bool`
    Bool,
    /// `char`
    Char,
    /// `short`
    Short,
    /// `int`, or no word that says it
    Int,
    /// `long`
    Long,
    /// `long long`
    LongLong,
}

/// The type that a typedef name stands for (C11 6.7.8). A `char` without a sign is signed.
#[derive(Clone, Copy, PartialEq, Eq)]
pub struct NamedType {
    pub size: Size,
    pub is_unsigned: bool,
    pub is_const: bool,
}
