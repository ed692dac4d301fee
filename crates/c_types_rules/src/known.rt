//! The functions that a text may call without a declaration, whose meaning this project gives
//! itself (`specs/Known.antt`; the names are those of SV-COMP). Proved by the checker alone.
ghost use Rattle.std.specs.Prelude.{◌≡◌};
ghost use Rattle.c_types_rules.specs.Known.{known, known_name, spelling_of_known, function_named};
ghost use Rattle.c_types_rules.specs.Known.{known_result, known_arity};

use crate::Kind;
use cpa_ints::{DataModel, IntType};

/// A known function.
#[derive(Clone, Copy, PartialEq, Eq)]
pub enum KnownFunction {
    /// `reach_error()`
    ReachError,
    /// `abort()`
    Abort,
    /// `exit(status)`
    Exit,
    /// `__assert_fail(..)`, whatever stands between the brackets
    AssertFail,
    /// `__VERIFIER_nondet_int()` and its like: any value of the type
    Input(IntType),
}

/// A name of a known function. Two may name the same: in a data model where `long` has 64 bits,
/// those of `long` and `long long` do.
#[derive(Clone, Copy, PartialEq, Eq)]
pub enum KnownName {
    ReachError,
    Abort,
    Exit,
    AssertFail,
    InputBool,
    InputChar,
    InputUnsignedChar,
    InputShort,
    InputUnsignedShort,
    InputInt,
    InputUnsigned,
    InputLong,
    InputUnsignedLong,
    InputLongLong,
    InputUnsignedLongLong,
}

/// The names of the known functions.
pub const KNOWN: [KnownName; 15] = [
    KnownName::ReachError,
    KnownName::Abort,
    KnownName::Exit,
    KnownName::AssertFail,
    KnownName::InputBool,
    KnownName::InputChar,
    KnownName::InputUnsignedChar,
    KnownName::InputShort,
    KnownName::InputUnsignedShort,
    KnownName::InputInt,
    KnownName::InputUnsigned,
    KnownName::InputLong,
    KnownName::InputUnsignedLong,
    KnownName::InputLongLong,
    KnownName::InputUnsignedLongLong,
];

impl KnownName {
    /// Its spelling.
    pub fn spelling(self) -> &'static [u8]
        ensures { result.now ≡ spelling_of_known self }
    {
        match self {
            KnownName::ReachError => b"reach_error",
            KnownName::Abort => b"abort",
            KnownName::Exit => b"exit",
            KnownName::AssertFail => b"__assert_fail",
            KnownName::InputBool => b"__VERIFIER_nondet_bool",
            KnownName::InputChar => b"__VERIFIER_nondet_char",
            KnownName::InputUnsignedChar => b"__VERIFIER_nondet_uchar",
            KnownName::InputShort => b"__VERIFIER_nondet_short",
            KnownName::InputUnsignedShort => b"__VERIFIER_nondet_ushort",
            KnownName::InputInt => b"__VERIFIER_nondet_int",
            KnownName::InputUnsigned => b"__VERIFIER_nondet_uint",
            KnownName::InputLong => b"__VERIFIER_nondet_long",
            KnownName::InputUnsignedLong => b"__VERIFIER_nondet_ulong",
            KnownName::InputLongLong => b"__VERIFIER_nondet_longlong",
            KnownName::InputUnsignedLongLong => b"__VERIFIER_nondet_ulonglong",
        }
    }

    /// The function that it names in a data model.
    pub fn function(self, model: DataModel) -> KnownFunction
        ensures { result ≡ function_named model self }
    {
        match self {
            KnownName::ReachError => KnownFunction::ReachError,
            KnownName::Abort => KnownFunction::Abort,
            KnownName::Exit => KnownFunction::Exit,
            KnownName::AssertFail => KnownFunction::AssertFail,
            KnownName::InputBool => KnownFunction::Input(IntType::Bool),
            KnownName::InputChar => KnownFunction::Input(IntType::I8),
            KnownName::InputUnsignedChar => KnownFunction::Input(IntType::U8),
            KnownName::InputShort => KnownFunction::Input(IntType::I16),
            KnownName::InputUnsignedShort => KnownFunction::Input(IntType::U16),
            KnownName::InputInt => KnownFunction::Input(IntType::I32),
            KnownName::InputUnsigned => KnownFunction::Input(IntType::U32),
            KnownName::InputLong => KnownFunction::Input(model.long()),
            KnownName::InputUnsignedLong => KnownFunction::Input(model.unsigned_long()),
            KnownName::InputLongLong => KnownFunction::Input(IntType::I64),
            KnownName::InputUnsignedLongLong => KnownFunction::Input(IntType::U64),
        }
    }
}

impl KnownFunction {
    /// The type of its result.
    pub fn result(self) -> Kind
        ensures { result ≡ known_result self }
    {
        match self {
            KnownFunction::Input(ty) => Kind::Value(ty),
            KnownFunction::ReachError
            | KnownFunction::Abort
            | KnownFunction::Exit
            | KnownFunction::AssertFail => Kind::Void,
        }
    }

    /// How many arguments it takes; none where it takes any number.
    pub fn arity(self) -> Option<u32>
        ensures { result ≡ known_arity self }
    {
        match self {
            KnownFunction::Exit => Some(1),
            KnownFunction::AssertFail => None,
            KnownFunction::ReachError | KnownFunction::Abort | KnownFunction::Input(_) => Some(0),
        }
    }
}

/// The known name that is spelled so.
#[tactic(auto, unfolding(crate::specs::Known::known_name))]
fn known_name(name: &[u8]) -> Option<KnownName>
    ensures { result ≡ known_name name.now }
{
    KNOWN.iter().copied().find(|known| known.spelling() == name)
}

/// The known function that a name spells in a data model.
pub fn known_function(model: DataModel, name: &[u8]) -> Option<KnownFunction>
    ensures { result ≡ known model name.now }
{
    match known_name(name) {
        Some(known) => Some(known.function(model)),
        None => None,
    }
}
