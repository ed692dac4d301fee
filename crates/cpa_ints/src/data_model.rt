//! The data models of C, as `specs/DataModels.antt` gives them. Each call is a table, proved by
//! itself.
ghost use Rattle.std.specs.Prelude.{◌≡◌};
ghost use Rattle.cpa_ints.specs.DataModels.{long, unsigned_long};

use crate::IntType;

/// How wide `long` is. All other types are the same in both data models.
#[derive(Clone, Copy, PartialEq, Eq)]
pub enum DataModel {
    /// 64 bits, as a pointer has, and `int` 32.
    Lp64,
    /// 32 bits, as `int` and a pointer have.
    Ilp32,
}

impl DataModel {
    /// The type `long`.
    pub fn long(self) -> IntType
        ensures { result ≡ long self }
    {
        match self {
            DataModel::Lp64 => IntType::I64,
            DataModel::Ilp32 => IntType::I32,
        }
    }

    /// The type `unsigned long`.
    pub fn unsigned_long(self) -> IntType
        ensures { result ≡ unsigned_long self }
    {
        match self {
            DataModel::Lp64 => IntType::U64,
            DataModel::Ilp32 => IntType::U32,
        }
    }
}
