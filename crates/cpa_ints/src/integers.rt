//! The integer types: width, sign and range, as `specs/Integers.antt` gives them. Each call is a
//! table, proved by itself.
ghost use Rattle.std.specs.Prelude.{◌≡◌, ◌↔◌, IsTrue};
ghost use Rattle.cpa_ints.specs.Integers.{width, is_signed, least, greatest, IsInRange};

/// The integer types of C: `char` is `I8`, `short` `I16`, `int` `I32`, `long long` `I64`, and
/// `long` is what the data model says.
#[derive(Clone, Copy, Debug, PartialEq, Eq)]
pub enum IntType {
    Bool,
    I8,
    U8,
    I16,
    U16,
    I32,
    U32,
    I64,
    U64,
}

impl IntType {
    /// How many bits a value has.
    pub fn width(self) -> u32
        ensures { result ≡ width self }
    {
        match self {
            IntType::Bool => 1,
            IntType::I8 | IntType::U8 => 8,
            IntType::I16 | IntType::U16 => 16,
            IntType::I32 | IntType::U32 => 32,
            IntType::I64 | IntType::U64 => 64,
        }
    }

    /// Whether the type has negative values.
    pub fn signed(self) -> bool
        ensures { result ≡ is_signed self }
    {
        match self {
            IntType::I8 | IntType::I16 | IntType::I32 | IntType::I64 => true,
            IntType::Bool | IntType::U8 | IntType::U16 | IntType::U32 | IntType::U64 => false,
        }
    }

    /// The least value.
    pub fn least(self) -> i128
        ensures { result ≡ least self }
    {
        match self {
            IntType::I8 => i8::MIN as i128,
            IntType::I16 => i16::MIN as i128,
            IntType::I32 => i32::MIN as i128,
            IntType::I64 => i64::MIN as i128,
            IntType::Bool | IntType::U8 | IntType::U16 | IntType::U32 | IntType::U64 => 0,
        }
    }

    /// The greatest value.
    pub fn greatest(self) -> i128
        ensures { result ≡ greatest self }
    {
        match self {
            IntType::Bool => 1,
            IntType::I8 => i8::MAX as i128,
            IntType::U8 => u8::MAX as i128,
            IntType::I16 => i16::MAX as i128,
            IntType::U16 => u16::MAX as i128,
            IntType::I32 => i32::MAX as i128,
            IntType::U32 => u32::MAX as i128,
            IntType::I64 => i64::MAX as i128,
            IntType::U64 => u64::MAX as i128,
        }
    }

    /// Whether the type has this value.
    pub fn contains(self, value: i128) -> bool
        ensures { IsTrue result ↔ IsInRange self value }
    {
        self.least() <= value && value <= self.greatest()
    }
}
