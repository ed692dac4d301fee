//! The operators of expressions and their spelling, which is that of `specs/Spelling.antt`.
//! Proved by the checker alone.
ghost use Rattle.std.specs.Prelude.{◌≡◌};
ghost use Rattle.c_grammar_symbols.specs.Spelling.{spelling_of_binary_operator};
ghost use Rattle.c_grammar_symbols.specs.Spelling.{spelling_of_assignment_operator};
ghost use Rattle.c_grammar_symbols.specs.Spelling.{spelling_of_step_operator};

/// An operator between two operands (C11 6.5.5 to 6.5.14).
#[derive(Clone, Copy, PartialEq, Eq)]
pub enum BinaryOperator {
    /// `||`
    LogicalOr,
    /// `&&`
    LogicalAnd,
    /// `|`
    BitOr,
    /// `^`
    BitXor,
    /// `&`
    BitAnd,
    /// `==`
    Equal,
    /// `!=`
    NotEqual,
    /// `<`
    Less,
    /// `>`
    Greater,
    /// `<=`
    LessEqual,
    /// `>=`
    GreaterEqual,
    /// `<<`
    ShiftLeft,
    /// `>>`
    ShiftRight,
    /// `+`
    Add,
    /// `-`
    Subtract,
    /// `*`
    Multiply,
    /// `/`
    Divide,
    /// `%`
    Remainder,
}

impl BinaryOperator {
    /// How it is spelled.
    pub fn spelling(self) -> &'static [u8]
        ensures { result.now ≡ spelling_of_binary_operator self }
    {
        match self {
            BinaryOperator::LogicalOr => b"||",
            BinaryOperator::LogicalAnd => b"&&",
            BinaryOperator::BitOr => b"|",
            BinaryOperator::BitXor => b"^",
            BinaryOperator::BitAnd => b"&",
            BinaryOperator::Equal => b"==",
            BinaryOperator::NotEqual => b"!=",
            BinaryOperator::Less => b"<",
            BinaryOperator::Greater => b">",
            BinaryOperator::LessEqual => b"<=",
            BinaryOperator::GreaterEqual => b">=",
            BinaryOperator::ShiftLeft => b"<<",
            BinaryOperator::ShiftRight => b">>",
            BinaryOperator::Add => b"+",
            BinaryOperator::Subtract => b"-",
            BinaryOperator::Multiply => b"*",
            BinaryOperator::Divide => b"/",
            BinaryOperator::Remainder => b"%",
        }
    }
}

/// An operator of an assignment (C11 6.5.16).
#[derive(Clone, Copy, PartialEq, Eq)]
pub enum AssignmentOperator {
    /// `=`
    Assign,
    /// `*=`
    Multiply,
    /// `/=`
    Divide,
    /// `%=`
    Remainder,
    /// `+=`
    Add,
    /// `-=`
    Subtract,
    /// `<<=`
    ShiftLeft,
    /// `>>=`
    ShiftRight,
    /// `&=`
    BitAnd,
    /// `^=`
    BitXor,
    /// `|=`
    BitOr,
}

impl AssignmentOperator {
    /// How it is spelled.
    pub fn spelling(self) -> &'static [u8]
        ensures { result.now ≡ spelling_of_assignment_operator self }
    {
        match self {
            AssignmentOperator::Assign => b"=",
            AssignmentOperator::Multiply => b"*=",
            AssignmentOperator::Divide => b"/=",
            AssignmentOperator::Remainder => b"%=",
            AssignmentOperator::Add => b"+=",
            AssignmentOperator::Subtract => b"-=",
            AssignmentOperator::ShiftLeft => b"<<=",
            AssignmentOperator::ShiftRight => b">>=",
            AssignmentOperator::BitAnd => b"&=",
            AssignmentOperator::BitXor => b"^=",
            AssignmentOperator::BitOr => b"|=",
        }
    }
}

/// An operator that adds or takes one (C11 6.5.2.4 and 6.5.3.1).
#[derive(Clone, Copy, PartialEq, Eq)]
pub enum StepOperator {
    /// `++`
    Increment,
    /// `--`
    Decrement,
}

impl StepOperator {
    /// How it is spelled.
    pub fn spelling(self) -> &'static [u8]
        ensures { result.now ≡ spelling_of_step_operator self }
    {
        match self {
            StepOperator::Increment => b"++",
            StepOperator::Decrement => b"--",
        }
    }
}
