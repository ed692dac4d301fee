//! The words and marks of declarations and statements and their spelling, which is that of
//! `specs/Spelling.antt`.
ghost use Rattle.std.specs.Prelude.{◌≡◌};
ghost use Rattle.c_grammar_symbols.specs.Spelling.{spelling_of_storage_word};
ghost use Rattle.c_grammar_symbols.specs.Spelling.{spelling_of_specifier_word};
ghost use Rattle.c_grammar_symbols.specs.Spelling.{spelling_of_type_word, spelling_of_outside_word};
ghost use Rattle.c_grammar_symbols.specs.Spelling.{spelling_of_terminal, spelling_of_stray_mark};

/// A storage class (C11 6.7.1).
#[derive(Clone, Copy, PartialEq, Eq)]
pub enum StorageWord {
    /// `extern`
    Extern,
    /// `static`
    Static,
    /// `register`
    Register,
}

impl StorageWord {
    /// How it is spelled.
    pub fn spelling(self) -> &'static [u8]
        ensures { result.now ≡ spelling_of_storage_word self }
    {
        match self {
            StorageWord::Extern => b"extern",
            StorageWord::Static => b"static",
            StorageWord::Register => b"register",
        }
    }
}

/// A word of specifiers that is neither a storage class nor a type (C11 6.7.3 and 6.7.4), and what
/// stands for `inline` before C99.
#[derive(Clone, Copy, PartialEq, Eq)]
pub enum SpecifierWord {
    /// `inline`
    Inline,
    /// `__inline`
    InlineUnderscored,
    /// `__inline__`
    InlineInUnderscores,
    /// `const`
    Const,
    /// `_Noreturn`
    Noreturn,
}

impl SpecifierWord {
    /// How it is spelled.
    pub fn spelling(self) -> &'static [u8]
        ensures { result.now ≡ spelling_of_specifier_word self }
    {
        match self {
            SpecifierWord::Inline => b"inline",
            SpecifierWord::InlineUnderscored => b"__inline",
            SpecifierWord::InlineInUnderscores => b"__inline__",
            SpecifierWord::Const => b"const",
            SpecifierWord::Noreturn => b"_Noreturn",
        }
    }
}

/// A word of an integer type or of `void` (C11 6.7.2).
#[derive(Clone, Copy, PartialEq, Eq)]
pub enum TypeWord {
    /// `void`
    Void,
    /// `_Bool`
    Bool,
    /// `char`
    Char,
    /// `short`
    Short,
    /// `int`
    Int,
    /// `long`
    Long,
    /// `signed`
    Signed,
    /// `unsigned`
    Unsigned,
}

impl TypeWord {
    /// How it is spelled.
    pub fn spelling(self) -> &'static [u8]
        ensures { result.now ≡ spelling_of_type_word self }
    {
        match self {
            TypeWord::Void => b"void",
            TypeWord::Bool => b"_Bool",
            TypeWord::Char => b"char",
            TypeWord::Short => b"short",
            TypeWord::Int => b"int",
            TypeWord::Long => b"long",
            TypeWord::Signed => b"signed",
            TypeWord::Unsigned => b"unsigned",
        }
    }
}

/// A word of C that the grammar leaves out.
#[derive(Clone, Copy, PartialEq, Eq)]
pub enum OutsideWord {
    /// `_Alignas`
    Alignas,
    /// `_Alignof`
    Alignof,
    /// `_Atomic`
    Atomic,
    /// `_Complex`
    Complex,
    /// `_Generic`
    Generic,
    /// `_Imaginary`
    Imaginary,
    /// `_Static_assert`
    StaticAssert,
    /// `_Thread_local`
    ThreadLocal,
    /// `auto`
    Auto,
    /// `double`
    Double,
    /// `float`
    Float,
    /// `restrict`
    Restrict,
    /// `sizeof`
    Sizeof,
    /// `struct`
    Struct,
    /// `union`
    Union,
    /// `volatile`
    Volatile,
    /// `asm`
    Asm,
    /// `__asm__`
    AsmInUnderscores,
    /// `__int128`
    Int128,
    /// `__extension__`
    Extension,
}

impl OutsideWord {
    /// How it is spelled.
    pub fn spelling(self) -> &'static [u8]
        ensures { result.now ≡ spelling_of_outside_word self }
    {
        match self {
            OutsideWord::Alignas => b"_Alignas",
            OutsideWord::Alignof => b"_Alignof",
            OutsideWord::Atomic => b"_Atomic",
            OutsideWord::Complex => b"_Complex",
            OutsideWord::Generic => b"_Generic",
            OutsideWord::Imaginary => b"_Imaginary",
            OutsideWord::StaticAssert => b"_Static_assert",
            OutsideWord::ThreadLocal => b"_Thread_local",
            OutsideWord::Auto => b"auto",
            OutsideWord::Double => b"double",
            OutsideWord::Float => b"float",
            OutsideWord::Restrict => b"restrict",
            OutsideWord::Sizeof => b"sizeof",
            OutsideWord::Struct => b"struct",
            OutsideWord::Union => b"union",
            OutsideWord::Volatile => b"volatile",
            OutsideWord::Asm => b"asm",
            OutsideWord::AsmInUnderscores => b"__asm__",
            OutsideWord::Int128 => b"__int128",
            OutsideWord::Extension => b"__extension__",
        }
    }
}

/// A mark or a word that stands for itself in the grammar.
#[derive(Clone, Copy, PartialEq, Eq)]
pub enum Terminal {
    /// `(`
    LeftParen,
    /// `)`
    RightParen,
    /// `[`
    LeftBracket,
    /// `]`
    RightBracket,
    /// `{`
    LeftBrace,
    /// `}`
    RightBrace,
    /// `;`
    Semicolon,
    /// `,`
    Comma,
    /// `:`
    Colon,
    /// `?`
    Question,
    /// `~`
    Tilde,
    /// `!`
    Exclamation,
    /// `if`
    If,
    /// `else`
    Else,
    /// `while`
    While,
    /// `do`
    Do,
    /// `for`
    For,
    /// `goto`
    Goto,
    /// `break`
    Break,
    /// `continue`
    Continue,
    /// `return`
    Return,
    /// `typedef`
    Typedef,
    /// `enum`
    Enum,
    /// `switch`
    Switch,
    /// `case`
    Case,
    /// `default`
    Default,
    /// `__attribute__`
    Attribute,
}

impl Terminal {
    /// How it is spelled.
    pub fn spelling(self) -> &'static [u8]
        ensures { result.now ≡ spelling_of_terminal self }
    {
        match self {
            Terminal::LeftParen => b"(",
            Terminal::RightParen => b")",
            Terminal::LeftBracket => b"[",
            Terminal::RightBracket => b"]",
            Terminal::LeftBrace => b"{",
            Terminal::RightBrace => b"}",
            Terminal::Semicolon => b";",
            Terminal::Comma => b",",
            Terminal::Colon => b":",
            Terminal::Question => b"?",
            Terminal::Tilde => b"~",
            Terminal::Exclamation => b"!",
            Terminal::If => b"if",
            Terminal::Else => b"else",
            Terminal::While => b"while",
            Terminal::Do => b"do",
            Terminal::For => b"for",
            Terminal::Goto => b"goto",
            Terminal::Break => b"break",
            Terminal::Continue => b"continue",
            Terminal::Return => b"return",
            Terminal::Typedef => b"typedef",
            Terminal::Enum => b"enum",
            Terminal::Switch => b"switch",
            Terminal::Case => b"case",
            Terminal::Default => b"default",
            Terminal::Attribute => b"__attribute__",
        }
    }
}

/// A mark of C that the grammar leaves out.
#[derive(Clone, Copy, PartialEq, Eq)]
pub enum StrayMark {
    /// `.`
    Dot,
    /// `->`
    Arrow,
    /// `...`
    Ellipsis,
}

impl StrayMark {
    /// How it is spelled.
    pub fn spelling(self) -> &'static [u8]
        ensures { result.now ≡ spelling_of_stray_mark self }
    {
        match self {
            StrayMark::Dot => b".",
            StrayMark::Arrow => b"->",
            StrayMark::Ellipsis => b"...",
        }
    }
}
