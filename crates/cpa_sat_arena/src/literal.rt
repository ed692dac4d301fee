//! Literals, variables and clauses of a search, four bytes each, as in MiniSat (Eén and Sörensson
//! 2003). Contracts see each of them as a number.

ghost use Rattle.std.specs.Prelude.{◌≡◌, ◌/◌, ◌%◌, ◌*◌, ◌==◌, ◌<◌, ◌^◌, nat_eq};
ghost use Rattle.std.specs.Cmp.Rules.{comparing};
ghost use borrow.Author.Rules.{rules};
ghost use Rattle.cpa_cnf.specs.Literals.{opposite};
ghost use Rattle.cpa_sat_arena.specs.declared.literal.TheConstants.{NO_CLAUSE, NO_LITERAL};

use cpa_cnf::Lit;
use std::marker::Model;

/// The number that stands for no clause.
pub const NO_CLAUSE: u32 = u32::MAX;

/// The number that stands for no literal.
pub const NO_LITERAL: u32 = u32::MAX;

/// The number that stands for no variable.
const NO_VARIABLE: u32 = u32::MAX;

/// A variable.
#[derive(Clone, Copy)]
pub struct Var {
    number: u32,
}

impl Model for Var {
    ghost use Rattle.std.specs.Prelude.{ℕ};
    ghost use Rattle.std.specs.Coded.{coded_ℕ};

    ghost Value = { ℕ };

    ghost coded = { coded_ℕ };

    ghost view = { λ v. v.number };

    ghost inverse = { λ n. record { number = n } };
}

impl Var {
    /// The variable of a number.
    pub fn new(number: u32) -> Var
        ensures { result ≡ number }
    {
        Var { number }
    }

    /// What stands for no variable.
    pub fn none() -> Var {
        Var {
            number: NO_VARIABLE,
        }
    }

    /// Its number.
    pub fn number(self) -> u32
        ensures { result ≡ self }
    {
        self.number
    }

    /// Its place in a table by variable.
    pub fn index(self) -> usize
        ensures { result ≡ self }
    {
        self.number as usize
    }

    /// The literal that is true where the variable is.
    pub fn positive(self) -> PackedLit
        requires { self < 2 ^ 31 }
        ensures { result ≡ 2 * self }
    {
        PackedLit {
            code: self.number * 2,
        }
    }
}

/// A literal in four bytes: twice its variable, and one more where it is negative, which is what
/// contracts see of a `cpa_cnf::Lit` too.
#[derive(Clone, Copy)]
pub struct PackedLit {
    code: u32,
}

impl Model for PackedLit {
    ghost use Rattle.std.specs.Prelude.{ℕ};
    ghost use Rattle.std.specs.Coded.{coded_ℕ};

    ghost Value = { ℕ };

    ghost coded = { coded_ℕ };

    ghost view = { λ l. l.code };

    ghost inverse = { λ n. record { code = n } };
}

impl PackedLit {
    /// The literal, in four bytes.
    pub(crate) fn pack(literal: Lit) -> PackedLit
        requires { literal < 2 ^ 32 }
        ensures { result ≡ literal }
    {
        PackedLit {
            code: literal.number() as u32,
        }
    }

    /// The literal, as clauses outside a search have it.
    pub fn unpack(self) -> Lit
        ensures { result ≡ self }
    {
        Lit::new(self.var().number(), self.is_negative())
    }

    /// What stands for no literal.
    pub fn none() -> PackedLit
        ensures { result ≡ NO_LITERAL }
    {
        PackedLit { code: NO_LITERAL }
    }

    /// Its variable.
    pub fn var(self) -> Var
        ensures { result ≡ self / 2 }
    {
        Var {
            number: self.code / 2,
        }
    }

    /// Whether it is the negation of its variable.
    pub fn is_negative(self) -> bool
        ensures { result ≡ (self % 2 == 1) }
    {
        self.code % 2 == 1
    }

    /// The literal of the same variable with the other sign.
    pub fn opposite(self) -> PackedLit
        ensures { result ≡ opposite self }
    {
        PackedLit {
            code: self.code ^ 1,
        }
    }

    /// Its place in a table by literal.
    pub fn index(self) -> usize
        ensures { result ≡ self }
    {
        self.code as usize
    }
}

/// The number of literals of so many variables.
pub fn literal_count(vars: u32) -> usize
    ensures { result ≡ 2 * vars }
{
    vars as usize * 2
}

/// Two literals, of which each gives the other. Nothing is claimed of it.
#[derive(Clone, Copy)]
pub struct LitPair {
    /// The bits in which their codes differ.
    bits: u32,
}

impl LitPair {
    /// A pair of no clause.
    pub fn none() -> LitPair {
        LitPair { bits: 0 }
    }

    /// The pair of two literals.
    pub fn new(first: PackedLit, second: PackedLit) -> LitPair {
        LitPair {
            bits: first.code ^ second.code,
        }
    }

    /// The one beside this one.
    pub fn other(self, literal: PackedLit) -> PackedLit {
        PackedLit {
            code: self.bits ^ literal.code,
        }
    }
}

impl PartialEq for PackedLit {
    ghost eq = { nat_eq };

    ghost laws = { Prim.search (comparing, rules) };

    fn eq(&self, other: &PackedLit) -> bool {
        self.code == other.code
    }
}

impl Eq for PackedLit {
    ghost laws = { Prim.search rules };
}

/// A clause of an arena, by its number there.
#[derive(Clone, Copy)]
pub struct ClauseRef {
    number: u32,
}

impl Model for ClauseRef {
    ghost use Rattle.std.specs.Prelude.{ℕ};
    ghost use Rattle.std.specs.Coded.{coded_ℕ};

    ghost Value = { ℕ };

    ghost coded = { coded_ℕ };

    ghost view = { λ c. c.number };

    ghost inverse = { λ n. record { number = n } };
}

impl ClauseRef {
    /// The clause of a number.
    pub fn new(number: usize) -> ClauseRef
        requires { number < NO_CLAUSE }
        ensures { result ≡ number }
    {
        ClauseRef {
            number: number as u32,
        }
    }

    /// What stands for no clause.
    pub fn none() -> ClauseRef
        ensures { result ≡ NO_CLAUSE }
    {
        ClauseRef { number: NO_CLAUSE }
    }

    /// Whether it stands for no clause.
    pub fn is_none(self) -> bool
        ensures { result ≡ (self == NO_CLAUSE) }
    {
        self.number == NO_CLAUSE
    }

    /// Its number, as a line of a refutation writes it.
    pub fn number(self) -> u32
        ensures { result ≡ self }
    {
        self.number
    }

    /// Its place in a table by clause.
    pub fn index(self) -> usize
        ensures { result ≡ self }
    {
        self.number as usize
    }
}
