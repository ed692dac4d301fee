//! Literals. Contracts see a literal as the number 2 * var where it is positive and 2 * var + 1
//! where it is negative, which is also its place in the order of a clause.

ghost use Rattle.std.specs.Prelude.{◌≡◌, ◌+◌, ◌*◌, ◌/◌, ◌%◌, ◌==◌, ◌<◌, nat_eq};
ghost use Rattle.std.specs.Prelude.{Some};
ghost use Rattle.std.specs.Ordering.{nat_cmp};
ghost use Rattle.std.specs.Cmp.Rules.{comparing, hashing};
ghost use Rattle.std.specs.Hash as fed;
ghost use borrow.Author.Rules.{rules};
ghost use Rattle.cpa_cnf.specs.Literals.{literal_number, opposite};

use std::cmp::Ordering;
use std::hash::{Hash, Hasher};
use std::marker::Model;

/// A variable or its negation. Literals are ordered by variable, the positive one first.
#[derive(Clone, Copy)]
pub struct Lit {
    var: u32,
    neg: bool,
}

impl Model for Lit {
    ghost use Rattle.std.specs.Prelude.{ℕ, ◌/◌, ◌%◌, ◌==◌};
    ghost use Rattle.std.specs.Coded.{coded_ℕ};
    ghost use Rattle.cpa_cnf.specs.Literals.{literal_number};

    ghost Value = { ℕ };

    ghost coded = { coded_ℕ };

    ghost view = { λ l. literal_number l.var l.neg };

    ghost inverse = { λ n. record { var = n / 2; neg = n % 2 == 1 } };
}

impl Lit {
    /// The literal of a variable, negated where `neg` is true.
    pub fn new(var: u32, neg: bool) -> Lit
        ensures { result ≡ literal_number var neg }
    {
        Lit { var, neg }
    }

    /// The variable.
    pub fn var(self) -> u32
        ensures { result ≡ self / 2 }
    {
        self.var
    }

    /// Whether it is the negation of its variable.
    pub fn is_negative(self) -> bool
        ensures { result ≡ (self % 2 == 1) }
    {
        self.neg
    }

    /// The literal of the same variable with the other sign.
    pub fn opposite(self) -> Lit
        ensures { result ≡ opposite self }
    {
        Lit {
            var: self.var,
            neg: !self.neg,
        }
    }

    /// 2 * var, and one more where it is negative: an index for tables by literal.
    pub fn number(self) -> usize
        ensures { result ≡ self }
    {
        self.var as usize * 2 + usize::from(self.neg)
    }
}

impl PartialEq for Lit {
    ghost eq = { nat_eq };

    ghost laws = { Prim.search (comparing, rules) };

    fn eq(&self, other: &Lit) -> bool {
        self.number() == other.number()
    }
}

impl Eq for Lit {
    ghost laws = { Prim.search rules };
}

impl Hash for Lit {
    ghost hash_input = { λ l. fed.usize l };

    ghost respects_eq = { Prim.search (hashing, rules) };

    fn hash<H: Hasher>(&self, state: &mut H) {
        self.number().hash(state);
    }
}

impl PartialOrd for Lit {
    ghost partial_cmp = { λ x y. Some (nat_cmp x y) };

    ghost laws = { Prim.search (comparing, rules) };

    fn partial_cmp(&self, other: &Lit) -> Option<Ordering> {
        Some(self.cmp(other))
    }
}

impl Ord for Lit {
    ghost cmp = { nat_cmp };

    ghost total = { Prim.search rules };

    ghost matches_partial_cmp = { Prim.search rules };

    ghost matches_eq = { Prim.search rules };

    fn cmp(&self, other: &Lit) -> Ordering {
        self.number().cmp(&other.number())
    }
}
