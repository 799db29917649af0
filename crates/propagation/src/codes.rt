//! Literals as numbers.
ghost use Rattle.std.specs.Prelude.{◌≡◌, ◌<◌, ◌^◌, ◌↔◌, IsTrue};
ghost use Rattle.clauses.specs.Clause.{negation};
ghost use Rattle.propagation.specs.inside.Trails.{code_of};

use clauses::Lit;
use std::marker::Model;

/// A literal as its number, half as large as the literal.
#[derive(Clone, Copy, PartialEq, Eq)]
pub(crate) struct Code {
    /// Twice the variable, and one more where the literal is positive.
    number: u32,
}

impl Model for Code {
    ghost use Rattle.clauses.specs.declared.literal.Lit.{Lit};
    ghost use Rattle.propagation.specs.inside.Trails.{code_of};
    ghost use Rattle.propagation.specs.inside.Numbers.{literal_of, number-again};
    ghost use Rattle.std.specs.Prelude.{ℕ};
    ghost use Rattle.std.proofs.Common.{ap};

    ghost Value = { Lit };

    ghost view = { λ a. literal_of a.number };

    ghost inverse = { λ literal. record { number = code_of literal } };

    ghost inverse_ok = { λ a h. ap (λ (n : ℕ). record { number = n }) (number-again a.number) };
}

impl Code {
    /// The number of the literal.
    pub fn of(literal: Lit) -> Code
        requires { literal.var < 2 ^ 31 }
        ensures { result ≡ literal }
    {
        Code {
            number: 2 * literal.var + u32::from(literal.positive),
        }
    }

    /// By which lists are indexed that have a place for each literal.
    pub fn slot(self) -> usize
        ensures { result ≡ code_of self }
    {
        self.number as usize
    }

    /// By which lists are indexed that have a place for each variable.
    pub fn variable(self) -> usize
        ensures { result ≡ self.var }
    {
        (self.number / 2) as usize
    }

    /// The same variable with the other sign.
    pub fn negated(self) -> Code
        ensures { result ≡ negation self }
    {
        Code {
            number: self.number / 2 * 2 + (1 - self.number % 2),
        }
    }
}
