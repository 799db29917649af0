//! The trail.
ghost use Rattle.std.specs.Prelude.{◌≡◌, ◌<◌, ◌≤◌, [], ◌∷◌, ◌++◌, All, IfOk, Some, false, length, slice_get, take};
ghost use Rattle.clauses.specs.Clause.{has, negation};
ghost use Rattle.propagation.specs.inside.Trails.{AreUnset, IsOneSigned, IsTakenIn, code_of, value_in};

use crate::codes::Code;
use clauses::Lit;
use std::alloc::{AllocError, Global};
use std::marker::Model;

/// The literals that are true, in the order in which they came, at most one of each variable.
#[derive(Drop)]
pub(crate) struct Trail {
    /// With room for one of each variable.
    literals: Vec<Code>,
    /// By the variable's number: where its literal stands, if one does.
    places: Vec<usize>,
    /// By the literal's number: whether it stands there.
    values: Vec<bool>,
}

impl Model for Trail {
    ghost use Rattle.std.specs.Prelude.{length, vec_capacity};
    ghost use Rattle.propagation.specs.inside.Trails.{AreValues, IsTrail, Trailing};

    ghost Value = { Trailing };

    ghost view = { λ a. record { variables = length a.places.items; literals = a.literals.items } };

    ghost invariant = { λ a. IsTrail a.literals.items a.places.items (vec_capacity a.literals) × AreValues (length a.places.items) a.literals.items a.values.items };
}

impl Trail {
    /// The empty trail, for so many variables.
    pub fn new(alloc: Global, variables: usize) -> Result<Trail, AllocError>
        requires { variables ≤ 1000000 }
        ensures { IfOk result (λ trail. trail ≡ record { variables = variables; literals = [] }) }
    {
        let literals = Vec::with_capacity(alloc, variables)?;
        let places = vec![in alloc; 0; variables]?;
        let values = vec![in alloc; false; 2 * variables]?;
        Ok(Trail {
            literals,
            places,
            values,
        })
    }

    pub fn len(&self) -> usize
        ensures value { result ≡ length self.now.literals }
        ensures most { result ≤ self.now.variables }
        ensures one_signed { IsOneSigned self.now.literals }
        ensures few { self.now.variables ≤ 1000000 }
    {
        self.literals.len()
    }

    pub fn get(&self, i: usize) -> Code
        requires { i < length self.now.literals }
        ensures value { slice_get self.now.literals i ≡ Some result }
        ensures variable { result.var < self.now.variables }
    {
        self.literals[i]
    }

    /// Whether the literal is on the trail.
    pub fn is_true(&self, literal: Code) -> bool
        requires { literal.var < self.now.variables }
        ensures answer { result ≡ has self.now.literals literal }
        ensures one_signed { IsOneSigned self.now.literals }
    {
        self.values[literal.slot()]
    }

    /// Whether its negation is.
    pub fn is_false(&self, literal: Code) -> bool
        requires { literal.var < self.now.variables }
        ensures { result ≡ has self.now.literals (negation literal) }
    {
        self.is_true(literal.negated())
    }

    /// Whether the literal is among the first so many.
    pub fn was_true(&self, literal: Code, count: usize) -> bool
        requires { literal.var < self.now.variables }
        ensures { result ≡ has (take count self.now.literals) literal }
    {
        self.places[literal.variable()] < count && self.is_true(literal)
    }

    /// Whether its negation is.
    pub fn was_false(&self, literal: Code, count: usize) -> bool
        requires { literal.var < self.now.variables }
        ensures { result ≡ has (take count self.now.literals) (negation literal) }
    {
        self.was_true(literal.negated(), count)
    }

    /// Makes the literal true, unless it is.
    pub fn take_in(&mut self, literal: Code)
        requires variable { literal.var < self.old.variables }
        requires not_false { has self.old.literals (negation literal) ≡ false }
        ensures { IsTakenIn self.old literal self.new }
    {
        if !self.is_true(literal) {
            self.put(literal);
        }
    }

    /// What the trail says of the variable.
    pub fn value(&self, var: u32) -> Option<bool>
        requires { var < self.now.variables }
        ensures { result ≡ value_in self.now.literals var }
    {
        prove!(0 <= self.len());
        let positive = Code::of(Lit {
            var,
            positive: true,
        });
        if self.is_true(positive) {
            return Some(true);
        }
        if self.is_true(positive.negated()) {
            return Some(false);
        }
        None
    }

    /// Appends the literal.
    pub fn put(&mut self, literal: Code)
        requires variable { literal.var < self.old.variables }
        requires not_true { has self.old.literals literal ≡ false }
        requires not_false { has self.old.literals (negation literal) ≡ false }
        ensures { self.new ≡ record self.old { literals = self.old.literals ++ literal ∷ [] } }
    {
        self.places[literal.variable()] = self.literals.len();
        self.values[literal.slot()] = true;
        self.literals.push_reserved(literal);
    }

    /// Keeps the first so many.
    pub fn cut(&mut self, count: usize)
        ensures { self.new ≡ record self.old { literals = take count self.old.literals } }
    {
        if count >= self.literals.len() {
            return;
        }
        unset(&mut self.values, &self.literals[count..]);
        self.literals.truncate(count);
    }
}

/// None of these literals stands there any more.
fn unset(values: &mut [bool], literals: &[Code])
    requires { All (λ literal. code_of literal < length values.old) literals.now }
    ensures { AreUnset values.old literals.now values.new }
{
    for literal in literals {
        values[literal.slot()] = false;
    }
}
