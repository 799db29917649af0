//! What somebody wants of a product.
ghost use Rattle.std.specs.Prelude.{◌≡◌, ◌≤◌, length, IfOk};
ghost use Rattle.config_reader.specs.Configuration.{of_musts};

use crate::copies::copy_of;
use feature_tree::{Formula, Text};
use lists::Row;
use std::alloc::{AllocError, Global};

/// How many requirements a file may have, and how many musts.
pub(crate) const MOST: usize = 4_096;

/// A formula that somebody wants to be true, with its text in the file.
#[derive(Debug, Drop)]
pub struct Requirement {
    /// The bytes of its tokens, with one blank between two that are apart.
    pub text: Text,
    /// Its names are numbers of features.
    pub formula: Formula,
}

/// A list of requirements.
pub type Requirements = Row<Requirement>;

/// The requirements by their numbers, and the musts by theirs.
#[derive(Debug, Drop)]
pub struct Config {
    /// The most important first.
    pub requirements: Requirements,
    /// What is not up to choice.
    pub musts: Requirements,
}

impl std::marker::Model for Config {
    ghost use Rattle.config_reader.specs.Configuration.{Configuration, IsWithin};

    ghost Value = { Configuration };

    ghost use Rattle.config_reader.specs.contracts.config.Requirement as requirement;
    ghost use Rattle.std.specs.Coded.{codes};

    ghost coded = { Prim.hlevel (codes, requirement.the_row.coded) };

    ghost view = { λ config. record { requirements = config.requirements; musts = config.musts } };

    ghost invariant = { λ config. IsWithin config.requirements config.musts };

    ghost inverse = { λ value. record { requirements = value.requirements; musts = value.musts } };
}

impl Config {
    /// The configuration whose requirements are the musts, and that has no musts.
    pub fn of_musts(&self, alloc: Global) -> Result<Config, AllocError>
        requires { length self.now.musts ≤ 4096 }
        ensures { IfOk result (λ config. config ≡ of_musts self.now) }
    {
        let mut requirements: Requirements = Row::new(alloc);
        for must in self.musts.as_slice() {
            requirements.push(copy_of(alloc, must)?)?;
        }
        Ok(Config {
            requirements,
            musts: Row::new(alloc),
        })
    }
}
