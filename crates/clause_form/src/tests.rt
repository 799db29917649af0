//! The calls on a small model.
ghost use Rattle.std.specs.Prelude.{◌≡◌, IfOk, length};
ghost use Rattle.config_reader.specs.Laws.{AreNamed};

use super::*;
use clauses::{clause_of, clauses_of};
use config_reader::{Config, Requirement};
use feature_tree::{Boxed, Formula, Model, Row, Text, Tree};
use std::alloc::{AllocError, Global};
use std::test::Fail;

/// A root alone.
fn model(alloc: Global) -> Result<Model, AllocError>
    ensures { IfOk result (λ model. length model.features ≡ 1) }
{
    let tree = Tree::new(alloc, Text::from_slice(alloc, b"R")?)?;
    Ok(tree.into_model(Row::new(alloc)))
}

/// The requirement 'R implies R', and no must.
fn config(alloc: Global) -> Result<Config, AllocError>
    ensures named { IfOk result (λ config. AreNamed 1 config.requirements) }
    ensures none { IfOk result (λ config. AreNamed 1 config.musts) }
{
    let left = Boxed::new(alloc, Formula::Name(0))?;
    let right = Boxed::new(alloc, Formula::Name(0))?;
    let mut requirements = Row::new(alloc);
    requirements.push(Requirement {
        text: Text::new(alloc),
        formula: Formula::Implies(left, right),
    })?;
    Ok(Config {
        requirements,
        musts: Row::new(alloc),
    })
}

// 'R implies R' is wanted, and has the gate b.
#[test]
fn makes_a_problem(rt: HostRuntime) -> Result<(), Fail> {
    let alloc = rt.alloc();
    let model = model(alloc)?;
    let config = config(alloc)?;
    assert_eq!(rt; needed(&model, &config), 2);
    match problem_of(alloc, &model, &config, 10, 0) {
        Ok(problem) => {
            assert!(rt; problem.clauses == clauses_of(alloc, 2, &["a", "ba", "bA", "BAa"])?);
            assert!(rt; problem.roots == clause_of(alloc, 2, "b")?);
        }
        Err(error) => assert!(rt; false, "{error}"),
    }
    Ok(())
}
