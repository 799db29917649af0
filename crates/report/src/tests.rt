//! A report on the happy path.
ghost use Rattle.std.specs.Prelude.{◌≡◌, ◌≤◌, IfOk, length};

use super::*;
use config_reader::Config;
use feature_tree::{Model, Row, Text, Tree};
use script::Outcome;
use std::alloc::{AllocError, Global};
use std::test::Fail;

/// A root alone.
fn model(alloc: Global) -> Result<Model, AllocError> {
    let tree = Tree::new(alloc, Text::from_slice(alloc, b"R")?)?;
    Ok(tree.into_model(Row::new(alloc)))
}

/// Nothing is wanted.
fn config(alloc: Global) -> Result<Config, AllocError>
    ensures { IfOk result (λ config. length config.musts ≤ 4096) }
{
    Ok(Config {
        requirements: Row::new(alloc),
        musts: Row::new(alloc),
    })
}

#[test]
fn a_report_is_made(rt: HostRuntime) -> Result<(), Fail> {
    let alloc = rt.alloc();
    let model = model(alloc)?;
    let config = config(alloc)?;
    let counts = Counts {
        checks: 1,
        predicted: 0,
        wasted: 0,
    };
    let text = report_of(
        alloc,
        &model,
        &config,
        None,
        &Outcome::Consistent,
        None,
        counts,
    )?;
    let lines =
        b"diag 1\nmodel 1 features 0 constraints\nrequirements 0\nresult consistent\nchecks 1 predicted 0 wasted 0\nend\n";
    assert_eq!(rt; text.as_slice(), lines.as_slice());
    Ok(())
}
