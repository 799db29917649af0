//! A certificate is written, and its text is one that is accepted.
ghost use Rattle.std.specs.Prelude.{◌≡◌, [], IfOk, Some, length};
ghost use Rattle.clause_form.specs.ClauseForm.{problem_of as form_of};
ghost use Rattle.clause_form.specs.Laws.{IsStatedOf};
ghost use Rattle.config_reader.specs.Configuration.{Configuration};
ghost use Rattle.script.specs.Sequential.{result_of, verdicts_of};
ghost use Rattle.certificate.specs.declared.judgement.Judgement.TheVariants.{Yes};
ghost use Rattle.certificate.specs.Accepted.{UnlessLimit};
ghost use Rattle.certificate.specs.Judging.{judge};

use super::*;
use clause_form::problem_of;
use clauses::Problem;
use config_reader::Config;
use diag_base::Bytes;
use feature_tree::{Model, Row, Text, Tree};
use script::{JobPlan, Outcome};
use std::alloc::{AllocError, Global};
use std::test::Fail;

/// A root alone.
fn model(alloc: Global) -> Result<Model, AllocError> {
    let tree = Tree::new(alloc, Text::from_slice(alloc, b"R")?)?;
    Ok(tree.into_model(Row::new(alloc)))
}

/// Nothing is wanted.
fn config(alloc: Global) -> Config
    ensures { result ≡ record { requirements = []; musts = [] } }
{
    Config {
        requirements: Row::new(alloc),
        musts: Row::new(alloc),
    }
}

#[test]
fn a_certificate_is_written(rt: HostRuntime) -> Result<(), Fail> {
    let alloc = rt.alloc();
    let model = model(alloc)?;
    let config = config(alloc);
    let problem = problem_of(alloc, &model, &config, 0, 0)?;
    let text = write_certificate(alloc, &model, &config, &problem, &Outcome::Consistent)?;
    let lines = b"certificate 1\nconsistent\nproduct 1\nend\n";
    assert_eq!(rt; text.as_slice(), lines.as_slice());
    Ok(())
}

/// The certificate of a run's outcome, by the laws.
fn certified(
    alloc: Global,
    model: &Model,
    config: &Config,
    problem: &Problem,
    plan: JobPlan,
    outcome: &Outcome,
) -> Result<Bytes, AllocError>
    requires stated { IsStatedOf model.now config.now }
    requires problem { problem.now ≡ form_of model.now config.now problem.now.allowance problem.now.rungs }
    requires plan { plan.requirements ≡ length config.now.requirements }
    requires outcome { result_of plan (verdicts_of problem.now) ≡ Some outcome.now }
    ensures { IfOk result (λ text. UnlessLimit outcome.now (λ shown. judge model.now config.now problem.now text ≡ Yes shown)) }
{
    written_is_accepted();
    let _n = problem.n();
    write_certificate(alloc, model, config, problem, outcome)
}
