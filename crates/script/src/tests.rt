//! A run from end to end, worked by hand.
use crate::{JobPlan, Run};
use req_keys::{Verdict, Want};
use std::alloc::AllocError;
use std::process::Abort;

/// Stands only for types that threads may share and hand over.
fn is_shared<T: Send + Sync>() {}

#[test]
fn threads_share_it() {
    is_shared::<Run>();
}

/// The key with these members is asked, and gets this verdict.
fn answer(
    rt: &impl Abort,
    run: &mut Run,
    asked: &[u32],
    verdict: Verdict,
) -> Result<(), AllocError> {
    let Want::Ask(key) = run.want() else {
        rt.abort()
    };
    assert!(rt; key.positions()?.as_slice() == asked);
    run.tell(verdict)
}

/// 1 and 2 of three don't go together, and the minimal diagnoses are listed; a copy in the middle goes on by itself.
#[test]
fn goes_as_by_hand(rt: HostRuntime) -> Result<(), AllocError> {
    let plan = JobPlan {
        requirements: 3,
        list: Some(3),
    };
    let mut run = Run::new(rt.alloc(), plan)?;
    answer(&rt, &mut run, &[1, 2, 3], Verdict::Unsat)?;
    answer(&rt, &mut run, &[], Verdict::Sat)?;
    answer(&rt, &mut run, &[1], Verdict::Sat)?;
    let mut ahead = run.copy()?;
    answer(&rt, &mut ahead, &[1, 2], Verdict::Limit)?;
    answer(&rt, &mut run, &[1, 2], Verdict::Unsat)?;
    answer(&rt, &mut run, &[1, 3], Verdict::Sat)?;
    answer(&rt, &mut run, &[2], Verdict::Sat)?;
    answer(&rt, &mut run, &[2, 3], Verdict::Sat)?;
    let Want::Done = run.want() else { rt.abort() };
    assert!(&rt; ahead.used().len() == 4 && run.used().len() == 7);
    Ok(())
}
