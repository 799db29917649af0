//! Which keys are asked after which answers, worked by hand.
ghost use Rattle.std.specs.Prelude.{◌≤◌};

use crate::diagnosis::FastDiag;
use req_keys::Want;
use std::alloc::{AllocError, Global};
use std::process::Abort;

/// Stands only for types that threads may share and hand over.
fn is_shared<T: Send + Sync>() {}

#[test]
fn threads_share_it() {
    is_shared::<FastDiag>();
}

/// The key with these members is asked, and gets this answer.
fn answer(
    rt: &impl Abort,
    state: &mut FastDiag,
    asked: &[u32],
    sat: bool,
) -> Result<(), AllocError> {
    let Want::Ask(key) = state.want() else {
        rt.abort()
    };
    assert!(rt; key.positions()?.as_slice() == asked);
    state.tell(sat)
}

/// The key with these members is asked, and this is the state after this answer to it.
fn after(
    rt: &impl Abort,
    state: &FastDiag,
    asked: &[u32],
    sat: bool,
) -> Result<FastDiag, AllocError> {
    let Want::Ask(key) = state.want() else {
        rt.abort()
    };
    assert!(rt; key.positions()?.as_slice() == asked);
    state.after(sat)
}

/// All is done, and these are kept.
fn ends(rt: &impl Abort, state: &FastDiag, kept: &[u32]) -> Result<(), AllocError> {
    let Want::Done = state.want() else { rt.abort() };
    assert!(rt; state.kept().positions()?.as_slice() == kept);
    Ok(())
}

/// These keys of n positions are asked in turn and get these answers, and then these positions are kept.
fn goes(
    rt: &impl Abort,
    alloc: Global,
    n: u32,
    answers: &[(&[u32], bool)],
    kept: &[u32],
) -> Result<(), AllocError>
    requires some { 1 ≤ n }
    requires most { n ≤ 4096 }
{
    let mut state = FastDiag::new(alloc, n)?;
    for (asked, sat) in answers {
        answer(rt, &mut state, asked, *sat)?;
    }
    ends(rt, &state, kept)
}

/// One position; 1 and 2 don't go together; 1 and 3, and 2 and 4, don't; three of four do; of 1, 2 and 3 only one does;
/// only all three together don't.
#[test]
fn goes_as_by_hand(rt: HostRuntime) -> Result<(), AllocError> {
    let alloc = rt.alloc();
    goes(&rt, alloc, 1, &[], &[])?;
    goes(
        &rt,
        alloc,
        3,
        &[(&[1], true), (&[1, 2], false), (&[1, 3], true)],
        &[1, 3],
    )?;
    goes(
        &rt,
        alloc,
        4,
        &[(&[1, 2], true), (&[1, 2, 3], false), (&[1, 2, 4], false)],
        &[1, 2],
    )?;
    goes(
        &rt,
        alloc,
        4,
        &[(&[1, 2], true), (&[1, 2, 3], true)],
        &[1, 2, 3],
    )?;
    goes(
        &rt,
        alloc,
        3,
        &[(&[1], true), (&[1, 2], false), (&[1, 3], false)],
        &[1],
    )?;
    goes(&rt, alloc, 3, &[(&[1], true), (&[1, 2], true)], &[1, 2])
}

/// Nothing of the lower half is kept, and a part of the upper one; a copy in the middle and the state after an answer go on
/// as the state does.
#[test]
fn five_positions_and_a_copy(rt: HostRuntime) -> Result<(), AllocError> {
    let mut state = FastDiag::new(rt.alloc(), 5)?;
    answer(&rt, &mut state, &[1, 2], false)?;
    answer(&rt, &mut state, &[1], false)?;
    answer(&rt, &mut state, &[2], false)?;
    answer(&rt, &mut state, &[3, 4, 5], false)?;
    answer(&rt, &mut state, &[3], true)?;
    let copy = state.copy()?;
    answer(&rt, &mut state, &[3, 4], false)?;
    answer(&rt, &mut state, &[3, 5], true)?;
    ends(&rt, &state, &[3, 5])?;
    let other = after(&rt, &copy, &[3, 4], true)?;
    ends(&rt, &other, &[3, 4])
}
