//! Which keys are asked after which answers, worked by hand.
ghost use Rattle.std.specs.Prelude.{◌≤◌};

use crate::explanation::QuickXplain;
use req_keys::{Key, Want};
use std::alloc::{AllocError, Global};
use std::process::Abort;

/// Stands only for types that threads may share and hand over.
fn is_shared<T: Send + Sync>() {}

#[test]
fn threads_share_it() {
    is_shared::<QuickXplain>();
}

/// The state over these positions of n, to which nothing is told.
fn among(rt: &impl Abort, alloc: Global, n: u32, members: &[u32]) -> Result<QuickXplain, AllocError>
    requires { n ≤ 4096 }
{
    let mut key = Key::empty(alloc, n)?;
    for i in members {
        assert!(rt; 1 <= *i && *i <= key.n());
        key = key.with(*i)?;
    }
    assert!(rt; !key.is_empty());
    QuickXplain::new(alloc, &key)
}

/// The key with these members is asked, and gets this answer.
fn answer(
    rt: &impl Abort,
    state: &mut QuickXplain,
    asked: &[u32],
    sat: bool,
) -> Result<(), AllocError> {
    let Want::Ask(key) = state.want() else {
        rt.abort()
    };
    assert!(rt; key.positions()?.as_slice() == asked);
    state.tell(sat)
}

/// The key with these members is asked, and this is the state after this answer to it.
fn after(
    rt: &impl Abort,
    state: &QuickXplain,
    asked: &[u32],
    sat: bool,
) -> Result<QuickXplain, AllocError> {
    let Want::Ask(key) = state.want() else {
        rt.abort()
    };
    assert!(rt; key.positions()?.as_slice() == asked);
    state.after(sat)
}

/// All is done, and this is the conflict.
fn ends(rt: &impl Abort, state: &QuickXplain, conflict: &[u32]) -> Result<(), AllocError> {
    let Want::Done = state.want() else { rt.abort() };
    assert!(rt; state.conflict().positions()?.as_slice() == conflict);
    Ok(())
}

/// A start set that is no range; a copy in the middle and the state after an answer go on as the state does.
#[test]
fn no_range_and_a_copy(rt: HostRuntime) -> Result<(), AllocError> {
    let mut state = among(&rt, rt.alloc(), 70, &[66, 2, 5])?;
    answer(&rt, &mut state, &[2], true)?;
    answer(&rt, &mut state, &[2, 5], true)?;
    let copy = state.copy()?;
    answer(&rt, &mut state, &[2, 66], false)?;
    answer(&rt, &mut state, &[66], true)?;
    ends(&rt, &state, &[2, 66])?;
    let mut other = after(&rt, &copy, &[2, 66], true)?;
    answer(&rt, &mut other, &[5, 66], false)?;
    ends(&rt, &other, &[5, 66])
}
