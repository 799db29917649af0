//! The parts of a job as recursions.
ghost use Rattle.std.specs.Prelude.{◌≡◌};

use crate::going::Recursion;
use fast_diag::FastDiag;
use hs_tree::HsTree;
use pref_sets::fd_asks_new_sets;
use quick_xplain::QuickXplain;
use req_keys::Want;
use std::alloc::AllocError;

impl Recursion for FastDiag {
    ghost use Rattle.std.specs.List.{range_with_len};
    ghost use Rattle.pref_sets.specs.FastDiag.{fd};
    ghost use Rattle.req_keys.specs.Key.{full_key};

    ghost start = { λ state. (full_key state.n, 0) };

    ghost next = { λ state. fd (range_with_len 1 state.n) };

    ghost answers = { λ state. state.told };

    fn asks(&self) -> Want<'_> {
        fd_asks_new_sets();
        self.want()
    }

    fn go_on(&mut self, sat: bool) -> Result<(), AllocError> {
        self.tell(sat)?;
        Ok(())
    }

    fn after(&self, sat: bool) -> Result<FastDiag, AllocError> {
        let next = FastDiag::after(self, sat)?;
        Ok(next)
    }

    fn again(&self) -> Result<FastDiag, AllocError> {
        self.copy()
    }
}

impl Recursion for QuickXplain {
    ghost use Rattle.pref_sets.specs.QuickXplain.{qx};

    ghost start = { λ state. (state.among, 0) };

    ghost next = { λ state. qx state.among.members };

    ghost answers = { λ state. state.told };

    fn asks(&self) -> Want<'_> {
        self.want()
    }

    fn go_on(&mut self, sat: bool) -> Result<(), AllocError> {
        self.tell(sat)?;
        Ok(())
    }

    fn after(&self, sat: bool) -> Result<QuickXplain, AllocError> {
        let next = QuickXplain::after(self, sat)?;
        Ok(next)
    }

    fn again(&self) -> Result<QuickXplain, AllocError> {
        self.copy()
    }
}

impl Recursion for HsTree {
    ghost use Rattle.hs_tree.specs.Hitting.{next_over};

    ghost start = { λ state. (state.first, state.most) };

    ghost next = { λ state. next_over state.first state.most };

    ghost answers = { λ state. state.told };

    fn asks(&self) -> Want<'_> {
        self.want()
    }

    fn go_on(&mut self, sat: bool) -> Result<(), AllocError> {
        self.tell(sat)?;
        Ok(())
    }

    fn after(&self, sat: bool) -> Result<HsTree, AllocError> {
        let mut next = self.copy()?;
        next.tell(sat)?;
        Ok(next)
    }

    fn again(&self) -> Result<HsTree, AllocError> {
        self.copy()
    }
}
