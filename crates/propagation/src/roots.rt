//! The roots of a key.
ghost use Rattle.std.specs.Prelude.{◌≡◌, [], IfOk, length};
ghost use Rattle.propagation.specs.Roots.{AreAsked, IsRooted};
ghost use Rattle.propagation.specs.inside.RootTrials.{AreRootsTo, AreTried, IsAt, IsCommon};

use crate::propagator::Propagator;
use clauses::{Lit, Problem};
use req_keys::Key;
use std::alloc::{AllocError, Global};

/// A propagator in which the roots of the key are assumed. None where they clash with the clauses.
pub fn with_roots<'a>(
    alloc: Global,
    problem: &'a Problem,
    key: &Key,
) -> Result<Option<Propagator<'a>>, AllocError>
    requires { key.now.n ≡ length problem.now.roots }
    ensures { IfOk result (IsRooted problem.now key.now) }
{
    let mut propagator = Propagator::new(alloc, problem)?;
    if assume_roots(&mut propagator, key) {
        Ok(Some(propagator))
    } else {
        Ok(None)
    }
}

/// Forgets what is assumed and learned, and assumes the roots of the key. False where they clash with the clauses. Where
/// nothing is learned, roots that were assumed first and are the key's first ones stay.
pub fn assume_roots(propagator: &mut Propagator<'_>, key: &Key) -> bool
    requires { key.now.n ≡ length propagator.old.problem.roots }
    ensures { AreAsked propagator.old.problem key.now propagator.new result }
{
    if !propagator.learned().is_empty() {
        propagator.forget();
    }
    let common = common_roots(propagator, key);
    propagator.back_to(common.count);
    let fits = try_roots(propagator, key, common.place);
    if !fits {
        propagator.forget();
    }
    fits
}

/// How far assumed literals are roots of a key.
#[derive(Clone, Copy)]
struct Common {
    /// They are those of the members up to this position.
    place: u32,
    /// There are so many.
    count: u32,
}

/// Whether the literal with this number is this one.
fn is_at(literals: &[Lit], number: u32, literal: Lit) -> bool
    ensures { IsAt literals.now number literal result }
{
    match literals.get(number as usize) {
        Some(found) => *found == literal,
        None => false,
    }
}

/// How far the assumed literals, from the first on, are the roots of the key's members.
fn common_roots(propagator: &Propagator<'_>, key: &Key) -> Common
    requires { key.now.n ≡ length propagator.now.problem.roots }
    ensures { IsCommon propagator.now.problem key.now propagator.now.assumed result }
{
    let problem = propagator.problem();
    let same = key.n() == problem.n();
    prove!(same);
    let assumed = propagator.assumed();
    let mut count = 0;
    for place in 0..key.n() {
        if !key.contains(place + 1) {
            continue;
        }
        if !is_at(assumed, count, *problem.roots.get(place as usize)) {
            return Common { place, count };
        }
        count += 1;
    }
    Common {
        place: key.n(),
        count,
    }
}

/// Assumes the roots of the members behind this position, up to the first that clashes, and answers whether none does.
fn try_roots(propagator: &mut Propagator<'_>, key: &Key, from: u32) -> bool
    requires key { key.now.n ≡ length propagator.old.problem.roots }
    requires begun { AreRootsTo propagator.old.problem key.now from propagator.old }
    ensures { AreTried propagator.old.problem key.now propagator.new result }
{
    let problem = propagator.problem();
    let same = key.n() == problem.n();
    prove!(same);
    if propagator.clashes() {
        return false;
    }
    for place in from..key.n() {
        if !key.contains(place + 1) {
            continue;
        }
        if !propagator.assume(*problem.roots.get(place as usize)) {
            return false;
        }
    }
    true
}
