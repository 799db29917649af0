//! One set of a level: a diagnosis, a set with a label, or neither; or a key is asked for it.
ghost use Rattle.std.specs.Prelude.{◌≡◌, List, ℕ, Bool, None, IfOk, OnOk, MatchOption};
ghost use Rattle.pref_sets.specs.Answers.{Ask, answer_to};
ghost use Rattle.req_keys.specs.Key.{IsKey};
ghost use Rattle.req_keys.specs.Wanting.{key_over, wanted_key};
ghost use Rattle.hs_tree.specs.inside.Standing.{wanted_by};
ghost use Rattle.quick_xplain.specs.Explaining.{next_of};
ghost use Rattle.hs_tree.specs.Tree.{without};
ghost use Rattle.hs_tree.specs.inside.Steps.{Grows, IsFound, IsSetDone, IsSetWaiting, from_start, from_rest, from_label, with_made};
ghost use Rattle.hs_tree.specs.inside.Told.{AreToldOver, HasAll, IsOver, answers_of};

use crate::found::{Found, first_apart, has_part};
use crate::told::{Told, answer};
use quick_xplain::QuickXplain;
use req_keys::{Key, Want};
use std::alloc::{AllocError, Global};

/// What is asked for a set: the other positions, or what QuickXplain asks for a label of them.
#[derive(Drop)]
pub(crate) enum Asking {
    Rest(Key),
    Label(QuickXplain),
}

impl Asking {
    /// The key whose verdict is wanted.
    pub fn want(&self) -> Want<'_>
        ensures { wanted_key result ≡ wanted_by self.now }
    {
        match self {
            Asking::Rest(rest) => Want::Ask(rest),
            Asking::Label(label) => label.want(),
        }
    }

    pub fn copy(&self) -> Result<Asking, AllocError>
        ensures { IfOk result (λ copy. copy ≡ self.now) }
    {
        match self {
            Asking::Rest(rest) => {
                let rest = rest.copy()?;
                Ok(Asking::Rest(rest))
            }
            Asking::Label(label) => {
                let label = label.copy()?;
                Ok(Asking::Label(label))
            }
        }
    }
}

/// The positions that aren't in the set.
fn rest_of(alloc: Global, set: &Key) -> Result<Key, AllocError>
    ensures rest { IfOk result (λ rest. rest ≡ key_over set.now.n (without set.now.n set.now.members)) }
    ensures over { IfOk result (IsOver set.now.n) }
{
    let full = Key::full(alloc, set.n())?;
    let rest = full.minus(set)?;
    Ok(rest)
}

/// The set from the start on.
pub(crate) fn one_set(
    alloc: Global,
    told: &Told,
    found: &mut Found,
    last: bool,
    set: &Key,
) -> Result<Option<Asking>, AllocError>
    requires set { IsKey set.now }
    requires found { IsFound set.now.n found.old }
    requires told { AreToldOver set.now.n told.now }
    ensures grows { Grows found.old found.new }
    ensures found { OnOk result (IsFound set.now.n found.new) }
    ensures goes { IfOk result (λ asking. MatchOption asking
        (IsSetDone (answers_of told.now) found.old found.new set.now.members (from_start set.now.n last set.now.members))
        (IsSetWaiting set.now.n (answers_of told.now) last found.old found.new set.now.members (from_start set.now.n last set.now.members))) }
{
    if has_part(found.diagnoses.as_slice(), set) {
        found.labels.push(None)?;
        return Ok(None);
    }
    if let Some(place) = first_apart(found.conflicts.as_slice(), set) {
        found.labels.push(Some(place))?;
        return Ok(None);
    }
    let rest = rest_of(alloc, set)?;
    by_rest(alloc, told, found, last, set, rest)
}

/// The set from where its rest is asked.
pub(crate) fn by_rest(
    alloc: Global,
    told: &Told,
    found: &mut Found,
    last: bool,
    set: &Key,
    rest: Key,
) -> Result<Option<Asking>, AllocError>
    requires set { IsKey set.now }
    requires found { IsFound set.now.n found.old }
    requires told { AreToldOver set.now.n told.now }
    requires rest { IsOver set.now.n rest }
    ensures grows { Grows found.old found.new }
    ensures found { OnOk result (IsFound set.now.n found.new) }
    ensures goes { IfOk result (λ asking. MatchOption asking
        (IsSetDone (answers_of told.now) found.old found.new set.now.members (from_rest last set.now.members rest.members))
        (IsSetWaiting set.now.n (answers_of told.now) last found.old found.new set.now.members (from_rest last set.now.members rest.members))) }
{
    match answer(told, &rest) {
        None => Ok(Some(Asking::Rest(rest))),
        Some(true) => {
            found.diagnoses.push(set.copy()?)?;
            found.labels.push(None)?;
            Ok(None)
        }
        Some(false) => {
            if last || rest.is_empty() {
                found.labels.push(None)?;
                return Ok(None);
            }
            let label = QuickXplain::new(alloc, &rest)?;
            let asking = by_label(told, found, label)?;
            Ok(asking)
        }
    }
}

/// Tells what is known already.
fn with_known(told: &Told, mut label: QuickXplain) -> Result<QuickXplain, AllocError>
    requires told { AreToldOver label.among.n told.now }
    requires known { HasAll label.told (answers_of told.now) }
    ensures among { IfOk result (λ after. after.among ≡ label.among) }
    ensures known { IfOk result (λ after. HasAll after.told (answers_of told.now)) }
    ensures new { IfOk result (λ after. (set : List ℕ) → next_of after ≡ Ask set → answer_to (answers_of told.now) set ≡ None) }
{
    while let Want::Ask(key) = label.want() {
        match answer(told, key) {
            None => return Ok(label),
            Some(sat) => label.tell(sat)?,
        }
    }
    Ok(label)
}

/// The set from where its label is made.
pub(crate) fn by_label(
    told: &Told,
    found: &mut Found,
    label: QuickXplain,
) -> Result<Option<Asking>, AllocError>
    requires found { IsFound label.among.n found.old }
    requires told { AreToldOver label.among.n told.now }
    requires known { HasAll label.told (answers_of told.now) }
    ensures grows { Grows found.old found.new }
    ensures found { OnOk result (IsFound label.among.n found.new) }
    ensures goes { (last : Bool) (set : List ℕ) →
        IfOk result (λ asking. MatchOption asking
        (IsSetDone (answers_of told.now) found.old found.new set (from_label set label.among.members))
        (IsSetWaiting label.among.n (answers_of told.now) last found.old found.new set (from_label set label.among.members))) }
{
    let label = with_known(told, label)?;
    match label.want() {
        Want::Ask(_) => Ok(Some(Asking::Label(label))),
        Want::Done => {
            add_label(found, label.conflict())?;
            Ok(None)
        }
    }
}

/// The conflict is known from now on, and the label of the set.
fn add_label(found: &mut Found, conflict: &Key) -> Result<(), AllocError>
    ensures grows { Grows found.old found.new }
    ensures ok { OnOk result (found.new ≡ with_made found.old conflict.now) }
{
    let place = found.conflicts.len();
    found.conflicts.push(conflict.copy()?)?;
    found.labels.push(Some(place))
}
