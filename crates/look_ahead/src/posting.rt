//! Which keys are posted, live and settled.
ghost use Rattle.std.specs.Prelude.{◌≡◌, ◌≤◌, ◌+◌, ◌-◌, ◌++◌, [], ◌∷◌, All, Contains, IfOk, None, false, true, OnErr, OnOk, filter, length, map, not, take};
ghost use Rattle.lists.specs.Distinct.{IsDistinct};
ghost use Rattle.look_ahead.specs.Posting.{after_turn, is_wanted, lacking, live_entry, nothing_posted, numbered, numbers_of, orders_of, settled_by, wasted_in};
ghost use Rattle.look_ahead.specs.inside.Turns.{IsTurn, round_of};

use crate::orders::Orders;
use indexmap::{IndexMap, IndexSet};
use req_keys::{Key, Keys, Numbers};
use std::alloc::{AllocError, Global};
use std::marker::Model;

/// Which keys are posted, in rounds of so many entries, which of them are live, and how many were settled.
#[derive(Drop)]
pub struct Posting {
    entries: u32,
    /// The live entries' numbers, by their keys.
    live: IndexMap<Key, u32>,
    taken: u32,
    posted: Keys,
    settled: u64,
}

impl Model for Posting {
    ghost use Rattle.look_ahead.specs.Posting.{PostingState};
    ghost use Rattle.look_ahead.specs.inside.Turns.{IsPosting};

    ghost Value = { PostingState };

    ghost view = { λ a. record { entries = a.entries; live = a.live.entries; taken = a.taken; posted = a.posted; settled = a.settled } };

    ghost invariant = { λ a. IsPosting (record { entries = a.entries; live = a.live.entries; taken = a.taken; posted = a.posted; settled = a.settled }) };
}

/// What a turn orders, and the round after it.
#[derive(Drop)]
pub(crate) struct Turn {
    pub live: IndexMap<Key, u32>,
    pub taken: u32,
    pub orders: Orders,
}

/// The live entries that stay, and the numbers of those that are cancelled.
#[derive(Drop)]
pub(crate) struct Sifted {
    pub kept: IndexMap<Key, u32>,
    pub cancel: Numbers,
}

impl Posting {
    /// Nothing is posted, in a round of so many entries.
    pub fn new(alloc: Global, entries: u32) -> Result<Posting, AllocError>
        requires least { 1 ≤ entries }
        requires most { entries ≤ 4096 }
        ensures { IfOk result (λ posting. posting ≡ nothing_posted entries) }
    {
        Ok(Posting {
            entries,
            live: IndexMap::new(alloc),
            taken: 0,
            posted: Keys::new(alloc),
            settled: 0,
        })
    }

    /// What is ordered in the turn that asks the key, with the list of guessed keys. It is entered here. After want of memory
    /// everything is as it was.
    pub fn turn(&mut self, asked: &Key, list: &Keys) -> Result<Orders, AllocError>
        requires distinct { IsDistinct list.now }
        requires others { ¬ Contains list.now asked.now }
        requires positions { All (λ key. key.n ≡ asked.now.n) list.now }
        ensures orders { IfOk result (λ orders. orders ≡ orders_of asked.now list.now self.old) }
        ensures ok { OnOk result (self.new ≡ after_turn asked.now list.now self.old) }
        ensures err { OnErr result (self.new ≡ self.old) }
    {
        let alloc = self.posted.allocator();
        let turn = turn_of(alloc, self.entries, &self.live, self.taken, asked, list)?;
        push_all(&mut self.posted, turn.orders.post.as_slice())?;
        self.live = turn.live;
        self.taken = turn.taken;
        Ok(turn.orders)
    }

    /// The number of the key's live entry.
    pub fn entry_of(&self, key: &Key) -> Option<u32>
        ensures { result ≡ live_entry self.now.live key.now }
    {
        self.live.get(key).copied()
    }

    /// The key's live entry, if any, counts as used and is live no more.
    pub fn settle(&mut self, key: &Key)
        ensures { self.new ≡ settled_by key.now self.old }
    {
        if self.live.shift_remove(key).is_some() {
            let fits = self.settled < self.posted.len() as u64;
            prove!(fits);
            self.settled += 1;
        }
    }

    /// All posted keys, in order.
    pub fn posted(&self) -> &Keys
        ensures { result.now ≡ self.now.posted }
    {
        &self.posted
    }

    /// How many postings were not settled.
    pub fn wasted(&self) -> u64
        ensures { result ≡ wasted_in self.now }
    {
        self.posted.len() as u64 - self.settled
    }

    /// All posted keys, in order.
    pub fn into_posted(self) -> Keys
        ensures { result ≡ self.posted }
    {
        let Posting {
            entries: _,
            live: _live,
            taken: _,
            posted,
            settled: _,
        } = self;
        posted
    }
}

/// A turn over the live entries and how many entries are taken.
fn turn_of(
    alloc: Global,
    entries: u32,
    live: &IndexMap<Key, u32>,
    taken: u32,
    asked: &Key,
    list: &Keys,
) -> Result<Turn, AllocError>
    requires most { entries ≤ 4096 }
    requires within { taken ≤ entries }
    requires distinct { IsDistinct list.now }
    ensures { IfOk result (IsTurn (round_of entries live.now.entries taken) asked.now list.now) }
{
    let wanted = set_of(alloc, list)?;
    let Sifted { kept, cancel } = sift(alloc, live, asked, &wanted)?;
    let missing = keys_lacking(alloc, &kept, list)?;
    if 0 < taken && ((entries - taken) as usize) < missing.len() {
        new_round(alloc, entries, &kept, cancel, list)
    } else {
        same_round(entries, kept, taken, cancel, missing)
    }
}

/// A new round, in which all of the list is lacking.
fn new_round(
    alloc: Global,
    entries: u32,
    live: &IndexMap<Key, u32>,
    mut cancel: Numbers,
    list: &Keys,
) -> Result<Turn, AllocError>
    requires most { entries ≤ 4096 }
    requires distinct { IsDistinct list.now }
    ensures new { IfOk result (λ turn. turn.orders.new_round ≡ true) }
    ensures cancel { IfOk result (λ turn. turn.orders.cancel ≡ cancel ++ numbers_of live.now.entries) }
    ensures post { IfOk result (λ turn. turn.orders.post ≡ take entries (lacking [] list.now)) }
    ensures live { IfOk result (λ turn. turn.live.entries ≡ numbered 0 turn.orders.post) }
    ensures taken { IfOk result (λ turn. turn.taken ≡ length turn.orders.post) }
{
    push_numbers(&mut cancel, live)?;
    let none = IndexMap::new(alloc);
    let mut post = keys_lacking(alloc, &none, list)?;
    post.truncate(entries as usize);
    let taken = post.len() as u32;
    let live = with_posts(none, 0, &post)?;
    Ok(Turn {
        live,
        taken,
        orders: Orders {
            new_round: true,
            cancel,
            post,
        },
    })
}

/// The same round, in which these are lacking.
fn same_round(
    entries: u32,
    live: IndexMap<Key, u32>,
    taken: u32,
    cancel: Numbers,
    missing: Keys,
) -> Result<Turn, AllocError>
    requires most { entries ≤ 4096 }
    requires within { taken ≤ entries }
    requires distinct { IsDistinct missing }
    requires lacking { All (λ key. live_entry live.entries key ≡ None) missing }
    ensures new { IfOk result (λ turn. turn.orders.new_round ≡ false) }
    ensures cancel { IfOk result (λ turn. turn.orders.cancel ≡ cancel) }
    ensures post { IfOk result (λ turn. turn.orders.post ≡ take (entries - taken) missing) }
    ensures live { IfOk result (λ turn. turn.live.entries ≡ live.entries ++ numbered taken turn.orders.post) }
    ensures taken { IfOk result (λ turn. turn.taken ≡ taken + length turn.orders.post) }
{
    let mut post = missing;
    post.truncate((entries - taken) as usize);
    let now = taken + post.len() as u32;
    let live = with_posts(live, taken, &post)?;
    Ok(Turn {
        live,
        taken: now,
        orders: Orders {
            new_round: false,
            cancel,
            post,
        },
    })
}

/// The list, to look keys up in it.
fn set_of(alloc: Global, list: &Keys) -> Result<IndexSet<Key>, AllocError>
    requires { IsDistinct list.now }
    ensures { IfOk result (λ set. set.keys ≡ list.now) }
{
    let mut set = IndexSet::with_capacity(alloc, list.len())?;
    'keys: for key in list.as_slice() {
        let key = key.copy()?;
        set.insert(key)?;
    }
    Ok(set)
}

/// The live entries that are wanted, with room for as many more as there are in the list, and the numbers of the others.
fn sift(
    alloc: Global,
    live: &IndexMap<Key, u32>,
    asked: &Key,
    wanted: &IndexSet<Key>,
) -> Result<Sifted, AllocError>
    ensures kept { IfOk result (λ sifted. sifted.kept.entries ≡ filter (is_wanted asked.now wanted.now.keys) live.now.entries) }
    ensures cancel { IfOk result (λ sifted. sifted.cancel ≡ numbers_of (filter (λ entry. not (is_wanted asked.now wanted.now.keys entry)) live.now.entries)) }
{
    let mut kept = IndexMap::with_capacity(alloc, live.len().saturating_add(wanted.len()))?;
    let mut cancel = Numbers::new(alloc);
    'entries: for (key, number) in live {
        if key == asked || wanted.contains(key) {
            let key = key.copy()?;
            kept.insert(key, *number)?;
        } else {
            cancel.push(*number)?;
        }
    }
    Ok(Sifted { kept, cancel })
}

/// The keys without a live entry.
fn keys_lacking(alloc: Global, live: &IndexMap<Key, u32>, list: &Keys) -> Result<Keys, AllocError>
    ensures { IfOk result (λ missing. missing ≡ lacking live.now.entries list.now) }
{
    let mut missing = Keys::new(alloc);
    'keys: for key in list.as_slice() {
        if live.get(key).is_none() {
            missing.push(key.copy()?)?;
        }
    }
    Ok(missing)
}

/// Appends the entries' numbers.
fn push_numbers(numbers: &mut Numbers, live: &IndexMap<Key, u32>) -> Result<(), AllocError>
    ensures { OnOk result (numbers.new ≡ numbers.old ++ numbers_of live.now.entries) }
{
    'entries: for (_, number) in live {
        numbers.push(*number)?;
    }
    Ok(())
}

/// The live entries, and the posts' from this number on.
fn with_posts(
    mut live: IndexMap<Key, u32>,
    first: u32,
    posts: &Keys,
) -> Result<IndexMap<Key, u32>, AllocError>
    requires room { first + length posts.now ≤ 4096 }
    requires distinct { IsDistinct posts.now }
    requires lacking { All (λ key. live_entry live.entries key ≡ None) posts.now }
    ensures { IfOk result (λ with. with.entries ≡ live.entries ++ numbered first posts.now) }
{
    let mut number = first;
    'posts: for key in posts.as_slice() {
        let key = key.copy()?;
        live.insert(key, number)?;
        number += 1;
    }
    Ok(live)
}

/// Appends copies of all keys, or none.
fn push_all(list: &mut Keys, more: &[Key]) -> Result<(), AllocError>
    ensures ok { OnOk result (list.new ≡ list.old ++ more.now) }
    ensures err { OnErr result (list.new ≡ list.old) }
{
    let before = list.len();
    let pushed = push_copies(list, more);
    if pushed.is_err() {
        list.truncate(before);
    }
    pushed
}

/// Appends copies of the keys, maybe not all.
fn push_copies(list: &mut Keys, more: &[Key]) -> Result<(), AllocError>
    ensures ok { OnOk result (list.new ≡ list.old ++ more.now) }
    ensures err { OnErr result (take (length list.old) list.new ≡ list.old) }
{
    'keys: for key in more {
        list.push(key.copy()?)?;
    }
    Ok(())
}
