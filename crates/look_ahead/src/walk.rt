//! The walk over the words of verdicts.
ghost use Rattle.std.specs.Prelude.{◌≡◌, ◌≤◌, ◌++◌, [], All, IfOk, IfSome, IsSome, OnOk, fold, if◌then◌else◌, map, option_map, option_to_list};
ghost use Rattle.look_ahead.specs.Ahead.{keys_ahead, with_key};
ghost use Rattle.look_ahead.specs.inside.Levels.{after_either, after_verdict, asks_of, keys_asked, next_level_of, seen};

use indexmap::IndexSet;
use req_keys::{Key, Keys, Verdict, Want};
use script::Asker;
use std::alloc::{AllocError, Global};

/// The keys that the asker is likely to ask after the one that it asks now: those that it would ask after each word of at
/// most so many verdicts, at most 126 of them.
pub fn ahead<A: Asker>(alloc: Global, asker: &A, depth: u8) -> Result<Keys, AllocError>
    requires asks { IsSome (A.wants asker.now (A.told asker.now)) }
    requires depth { depth ≤ 6 }
    ensures { IfOk result (λ keys. keys ≡ keys_ahead (A.wants asker.now) (A.told asker.now) depth) }
{
    if depth == 0 {
        return Ok(Keys::new(alloc));
    }
    let mut found = IndexSet::with_capacity(alloc, 2 << depth)?;
    let mut level = Vec::new(alloc);
    tell_either(asker, depth > 1, &mut found, &mut level)?;
    'lengths: for length in 1..depth {
        level = next_level(alloc, &level, length + 1 < depth, &mut found)?;
    }
    let keys = found.into_iter().collect(alloc)?;
    Ok(Keys::from_vec(keys))
}

/// The askers after one verdict more, Unsat before Sat, without those that are done, and only where they are kept. What they
/// ask is found.
fn next_level<A: Asker>(
    alloc: Global,
    level: &[A],
    kept: bool,
    found: &mut IndexSet<Key>,
) -> Result<Vec<A>, AllocError>
    requires { All (λ a. IsSome (asks_of (seen A.wants A.told a))) level.now }
    ensures next { IfOk result (λ next. map (seen A.wants A.told) next.items
        ≡ (if kept then next_level_of (map (seen A.wants A.told) level.now) else [])) }
    ensures asks { IfOk result (λ next. All (λ a. IsSome (asks_of (seen A.wants A.told a))) next.items) }
    ensures found { OnOk result (found.new.keys
        ≡ fold with_key found.old.keys (keys_asked (next_level_of (map (seen A.wants A.told) level.now)))) }
{
    let mut next = Vec::new(alloc);
    'askers: for asker in level {
        tell_either(asker, kept, found, &mut next)?;
    }
    Ok(next)
}

/// Appends the asker after Unsat and after Sat, where it asks then, and only where they are kept. What they ask is found.
fn tell_either<A: Asker>(
    asker: &A,
    kept: bool,
    found: &mut IndexSet<Key>,
    next: &mut Vec<A>,
) -> Result<(), AllocError>
    requires { IsSome (A.wants asker.now (A.told asker.now)) }
    ensures next { OnOk result (map (seen A.wants A.told) next.new.items
        ≡ map (seen A.wants A.told) next.old.items ++ (if kept then after_either (seen A.wants A.told asker.now) else [])) }
    ensures asks { All (λ a. IsSome (asks_of (seen A.wants A.told a))) next.old.items →
        OnOk result (All (λ a. IsSome (asks_of (seen A.wants A.told a))) next.new.items) }
    ensures found { OnOk result (found.new.keys ≡ fold with_key found.old.keys (keys_asked (after_either (seen A.wants A.told asker.now)))) }
{
    if kept {
        keep_either(asker, found, next)?;
        return Ok(());
    }
    find_either(asker, found)?;
    Ok(())
}

/// Appends the asker after Unsat and after Sat, where it asks then. What they ask is found.
fn keep_either<A: Asker>(
    asker: &A,
    found: &mut IndexSet<Key>,
    next: &mut Vec<A>,
) -> Result<(), AllocError>
    requires { IsSome (A.wants asker.now (A.told asker.now)) }
    ensures next { OnOk result (map (seen A.wants A.told) next.new.items
        ≡ map (seen A.wants A.told) next.old.items ++ after_either (seen A.wants A.told asker.now)) }
    ensures asks { All (λ a. IsSome (asks_of (seen A.wants A.told a))) next.old.items →
        OnOk result (All (λ a. IsSome (asks_of (seen A.wants A.told a))) next.new.items) }
    ensures found { OnOk result (found.new.keys ≡ fold with_key found.old.keys (keys_asked (after_either (seen A.wants A.told asker.now)))) }
{
    let unsat = told_further(asker, Verdict::Unsat, found)?;
    keep(next, unsat)?;
    let sat = told_further(asker, Verdict::Sat, found)?;
    keep(next, sat)?;
    Ok(())
}

/// What the asker asks after Unsat and after Sat, where it asks then, is found. No asker is made.
fn find_either<A: Asker>(asker: &A, found: &mut IndexSet<Key>) -> Result<(), AllocError>
    requires { IsSome (A.wants asker.now (A.told asker.now)) }
    ensures { OnOk result (found.new.keys ≡ fold with_key found.old.keys (keys_asked (after_either (seen A.wants A.told asker.now)))) }
{
    find_further(asker, Verdict::Unsat, found)?;
    find_further(asker, Verdict::Sat, found)?;
    Ok(())
}

/// The asker after one verdict more, if it asks then; what it asks is found.
fn told_further<A: Asker>(
    asker: &A,
    verdict: Verdict,
    found: &mut IndexSet<Key>,
) -> Result<Option<A>, AllocError>
    requires { IsSome (A.wants asker.now (A.told asker.now)) }
    ensures next { IfOk result (λ next. option_map (seen A.wants A.told) next
        ≡ after_verdict verdict (seen A.wants A.told asker.now)) }
    ensures asks { IfOk result (λ next. IfSome next (λ a. IsSome (asks_of (seen A.wants A.told a)))) }
    ensures found { OnOk result (found.new.keys ≡ fold with_key found.old.keys
        (keys_asked (option_to_list (after_verdict verdict (seen A.wants A.told asker.now))))) }
{
    let next = asker.after(verdict)?;
    let Want::Ask(key) = next.want() else {
        return Ok(None);
    };
    let key = key.copy()?;
    found.insert(key)?;
    Ok(Some(next))
}

/// What the asker asks after one verdict more, if it asks then, is found.
fn find_further<A: Asker>(
    asker: &A,
    verdict: Verdict,
    found: &mut IndexSet<Key>,
) -> Result<(), AllocError>
    requires { IsSome (A.wants asker.now (A.told asker.now)) }
    ensures { OnOk result (found.new.keys ≡ fold with_key found.old.keys
        (keys_asked (option_to_list (after_verdict verdict (seen A.wants A.told asker.now))))) }
{
    match asker.asks_after(verdict)? {
        None => Ok(()),
        Some(key) => {
            found.insert(key)?;
            Ok(())
        }
    }
}

/// Appends what there is.
fn keep<T: Drop>(list: &mut Vec<T>, item: Option<T>) -> Result<(), AllocError>
    ensures { OnOk result (list.new.items ≡ list.old.items ++ option_to_list item) }
{
    match item {
        None => Ok(()),
        Some(item) => {
            list.push(item)?;
            Ok(())
        }
    }
}
