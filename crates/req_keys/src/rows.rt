//! Rows of words: the members of a key as bits, bit b of word j for the position 64 * j + b + 1. Each goes word by word.
ghost use Rattle.std.specs.Prelude.{◌≡◌, ◌≢◌, ◌↔◌, ℕ, ◌+◌, ◌-◌, ◌*◌, ◌^◌, ◌<◌, ◌≤◌, ◌&&◌, ◌||◌, ◌==◌, ◌++◌, not, nat_le, nat_lt, length, slice_index, IfOk, IsTrue, OnOk, OnErr};
ghost use Rattle.std.specs.List.{range_with_len, filter};
ghost use Rattle.std.specs.Int.{bit_at};
ghost use Rattle.req_keys.specs.Words.{bit_of, bits_where, word_count};
ghost use Rattle.req_keys.specs.inside.Rows.{HasBits, AreSame, AreWithin, AreApart, SaysOrder, SaysWordOrder, positions_to};

use lists::Numbers;
use std::alloc::{AllocError, Global};
use std::cmp::Ordering;

/// The bits of the positions up to `end` of a word that begins behind `before` positions.
fn ones_to(end: u32, before: u32) -> u64
    ensures { (b : ℕ) → b < 64 → (bit_at result b == 1) ≡ nat_lt (before + b) end }
{
    let count = end.saturating_sub(before).min(64);
    if count == 64 {
        u64::MAX
    } else {
        (1u64 << count) - 1
    }
}

/// The row over n positions with just those of `before + 1..=end`.
pub(crate) fn range(alloc: Global, n: u32, before: u32, end: u32) -> Result<Vec<u64>, AllocError>
    requires { n ≤ 4096 }
    ensures { IfOk result (λ words. HasBits words.items (word_count n) (λ i. nat_le before i && nat_lt i end)) }
{
    let count = (n + 63) / 64;
    let mut words = Vec::with_capacity(alloc, count as usize)?;
    for j in 0..count {
        words.push(ones_to(end, 64 * j) & !ones_to(before, 64 * j))?;
    }
    Ok(words)
}

/// The bits that are set in one of the rows.
pub(crate) fn united(alloc: Global, first: &[u64], second: &[u64]) -> Result<Vec<u64>, AllocError>
    requires { length first.now ≡ length second.now }
    ensures { IfOk result (λ words. HasBits words.items (length first.now) (λ i. bit_of first.now i || bit_of second.now i)) }
{
    let mut words = Vec::with_capacity(alloc, first.len())?;
    for j in 0..first.len() {
        words.push(first[j] | second[j])?;
    }
    Ok(words)
}

/// The bits that are set in the first row and not in the second.
pub(crate) fn difference(
    alloc: Global,
    first: &[u64],
    second: &[u64],
) -> Result<Vec<u64>, AllocError>
    requires { length first.now ≡ length second.now }
    ensures { IfOk result (λ words. HasBits words.items (length first.now) (λ i. bit_of first.now i && not (bit_of second.now i))) }
{
    let mut words = Vec::with_capacity(alloc, first.len())?;
    for j in 0..first.len() {
        words.push(first[j] & !second[j])?;
    }
    Ok(words)
}

/// The bits that are set in the row, and this one.
pub(crate) fn with_bit(alloc: Global, words: &[u64], bit: u32) -> Result<Vec<u64>, AllocError>
    requires { bit < 64 * length words.now }
    ensures { IfOk result (λ all. HasBits all.items (length words.now) (λ i. bit_of words.now i || (bit == i))) }
{
    let mut all = Vec::from_slice(alloc, words)?;
    all[(bit / 64) as usize] |= 1 << (bit % 64);
    Ok(all)
}

/// One word of the row.
pub(crate) fn word_at(words: &[u64], j: u32) -> u64
    requires { j < length words.now }
    ensures { result ≡ slice_index words.now j }
{
    words[j as usize]
}

/// Whether the rows have the same bits.
pub(crate) fn is_same(first: &[u64], second: &[u64]) -> bool
    requires { length first.now ≡ length second.now }
    ensures { IsTrue result ↔ AreSame (64 * length first.now) first.now second.now }
{
    for j in 0..first.len() {
        if first[j] != second[j] {
            return false;
        }
    }
    true
}

/// Whether each bit of the first row is set in the second.
pub(crate) fn is_within(first: &[u64], second: &[u64]) -> bool
    requires { length first.now ≡ length second.now }
    ensures { IsTrue result ↔ AreWithin (64 * length first.now) first.now second.now }
{
    for j in 0..first.len() {
        if first[j] & !second[j] != 0 {
            return false;
        }
    }
    true
}

/// Whether no bit is set in both rows.
pub(crate) fn is_apart(first: &[u64], second: &[u64]) -> bool
    requires { length first.now ≡ length second.now }
    ensures { IsTrue result ↔ AreApart (64 * length first.now) first.now second.now }
{
    for j in 0..first.len() {
        if first[j] & second[j] != 0 {
            return false;
        }
    }
    true
}

/// How many bits are set.
pub(crate) fn count(words: &[u64]) -> u32
    requires { length words.now ≤ 64 }
    ensures { result ≡ length (filter (λ position. bit_of words.now (position - 1)) (range_with_len 1 (64 * length words.now))) }
{
    let mut total = 0;
    for word in words.iter() {
        total += word.count_ones();
    }
    total
}

/// Appends the positions that a word shows, whose lowest bit stands for `first`.
fn push_positions(numbers: &mut Numbers, first: u32, word: u64) -> Result<(), AllocError>
    requires { first < 2 ^ 31 }
    ensures { OnOk result (numbers.new ≡ numbers.old ++ positions_to first word 64) }
{
    let mut rest = word;
    'bits: while rest != 0 {
        let place = rest.trailing_zeros();
        numbers.push(first + place)?;
        rest &= !(1 << place);
    }
    Ok(())
}

/// The positions that a row shows, ascending.
pub(crate) fn positions(alloc: Global, words: &[u64]) -> Result<Numbers, AllocError>
    requires { length words.now ≤ 64 }
    ensures { IfOk result (λ numbers. numbers ≡ filter (λ position. bit_of words.now (position - 1)) (range_with_len 1 (64 * length words.now))) }
{
    let mut numbers = Numbers::new(alloc);
    for (j, word) in words.iter().enumerate() {
        push_positions(&mut numbers, 64 * (j as u32) + 1, *word)?;
    }
    Ok(numbers)
}

/// Where the lowest bit on which two words differ is.
fn word_order(first: u64, second: u64) -> Ordering
    requires { first ≢ second }
    ensures { SaysWordOrder first second result }
{
    let place = (first ^ second).trailing_zeros();
    if second >> place & 1 == 1 {
        Ordering::Less
    } else {
        Ordering::Greater
    }
}

/// The order of two rows with as many bits: first comes the one that lacks the lowest bit on which they differ.
pub(crate) fn compare(first: &[u64], second: &[u64]) -> Ordering
    requires { length first.now ≡ length second.now }
    ensures { SaysOrder first.now second.now result }
{
    for j in 0..first.len() {
        if first[j] != second[j] {
            return word_order(first[j], second[j]);
        }
    }
    Ordering::Equal
}
