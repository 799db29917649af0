//! Single lines of a certificate, and their words.
ghost use Rattle.std.specs.Prelude.{◌≡◌, ◌++◌, ◌+◌, ◌<◌, ◌≤◌, ◌^◌, IfOk, OnOk, codes, length};
ghost use Rattle.std.specs.Fmt.{decimal};
ghost use Rattle.std.specs.List.{flat_map};
ghost use Rattle.certificate.specs.Text.{derivation_line, line, list_text, literal_text, numbers_in, product_line};

use clauses::Lit;
use diag_base::Bytes;
use lists::Numbers;
use std::alloc::{AllocError, Global};

/// Appends a word, a number behind it, and the end of the line.
pub(crate) fn push_numbered(
    alloc: Global,
    text: &mut Bytes,
    word: &[u8],
    number: u32,
) -> Result<(), AllocError>
    ensures { OnOk result (text.new ≡ text.old ++ line (word.now ++ decimal number)) }
{
    text.extend_from_slice(word)?;
    push_number(alloc, text, number)?;
    text.extend_from_slice(b"\n")
}

/// Appends a word, a list of numbers behind it, and the end of the line.
pub(crate) fn push_listed(
    alloc: Global,
    text: &mut Bytes,
    word: &[u8],
    numbers: &[u32],
) -> Result<(), AllocError>
    ensures { OnOk result (text.new ≡ text.old ++ line (word.now ++ list_text numbers.now)) }
{
    text.extend_from_slice(word)?;
    push_list(alloc, text, numbers)?;
    text.extend_from_slice(b"\n")
}

/// Appends the line of a product, a value for each feature.
pub(crate) fn push_product_line(
    alloc: Global,
    text: &mut Bytes,
    set: &[bool],
) -> Result<(), AllocError>
    requires { length set.now < 2 ^ 32 }
    ensures { OnOk result (text.new ≡ text.old ++ product_line set.now) }
{
    let numbers = numbers_in(alloc, set)?;
    push_listed(alloc, text, b"product ", numbers.as_slice())
}

/// The numbers of the features in the set, which count from 1.
fn numbers_in(alloc: Global, set: &[bool]) -> Result<Numbers, AllocError>
    requires { length set.now < 2 ^ 32 }
    ensures { IfOk result (λ numbers. numbers ≡ numbers_in set.now) }
{
    let mut numbers = Numbers::new(alloc);
    for (i, taken) in set.iter().enumerate() {
        if *taken {
            numbers.push(i as u32 + 1)?;
        }
    }
    Ok(numbers)
}

/// Appends a line of a derivation.
pub(crate) fn push_derivation_line(
    alloc: Global,
    text: &mut Bytes,
    clause: &[Lit],
) -> Result<(), AllocError>
    ensures { OnOk result (text.new ≡ text.old ++ derivation_line clause.now) }
{
    let Some((first, others)) = clause.split_first() else {
        return text.extend_from_slice(b"clash\n");
    };
    text.extend_from_slice(b"learn ")?;
    push_literal(alloc, text, *first)?;
    push_other_literals(alloc, text, others)?;
    text.extend_from_slice(b"\n")
}

/// Appends further literals, each after a blank.
fn push_other_literals(alloc: Global, text: &mut Bytes, literals: &[Lit]) -> Result<(), AllocError>
    ensures { OnOk result (text.new ≡ text.old ++ flat_map (λ literal. codes " " ++ literal_text literal) literals.now) }
{
    for literal in literals {
        text.extend_from_slice(b" ")?;
        push_literal(alloc, text, *literal)?;
    }
    Ok(())
}

fn push_literal(alloc: Global, text: &mut Bytes, literal: Lit) -> Result<(), AllocError>
    ensures { OnOk result (text.new ≡ text.old ++ literal_text literal) }
{
    let number = u64::from(literal.var) + 1;
    if !literal.positive {
        text.extend_from_slice(b"-")?;
    }
    let digits = format!(in alloc; "{number}")?;
    text.extend_from_slice(digits.as_str().as_bytes())
}

/// Appends numbers with a blank between two, or that there are none.
fn push_list(alloc: Global, text: &mut Bytes, numbers: &[u32]) -> Result<(), AllocError>
    ensures { OnOk result (text.new ≡ text.old ++ list_text numbers.now) }
{
    let Some((first, others)) = numbers.split_first() else {
        return text.extend_from_slice(b"none");
    };
    push_number(alloc, text, *first)?;
    push_other_numbers(alloc, text, others)
}

/// Appends further numbers, each after a blank.
fn push_other_numbers(alloc: Global, text: &mut Bytes, numbers: &[u32]) -> Result<(), AllocError>
    ensures { OnOk result (text.new ≡ text.old ++ flat_map (λ number. codes " " ++ decimal number) numbers.now) }
{
    for number in numbers {
        text.extend_from_slice(b" ")?;
        push_number(alloc, text, *number)?;
    }
    Ok(())
}

fn push_number(alloc: Global, text: &mut Bytes, number: u32) -> Result<(), AllocError>
    ensures { OnOk result (text.new ≡ text.old ++ decimal number) }
{
    let digits = format!(in alloc; "{number}")?;
    text.extend_from_slice(digits.as_str().as_bytes())
}
