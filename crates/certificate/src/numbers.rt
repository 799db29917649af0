//! Numbers and ascending lists of them.
ghost use Rattle.std.specs.Prelude.{◌≡◌, ◌<◌, ◌≤◌, [], All, IfOk, IfSome, Some, None, if◌then◌else◌};
ghost use Rattle.certificate.specs.Words.{list_in as list, list_of, number_within as within, rising_from, words_of};

use crate::cutting::cut;
use lists::Numbers;
use std::alloc::AllocError;

/// The number that the word writes, if it is at most this one. There is no word for 0.
pub(crate) fn number_within(word: &[u8], most: u32) -> Option<u32>
    ensures number { result ≡ within most word.now }
    ensures counted { IfSome result (λ number. 1 ≤ number) }
    ensures bound { IfSome result (λ number. number ≤ most) }
{
    if word.is_empty() || word[0] == b'0' {
        return None;
    }
    let mut number = 0;
    for digit in word {
        if !digit.is_ascii_digit() {
            return None;
        }
        number = number * 10 + u64::from(*digit - b'0');
        if number > u64::from(most) {
            return None;
        }
    }
    Some(number as u32)
}

/// Reads numbers of which each is above the one before it.
fn read_rising(list: &[u8], most: u32, numbers: &mut Numbers) -> Result<bool, AllocError>
    ensures { IfOk result (λ yes. rising_from 0 most (words_of list.now) ≡ (if yes then Some numbers.new else None)) }
{
    numbers.truncate(0);
    let mut low = 0;
    let mut rest = Some(list);
    'words: while let Some(words) = rest {
        let (word, behind) = cut(words, b' ');
        let Some(number) = number_within(word, most) else {
            return Ok(false);
        };
        if number <= low {
            return Ok(false);
        }
        numbers.push(number)?;
        low = number;
        rest = behind;
    }
    Ok(true)
}

/// Reads the list of a line that begins with this word.
pub(crate) fn read_list(
    line: &[u8],
    word: &[u8],
    most: u32,
    numbers: &mut Numbers,
) -> Result<bool, AllocError>
    ensures { IfOk result (λ yes. list word.now most line.now ≡ (if yes then Some numbers.new else None)) }
{
    let (first, behind) = cut(line, b' ');
    if first != word {
        return Ok(false);
    }
    let Some(rest) = behind else {
        return Ok(false);
    };
    if rest == b"none".as_slice() {
        numbers.truncate(0);
        return Ok(true);
    }
    read_rising(rest, most, numbers)
}
