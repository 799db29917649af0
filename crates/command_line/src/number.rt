//! Numbers on the command line.
ghost use Rattle.std.specs.Prelude.{◌≡◌};
ghost use Rattle.std.specs.Str.{all_ascii_digits};
ghost use Rattle.command_line.specs.Numbers.{is_plain, number_of};

/// How many digits a number may have.
const MOST_DIGITS: usize = 13;

/// The number that the word writes.
pub fn number_of(word: &str) -> Option<u64>
    ensures { result ≡ number_of word.now }
{
    let bytes = word.as_bytes();
    if bytes.len() <= MOST_DIGITS && is_plain(bytes) && are_digits(bytes) {
        word.parse::<u64>().ok()
    } else {
        None
    }
}

/// It isn't empty, and no zero stands in front of another digit.
fn is_plain(word: &[u8]) -> bool
    ensures { result ≡ is_plain word.now }
{
    match word {
        [] => false,
        [_] => true,
        [first, ..] => *first != b'0',
    }
}

fn are_digits(word: &[u8]) -> bool
    ensures { result ≡ all_ascii_digits word.now }
{
    for byte in word {
        if !byte.is_ascii_digit() {
            return false;
        }
    }
    true
}
