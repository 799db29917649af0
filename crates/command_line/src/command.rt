//! What a command line asks for.
ghost use Rattle.std.specs.Prelude.{◌≡◌, map, IfSome, IfNone, option_map};
ghost use Rattle.std.specs.String.{string_bytes};
ghost use Rattle.command_line.specs.Words.{IsInRange, Request, Says, diagnosis_of, drawn_of, generation_of, may_be_drawn, names_a_file, request_of, verification_of, what_of};
ghost use Rattle.command_line.specs.Request.{request};

use crate::number::number_of;
use crate::options::Options;

/// What a command line asks for.
#[derive(Clone, Copy, Debug, PartialEq, Eq)]
pub enum Command<'a> {
    /// The advice for a configuration of a model, given the names of the two files. So many `workers`, which are threads beside
    /// the main one, make checks, and so many answers are guessed `ahead`. The
    /// first attempt of a check may learn `allowance` clauses, and `rungs` more attempts may follow, each with ten times as
    /// many. The minimal diagnoses up to the size `list` are listed, if it is there. Where `certify` says so a certificate
    /// follows the report.
    Diagnose {
        model: &'a str,
        config: &'a str,
        workers: u32,
        ahead: u8,
        allowance: u64,
        rungs: u8,
        list: Option<u32>,
        certify: bool,
    },
    /// Whether a certificate about a configuration of a model shows what it says, given the names of the three files.
    Verify {
        model: &'a str,
        config: &'a str,
        certificate: &'a str,
    },
    /// A text drawn from a seed, for a product line of `size` features beside the root, at most 60,000.
    Generate {
        seed: u32,
        size: u32,
        what: What,
    },
}

/// A generated text.
#[derive(Clone, Copy, Debug, PartialEq, Eq)]
pub enum What {
    Model,
    /// The configuration that is drawn with the model.
    Config,
    /// The report on both, without its lines that begin with a blank.
    Report,
}

impl What {
    /// The text that the word asks for.
    fn of(word: &str) -> Option<What>
        ensures { result ≡ what_of word.now }
    {
        if word == "model" {
            Some(What::Model)
        } else if word == "config" {
            Some(What::Config)
        } else if word == "report" {
            Some(What::Report)
        } else {
            None
        }
    }
}

/// The greatest seed.
const MOST_SEED: u64 = 4_294_967_295;

/// How many features a generated model may have beside its root.
const MOST_SIZE: u64 = 60_000;

/// The command that the words say: the words after the program's name, of which the first is the command.
pub fn read_words<'a>(words: &'a [String]) -> Option<Command<'a>>
    ensures said { IfSome result (λ command. Says (map string_bytes words.now) (request command)) }
    ensures unsaid { IfNone result ((asked : Request) → ¬ Says (map string_bytes words.now) asked) }
    ensures only { request_of (map string_bytes words.now) ≡ option_map request result }
    ensures in_range { IfSome result (λ command. IsInRange (request command)) }
{
    command_of(words)
}

/// The command of the words, if they are in the grammar.
fn command_of<'a>(words: &'a [String]) -> Option<Command<'a>>
    ensures only { request_of (map string_bytes words.now) ≡ option_map request result }
    ensures in_range { IfSome result (λ command. IsInRange (request command)) }
{
    let (verb, rest) = words.split_first()?;
    if verb.as_str() == "diagnose" {
        diagnosis_of(rest)
    } else if verb.as_str() == "verify" {
        verification_of(rest)
    } else if verb.as_str() == "generate" {
        generation_of(rest)
    } else {
        None
    }
}

/// What `diagnose` asks with these words behind it.
fn diagnosis_of<'a>(words: &'a [String]) -> Option<Command<'a>>
    ensures only { diagnosis_of (map string_bytes words.now) ≡ option_map request result }
    ensures in_range { IfSome result (λ command. IsInRange (request command)) }
{
    let (model, rest) = words.split_first()?;
    let (config, rest) = rest.split_first()?;
    if !is_file_name(model) || !is_file_name(config) {
        return None;
    }
    let options = Options::of(rest)?;
    Some(Command::Diagnose {
        model,
        config,
        workers: options.workers(),
        ahead: options.ahead(),
        allowance: options.allowance(),
        rungs: options.rungs(),
        list: options.list(),
        certify: options.certify(),
    })
}

/// What `verify` asks with these words behind it.
fn verification_of<'a>(words: &'a [String]) -> Option<Command<'a>>
    ensures only { verification_of (map string_bytes words.now) ≡ option_map request result }
    ensures in_range { IfSome result (λ command. IsInRange (request command)) }
{
    let (model, rest) = words.split_first()?;
    let (config, rest) = rest.split_first()?;
    let (certificate, rest) = rest.split_first()?;
    match rest.split_first() {
        None if is_file_name(model) && is_file_name(config) && is_file_name(certificate) => {
            Some(Command::Verify {
                model,
                config,
                certificate,
            })
        }
        _ => None,
    }
}

/// What `generate` asks with these words behind it.
fn generation_of<'a>(words: &'a [String]) -> Option<Command<'a>>
    ensures only { generation_of (map string_bytes words.now) ≡ option_map request result }
    ensures in_range { IfSome result (λ command. IsInRange (request command)) }
{
    let (seed, rest) = words.split_first()?;
    let (size, rest) = rest.split_first()?;
    let (what, rest) = rest.split_first()?;
    match rest.split_first() {
        None => drawn_of(number_of(seed)?, number_of(size)?, what.as_str()),
        Some(_) => None,
    }
}

/// The text of this kind, drawn from these numbers, if they are in their ranges.
fn drawn_of<'a>(seed: u64, size: u64, what: &str) -> Option<Command<'a>>
    ensures only { drawn_of seed size what.now ≡ option_map request result }
    ensures in_range { IfSome result (λ command. IsInRange (request command)) }
{
    if !may_be_drawn(seed, size) {
        return None;
    }
    let what = What::of(what)?;
    Some(Command::Generate {
        seed: seed as u32,
        size: size as u32,
        what,
    })
}

/// Whether the seed and the size are in their ranges.
fn may_be_drawn(seed: u64, size: u64) -> bool
    ensures { result ≡ may_be_drawn seed size }
{
    seed <= MOST_SEED && 1 <= size && size <= MOST_SIZE
}

/// A file name is any word that isn't empty and doesn't begin with '-'.
fn is_file_name(word: &String) -> bool
    ensures { result ≡ names_a_file (string_bytes word.now) }
{
    match word.as_str().as_bytes() {
        [] => false,
        [first, ..] => *first != b'-',
    }
}
