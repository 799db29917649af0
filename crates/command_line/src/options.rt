//! The options of a command line, in any order and each at most once.
ghost use Rattle.std.specs.Prelude.{◌≡◌, false, map, option_map, unwrap_or, IfSome};
ghost use Rattle.std.specs.String.{string_bytes};
ghost use Rattle.command_line.specs.Words.{Ahead, Allowance, AreAllowed, Certify, Listing, Rungs, Workers, chosen_by, chosen_from, chosen_with, nothing_chosen, settings_of};
ghost use Rattle.command_line.specs.inside.Chosen.{chosen};

use crate::number::number_of;

/// How many clauses an attempt may be allowed to learn.
const MOST_ALLOWED: u64 = 1 << 40;

/// How many more attempts there may be.
const MOST_RUNGS: u64 = 4;

/// Up to which size diagnoses may be listed.
const MOST_LISTED: u64 = 4_096;

/// How many answers may be guessed ahead.
const MOST_AHEAD: u64 = 6;

/// How many threads may make checks beside the main one.
const MOST_WORKERS: u64 = 64;

/// What the options read so far choose.
#[derive(Clone, Copy, Debug)]
pub struct Options {
    allowance: Option<u64>,
    rungs: Option<u8>,
    list: Option<u32>,
    ahead: Option<u8>,
    workers: Option<u32>,
    certify: Option<bool>,
}

impl Options {
    /// What the words choose, if they are options.
    pub fn of(words: &[String]) -> Option<Options>
        ensures allowed { IfSome result (λ options. AreAllowed (settings_of (chosen options))) }
        ensures chosen { chosen_from nothing_chosen (map string_bytes words.now) ≡ option_map chosen result }
    {
        let mut options = Options {
            allowance: None,
            rungs: None,
            list: None,
            ahead: None,
            workers: None,
            certify: None,
        };
        let mut rest = words;
        'options: while let Some((name, after)) = rest.split_first() {
            if name.as_str() == "--certify" {
                options = options.with_certify()?;
                rest = after;
            } else {
                let (value, after) = after.split_first()?;
                options = options.with(name.as_str(), value.as_str())?;
                rest = after;
            }
        }
        Some(options)
    }

    /// With one more option that has a number, which must be new and the number one that may be chosen.
    fn with(self, name: &str, value: &str) -> Option<Options>
        requires { AreAllowed (settings_of (chosen self)) }
        ensures allowed { IfSome result (λ options. AreAllowed (settings_of (chosen options))) }
        ensures chosen { chosen_by (chosen self) name.now value.now ≡ option_map chosen result }
    {
        let number = number_of(value)?;
        if name == "--allowance" {
            self.with_allowance(number)
        } else if name == "--rungs" {
            self.with_rungs(number)
        } else if name == "--list" {
            self.with_list(number)
        } else if name == "--ahead" {
            self.with_ahead(number)
        } else if name == "--workers" {
            self.with_workers(number)
        } else {
            None
        }
    }

    fn with_allowance(self, most: u64) -> Option<Options>
        requires { AreAllowed (settings_of (chosen self)) }
        ensures allowed { IfSome result (λ options. AreAllowed (settings_of (chosen options))) }
        ensures chosen { chosen_with (chosen self) (Allowance most) ≡ option_map chosen result }
    {
        if self.allowance.is_some() || most > MOST_ALLOWED {
            return None;
        }
        let allowance = Some(most);
        Some(Options { allowance, ..self })
    }

    fn with_rungs(self, more: u64) -> Option<Options>
        requires { AreAllowed (settings_of (chosen self)) }
        ensures allowed { IfSome result (λ options. AreAllowed (settings_of (chosen options))) }
        ensures chosen { chosen_with (chosen self) (Rungs more) ≡ option_map chosen result }
    {
        if self.rungs.is_some() || more > MOST_RUNGS {
            return None;
        }
        let rungs = Some(more as u8);
        Some(Options { rungs, ..self })
    }

    fn with_list(self, most: u64) -> Option<Options>
        requires { AreAllowed (settings_of (chosen self)) }
        ensures allowed { IfSome result (λ options. AreAllowed (settings_of (chosen options))) }
        ensures chosen { chosen_with (chosen self) (Listing most) ≡ option_map chosen result }
    {
        if self.list.is_some() || most > MOST_LISTED {
            return None;
        }
        let list = Some(most as u32);
        Some(Options { list, ..self })
    }

    fn with_ahead(self, answers: u64) -> Option<Options>
        requires { AreAllowed (settings_of (chosen self)) }
        ensures allowed { IfSome result (λ options. AreAllowed (settings_of (chosen options))) }
        ensures chosen { chosen_with (chosen self) (Ahead answers) ≡ option_map chosen result }
    {
        if self.ahead.is_some() || answers > MOST_AHEAD {
            return None;
        }
        let ahead = Some(answers as u8);
        Some(Options { ahead, ..self })
    }

    fn with_workers(self, threads: u64) -> Option<Options>
        requires { AreAllowed (settings_of (chosen self)) }
        ensures allowed { IfSome result (λ options. AreAllowed (settings_of (chosen options))) }
        ensures chosen { chosen_with (chosen self) (Workers threads) ≡ option_map chosen result }
    {
        if self.workers.is_some() || threads > MOST_WORKERS {
            return None;
        }
        let workers = Some(threads as u32);
        Some(Options { workers, ..self })
    }

    fn with_certify(self) -> Option<Options>
        requires { AreAllowed (settings_of (chosen self)) }
        ensures allowed { IfSome result (λ options. AreAllowed (settings_of (chosen options))) }
        ensures chosen { chosen_with (chosen self) Certify ≡ option_map chosen result }
    {
        if self.certify.is_some() {
            return None;
        }
        let certify = Some(true);
        Some(Options { certify, ..self })
    }

    /// Up to which size the minimal diagnoses are listed, if they are.
    pub fn list(self) -> Option<u32>
        ensures { result ≡ self.list }
    {
        self.list
    }

    /// How many clauses the first attempt of a check may learn.
    pub fn allowance(self) -> u64
        ensures { result ≡ unwrap_or self.allowance 10000 }
    {
        self.allowance.unwrap_or(10_000)
    }

    /// How many more attempts may follow.
    pub fn rungs(self) -> u8
        ensures { result ≡ unwrap_or self.rungs 0 }
    {
        self.rungs.unwrap_or(0)
    }

    /// How many answers are guessed ahead.
    pub fn ahead(self) -> u8
        ensures { result ≡ unwrap_or self.ahead 0 }
    {
        self.ahead.unwrap_or(0)
    }

    /// How many threads make checks beside the main one.
    pub fn workers(self) -> u32
        ensures { result ≡ unwrap_or self.workers 0 }
    {
        self.workers.unwrap_or(0)
    }

    /// Whether a certificate follows the report.
    pub fn certify(self) -> bool
        ensures { result ≡ unwrap_or self.certify false }
    {
        self.certify.unwrap_or(false)
    }
}
