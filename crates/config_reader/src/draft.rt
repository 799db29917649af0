//! What has been read of a file so far.
ghost use Rattle.std.specs.Prelude.{◌≡◌, ◌≤◌, All, IfOk, IfErr, Ok, length};
ghost use Rattle.config_reader.specs.Judgement.{start, with_tier, with_must, with_wanted, after_line, after_lines, IsRefusal};
ghost use Rattle.config_reader.specs.Reading.{numbered_by_tier};
ghost use Rattle.config_reader.specs.inside.Drafts.{IsShort, standing_of};
ghost use Rattle.uvl_lex.specs.Laws.{IsLine};

use crate::config::{Config, Requirement, Requirements};
use crate::error::{ConfigError, Reason};
use crate::formula::one_more;
use crate::kind::{Kind, Version};
use crate::placed::Placed;
use crate::slices::after_first;
use crate::tier::{by_tier, tier_of_line};
use lists::Row;
use name_table::Names;
use std::alloc::{AllocError, Global};
use uvl_lex::Line;

/// The requirements and musts of the lines so far.
#[derive(Drop)]
pub(crate) struct Draft {
    /// That of the next requirement.
    tier: u32,
    placed: Vec<Placed>,
    musts: Requirements,
}

impl Draft {
    /// What is read of no lines.
    fn new(alloc: Global) -> Draft
        ensures { standing_of result ≡ start }
    {
        Draft {
            tier: 1,
            placed: Vec::new(alloc),
            musts: Row::new(alloc),
        }
    }

    /// After one line more.
    fn after(
        self,
        alloc: Global,
        version: Version,
        names: &Names<'_>,
        bytes: &[u8],
        line: &Line,
    ) -> Result<Draft, ConfigError>
        requires few { length bytes.now ≤ 16777216 }
        requires line { IsLine bytes.now line.now }
        ensures ok { IfOk result (λ draft. after_line version names.now bytes.now (standing_of self) line.now ≡ Ok (standing_of draft)) }
        ensures refused { IfErr result (λ e. IsRefusal e (after_line version names.now bytes.now (standing_of self) line.now)) }
    {
        let number = line.number;
        let tokens = line.tokens.as_slice();
        match Kind::in_version(version, bytes, tokens) {
            Kind::Tier => self.with_tier(number, tier_of_line(bytes, tokens)),
            Kind::Must => {
                let count = self.musts.len();
                let must = one_more(alloc, count, names, bytes, number, after_first(tokens))?;
                Ok(self.with_must(must)?)
            }
            Kind::Wanted => {
                let count = self.placed.as_slice().len();
                let wanted = one_more(alloc, count, names, bytes, number, tokens)?;
                Ok(self.with_wanted(wanted)?)
            }
        }
    }

    /// With this tier set, if it is one.
    fn with_tier(mut self, line: u32, tier: Option<u32>) -> Result<Draft, ConfigError>
        ensures ok { IfOk result (λ draft. with_tier line (standing_of self) tier ≡ Ok (standing_of draft)) }
        ensures refused { IfErr result (λ e. IsRefusal e (with_tier line (standing_of self) tier)) }
    {
        match tier {
            Some(tier) => {
                self.tier = tier;
                Ok(self)
            }
            None => Err(ConfigError::Refused {
                line,
                reason: Reason::BadTier,
            }),
        }
    }

    /// With one must more.
    fn with_must(mut self, must: Requirement) -> Result<Draft, AllocError>
        ensures { IfOk result (λ draft. standing_of draft ≡ with_must (standing_of self) must) }
    {
        self.musts.push(must)?;
        Ok(self)
    }

    /// With one requirement more, in the tier that is set.
    fn with_wanted(mut self, wanted: Requirement) -> Result<Draft, AllocError>
        ensures { IfOk result (λ draft. standing_of draft ≡ with_wanted (standing_of self) wanted) }
    {
        self.placed.push(Placed {
            tier: self.tier,
            requirement: wanted,
        })?;
        Ok(self)
    }

    /// With its requirements numbered.
    pub(crate) fn into_config(self, alloc: Global) -> Result<Config, AllocError>
        requires { IsShort (standing_of self) }
        ensures { IfOk result (λ config. config ≡ numbered_by_tier (standing_of self)) }
    {
        let Draft { placed, musts, .. } = self;
        let requirements = by_tier(alloc, placed)?;
        Ok(Config {
            requirements,
            musts,
        })
    }
}

/// What is read of these lines, in order, or the first refusal.
pub(crate) fn draft_of(
    alloc: Global,
    version: Version,
    names: &Names<'_>,
    bytes: &[u8],
    lines: &[Line],
) -> Result<Draft, ConfigError>
    requires few { length bytes.now ≤ 16777216 }
    requires lines { All (IsLine bytes.now) lines.now }
    ensures ok { IfOk result (λ draft. after_lines version names.now bytes.now start lines.now ≡ Ok (standing_of draft)) }
    ensures refused { IfErr result (λ e. IsRefusal e (after_lines version names.now bytes.now start lines.now)) }
{
    let mut draft = Draft::new(alloc);
    for line in lines {
        draft = draft.after(alloc, version, names, bytes, line)?;
    }
    Ok(draft)
}
