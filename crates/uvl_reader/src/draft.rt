//! What has been read of a model so far.
ghost use Rattle.std.specs.Prelude.{◌≡◌, ◌≤◌, ◌<◌, ◌^◌, All, OnOk, IfOk, IfErr, Ok, Some, None, length};
ghost use Rattle.uvl_lex.specs.Laws.{IsLine};
ghost use Rattle.uvl_lex.specs.Text.{IsSpanOf, token_text};
ghost use Rattle.name_table.specs.Numbers.{number_of};
ghost use Rattle.uvl_reader.specs.declared.error.ModelError.TheVariants.{Refused};
ghost use Rattle.uvl_reader.specs.declared.kind.LineKind.TheVariants as variant;
ghost use Rattle.uvl_reader.specs.Nesting.{begins_with_include};
ghost use Rattle.uvl_reader.specs.Shapes.{FeatureShape, header_of};
ghost use Rattle.uvl_reader.specs.Refusals.{section_alone};
ghost use Rattle.uvl_reader.specs.inside.Good.{IsGood, TakesMore};
ghost use Rattle.uvl_reader.specs.inside.Standing.{pending_fault, left_at, Standing, start, nearest_of, is_deeper, owner_at, with_open, grown, kind_at, section_fault_at, name_fault, place_fault, after_section, with_header, after_feature, with_shape, with_feature, after_constraint, after_kind, after_judged, after_line, after_lines, IsRefused};
ghost use Rattle.uvl_reader.specs.inside.Drafts.{standing_of};

use crate::error::{ModelError, Reason};
use crate::header::Header;
use crate::kind::{LineKind, Section};
use crate::pending::Pending;
use crate::shape::{Shape, is_unsupported};
use crate::stack::{Open, Stack};
use crate::stated::Statements;
use feature_tree::{Text, Tree};
use name_table::{Names, Seed};
use std::alloc::{AllocError, Global};
use uvl_lex::{Keyword, Line, Token, TokenKind, text_of};

/// How many features a model may have.
const MOST: usize = 65535;
/// How deep a feature may be.
const DEEPEST: usize = 1000;

/// What the lines so far say.
#[derive(Drop)]
pub(crate) struct Draft<'a> {
    /// Whether the last unindented line begins with `include`.
    under: bool,
    lines: Stack,
    /// The place that the next section may have at least.
    next: u32,
    /// The last line, if it is a group without a child.
    pub(crate) pending: Option<Pending>,
    pub(crate) names: Names<'a>,
    /// The features, without a pending group.
    pub(crate) tree: Option<Tree>,
    pub(crate) stated: Statements<'a>,
}

impl<'a> Draft<'a> {
    /// What no lines say, of a file with these bytes.
    fn new(alloc: Global, bytes: &[u8]) -> Draft<'a>
        ensures { standing_of result ≡ start }
    {
        let mut seed = Seed::new();
        seed.feed(bytes);
        Draft {
            under: false,
            lines: Stack::new(alloc),
            next: 0,
            pending: None,
            names: Names::new(alloc, seed),
            tree: None,
            stated: Statements::new(alloc),
        }
    }

    /// One line more.
    #[tactic(auto, unfolding(crate::specs::inside::Standing::after_line))]
    fn read(&mut self, alloc: Global, bytes: &'a [u8], line: &'a Line) -> Result<(), ModelError>
        requires few { length bytes.now ≤ 16777216 }
        requires line { IsLine bytes.now line.now }
        requires good { IsGood bytes.now (standing_of self.old) }
        ensures ok { OnOk result (after_line bytes.now (standing_of self.old) line.now ≡ Ok (standing_of self.new)) }
        ensures refused { IfErr result (λ e. IsRefused e (after_line bytes.now (standing_of self.old) line.now)) }
    {
        if line.indent == 0 {
            self.under = begins_with_include(line.tokens.as_slice());
        } else if self.under {
            return Ok(());
        }
        self.read_judged(alloc, bytes, line)
    }

    /// One judged line more.
    #[tactic(auto, unfolding(crate::specs::inside::Standing::after_judged))]
    fn read_judged(
        &mut self,
        alloc: Global,
        bytes: &'a [u8],
        line: &'a Line,
    ) -> Result<(), ModelError>
        requires few { length bytes.now ≤ 16777216 }
        requires line { IsLine bytes.now line.now }
        requires good { IsGood bytes.now (standing_of self.old) }
        ensures ok { OnOk result (after_judged bytes.now (standing_of self.old) line.now ≡ Ok (standing_of self.new)) }
        ensures refused { IfErr result (λ e. IsRefused e (after_judged bytes.now (standing_of self.old) line.now)) }
    {
        let nearest = self.lines.nearest();
        let deeper = is_deeper(nearest, line.indent);
        if let Some(number) = left_line(self.pending, deeper) {
            return Err(refused(number, Reason::BadGroup));
        }
        let met = self.lines.close(line.indent);
        if !(deeper || met || (nearest.is_none() && line.indent == 0)) {
            return Err(refused(line.number, Reason::BadIndent));
        }
        let kind = kind_at(self.lines.nearest(), line.tokens.as_slice());
        self.read_kind(alloc, bytes, line, kind)
    }

    /// One line more, of this kind, under the open lines.
    #[tactic(auto, unfolding(crate::specs::inside::Standing::after_kind))]
    fn read_kind(
        &mut self,
        alloc: Global,
        bytes: &'a [u8],
        line: &'a Line,
        kind: LineKind,
    ) -> Result<(), ModelError>
        requires few { length bytes.now ≤ 16777216 }
        requires line { IsLine bytes.now line.now }
        requires kind { kind ≡ kind_at (nearest_of (standing_of self.old).open_now) line.now.tokens }
        requires good { IsGood bytes.now (standing_of self.old) }
        ensures ok { OnOk result (after_kind bytes.now (standing_of self.old) line.now kind ≡ Ok (standing_of self.new)) }
        ensures refused { IfErr result (λ e. IsRefused e (after_kind bytes.now (standing_of self.old) line.now kind)) }
    {
        match kind {
            LineKind::SectionLine(section) => self.read_section(line, section),
            LineKind::FeatureLine => self.read_feature(alloc, bytes, line),
            LineKind::GroupLine => self.read_group(bytes, line),
            LineKind::ConstraintLine => self.read_constraint(alloc, line),
            LineKind::NoLine => Err(refused(line.number, Reason::Misplaced)),
        }
    }

    /// A section line.
    fn read_section(&mut self, line: &Line, section: Option<Section>) -> Result<(), ModelError>
        ensures ok { OnOk result (after_section (standing_of self.old) line.now section ≡ Ok (standing_of self.new)) }
        ensures refused { IfErr result (λ e. IsRefused e (after_section (standing_of self.old) line.now section)) }
    {
        if let Some(reason) = section_fault(self.next, section, line.tokens.as_slice()) {
            return Err(refused(line.number, reason));
        }
        self.next = match section {
            Some(section) => section.place() + 1,
            None => 0,
        };
        Ok(self.push(line.indent, LineKind::SectionLine(section), 0)?)
    }

    /// A group line.
    fn read_group(&mut self, bytes: &[u8], line: &Line) -> Result<(), ModelError>
        requires { IsLine bytes.now line.now }
        ensures ok { OnOk result (with_header (standing_of self.old) line.now (header_of bytes.now line.now.tokens) ≡ Ok (standing_of self.new)) }
        ensures refused { IfErr result (λ e. IsRefused e (with_header (standing_of self.old) line.now (header_of bytes.now line.now.tokens))) }
    {
        let Some(header) = Header::of(bytes, line.tokens.as_slice()) else {
            return Err(refused(line.number, Reason::BadGroup));
        };
        self.pending = Some(Pending {
            line: line.number,
            header,
        });
        let owner = owner_at(self.lines.nearest());
        Ok(self.push(line.indent, LineKind::GroupLine, owner)?)
    }

    /// A constraint line.
    fn read_constraint(&mut self, alloc: Global, line: &'a Line) -> Result<(), ModelError>
        requires { length line.now.tokens < 2 ^ 31 }
        ensures ok { OnOk result (after_constraint (standing_of self.old) line.now ≡ Ok (standing_of self.new)) }
        ensures refused { IfErr result (λ e. IsRefused e (after_constraint (standing_of self.old) line.now)) }
    {
        self.stated
            .read(alloc, line.number, line.tokens.as_slice())?;
        Ok(self.push(line.indent, LineKind::ConstraintLine, 0)?)
    }

    /// A feature line.
    fn read_feature(
        &mut self,
        alloc: Global,
        bytes: &'a [u8],
        line: &'a Line,
    ) -> Result<(), ModelError>
        requires few { length bytes.now ≤ 16777216 }
        requires line { IsLine bytes.now line.now }
        requires kind { variant.FeatureLine ≡ kind_at (nearest_of (standing_of self.old).open_now) line.now.tokens }
        requires good { IsGood bytes.now (standing_of self.old) }
        ensures ok { OnOk result (after_feature bytes.now (standing_of self.old) line.now ≡ Ok (standing_of self.new)) }
        ensures refused { IfErr result (λ e. IsRefused e (after_feature bytes.now (standing_of self.old) line.now)) }
    {
        let tokens = line.tokens.as_slice();
        if let Some(reason) = self.place_fault(tokens) {
            return Err(refused(line.number, reason));
        }
        match Shape::of(tokens) {
            Some(shape) => self.read_shape(alloc, bytes, line, shape),
            None => Err(refused(line.number, Reason::BadFeature)),
        }
    }

    /// What is wrong with where a feature line stands, or with what UVL it is.
    fn place_fault(&self, tokens: &[Token]) -> Option<Reason>
        ensures { result ≡ place_fault (standing_of self.now) tokens.now }
    {
        let above = self.lines.len();
        if above == 1 && self.tree.is_some() {
            return Some(Reason::Misplaced);
        }
        if DEEPEST < above / 2 + above % 2 {
            return Some(Reason::TooDeep);
        }
        if is_unsupported(tokens) {
            return Some(Reason::Unsupported);
        }
        None
    }

    /// A feature line of this shape.
    fn read_shape(
        &mut self,
        alloc: Global,
        bytes: &'a [u8],
        line: &'a Line,
        shape: Shape<'a>,
    ) -> Result<(), ModelError>
        requires few { length shape.attributes < 2 ^ 31 }
        requires spans { All (IsSpanOf bytes.now) shape.attributes }
        requires name { IsSpanOf bytes.now shape.name }
        requires kind { variant.FeatureLine ≡ kind_at (nearest_of (standing_of self.old).open_now) line.now.tokens }
        requires place { place_fault (standing_of self.old) line.now.tokens ≡ None }
        requires good { IsGood bytes.now (standing_of self.old) }
        ensures ok { OnOk result (with_shape bytes.now (standing_of self.old) line.now (Some shape.entry) ≡ Ok (standing_of self.new)) }
        ensures refused { IfErr result (λ e. IsRefused e (with_shape bytes.now (standing_of self.old) line.now (Some shape.entry))) }
    {
        let name = text_of(bytes, &shape.name);
        if let Some(reason) = self.name_fault(name) {
            return Err(refused(line.number, reason));
        }
        self.stated
            .read_attributes(alloc, bytes, line.number, shape.attributes)?;
        Ok(self.add_feature(alloc, line.indent, name)?)
    }

    /// What is wrong with one feature more that has this name.
    fn name_fault(&self, name: &[u8]) -> Option<Reason>
        ensures { result ≡ name_fault self.now.names name.now }
    {
        if MOST <= self.names.len() {
            return Some(Reason::TooMany);
        }
        match self.names.get(name) {
            Some(_) => Some(Reason::Twice),
            None => None,
        }
    }

    /// One open line more, the nearest.
    fn push(&mut self, indent: u32, kind: LineKind, feature: u32) -> Result<(), AllocError>
        ensures { OnOk result (standing_of self.new ≡ with_open (standing_of self.old) indent kind feature) }
    {
        self.lines.push(Open {
            indent,
            kind,
            feature,
        })
    }

    /// A feature with a new name, under the open lines.
    fn add_feature(&mut self, alloc: Global, indent: u32, name: &'a [u8]) -> Result<(), AllocError>
        requires takes { TakesMore self.old.tree self.old.pending (owner_at (nearest_of self.old.lines)) name.now }
        requires few { length self.old.names < 65535 }
        requires new { number_of self.old.names name.now ≡ None }
        ensures { OnOk result (standing_of self.new ≡ with_feature (standing_of self.old) indent name.now) }
    {
        let number = self.names.len() as u32;
        let owner = owner_at(self.lines.nearest());
        self.grow(alloc, owner, Text::from_slice(alloc, name)?)?;
        self.pending = None;
        self.names.insert(name, number)?;
        self.push(indent, LineKind::FeatureLine, number)
    }

    /// The tree with a feature more.
    fn grow(&mut self, alloc: Global, owner: u32, name: Text) -> Result<(), AllocError>
        requires { TakesMore self.old.tree self.old.pending owner name }
        ensures { OnOk result (standing_of self.new ≡ record (standing_of self.old) { tree = Some (grown self.old.tree self.old.pending owner name) }) }
    {
        let pending = self.pending;
        let Some(tree) = &mut self.tree else {
            self.tree = Some(Tree::new(alloc, name)?);
            return Ok(());
        };
        match pending {
            Some(pending) => {
                let Header { kind, low, high } = pending.header;
                tree.add_group(alloc, owner, kind, low, high, name)?;
            }
            None => {
                tree.add_child(alloc, owner, name)?;
            }
        }
        Ok(())
    }
}

/// What is wrong with a section line, where the section may have this place at least.
fn section_fault(next: u32, section: Option<Section>, tokens: &[Token]) -> Option<Reason>
    ensures { result ≡ section_fault_at next section tokens.now }
{
    let Some(section) = section else {
        return Some(Reason::Misplaced);
    };
    if section.place() < next {
        return Some(Reason::Misplaced);
    }
    section_alone(section, tokens)
}

/// What is wrong with the tokens of a section line.
fn section_alone(section: Section, tokens: &[Token]) -> Option<Reason>
    ensures { result ≡ section_alone section tokens.now }
{
    match section {
        Section::Imports => Some(Reason::Unsupported),
        Section::Features | Section::Constraints if tokens.len() != 1 => Some(Reason::Misplaced),
        _ => None,
    }
}

/// Whether a line begins with the word `include`.
fn begins_with_include(tokens: &[Token]) -> bool
    ensures { result ≡ begins_with_include tokens.now }
{
    match tokens {
        [first, ..] => matches!(first.kind, TokenKind::Keyword(Keyword::Include)),
        [] => false,
    }
}

/// The line of the pending group, unless the next line is indented further and so is its child.
fn left_line(pending: Option<Pending>, deeper: bool) -> Option<u32>
    ensures { pending_fault deeper pending ≡ left_at result }
{
    match pending {
        Some(pending) if !deeper => Some(pending.line),
        _ => None,
    }
}

/// Whether a line with this indent is indented further than the nearest open one.
fn is_deeper(nearest: Option<Open>, indent: u32) -> bool
    ensures { result ≡ is_deeper indent nearest }
{
    match nearest {
        Some(open) => open.indent < indent,
        None => false,
    }
}

/// What a line with these tokens is under this open line.
fn kind_at(nearest: Option<Open>, tokens: &[Token]) -> LineKind
    ensures { result ≡ kind_at nearest tokens.now }
{
    match nearest {
        Some(open) => open.kind.under(),
        None => LineKind::SectionLine(Section::of(tokens)),
    }
}

/// The feature of the nearest open line.
fn owner_at(nearest: Option<Open>) -> u32
    ensures { result ≡ owner_at nearest }
{
    match nearest {
        Some(open) => open.feature,
        None => 0,
    }
}

/// The refusal of a line.
pub(crate) fn refused(line: u32, reason: Reason) -> ModelError
    ensures { result ≡ Refused line reason }
{
    ModelError::Refused { line, reason }
}

/// What these lines say, in order, or the first refusal.
pub(crate) fn draft_of<'a>(
    alloc: Global,
    bytes: &'a [u8],
    lines: &'a [Line],
) -> Result<Draft<'a>, ModelError>
    requires few { length bytes.now ≤ 16777216 }
    requires lines { All (IsLine bytes.now) lines.now }
    ensures ok { IfOk result (λ draft. after_lines bytes.now start lines.now ≡ Ok (standing_of draft)) }
    ensures good { IfOk result (λ draft. IsGood bytes.now (standing_of draft)) }
    ensures refused { IfErr result (λ e. IsRefused e (after_lines bytes.now start lines.now)) }
{
    let mut draft = Draft::new(alloc, bytes);
    for line in lines {
        draft.read(alloc, bytes, line)?;
    }
    Ok(draft)
}
