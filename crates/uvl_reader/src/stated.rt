//! The formulas that were read so far.
ghost use Rattle.std.specs.Prelude.{◌≡◌, ◌<◌, ◌^◌, All, [], ◌∷◌, ◌++◌, OnOk, OnErr, IfErr, Ok, length, map};
ghost use Rattle.uvl_lex.specs.Text.{IsSpanOf};
ghost use Rattle.uvl_reader.specs.Attributes.{items_of, formulas_of_item};
ghost use Rattle.uvl_reader.specs.inside.Standing.{with_tokens, with_all, with_listed, with_items, formula_refused, IsRefused};

use crate::attributes::{formulas_of_item, items_of};
use crate::error::{ModelError, Reason};
use feature_tree::{Formula, FormulaError, formula_of};
use std::alloc::{AllocError, Global};
use uvl_lex::Token;

/// A formula with its line, and with its tokens, which its names count. Contracts see all three.
#[derive(Drop)]
pub(crate) struct Stated<'a> {
    pub(crate) line: u32,
    pub(crate) tokens: &'a [Token],
    pub(crate) formula: Formula,
}

impl<'a> std::marker::Model for Stated<'a> {
    ghost use Rattle.uvl_reader.specs.inside.Standing.{StatedFormula};

    ghost Value = { StatedFormula };

    ghost use Rattle.feature_tree.specs.contracts.formula.Formula as whole;
    ghost use Rattle.std.specs.Coded.{codes};

    ghost coded = { Prim.hlevel (codes, whole.the_row.coded) };

    ghost view = { λ stated. record { line = stated.line; tokens = stated.tokens.now; formula = stated.formula } };
}

/// Formulas in the order of the file. Contracts see the list of them.
#[derive(Drop)]
pub(crate) struct Statements<'a> {
    formulas: Vec<Stated<'a>>,
}

impl<'a> std::marker::Model for Statements<'a> {
    ghost use Rattle.std.specs.Prelude.{List};
    ghost use Rattle.uvl_reader.specs.inside.Standing.{StatedFormula};

    ghost Value = { List StatedFormula };

    ghost use Rattle.feature_tree.specs.contracts.formula.Formula as whole;
    ghost use Rattle.std.specs.Coded.{codes};

    ghost coded = { Prim.hlevel (codes, whole.the_row.coded) };

    ghost view = { λ statements. statements.formulas.items };
}

impl<'a> Statements<'a> {
    pub(crate) fn new(alloc: Global) -> Statements<'a>
        ensures { result ≡ [] }
    {
        Statements {
            formulas: Vec::new(alloc),
        }
    }

    pub(crate) fn into_vec(self) -> Vec<Stated<'a>>
        ensures { result.items ≡ self.entry }
    {
        let Statements { formulas } = self;
        formulas
    }

    /// One formula more.
    fn push(&mut self, stated: Stated<'a>) -> Result<(), AllocError>
        ensures ok { OnOk result (self.new ≡ self.old ++ stated.entry ∷ []) }
        ensures err { OnErr result (self.new ≡ self.old) }
    {
        self.formulas.push(stated)?;
        Ok(())
    }

    /// One formula more, of these tokens.
    pub(crate) fn read(
        &mut self,
        alloc: Global,
        line: u32,
        tokens: &'a [Token],
    ) -> Result<(), ModelError>
        requires { length tokens.now < 2 ^ 31 }
        ensures ok { OnOk result (with_tokens line self.old tokens.now ≡ Ok self.new) }
        ensures refused { IfErr result (λ e. IsRefused e (with_tokens line self.old tokens.now)) }
    {
        match formula_of(alloc, tokens) {
            Ok(formula) => Ok(self.push(Stated {
                line,
                tokens,
                formula,
            })?),
            Err(error) => Err(refusal(line, error)),
        }
    }

    /// The formulas of the items of a feature's attributes.
    pub(crate) fn read_attributes(
        &mut self,
        alloc: Global,
        bytes: &[u8],
        line: u32,
        attributes: &'a [Token],
    ) -> Result<(), ModelError>
        requires few { length attributes.now < 2 ^ 31 }
        requires spans { All (IsSpanOf bytes.now) attributes.now }
        ensures ok { OnOk result (with_items bytes.now line self.old (items_of attributes.now) ≡ Ok self.new) }
        ensures refused { IfErr result (λ e. IsRefused e (with_items bytes.now line self.old (items_of attributes.now))) }
    {
        if attributes.is_empty() {
            return Ok(());
        }
        let items = items_of(alloc, attributes)?;
        self.read_items(alloc, bytes, line, items.as_slice())
    }

    /// The formulas of these items.
    fn read_items(
        &mut self,
        alloc: Global,
        bytes: &[u8],
        line: u32,
        items: &[&'a [Token]],
    ) -> Result<(), ModelError>
        requires few { All (λ item. length item.now < 2 ^ 31) items.now }
        requires spans { All (λ item. All (IsSpanOf bytes.now) item.now) items.now }
        ensures ok { OnOk result (with_items bytes.now line self.old (map (λ item. item.now) items.now) ≡ Ok self.new) }
        ensures refused { IfErr result (λ e. IsRefused e (with_items bytes.now line self.old (map (λ item. item.now) items.now))) }
    {
        for item in items {
            self.read_item(alloc, bytes, line, *item)?;
        }
        Ok(())
    }

    /// The formulas of this item.
    fn read_item(
        &mut self,
        alloc: Global,
        bytes: &[u8],
        line: u32,
        item: &'a [Token],
    ) -> Result<(), ModelError>
        requires few { length item.now < 2 ^ 31 }
        requires spans { All (IsSpanOf bytes.now) item.now }
        ensures ok { OnOk result (with_listed line self.old (formulas_of_item bytes.now item.now) ≡ Ok self.new) }
        ensures refused { IfErr result (λ e. IsRefused e (with_listed line self.old (formulas_of_item bytes.now item.now))) }
    {
        match formulas_of_item(alloc, bytes, item)? {
            Some(formulas) => self.read_all(alloc, line, formulas.as_slice()),
            None => Err(ModelError::Refused {
                line,
                reason: Reason::BadFeature,
            }),
        }
    }

    /// The formulas of each of these lists of tokens.
    fn read_all(
        &mut self,
        alloc: Global,
        line: u32,
        formulas: &[&'a [Token]],
    ) -> Result<(), ModelError>
        requires { All (λ tokens. length tokens.now < 2 ^ 31) formulas.now }
        ensures ok { OnOk result (with_all line self.old (map (λ tokens. tokens.now) formulas.now) ≡ Ok self.new) }
        ensures refused { IfErr result (λ e. IsRefused e (with_all line self.old (map (λ tokens. tokens.now) formulas.now))) }
    {
        for tokens in formulas {
            self.read(alloc, line, *tokens)?;
        }
        Ok(())
    }
}

/// The refusal of a formula at this line.
fn refusal(line: u32, error: FormulaError) -> ModelError
    ensures { result ≡ formula_refused line error }
{
    let reason = match error {
        FormulaError::Unsupported => Reason::Unsupported,
        FormulaError::BadFormula => Reason::BadFormula,
        FormulaError::TooDeep => Reason::TooDeep,
        FormulaError::Memory => return ModelError::Memory,
    };
    ModelError::Refused { line, reason }
}
