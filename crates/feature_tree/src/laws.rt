//! Laws of the definitions, each as the contract of a function without a body.
ghost use Rattle.feature_tree.specs.Names.{TruthRestsOnNames};
ghost use Rattle.feature_tree.specs.Consistent.{ConsistentIsMonotone};
ghost use Rattle.feature_tree.specs.Decided.{ProductIsDecided, ConsistentIsDecided};
ghost use Rattle.feature_tree.specs.FormulaAnswer.{ParsesTheGrammar, FormulaAnswerIsTheAnswer};
ghost use Rattle.feature_tree.specs.ReadFormulas.{ReadFormulasAreFull, ReadNamesAreNames};
ghost use Rattle.feature_tree.specs.Refusals.{OneParse, OneAnswer};

/// A formula has the same truth in two sets that agree on its names.
pub fn truth_rests_on_names()
    ensures { TruthRestsOnNames }
{}

/// A part of a consistent list of formulas is consistent.
pub fn consistent_is_monotone()
    ensures { ConsistentIsMonotone }
{}

/// The test that computes says which sets are products.
pub fn product_is_decided()
    ensures { ProductIsDecided }
{}

/// The test that tries every set says which lists of formulas are consistent.
pub fn consistent_is_decided()
    ensures { ConsistentIsDecided }
{}

/// A list of tokens has at most one formula, with one height.
pub fn one_parse()
    ensures { OneParse }
{}

/// A list of tokens has exactly one answer beside want of memory: its formula, or one of the three refusals.
pub fn one_answer()
    ensures { OneAnswer }
{}

/// The function that computes the answer to a list of tokens parses it as the grammar reads it, and gives the one answer.
pub fn formula_answer_is_the_answer()
    ensures parses { ParsesTheGrammar }
    ensures answer { FormulaAnswerIsTheAnswer }
{}

/// Each `All` and each `Any` of a formula that was read has two or more parts.
pub fn read_formulas_are_full()
    ensures { ReadFormulasAreFull }
{}

/// Each name in a formula that was read is the number of a token that is a name, so it is below the count of the tokens.
pub fn read_names_are_names()
    ensures { ReadNamesAreNames }
{}
