//! What the definition says of lines and of files.
ghost use Rattle.std.specs.Prelude.{ℕ, List};
ghost use Rattle.uvl_lex.specs.declared.token.Line.{Line};
ghost use Rattle.uvl_reader.specs.Laws.{JudgedNumbersRise, LineNumbersRise, ModelsAreWellFormed};
ghost use Rattle.uvl_reader.specs.Nesting.{AreAbove, lines_above};

/// The lines that a line stands under: the nearest is the latest line before it that is indented less, and stands under
/// the others in the same way.
pub fn lines_above_are_the_latest()
    ensures { (before : List Line) (indent : ℕ) → AreAbove before indent (lines_above before indent) }
{}

/// What a file says, if it isn't refused, is a well-formed model, so it has a root.
pub fn models_are_well_formed()
    ensures { ModelsAreWellFormed }
{}

/// The numbers of the lines of a file rise, and those of the lines that are judged: a line is told by its number.
pub fn line_numbers_rise()
    ensures lines { LineNumbersRise }
    ensures judged { JudgedNumbersRise }
{}
