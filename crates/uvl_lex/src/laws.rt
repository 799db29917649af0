//! Laws of the definition, each as the contract of a function without a body.
ghost use Rattle.uvl_lex.specs.Laws.{PiecesCover, ReadingsAreLines, OneReading};

/// The pieces of a text make up its bytes.
pub fn pieces_make_up_the_text()
    ensures { PiecesCover }
{}

/// What holds of the lines of every text: each has a token, brackets are closed in order, and the
/// spans of the tokens lie one behind the other within the bytes. No line has more tokens than the
/// text has bytes.
pub fn lines_are_well_formed()
    ensures { ReadingsAreLines }
{}

/// A text has one reading at most: its lines, or its first fault.
pub fn readings_are_unique()
    ensures { OneReading }
{}
