//! Lines that grow piece by piece.
ghost use Rattle.std.specs.Prelude.{◌≡◌, ◌∷◌, [], List, OnOk, IfErr, IfOk};
ghost use Rattle.uvl_lex.specs.Pieces.{PlacedPiece};

use crate::bracket::Brackets;
use crate::error::{LexError, LexReason};
use crate::piece::Piece;
use crate::place::Place;
use crate::token::{Line, Lines, Token, Tokens};
use std::alloc::{AllocError, Global};

/// Where a line begins.
#[derive(Clone, Copy)]
pub(crate) struct Beginning {
    pub number: u32,
    pub indent: u32,
}

/// The lines that have ended, the one that has begun, and the brackets that are open in it.
#[derive(Drop)]
pub(crate) struct Reader {
    lines: Lines,
    begun: Option<Beginning>,
    /// The tokens of the line that has begun. One buffer serves every short line.
    gathered: Vec<Token>,
    open_brackets: Brackets,
}

impl Reader {
    ghost use Rattle.uvl_lex.specs.inside.Progress.{lines_after, current, ended, grown};
    ghost use Rattle.uvl_lex.specs.Reading.{run_of, on_ok, all_lines, IsRefusal};

    /// A reader that has read nothing.
    pub fn new(alloc: Global) -> Self
        ensures { (ps : List PlacedPiece) → lines_after result ps ≡ on_ok all_lines (run_of [] ps) }
    {
        Reader {
            lines: Lines::new(alloc),
            begun: None,
            gathered: Vec::new(alloc),
            open_brackets: Brackets::new(alloc),
        }
    }

    /// Goes on over a piece that begins and ends at these places.
    pub fn take(
        &mut self,
        alloc: Global,
        what: Piece,
        from: Place,
        upto: Place,
    ) -> Result<(), LexError>
        ensures ok { OnOk result ((ps : List PlacedPiece) → lines_after self.old (record { what = what; from = from; upto = upto } ∷ ps) ≡ lines_after self.new ps) }
        ensures refused { IfErr result (λ e. (ps : List PlacedPiece) → IsRefusal e (lines_after self.old (record { what = what; from = from; upto = upto } ∷ ps))) }
    {
        match what {
            Piece::Blank | Piece::Comment => Ok(()),
            Piece::LineEnd => {
                if self.open_brackets.is_empty() {
                    self.end_line(alloc)?;
                }
                Ok(())
            }
            Piece::Lexeme(kind) => {
                let token = Token {
                    kind,
                    start: from.offset,
                    end: upto.offset,
                    line: from.line,
                };
                if !self.open_brackets.take(token)? {
                    return Err(LexError::Refused {
                        line: from.line,
                        reason: LexReason::BadToken,
                    });
                }
                self.add(token, from.column)?;
                Ok(())
            }
            Piece::Fault(reason) => Err(LexError::Refused {
                line: from.line,
                reason,
            }),
        }
    }

    /// The current line, if there is one, has ended.
    fn end_line(&mut self, alloc: Global) -> Result<(), AllocError>
        ensures lines { OnOk result (self.new.lines ≡ ended self.old.lines (current self.old)) }
        ensures none { OnOk result (current self.new ≡ None) }
        ensures brackets { OnOk result (self.new.open_brackets ≡ self.old.open_brackets) }
    {
        if let Some(Beginning { number, indent }) = self.begun.take() {
            let tokens = Tokens::gathered(alloc, &mut self.gathered)?;
            self.lines.push(Line {
                number,
                indent,
                tokens,
            })?;
        }
        Ok(())
    }

    /// The token goes on with the current line, or begins one.
    fn add(&mut self, token: Token, column: u32) -> Result<(), AllocError>
        ensures lines { OnOk result (self.new.lines ≡ self.old.lines) }
        ensures current { OnOk result (current self.new ≡ Some (grown (current self.old) token column)) }
        ensures brackets { OnOk result (self.new.open_brackets ≡ self.old.open_brackets) }
    {
        if self.begun.is_none() {
            self.gathered.clear();
            self.begun = Some(Beginning {
                number: token.line,
                indent: column,
            });
        }
        self.gathered.push(token)?;
        Ok(())
    }

    /// The lines, at the end of the text.
    pub fn finish(mut self, alloc: Global) -> Result<Lines, LexError>
        ensures ok { IfOk result (λ lines. lines_after self [] ≡ Ok lines) }
        ensures refused { IfErr result (λ e. IsRefusal e (lines_after self [])) }
    {
        if let Some(bracket) = self.open_brackets.pop() {
            return Err(LexError::Refused {
                line: bracket.line,
                reason: LexReason::OpenBracket,
            });
        }
        self.end_line(alloc)?;
        Ok(self.lines)
    }
}
