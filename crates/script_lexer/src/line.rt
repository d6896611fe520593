ghost use Rattle.std.specs.Prelude.{◌≡◌, ◌+◌, ◌<◌, ◌≤◌, ◌^◌, [], ◌++◌, length, IfOk, OnOk};
ghost use Rattle.script_lexer.specs.Bytes.{line_ends};
ghost use Rattle.script_lexer.specs.Lines.{logical_lines, nonempty};

use crate::piece::Piece;
use crate::token::Spanned;
use papy_base::Made;
use std::alloc::Global;

/// A logical line that has tokens.
#[derive(Drop)]
pub struct Line {
    /// The physical line on which it begins, from 1.
    pub number: u16,
    /// Its tokens, in order; at least one.
    pub tokens: Vec<Spanned>,
}

/// What a file was cut into.
#[derive(Drop)]
pub struct Lines {
    /// The logical lines that have tokens, in order.
    pub lines: Vec<Line>,
    /// The number of physical lines, at most 65,535.
    pub last: u32,
}

/// What was read so far.
#[derive(Drop)]
pub struct Progress {
    /// The place behind it.
    pub at: u32,
    /// The physical line of that place.
    pub line: u32,
    /// The physical line on which the current logical line began.
    pub begun: u32,
    /// The tokens of the current logical line.
    pub tokens: Vec<Spanned>,
    /// The logical lines before it.
    pub lines: Vec<Line>,
}

impl Progress {
    ghost use Rattle.std.specs.Prelude.{◌≡◌, ◌+◌, ◌<◌, ◌≤◌, ◌^◌, [], ◌++◌, length, IfOk, OnOk};
    ghost use Rattle.script_lexer.specs.Bytes.{line_ends};
    ghost use Rattle.script_lexer.specs.Progress.{IsStart, IsReady, Takes, closed};
    ghost use Rattle.script_lexer.specs.Lines.{logical_lines, nonempty};
    ghost use Rattle.script_lexer.specs.declared.piece.Piece.TheVariants as piece;

    /// Nothing was read, and the text begins at this place.
    pub fn new(alloc: Global, at: u32) -> Progress
        ensures { IsStart result at }
    {
        Progress {
            at,
            line: 1,
            begun: 1,
            tokens: Vec::new(alloc),
            lines: Vec::new(alloc),
        }
    }

    // Ends the current logical line, which counts where it has tokens. They move to a list of their length.
    fn end_line(&mut self, alloc: Global) -> Made<()>
        requires { 0 < length self.old.tokens.items → self.old.begun ≤ 65535 }
        ensures ended { OnOk result (logical_lines self.new.lines.items ≡ logical_lines self.old.lines.items ++ nonempty self.old.begun self.old.tokens.items []) }
        ensures empty { OnOk result (self.new.tokens.items ≡ []) }
        ensures place { self.new.at ≡ self.old.at }
        ensures line { self.new.line ≡ self.old.line }
        ensures begun { self.new.begun ≡ self.old.begun }
    {
        if self.tokens.is_empty() {
            return Ok(());
        }
        let mut tokens = Vec::with_capacity(alloc, self.tokens.len())?;
        tokens.append(&mut self.tokens)?;
        self.lines.push(Line {
            number: self.begun as u16,
            tokens,
        })?;
        Ok(())
    }

    /// One piece more, with its bytes and the number of their line ends.
    pub fn take(&mut self, alloc: Global, piece: Piece, bytes: &[u8], ends: u32) -> Made<()>
        requires ready { IsReady self.old }
        requires room { self.old.at + length bytes.now < 2 ^ 31 }
        requires counted { ends ≡ line_ends bytes.now }
        requires few { self.old.line + ends ≤ 65536 }
        requires here { self.old.line ≤ 65535 }
        ensures { OnOk result (Takes self.old self.new piece bytes.now) }
    {
        let from = self.at;
        let until = from + bytes.len() as u32;
        let line = self.line + ends;
        match piece {
            Piece::LineEnd => {
                self.end_line(alloc)?;
                self.begun = line;
            }
            Piece::Token(token) => {
                self.tokens.push(Spanned { token, from, until })?;
            }
            Piece::Blank | Piece::Join | Piece::Comment => {}
        }
        self.at = until;
        self.line = line;
        Ok(())
    }

    /// The logical lines, with the last one.
    pub fn finish(mut self, alloc: Global) -> Made<Vec<Line>>
        requires { IsReady self }
        ensures { IfOk result (λ lines. closed lines.items self) }
    {
        self.end_line(alloc)?;
        Ok(self.lines)
    }
}
