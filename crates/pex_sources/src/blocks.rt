// Jumps, read into If and While, and the definitions of locals in them.
use crate::code::FunctionCode;
use crate::fault::{Attempt, NOT_FOUND, NotFound, check};
use crate::reader::{Outcome, TreeReader};
use papy_base::Fault;
use pex_values::{JMP, JMPF};

/// A line of a function's body, whose expressions are given by their numbers among those of the function.
#[derive(Clone, Copy)]
pub(crate) enum BodyLine {
    /// A definition of a local.
    Define(usize, usize),
    /// What is set, as the expression that gets it, and the value.
    Set(usize, usize),
    Plain(usize),
    Return(usize),
    If(usize),
    ElseIf(usize),
    Else,
    EndIf,
    While(usize),
    EndWhile,
    /// A statement without code.
    Nothing,
    /// No line at all.
    Skipped,
}

// What a block that is open belongs to, where it ends, how many statements stand in it so far, and the first local that wasn't
// defined when it began.
#[derive(Clone, Copy)]
struct OpenBlock {
    kind: BlockKind,
    end: usize,
    statements: usize,
    defined_end: usize,
}

#[derive(Clone, Copy)]
enum BlockKind {
    Function,
    /// The statements behind a test, where no Else stands behind them.
    Then,
    /// The same before an Else, whose jump stands at the block's end: where the Else begins, and where it ends.
    ThenElse { over: usize, end: usize },
    /// An Else, and the place of its line.
    Else { line: usize },
    /// A While, and its jump back.
    While,
}

/// The body of a function as it is read: its lines, with its expressions in the reader.
#[derive(Drop)]
pub(crate) struct Blocks<'w, 'f> {
    pub reader: TreeReader<'w, 'f>,
    pub lines: Vec<BodyLine>,
    open: Vec<OpenBlock>,
    // Whether a statement or a test has begun, and the jump back of the While whose test it is.
    begun: bool,
    back: Option<usize>,
}

impl<'w, 'f> Blocks<'w, 'f> {
    /// A body without lines, in which the slots from `first` on are temporaries.
    pub(crate) fn new(code: &'f FunctionCode<'w>, first: usize) -> Blocks<'w, 'f> {
        let alloc = code.set.alloc;
        Blocks {
            reader: TreeReader::new(code, first),
            lines: Vec::new(alloc),
            open: Vec::new(alloc),
            begun: false,
            back: None,
        }
    }

    /// Reads the function. A file doesn't tell how many of its locals were locals of the source, so the numbers are tried in turn,
    /// the least first: it has the fewest lines. `NotFound` comes where none of them gives a body.
    pub(crate) fn read(&mut self) -> Attempt<()> {
        let code = self.reader.code;
        for first in code.function.parameters.len()..code.locals_end().saturating_add(1) {
            *self = Blocks::new(code, first);
            match self.attempt() {
                Err(Fault::Broken(NotFound)) => {}
                ended => return ended,
            }
        }
        Err(NOT_FOUND)
    }

    // Each turn goes behind an instruction, or ends a block, of which an instruction opens two at most.
    fn attempt(&mut self) -> Attempt<()> {
        let count = self.reader.code.steps.len();
        self.open_block(BlockKind::Function, count)?;
        let mut at = 0usize;
        for _ in 0..count.saturating_mul(4).saturating_add(8) {
            match self.turn(at)? {
                Some(next) => at = next,
                None => return check(self.reader.slots.are_all_used()),
            }
        }
        Err(NOT_FOUND)
    }

    fn innermost(&self) -> Attempt<OpenBlock> {
        self.open.last().copied().ok_or(NOT_FOUND)
    }

    // What stands at a place is read: the end of a block, or an instruction, with which a statement or a test begins unless one has.
    // Gives the place behind it, and none at the function's end.
    fn turn(&mut self, at: usize) -> Attempt<Option<usize>> {
        let block = self.innermost()?;
        if !self.begun && block.end == at {
            return self.end_block(block, at);
        }
        let back = self.reader.code.jump_to(at, JMP);
        check(at < block.end && back.is_none_or(|back| !self.begun && back < block.end))?;
        self.begun = true;
        self.back = self.back.or(back);
        let outcome = self.reader.step(at, block.end)?;
        self.take(outcome, at)?;
        Ok(Some(at.saturating_add(1)))
    }

    // A statement of the innermost block has ended.
    fn count_statement(&mut self) {
        if let Some(block) = self.open.last_mut() {
            block.statements = block.statements.saturating_add(1);
        }
    }

    fn take(&mut self, outcome: Outcome, at: usize) -> Attempt<()> {
        match outcome {
            None => return Ok(()),
            Some(BodyLine::If(test)) => match self.back.take() {
                Some(back) => self.open_while(test, at, back)?,
                None => self.open_if(test, at)?,
            },
            Some(line) => {
                check(self.back.is_none())?;
                self.lines.push(line)?;
                self.count_statement();
            }
        }
        self.begun = false;
        Ok(())
    }

    // The test of a While ends with the jump at this place.
    fn open_while(&mut self, test: usize, at: usize, back: usize) -> Attempt<()> {
        let target = self.reader.code.step(at)?.target;
        check(at < back && target == Some(back.saturating_add(1)))?;
        self.lines.push(BodyLine::While(test))?;
        self.open_block(BlockKind::While, back)
    }

    // The test of an If ends with the jump at this place. It has an Else where the jump before the target leads ahead, and belongs to
    // this If: no test inside has the same target.
    fn open_if(&mut self, test: usize, at: usize) -> Attempt<()> {
        let over = self.reader.code.step(at)?.target.ok_or(NOT_FOUND)?;
        let limit = self.innermost()?.end;
        check(over > at && over <= limit)?;
        self.lines.push(BodyLine::If(test))?;
        let last = over.saturating_sub(1);
        let jump = self.reader.code.step(last)?;
        let is_own = jump.opcode == JMP && self.reader.code.jump_to(over, JMPF) == Some(at);
        match jump.target {
            Some(end) if is_own && last > at && end >= over => {
                check(end <= limit)?;
                self.open_block(BlockKind::ThenElse { over, end }, last)
            }
            _ => self.open_block(BlockKind::Then, over),
        }
    }

    fn open_block(&mut self, kind: BlockKind, end: usize) -> Attempt<()> {
        self.open.push(OpenBlock {
            kind,
            end,
            statements: 0,
            defined_end: self.reader.slots.next_local,
        })?;
        Ok(())
    }

    fn end_block(&mut self, block: OpenBlock, at: usize) -> Attempt<Option<usize>> {
        let _ = self.open.pop();
        self.reader.slots.end_block(block.defined_end);
        let mut next = at;
        match block.kind {
            BlockKind::Function => return Ok(None),
            // An Else whose statements have no code has one that does nothing.
            BlockKind::ThenElse { over, end } => {
                let line = self.lines.len();
                self.lines.push(BodyLine::Else)?;
                if end == over {
                    self.lines.push(BodyLine::Nothing)?;
                }
                self.open_block(BlockKind::Else { line }, end)?;
                return Ok(Some(over));
            }
            BlockKind::Then => self.lines.push(BodyLine::EndIf)?,
            BlockKind::Else { line } => self.end_else(line, block.statements)?,
            BlockKind::While => {
                self.lines.push(BodyLine::EndWhile)?;
                next = at.saturating_add(1);
            }
        }
        self.count_statement();
        Ok(Some(next))
    }

    // An If that is all of an Else is an ElseIf, and the end of that If is the end of this one.
    fn end_else(&mut self, line: usize, statements: usize) -> Attempt<()> {
        let behind = line.saturating_add(1);
        match self.lines.get(behind) {
            Some(BodyLine::If(test)) if statements == 1 => {
                let test = *test;
                self.set(line, BodyLine::Skipped);
                self.set(behind, BodyLine::ElseIf(test));
            }
            _ => self.lines.push(BodyLine::EndIf)?,
        }
        Ok(())
    }

    fn set(&mut self, at: usize, line: BodyLine) {
        if let Some(old) = self.lines.get_mut(at) {
            *old = line;
        }
    }
}
