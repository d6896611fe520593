// The code of a function, with its operands resolved, and what is known of it however many locals its source had.
use crate::compiled_scripts::{
    BOOL, CompiledScript, CompiledScripts, INT, NONE, OWN_INSTANCE, STATE_VARIABLE, STRING,
};
use crate::fault::{Attempt, NOT_FOUND};
use pex_values::{
    ARRAY_CREATE, ARRAY_FINDELEMENT, ARRAY_GETELEMENT, ARRAY_LENGTH, ARRAY_RFINDELEMENT, ASSIGN,
    CALL_METHOD, CALL_PARENT, CALL_STATIC, CMP_EQ, Datum, Instruction, JMP, JMPF, JMPT, PROPGET,
    PROPSET, PexFunction, STRCAT,
};
use std::collections::HashMap;

/// A Not of a `CMP_EQ`, which no opcode is.
pub(crate) const CMP_NE: u8 = 0xFF;

// The place of the operand that is written, among those that are no names of functions, properties or scripts.
fn result_of(opcode: u8) -> Option<usize> {
    match opcode {
        0x01..=0x13 | STRCAT | ARRAY_CREATE | ARRAY_LENGTH | ARRAY_GETELEMENT => Some(0),
        CALL_PARENT | CALL_STATIC => Some(0),
        CALL_METHOD | PROPGET | ARRAY_FINDELEMENT | ARRAY_RFINDELEMENT => Some(1),
        _ => None,
    }
}

/// The sign of an operation on two values, with blanks around it, and the level of its grammar: from 3 on an assignment may also make
/// it. And and Or have the opcodes of their jumps.
pub(crate) fn sign_of(opcode: u8) -> Option<(&'static [u8], u8)> {
    match opcode {
        JMPT => Some((b" || ", 0)),
        JMPF => Some((b" && ", 1)),
        CMP_EQ => Some((b" == ", 2)),
        CMP_NE => Some((b" != ", 2)),
        0x10 => Some((b" < ", 2)),
        0x11 => Some((b" <= ", 2)),
        0x12 => Some((b" > ", 2)),
        0x13 => Some((b" >= ", 2)),
        0x01 | STRCAT => Some((b" + ", 3)),
        0x03 => Some((b" - ", 3)),
        0x05 => Some((b" * ", 4)),
        0x07 => Some((b" / ", 4)),
        0x09 => Some((b" % ", 4)),
        _ => None,
    }
}

/// What an operand stands for. A slot is a parameter or a local by its place, and a variable one of the script by its place.
#[derive(Clone, Copy, PartialEq, Eq)]
pub(crate) enum OperandMeaning {
    Slot(usize),
    Variable(usize),
    OwnInstance,
    StateText,
    Literal(Datum),
}

/// An instruction. Its operands that are no names stand among those of the function from `first` to `end`, and from `arguments` on
/// those that are arguments.
#[derive(Clone, Copy)]
pub(crate) struct CodeStep {
    pub opcode: u8,
    /// References to the names of a script, and of a function or a property, where it has them.
    pub names: (u16, u16),
    pub first: usize,
    pub arguments: usize,
    pub end: usize,
    /// The place of the operand that is written.
    pub result: Option<usize>,
    /// Where its jump leads.
    pub target: Option<usize>,
}

/// The instructions of a function.
#[derive(Drop)]
pub(crate) struct FunctionCode<'w> {
    pub set: &'w CompiledScripts<'w>,
    pub script: &'w CompiledScript<'w>,
    pub function: &'w PexFunction,
    pub steps: Vec<CodeStep>,
    /// References to the names and types of the slots.
    pub pairs: Vec<(u16, u16)>,
    // Each operand, and whether it is a slot that the next instruction that has the slot reads.
    operands: Vec<(OperandMeaning, bool)>,
    // By its target and its opcode, the last jump that leads there; of those without test only one from behind.
    jumps: HashMap<(usize, u8), usize>,
    // The first slot of each name.
    slots: HashMap<usize, usize>,
}

impl<'w> FunctionCode<'w> {
    /// A function of the script, of which no instruction is read.
    pub(crate) fn new(
        set: &'w CompiledScripts<'w>,
        script: &'w CompiledScript<'w>,
        function: &'w PexFunction,
    ) -> FunctionCode<'w> {
        let alloc = set.alloc;
        FunctionCode {
            set,
            script,
            function,
            steps: Vec::new(alloc),
            pairs: Vec::new(alloc),
            operands: Vec::new(alloc),
            jumps: HashMap::new(alloc),
            slots: HashMap::new(alloc),
        }
    }

    /// Reads the instructions.
    pub(crate) fn fill(&mut self) -> Attempt<()> {
        self.add_slots()?;
        for (at, instruction) in self.function.code.iter().enumerate() {
            self.add(at, instruction)?;
        }
        self.note_uses()
    }

    fn add_slots(&mut self) -> Attempt<()> {
        let pairs = self.function.parameters.iter();
        for (slot, pair) in pairs.chain(self.function.locals.iter()).enumerate() {
            self.pairs.push(*pair)?;
            self.slots
                .entry(self.script.number(pair.0))?
                .or_insert(slot);
        }
        Ok(())
    }

    // Adds an instruction with its operands.
    fn add(&mut self, at: usize, instruction: &Instruction) -> Attempt<()> {
        let opcode = instruction.opcode;
        let (names, fixed) = match (opcode, instruction.fixed.as_slice()) {
            (CALL_STATIC, [Datum::Word(script), Datum::Word(name), fixed @ ..]) => {
                ((*script, *name), fixed)
            }
            (CALL_METHOD | CALL_PARENT | PROPGET | PROPSET, [Datum::Word(name), fixed @ ..]) => {
                ((0, *name), fixed)
            }
            (_, fixed) => ((0, 0), fixed),
        };
        let first = self.operands.len();
        self.add_operands(fixed)?;
        let arguments = self.operands.len();
        self.add_operands(&instruction.more)?;
        let target = match (opcode, fixed) {
            (JMP | JMPT | JMPF, [.., Datum::Int(offset)]) => target(at, *offset),
            _ => None,
        };
        if let Some(target) = target.filter(|target| opcode != JMP || *target <= at) {
            self.jumps.insert((target, opcode), at)?;
        }
        self.steps.push(CodeStep {
            opcode,
            names,
            first,
            arguments,
            end: self.operands.len(),
            result: result_of(opcode).map(|place| first.saturating_add(place)),
            target,
        })?;
        Ok(())
    }

    fn add_operands(&mut self, data: &[Datum]) -> Attempt<()> {
        for datum in data {
            let operand = match *datum {
                Datum::Word(name) => self.variable(self.script.number(name))?,
                literal => OperandMeaning::Literal(literal),
            };
            self.operands.push((operand, false))?;
        }
        Ok(())
    }

    // What the identifier of this number means.
    fn variable(&self, name: usize) -> Attempt<OperandMeaning> {
        if let Some(slot) = self.slots.get(&name) {
            return Ok(OperandMeaning::Slot(*slot));
        }
        match (self.set.variable(self.script, name), name) {
            (Some(place), _) => Ok(OperandMeaning::Variable(place)),
            (None, OWN_INSTANCE) => Ok(OperandMeaning::OwnInstance),
            (None, STATE_VARIABLE) => Ok(OperandMeaning::StateText),
            _ => Err(NOT_FOUND),
        }
    }

    // Which operands are read next, from the last instruction to the first.
    fn note_uses(&mut self) -> Attempt<()> {
        let mut reads = vec![in self.set.alloc; false; self.pairs.len()]?;
        for step in self.steps.iter().rev() {
            note_step(*step, &mut self.operands, &mut reads);
        }
        Ok(())
    }

    /// The end of the slots that may be locals of the source: those behind the parameters that only assignments write.
    pub(crate) fn locals_end(&self) -> usize {
        let written = self.steps.iter().filter(|step| step.opcode != ASSIGN);
        written
            .filter_map(|step| match self.operands.get(step.result?)?.0 {
                OperandMeaning::Slot(slot) if slot >= self.function.parameters.len() => Some(slot),
                _ => None,
            })
            .min()
            .unwrap_or(self.pairs.len())
    }

    /// The instruction at a place.
    pub(crate) fn step(&self, at: usize) -> Attempt<CodeStep> {
        self.steps.get(at).copied().ok_or(NOT_FOUND)
    }

    /// The operand at a place among those of the function, and whether the next instruction that has it as its slot reads it.
    pub(crate) fn operand(&self, at: usize) -> Attempt<(OperandMeaning, bool)> {
        self.operands.get(at).copied().ok_or(NOT_FOUND)
    }

    /// The last jump of this opcode that leads to a place; of those without test only one from behind.
    pub(crate) fn jump_to(&self, place: usize, opcode: u8) -> Option<usize> {
        self.jumps.get(&(place, opcode)).copied()
    }

    /// References to the name and the type of a parameter or a local.
    pub(crate) fn pair(&self, slot: usize) -> Attempt<(u16, u16)> {
        self.pairs.get(slot).copied().ok_or(NOT_FOUND)
    }

    /// The type of a parameter or a local.
    pub(crate) fn slot_type(&self, slot: usize) -> Attempt<usize> {
        Ok(self.script.number(self.pair(slot)?.1))
    }

    /// The type of what an operand stands for.
    pub(crate) fn type_of(&self, operand: OperandMeaning) -> Attempt<usize> {
        Ok(match operand {
            OperandMeaning::Slot(slot) => self.slot_type(slot)?,
            OperandMeaning::Variable(place) => self
                .script
                .number(self.script.variable(place)?.kind),
            OperandMeaning::OwnInstance => self.script.name(),
            OperandMeaning::StateText | OperandMeaning::Literal(Datum::Quoted(_)) => STRING,
            OperandMeaning::Literal(Datum::Int(_)) => INT,
            OperandMeaning::Literal(Datum::Bool(_)) => BOOL,
            OperandMeaning::Literal(_) => NONE,
        })
    }
}

// Notes which operands of an instruction are read next, where `reads` says it of each slot behind the instruction, and then before
// it.
fn note_step(step: CodeStep, operands: &mut [(OperandMeaning, bool)], reads: &mut [bool]) {
    for at in step.first..step.end {
        let Some((OperandMeaning::Slot(slot), _)) = operands.get(at).copied() else {
            continue;
        };
        if let (Some(operand), Some(is_read)) = (operands.get_mut(at), reads.get_mut(slot)) {
            operand.1 = *is_read;
            *is_read = step.result != Some(at);
        }
    }
}

// Where a jump at a place leads.
fn target(at: usize, offset: i32) -> Option<usize> {
    at.checked_add_signed(isize::try_from(offset).ok()?)
}
