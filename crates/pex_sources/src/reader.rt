// The instructions of a function, read one after another into expressions and simple statements.
use crate::blocks::BodyLine;
use crate::code::{CodeStep, FunctionCode, OperandMeaning};
use crate::compiled_scripts::{BOOL, NONE};
use crate::fault::{Attempt, NOT_FOUND, check};
use crate::slots::Slots;
use crate::trees::{Form, Input, Trees};
use pex_values::{
    ARRAY_CREATE, ARRAY_GETELEMENT, ARRAY_SETELEMENT, ASSIGN, CAST, JMPF, JMPT, PROPGET, PROPSET,
    RETURN,
};
use std::collections::HashMap;

/// The line of the statement that an instruction ends, or that of an If where it is the jump behind a test. None where the statement
/// goes on.
pub(crate) type Outcome = Option<BodyLine>;

// The left side of And or Or, whose value stands in a slot, and the place behind its right side.
#[derive(Clone, Copy)]
struct Side {
    opcode: u8,
    slot: usize,
    left: Input,
    start: usize,
    end: usize,
}

/// The state of reading.
#[derive(Drop)]
pub(crate) struct TreeReader<'w, 'f> {
    pub code: &'f FunctionCode<'w>,
    pub trees: Trees,
    pub slots: Slots<'w, 'f>,
    // The expressions whose values temporaries have that are still to be read, and whether they were read before.
    values: HashMap<usize, (usize, bool)>,
    sides: Vec<Side>,
    // The operands of the instruction, in the order of evaluation.
    inputs: Vec<Input>,
    // The temporary that the instruction before assigned to.
    fresh: Option<usize>,
}

impl<'w, 'f> TreeReader<'w, 'f> {
    /// A reader for which the slots from `first` on are temporaries.
    pub(crate) fn new(code: &'f FunctionCode<'w>, first: usize) -> TreeReader<'w, 'f> {
        let alloc = code.set.alloc;
        TreeReader {
            code,
            trees: Trees::new(alloc),
            slots: Slots::new(code, first),
            values: HashMap::new(alloc),
            sides: Vec::new(alloc),
            inputs: Vec::new(alloc),
            fresh: None,
        }
    }

    /// Reads the instruction at a place of a block that ends at `end`.
    pub(crate) fn step(&mut self, at: usize, end: usize) -> Attempt<Outcome> {
        let fresh = self.fresh.take();
        let step = self.code.step(at)?;
        self.read_inputs(step)?;
        match step.opcode {
            ASSIGN => self.assign(at, step),
            JMPF | JMPT => self.jump(at, step, end, fresh),
            RETURN => Ok(Some(BodyLine::Return(self.end_with_one()?))),
            PROPSET | ARRAY_SETELEMENT => self.set(at, step),
            _ => self.apply(at, step),
        }
    }

    // Reads the operands of an instruction. Arguments are read as the parameters stand, where they can be evaluated so, and else
    // those with code in the order of their code, then the others. A get whose value an assignment computes with that sets it has
    // its inputs in order as they stand.
    fn read_inputs(&mut self, step: CodeStep) -> Attempt<()> {
        self.inputs.clear();
        for operand in step.first..step.end {
            if step.result != Some(operand) {
                let input = self.read(step, operand)?;
                self.inputs.push(input)?;
            }
        }
        let begins_change = is_get(step.opcode) && self.has_shared();
        if !begins_change && !self.is_in_order()? {
            self.inputs.sort_by_key(|input| input.order)?;
            check(self.is_in_order()?)?;
        }
        Ok(())
    }

    fn has_shared(&self) -> bool {
        self.inputs.iter().any(|input| input.is_shared)
    }

    // Reads the operand at a place among those of the function.
    fn read(&mut self, step: CodeStep, at: usize) -> Attempt<Input> {
        let (operand, is_read_next) = self.code.operand(at)?;
        let (node, is_shared) = match operand {
            OperandMeaning::Slot(slot) if self.slots.is_temporary(slot) => {
                self.take_value(step.opcode, slot, is_read_next)?
            }
            _ => (self.leaf(operand)?, false),
        };
        let order = match self.trees.node(node)?.code {
            _ if at < step.arguments => 0,
            Some((_, last)) => last,
            None => usize::MAX,
        };
        Ok(Input {
            node,
            operand,
            place: at.saturating_sub(step.arguments),
            is_shared,
            order,
        })
    }

    fn leaf(&mut self, operand: OperandMeaning) -> Attempt<usize> {
        check(self.slots.undefined(operand).is_none())?;
        let kind = self.code.type_of(operand)?;
        self.trees.add(Form::Leaf(operand), kind, &[], None)
    }

    // The expression whose value a temporary has, and whether it is shared: what a get reads may be read once more by a set.
    fn take_value(
        &mut self,
        opcode: u8,
        slot: usize,
        is_read_next: bool,
    ) -> Attempt<(usize, bool)> {
        let (node, was_read) = self.values.remove(&slot).ok_or(NOT_FOUND)?;
        if is_read_next {
            check(is_get(opcode) && !was_read)?;
            self.put_value(slot, node, true)?;
        } else {
            check(!was_read || matches!(opcode, PROPSET | ARRAY_SETELEMENT))?;
        }
        Ok((node, was_read || is_read_next))
    }

    // Notes that a temporary has the value of this expression from now on, and whether it was read before.
    fn put_value(&mut self, slot: usize, node: usize, was_read: bool) -> Attempt<()> {
        check(self.values.insert(slot, (node, was_read))?.is_none())
    }

    // Whether the code of each input stands before that of the next, and a variable is kept exactly where a later one comes_to_act.
    fn is_in_order(&self) -> Attempt<bool> {
        let mut comes_to_act = false;
        let mut behind = usize::MAX;
        for input in self.inputs.iter().rev() {
            let node = self.trees.node(input.node)?;
            let overlaps = node.code.is_some_and(|(_, last)| last >= behind);
            if overlaps || (node.varies() && node.code.is_some() != comes_to_act) {
                return Ok(false);
            }
            behind = node.code.map_or(behind, |(start, _)| start);
            comes_to_act = comes_to_act || node.comes_to_act;
        }
        Ok(true)
    }

    // Takes back the temporaries that are read no more.
    fn give_back(&mut self) -> Attempt<()> {
        for input in &self.inputs {
            if let OperandMeaning::Slot(slot) = input.operand
                && !self.values.contains_key(&slot)
            {
                self.slots.give_back(slot)?;
            }
        }
        Ok(())
    }

    // A statement or a test ends, with nothing left to be read.
    fn end(&mut self) -> Attempt<()> {
        check(self.values.is_empty() && self.sides.is_empty())?;
        self.give_back()
    }

    // The same, where it has one value.
    fn end_with_one(&mut self) -> Attempt<usize> {
        self.end()?;
        Ok(self.only_input()?.node)
    }

    // The operand that is read, which stands first where there is also how far a jump leads.
    fn only_input(&self) -> Attempt<Input> {
        self.inputs.first().copied().ok_or(NOT_FOUND)
    }

    // The value that an instruction has given to a temporary, the operand at this place. It is a statement where nobody reads it.
    fn store(&mut self, operand: usize, slot: usize, node: usize) -> Attempt<Outcome> {
        let (_, is_read_next) = self.code.operand(operand)?;
        if is_read_next && self.code.slot_type(slot)? != NONE {
            self.put_value(slot, node, false)?;
            return Ok(None);
        }
        check(self.values.is_empty() && self.sides.is_empty())?;
        self.slots.give_back(slot)?;
        Ok(Some(BodyLine::Plain(node)))
    }

    // A jump: the left side of And or Or ends with it where the instruction before assigned what it tests, and else a test.
    fn jump(
        &mut self,
        at: usize,
        step: CodeStep,
        end: usize,
        fresh: Option<usize>,
    ) -> Attempt<Outcome> {
        let left = self.only_input()?;
        let Some(slot) = fresh.filter(|slot| left.operand == OperandMeaning::Slot(*slot)) else {
            check(step.opcode == JMPF)?;
            return Ok(Some(BodyLine::If(self.end_with_one()?)));
        };
        let outer = self.sides.last().map_or(end, |side| side.end);
        let end = step.target.ok_or(NOT_FOUND)?;
        check(end > at.saturating_add(1) && end <= outer)?;
        self.sides.push(Side {
            opcode: step.opcode,
            slot,
            left,
            start: at.saturating_sub(1),
            end,
        })?;
        Ok(None)
    }

    // An assignment. The first to a local is its definition.
    fn assign(&mut self, at: usize, step: CodeStep) -> Attempt<Outcome> {
        let (target, _) = self.code.operand(step.first)?;
        if let OperandMeaning::Slot(slot) = target
            && self.slots.is_temporary(slot)
        {
            return self.assign_temporary(at, step, slot);
        }
        let value = self.end_with_one()?;
        if let Some(slot) = self.slots.undefined(target) {
            self.slots.define(slot)?;
            return Ok(Some(BodyLine::Define(slot, value)));
        }
        Ok(Some(BodyLine::Set(self.leaf(target)?, value)))
    }

    // A temporary gets a value: a side of And or Or, or a variable that is kept while a later operand comes_to_act.
    fn assign_temporary(&mut self, at: usize, step: CodeStep, slot: usize) -> Attempt<Outcome> {
        let next = at.saturating_add(1);
        let last = self.sides.last().copied();
        if let Some(side) = last.filter(|side| side.slot == slot && side.end == next) {
            return self.end_side(at, step, side);
        }
        let mut node = self.only_input()?.node;
        self.slots.take(slot)?;
        if self.is_tested(slot, next) {
            self.give_back()?;
            self.fresh = Some(slot);
        } else {
            let kept = self.trees.node(node)?;
            let (_, is_read_next) = self.code.operand(step.first)?;
            check(kept.varies() && kept.code.is_none() && is_read_next)?;
            node = self.trees.add(kept.form, kept.kind, &[], Some((at, at)))?;
        }
        self.put_value(slot, node, false)?;
        Ok(None)
    }

    // The right side of the innermost And or Or, which is this one, ends with an assignment.
    fn end_side(&mut self, at: usize, step: CodeStep, side: Side) -> Attempt<Outcome> {
        let _ = self.sides.pop();
        self.give_back()?;
        let right = Input {
            node: self.only_input()?.node,
            ..side.left
        };
        let form = Form::Apply(side.opcode, (0, 0));
        let code = Some((side.start, at));
        let node = self.trees.add(form, BOOL, &[side.left, right], code)?;
        self.store(step.first, side.slot, node)
    }

    // Whether the instruction at a place is a jump that tests the slot.
    fn is_tested(&self, slot: usize, at: usize) -> bool {
        self.code.steps.get(at).is_some_and(|step| {
            let operand = self.code.operand(step.first);
            matches!(step.opcode, JMPF | JMPT)
                && operand.is_ok_and(|(operand, _)| operand == OperandMeaning::Slot(slot))
        })
    }

    // An instruction that gives a value to a temporary.
    fn apply(&mut self, at: usize, step: CodeStep) -> Attempt<Outcome> {
        let result = step.result.ok_or(NOT_FOUND)?;
        let (OperandMeaning::Slot(slot), _) = self.code.operand(result)? else {
            return Err(NOT_FOUND);
        };
        check(self.slots.is_temporary(slot))?;
        self.slots.take(slot)?;
        self.give_back()?;
        let (_, kind) = self.code.pair(slot)?;
        let names = match step.opcode {
            CAST | ARRAY_CREATE => (0, kind),
            _ => step.names,
        };
        let form = Form::Apply(step.opcode, names);
        let kind = self.code.script.number(kind);
        let node = self.trees.add(form, kind, &self.inputs, Some((at, at)))?;
        self.store(result, slot, node)
    }

    // A property or an element is set, which a shared input may also have computed with.
    fn set(&mut self, at: usize, step: CodeStep) -> Attempt<Outcome> {
        self.end()?;
        let value = self.inputs.pop().ok_or(NOT_FOUND)?.node;
        let set = self.code.set;
        let first = self.only_input()?.node;
        let of = self.trees.node(first)?.kind;
        let (opcode, kind) = if step.opcode == ARRAY_SETELEMENT {
            (ARRAY_GETELEMENT, set.element(of)?)
        } else {
            let name = self.code.script.number(step.names.1);
            (PROPGET, set.find_property(of, name).ok_or(NOT_FOUND)?)
        };
        let form = Form::Apply(opcode, step.names);
        let target = self.trees.add(form, kind, &self.inputs, Some((at, at)))?;
        if self.has_shared() {
            check(self.trees.change(value, target)?.is_some())?;
        }
        Ok(Some(BodyLine::Set(target, value)))
    }
}

// Whether the opcode gets a property or an element, which a later instruction may set.
fn is_get(opcode: u8) -> bool {
    matches!(opcode, PROPGET | ARRAY_GETELEMENT)
}
