// Which slots are locals of the source that may be used, and which temporaries a compiler hands out.
ghost use Rattle.std.specs.Prelude.{◌<◌, length, IfSome};

use crate::code::{FunctionCode, OperandMeaning};
use crate::compiled_scripts::NONE;
use crate::fault::{Attempt, check};
use std::collections::HashSet;

/// The slots of a function: parameters, then locals of the source, and from `first` on temporaries.
#[derive(Drop)]
pub(crate) struct Slots<'w, 'f> {
    code: &'f FunctionCode<'w>,
    first: usize,
    /// The next local to be defined.
    pub next_local: usize,
    // The locals that are defined in a block that is open.
    defined: HashSet<usize>,
    // The next temporary that wasn't handed out yet, and those that may be handed out again, each with the number of its type, in
    // this order. That of the type of no value is never in use.
    next_temporary: usize,
    free_temporaries: Vec<(usize, usize)>,
}

impl<'w, 'f> Slots<'w, 'f> {
    /// No local is defined and no temporary is handed out. The slots from `first` on are temporaries.
    pub(crate) fn new(code: &'f FunctionCode<'w>, first: usize) -> Slots<'w, 'f> {
        let alloc = code.set.alloc;
        Slots {
            code,
            first,
            next_local: code.function.parameters.len(),
            defined: HashSet::new(alloc),
            next_temporary: first,
            free_temporaries: Vec::new(alloc),
        }
    }

    /// Whether a slot is a temporary.
    pub(crate) fn is_temporary(&self, slot: usize) -> bool {
        slot >= self.first
    }

    /// Whether each local was defined and each temporary handed out.
    pub(crate) fn are_all_used(&self) -> bool {
        self.next_local == self.first && self.next_temporary == self.code.pairs.len()
    }

    /// The local that isn't defined in a block that is open, where the operand is such a local.
    pub(crate) fn undefined(&self, operand: OperandMeaning) -> Option<usize> {
        let OperandMeaning::Slot(slot) = operand else {
            return None;
        };
        let is_local = slot >= self.code.function.parameters.len() && slot < self.first;
        (is_local && !self.defined.contains(&slot)).then_some(slot)
    }

    /// Defines a local. They are defined in the order of their slots.
    pub(crate) fn define(&mut self, slot: usize) -> Attempt<()> {
        check(slot == self.next_local)?;
        self.next_local = slot.saturating_add(1);
        self.defined.insert(slot)?;
        Ok(())
    }

    /// Ends the block in which the locals from this one on were defined.
    pub(crate) fn end_block(&mut self, from: usize) {
        for slot in from..self.next_local {
            self.defined.remove(&slot);
        }
    }

    /// Hands out this temporary, where it is the one that a compiler takes for a value of its type.
    pub(crate) fn take(&mut self, slot: usize) -> Attempt<()> {
        let kind = self.code.slot_type(slot)?;
        let taken = match free_place(&self.free_temporaries, kind) {
            Some(at) => self.free_temporaries.remove(at).1,
            None => self.next_temporary,
        };
        check(taken == slot)?;
        self.next_temporary = self.next_temporary.max(slot.saturating_add(1));
        if kind == NONE {
            self.free_temporaries.push((kind, slot))?;
        }
        Ok(())
    }

    /// Takes a slot back, which is read no more, where it is a temporary.
    pub(crate) fn give_back(&mut self, slot: usize) -> Attempt<()> {
        let kind = self.code.slot_type(slot)?;
        if self.is_temporary(slot) && kind != NONE {
            self.free_temporaries.push((kind, slot))?;
        }
        Ok(())
    }
}

fn free_place(free_temporaries: &[(usize, usize)], kind: usize) -> Option<usize>
    ensures { IfSome result (λ at. at < length free_temporaries.now) }
{
    free_temporaries
        .iter()
        .position(|temporary| temporary.0 == kind)
}
