//! A body that runs: its home, what it works on, and what its operands are worth.

ghost use Rattle.std.specs.Prelude.{◌≡◌, IfOk, OnOk, map};
ghost use Rattle.core_tree.specs.Values.{default_result};
ghost use Rattle.body_runner.specs.Operands.{kind_of, state_in, state_with, worth, Keeps, KeepsLoans, Stores};
ghost use Rattle.body_runner.specs.Values.{is_true, number_in, text_in};

use crate::casts::{counts_as_true, number_of, text_in};
use crate::setting::Setting;
use crate::store::Store;
use core_tree::{CoreType, Value};
use loaded_code::{LoadedFunction, Operand};
use papy_base::{Made, Text};
use std::alloc::Global;

// As many locals as most functions have. A frame puts its locals behind its arguments, so that it finds memory once.
const USUAL_LOCALS: usize = 4;

/// The turn of a stack.
#[derive(Drop)]
pub struct Turn<'a> {
    pub alloc: Global,
    pub setting: &'a Setting,
    pub number: u32,
    pub stack: u16,
}

/// What stays while a body runs.
#[derive(Drop)]
pub struct Home<'a> {
    pub turn: &'a Turn<'a>,
    pub function: &'a LoadedFunction,
    /// The instance that the body runs on, none in a global function.
    pub instance: Option<u16>,
    /// The number of the script in which the body stands.
    pub script: u16,
    /// Whether a further frame may be pushed.
    pub has_room: bool,
}

/// What changes while a body runs.
#[derive(Drop)]
pub struct Inner<'a> {
    /// The parameters, and the locals behind them.
    pub slots: &'a mut Vec<Value>,
    pub store: &'a mut Store,
}

impl Home<'_> {
    /// The value of an operand.
    pub fn value(&self, inner: &Inner<'_>, operand: &Operand) -> Made<Value>
        ensures { IfOk result (λ value. value ≡ worth self.now inner.now operand.now) }
    {
        match operand {
            Operand::NoneValue => Ok(Value::NoneValue),
            Operand::Quoted(text) => Ok(Value::Text(text.try_clone(self.turn.alloc)?)),
            Operand::Int(number) => Ok(Value::Int(*number)),
            Operand::Bool(truth) => Ok(Value::Bool(*truth)),
            Operand::Slot(number) => match inner.slots.get(usize::from(*number)) {
                Some(value) => value.try_clone(self.turn.alloc),
                None => Ok(Value::NoneValue),
            },
            Operand::Variable(number) => match self.instance {
                Some(instance) => inner.store.variable(instance, self.script, *number),
                None => Ok(Value::NoneValue),
            },
            Operand::Instance => match self.instance {
                Some(instance) => Ok(Value::Instance(instance)),
                None => Ok(Value::NoneValue),
            },
            Operand::State => self.read_state(inner),
        }
    }

    // Where there is no instance, the text is empty.
    fn read_state(&self, inner: &Inner<'_>) -> Made<Value>
        ensures { IfOk result (λ value. value ≡ state_in inner.now.store.now.instances self.now.instance) }
    {
        let text = match self.instance {
            Some(instance) => inner.store.state_text(self.turn.alloc, instance)?,
            None => Text::try_from_bytes(self.turn.alloc, &[])?,
        };
        Ok(Value::Text(text))
    }

    /// The values of a call's arguments.
    pub fn arguments(&self, inner: &Inner<'_>, operands: &[Operand]) -> Made<Vec<Value>>
        ensures { IfOk result (λ values. values.items ≡ map (worth self.now inner.now) operands.now) }
    {
        let room = operands.len().saturating_add(USUAL_LOCALS);
        let mut values = Vec::with_capacity(self.turn.alloc, room)?;
        for operand in operands {
            values.push(self.value(inner, operand)?)?;
        }
        Ok(values)
    }

    /// The number that an operand is worth.
    pub fn number(&self, inner: &Inner<'_>, operand: &Operand) -> Made<i32>
        ensures { IfOk result (λ number. number ≡ number_in (worth self.now inner.now operand.now)) }
    {
        match operand {
            Operand::Int(number) => Ok(*number),
            Operand::Slot(number) => match inner.slots.get(usize::from(*number)) {
                Some(value) => Ok(number_of(value)),
                None => Ok(0),
            },
            other => Ok(number_of(&self.value(inner, other)?)),
        }
    }

    /// The text that an operand is worth, the empty one where it is no text.
    pub fn text(&self, inner: &Inner<'_>, operand: &Operand) -> Made<Text>
        ensures { IfOk result (λ text. text ≡ text_in (worth self.now inner.now operand.now)) }
    {
        text_in(self.turn.alloc, self.value(inner, operand)?)
    }

    /// Whether what an operand is worth counts as true.
    pub fn truth(&self, inner: &Inner<'_>, operand: &Operand) -> Made<bool>
        ensures { IfOk result (λ truth. truth ≡ is_true (worth self.now inner.now operand.now)) }
    {
        match operand {
            Operand::Slot(number) => match inner.slots.get(usize::from(*number)) {
                Some(value) => Ok(counts_as_true(value)),
                None => Ok(false),
            },
            other => Ok(counts_as_true(&self.value(inner, other)?)),
        }
    }

    /// The type of what an operand takes, none where it drops it.
    #[inline(always)]
    pub fn type_of(&self, operand: &Operand) -> Option<CoreType>
        ensures { result ≡ kind_of self.now operand.now }
    {
        self.turn
            .setting
            .type_of(self.script, self.function, operand)
    }

    /// Stores a value in an operand. A local of the type None drops it.
    pub fn write(&self, inner: &mut Inner<'_>, operand: &Operand, value: Value) -> Made<()>
        ensures { OnOk result (Stores self.now inner.old inner.new operand.now value) }
    {
        match self.type_of(operand) {
            Some(_) => self.keep(inner, operand, value),
            None => {
                drop(value);
                Ok(())
            }
        }
    }

    #[inline(always)]
    fn keep(&self, inner: &mut Inner<'_>, operand: &Operand, value: Value) -> Made<()>
        ensures { OnOk result (Keeps self.now inner.old inner.new operand.now value) }
    {
        match operand {
            Operand::Slot(number) => {
                if let Some(slot) = inner.slots.get_mut(usize::from(*number)) {
                    *slot = value;
                }
                Ok(())
            }
            Operand::Variable(number) => {
                if let Some(instance) = self.instance {
                    inner
                        .store
                        .set_variable(instance, self.script, *number, value);
                }
                Ok(())
            }
            Operand::State => self.write_state(inner, value),
            _ => {
                drop(value);
                Ok(())
            }
        }
    }

    fn write_state(&self, inner: &mut Inner<'_>, value: Value) -> Made<()>
        ensures slots { inner.new.slots.now.items ≡ inner.old.slots.now.items }
        ensures instances { OnOk result (inner.new.store.now.instances ≡ state_with inner.old.store.now.instances self.now.instance value) }
        ensures arrays { inner.new.store.now.arrays ≡ inner.old.store.now.arrays }
        ensures loans { KeepsLoans inner.old inner.new }
    {
        let Some(instance) = self.instance else {
            drop(value);
            return Ok(());
        };
        let (alloc, setting) = (self.turn.alloc, self.turn.setting);
        let state = text_in(alloc, value)?;
        inner
            .store
            .set_state(alloc, &setting.loaded, instance, state)
    }

    /// Stores the default of an operand's type in it.
    pub fn write_default(&self, inner: &mut Inner<'_>, operand: &Operand) -> Made<()>
        ensures { OnOk result (Stores self.now inner.old inner.new operand.now (default_result (kind_of self.now operand.now))) }
    {
        let value = Value::default_of(self.turn.alloc, self.type_of(operand))?;
        self.write(inner, operand, value)
    }
}
