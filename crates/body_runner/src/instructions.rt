//! Instructions on values and jumps: what each of them does to the body that runs.

ghost use Rattle.std.specs.Prelude.{◌≡◌, ◌<◌, ◌≤◌, ◌≢◌, ◌+ℤ◌, ◌-ℤ◌, ◌*ℤ◌, IfOk, IfSome, IsTrue, OnOk, int_lt, int_rem, neg_ℤ, not, pos};
ghost use Rattle.std.specs.Int.{int_wrap, w32};
ghost use Rattle.std.specs.Option.{option_and_then};
ghost use Rattle.std.specs.Result.{result_err};
ghost use Rattle.core_tree.specs.declared.value.Value.TheVariants as values;
ghost use Rattle.core_tree.specs.Values.{element_kind, is_array_type};
ghost use Rattle.instance_store.specs.Arrays.{arrays_with, found, length_of, read, write_answer};
ghost use Rattle.instance_store.specs.Values.{equals};
ghost use Rattle.body_runner.specs.Arithmetic.{joined, quotient, remainder};
ghost use Rattle.body_runner.specs.Instructions.{number_of, Adds, Creates, StoresNumber, StoresQuotient, StoresText, StoresValue};
ghost use Rattle.body_runner.specs.Operands.{kind_of, worth, KeepsLoans, Stores};
ghost use Rattle.body_runner.specs.Sights.{IsThere};
ghost use Rattle.body_runner.specs.Steps.{answered_of, done_of, jump_step, same_truth, IsSized, Steps};
ghost use Rattle.body_runner.specs.Values.{array_in, is_true, text_in};

use crate::body::{Home, Inner};
use core_tree::{CoreType, Value};
use instance_store::{StoreFault, equals};
use loaded_code::{LoadedInstruction, Operand};
use papy_base::{JoinFault, Made, OutOfMemory, StackFault, Text, add, div, mul, neg, rem, sub};

/// What an instruction did.
#[derive(Clone, Copy)]
pub enum Step {
    /// It is done, and the next one follows.
    Done,
    /// It is done with a fault, and the next one follows.
    Faulted(StackFault),
    /// A jump leads to this place.
    Jump(u16),
    /// It did nothing yet, since it calls or returns.
    Leaves,
}

// The fault with which an instruction is done, if any.
type Answer = Made<Option<StackFault>>;

impl Home<'_> {
    /// Runs an instruction, but for one that calls or returns. An array is made of 1 to 128 elements.
    pub fn step(&self, inner: &mut Inner<'_>, instruction: &LoadedInstruction) -> Made<Step>
        ensures { IsThere self.now.instance inner.old.store.now.instances → IsSized instruction.now → IfOk result (λ step. Steps self.now instruction.now step inner.old inner.new) }
    {
        match instruction {
            LoadedInstruction::Nop => Ok(Step::Done),
            LoadedInstruction::IAdd {
                result,
                left,
                right,
            } => done(self.iadd(inner, result, left, right)),
            LoadedInstruction::ISub {
                result,
                left,
                right,
            } => done(self.isub(inner, result, left, right)),
            LoadedInstruction::IMul {
                result,
                left,
                right,
            } => done(self.imul(inner, result, left, right)),
            LoadedInstruction::IDiv {
                result,
                left,
                right,
            } => answered(self.idiv(inner, result, left, right)),
            LoadedInstruction::IMod {
                result,
                left,
                right,
            } => answered(self.imod(inner, result, left, right)),
            LoadedInstruction::Not { result, value } => done(self.invert(inner, result, value)),
            LoadedInstruction::INeg { result, value } => done(self.ineg(inner, result, value)),
            LoadedInstruction::Assign { result, value } => done(self.assign(inner, result, value)),
            LoadedInstruction::Cast { result, value } => done(self.cast(inner, result, value)),
            LoadedInstruction::CmpEq {
                result,
                left,
                right,
            } => done(self.cmp_eq(inner, result, left, right)),
            LoadedInstruction::CmpLt {
                result,
                left,
                right,
            } => done(self.cmp_lt(inner, result, left, right)),
            LoadedInstruction::CmpLe {
                result,
                left,
                right,
            } => done(self.cmp_le(inner, result, left, right)),
            LoadedInstruction::CmpGt {
                result,
                left,
                right,
            } => done(self.cmp_gt(inner, result, left, right)),
            LoadedInstruction::CmpGe {
                result,
                left,
                right,
            } => done(self.cmp_ge(inner, result, left, right)),
            LoadedInstruction::Jmp { landing, .. } => Ok(Step::Jump(*landing)),
            LoadedInstruction::JmpT {
                condition,
                landing,
                ..
            } => self.jump_if(inner, condition, true, *landing),
            LoadedInstruction::JmpF {
                condition,
                landing,
                ..
            } => self.jump_if(inner, condition, false, *landing),
            LoadedInstruction::CallMethod { .. } => Ok(Step::Leaves),
            LoadedInstruction::CallParent { .. } => Ok(Step::Leaves),
            LoadedInstruction::CallStatic { .. } => Ok(Step::Leaves),
            LoadedInstruction::Return { .. } => Ok(Step::Leaves),
            LoadedInstruction::StrCat {
                result,
                left,
                right,
            } => answered(self.strcat(inner, result, left, right)),
            LoadedInstruction::PropGet { .. } => Ok(Step::Leaves),
            LoadedInstruction::PropSet { .. } => Ok(Step::Leaves),
            LoadedInstruction::ArrayCreate { result, size } => {
                answered(self.create_array(inner, result, *size))
            }
            LoadedInstruction::ArrayLength { result, array } => {
                answered(self.array_length(inner, result, array))
            }
            LoadedInstruction::ArrayGetElement {
                result,
                array,
                index,
            } => answered(self.get_element(inner, result, array, index)),
            LoadedInstruction::ArraySetElement {
                array,
                index,
                value,
            } => answered(self.set_element(inner, array, index, value)),
            LoadedInstruction::ArrayFindElement {
                array,
                result,
                value,
                start,
            } => answered(self.find_element(inner, array, result, value, start, false)),
            LoadedInstruction::ArrayRFindElement {
                array,
                result,
                value,
                start,
            } => answered(self.find_element(inner, array, result, value, start, true)),
        }
    }

    // assign
    fn assign(&self, inner: &mut Inner<'_>, to: &Operand, value: &Operand) -> Made<()>
        ensures { OnOk result (Stores self.now inner.old inner.new to.now (worth self.now inner.old value.now)) }
    {
        let value = self.value(inner, value)?;
        self.write(inner, to, value)
    }

    // jmpt, jmpf: the condition counts as what the instruction wants.
    fn jump_if(
        &self,
        inner: &Inner<'_>,
        condition: &Operand,
        wanted: bool,
        landing: u16,
    ) -> Made<Step>
        ensures { IfOk result (λ step. step ≡ jump_step (same_truth wanted (is_true (worth self.now inner.now condition.now))) landing) }
    {
        if self.truth(inner, condition)? == wanted {
            return Ok(Step::Jump(landing));
        }
        Ok(Step::Done)
    }

    // ---- numbers, truth values and texts

    // iadd
    fn iadd(&self, inner: &mut Inner<'_>, to: &Operand, left: &Operand, right: &Operand) -> Made<()>
        ensures { OnOk result (Stores self.now inner.old inner.new to.now (values.Int (int_wrap w32 (number_of self.now inner.old left.now +ℤ number_of self.now inner.old right.now)))) }
    {
        let left = self.number(inner, left)?;
        let right = self.number(inner, right)?;
        self.write(inner, to, Value::Int(add(left, right)))
    }

    // isub
    fn isub(&self, inner: &mut Inner<'_>, to: &Operand, left: &Operand, right: &Operand) -> Made<()>
        ensures { OnOk result (Stores self.now inner.old inner.new to.now (values.Int (int_wrap w32 (number_of self.now inner.old left.now -ℤ number_of self.now inner.old right.now)))) }
    {
        let left = self.number(inner, left)?;
        let right = self.number(inner, right)?;
        self.write(inner, to, Value::Int(sub(left, right)))
    }

    // imul
    fn imul(&self, inner: &mut Inner<'_>, to: &Operand, left: &Operand, right: &Operand) -> Made<()>
        ensures { OnOk result (Stores self.now inner.old inner.new to.now (values.Int (int_wrap w32 (number_of self.now inner.old left.now *ℤ number_of self.now inner.old right.now)))) }
    {
        let left = self.number(inner, left)?;
        let right = self.number(inner, right)?;
        self.write(inner, to, Value::Int(mul(left, right)))
    }

    // idiv
    fn idiv(&self, inner: &mut Inner<'_>, to: &Operand, left: &Operand, right: &Operand) -> Answer
        ensures { IfOk result (StoresQuotient self.now inner.old inner.new to.now (quotient (number_of self.now inner.old left.now) (number_of self.now inner.old right.now))) }
    {
        let left = self.number(inner, left)?;
        let right = self.number(inner, right)?;
        if right == 0 {
            return self.answer(inner, to, Value::Int(0), Some(StackFault::DivideZero));
        }
        self.answer(inner, to, Value::Int(div(left, right)), None)
    }

    // imod
    fn imod(&self, inner: &mut Inner<'_>, to: &Operand, left: &Operand, right: &Operand) -> Answer
        ensures { IfOk result (StoresQuotient self.now inner.old inner.new to.now (remainder (number_of self.now inner.old left.now) (number_of self.now inner.old right.now))) }
    {
        let dividend = self.number(inner, left)?;
        let divisor = self.number(inner, right)?;
        if divisor == 0 {
            return self.answer(inner, to, Value::Int(0), Some(StackFault::DivideZero));
        }
        self.answer(inner, to, Value::Int(remainder(dividend, divisor)), None)
    }

    // not
    fn invert(&self, inner: &mut Inner<'_>, to: &Operand, value: &Operand) -> Made<()>
        ensures { OnOk result (Stores self.now inner.old inner.new to.now (values.Bool (not (is_true (worth self.now inner.old value.now))))) }
    {
        let truth = self.truth(inner, value)?;
        self.write(inner, to, Value::Bool(!truth))
    }

    // ineg
    fn ineg(&self, inner: &mut Inner<'_>, to: &Operand, value: &Operand) -> Made<()>
        ensures { OnOk result (Stores self.now inner.old inner.new to.now (values.Int (int_wrap w32 (neg_ℤ (number_of self.now inner.old value.now))))) }
    {
        let number = self.number(inner, value)?;
        self.write(inner, to, Value::Int(neg(number)))
    }

    // cmp_eq
    fn cmp_eq(
        &self,
        inner: &mut Inner<'_>,
        to: &Operand,
        left: &Operand,
        right: &Operand,
    ) -> Made<()>
        ensures { OnOk result (Stores self.now inner.old inner.new to.now (values.Bool (equals (worth self.now inner.old left.now) (worth self.now inner.old right.now)))) }
    {
        let left = self.value(inner, left)?;
        let right = self.value(inner, right)?;
        let truth = equals(&left, &right);
        drop(left);
        drop(right);
        self.write(inner, to, Value::Bool(truth))
    }

    // cmp_lt
    fn cmp_lt(
        &self,
        inner: &mut Inner<'_>,
        to: &Operand,
        left: &Operand,
        right: &Operand,
    ) -> Made<()>
        ensures { OnOk result (Stores self.now inner.old inner.new to.now (values.Bool (int_lt (number_of self.now inner.old left.now) (number_of self.now inner.old right.now)))) }
    {
        let left = self.number(inner, left)?;
        let right = self.number(inner, right)?;
        self.write(inner, to, Value::Bool(left < right))
    }

    // cmp_le
    fn cmp_le(
        &self,
        inner: &mut Inner<'_>,
        to: &Operand,
        left: &Operand,
        right: &Operand,
    ) -> Made<()>
        ensures { OnOk result (Stores self.now inner.old inner.new to.now (values.Bool (not (int_lt (number_of self.now inner.old right.now) (number_of self.now inner.old left.now))))) }
    {
        let left = self.number(inner, left)?;
        let right = self.number(inner, right)?;
        self.write(inner, to, Value::Bool(left <= right))
    }

    // cmp_gt
    fn cmp_gt(
        &self,
        inner: &mut Inner<'_>,
        to: &Operand,
        left: &Operand,
        right: &Operand,
    ) -> Made<()>
        ensures { OnOk result (Stores self.now inner.old inner.new to.now (values.Bool (int_lt (number_of self.now inner.old right.now) (number_of self.now inner.old left.now)))) }
    {
        let left = self.number(inner, left)?;
        let right = self.number(inner, right)?;
        self.write(inner, to, Value::Bool(left > right))
    }

    // cmp_ge
    fn cmp_ge(
        &self,
        inner: &mut Inner<'_>,
        to: &Operand,
        left: &Operand,
        right: &Operand,
    ) -> Made<()>
        ensures { OnOk result (Stores self.now inner.old inner.new to.now (values.Bool (not (int_lt (number_of self.now inner.old left.now) (number_of self.now inner.old right.now))))) }
    {
        let left = self.number(inner, left)?;
        let right = self.number(inner, right)?;
        self.write(inner, to, Value::Bool(left >= right))
    }

    // strcat
    fn strcat(&self, inner: &mut Inner<'_>, to: &Operand, left: &Operand, right: &Operand) -> Answer
        ensures { IfOk result (StoresText self.now inner.old inner.new to.now (joined (text_in (worth self.now inner.old left.now)) (text_in (worth self.now inner.old right.now)))) }
    {
        let left = self.text(inner, left)?;
        let right = self.text(inner, right)?;
        match left.try_join(self.turn.alloc, &right) {
            Ok(text) => self.answer(inner, to, Value::Text(text), None),
            Err(JoinFault::TooLong) => {
                let empty = Text::try_from_bytes(self.turn.alloc, &[])?;
                let fault = Some(StackFault::TextTooLong);
                self.answer(inner, to, Value::Text(empty), fault)
            }
            Err(JoinFault::OutOfMemory) => Err(OutOfMemory),
        }
    }

    // ---- arrays

    // array_create: the size stands in the code.
    fn create_array(&self, inner: &mut Inner<'_>, to: &Operand, size: u8) -> Answer
        ensures { (1 ≤ size) × (size ≤ 128) → IfOk result (Creates self.now inner.old inner.new to.now (option_and_then element_kind (kind_of self.now to.now)) size) }
    {
        let Some(kind) = element_type(self.type_of(to)) else {
            return Ok(None);
        };
        let (value, fault) = make_array(inner, kind, size_of_array(size))?;
        self.answer(inner, to, value, fault)
    }

    // array_length
    fn array_length(&self, inner: &mut Inner<'_>, to: &Operand, array: &Operand) -> Answer
        ensures { let arrays = inner.old.store.now.arrays in IfOk result (StoresNumber self.now inner.old inner.new to.now (length_of arrays (array_in (worth self.now inner.old array.now)))) }
    {
        let value = self.value(inner, array)?;
        let answer = inner.store.length(&value);
        drop(value);
        self.write_number(inner, to, answer)
    }

    // array_getelement
    fn get_element(
        &self,
        inner: &mut Inner<'_>,
        to: &Operand,
        array: &Operand,
        index: &Operand,
    ) -> Answer
        ensures { let arrays = inner.old.store.now.arrays in IfOk result (StoresValue self.now inner.old inner.new to.now (read arrays (array_in (worth self.now inner.old array.now)) (number_of self.now inner.old index.now))) }
    {
        let value = self.value(inner, array)?;
        let at = self.number(inner, index)?;
        match inner.store.element(&value, at) {
            Ok(value) => self.answer(inner, to, value, None),
            Err(StoreFault::Fault(fault)) => {
                self.write_default(inner, to)?;
                Ok(Some(fault))
            }
            Err(StoreFault::OutOfMemory) => Err(OutOfMemory),
        }
    }

    // array_setelement
    fn set_element(
        &self,
        inner: &mut Inner<'_>,
        array: &Operand,
        index: &Operand,
        value: &Operand,
    ) -> Answer
        ensures arrays { let arrays = inner.old.store.now.arrays in OnOk result (inner.new.store.now.arrays ≡ arrays_with arrays (array_in (worth self.now inner.old array.now)) (number_of self.now inner.old index.now) (worth self.now inner.old value.now)) }
        ensures fault { let arrays = inner.old.store.now.arrays in IfOk result (λ fault. fault ≡ result_err (write_answer arrays (array_in (worth self.now inner.old array.now)) (number_of self.now inner.old index.now))) }
        ensures instances { inner.new.store.now.instances ≡ inner.old.store.now.instances }
        ensures slots { inner.new.slots.now.items ≡ inner.old.slots.now.items }
        ensures loans { KeepsLoans inner.old inner.new }
    {
        let target = self.value(inner, array)?;
        let at = self.number(inner, index)?;
        let value = self.value(inner, value)?;
        Ok(inner.store.set_element(&target, at, value).err())
    }

    // array_findelement, array_rfindelement
    fn find_element(
        &self,
        inner: &mut Inner<'_>,
        array: &Operand,
        to: &Operand,
        value: &Operand,
        start: &Operand,
        back: bool,
    ) -> Answer
        ensures { let arrays = inner.old.store.now.arrays in IfOk result (StoresNumber self.now inner.old inner.new to.now (found arrays (array_in (worth self.now inner.old array.now)) (worth self.now inner.old value.now) (number_of self.now inner.old start.now) back)) }
    {
        let target = self.value(inner, array)?;
        let value = self.value(inner, value)?;
        let start = self.number(inner, start)?;
        let answer = inner.store.find(&target, &value, start, back);
        self.write_number(inner, to, answer)
    }

    // Stores a value in an operand, and gives the fault beside it.
    fn answer(
        &self,
        inner: &mut Inner<'_>,
        to: &Operand,
        value: Value,
        fault: Option<StackFault>,
    ) -> Answer
        ensures stored { OnOk result (Stores self.now inner.old inner.new to.now value) }
        ensures fault { IfOk result (λ answer. answer ≡ fault) }
    {
        self.write(inner, to, value)?;
        Ok(fault)
    }

    // Stores the number, or 0 after a fault.
    fn write_number(
        &self,
        inner: &mut Inner<'_>,
        to: &Operand,
        answer: Result<i32, StackFault>,
    ) -> Answer
        ensures { IfOk result (StoresNumber self.now inner.old inner.new to.now answer) }
    {
        match answer {
            Ok(number) => self.answer(inner, to, Value::Int(number), None),
            Err(fault) => self.answer(inner, to, Value::Int(0), Some(fault)),
        }
    }
}

// Adds an array, and gives it, or None with a fault.
fn make_array(inner: &mut Inner<'_>, kind: CoreType, size: u8) -> Made<(Value, Option<StackFault>)>
    requires no_array_type { IsTrue (not (is_array_type kind)) }
    requires some { 1 ≤ size }
    requires at_most { size ≤ 128 }
    ensures { IfOk result (λ made. Adds inner.old inner.new kind size made) }
{
    inner.store.make_array(kind, size)
}

#[inline(always)]
fn done(stored: Made<()>) -> Made<Step>
    ensures { result ≡ done_of stored }
{
    match stored {
        Ok(()) => Ok(Step::Done),
        Err(error) => Err(error),
    }
}

#[inline(always)]
fn answered(answer: Answer) -> Made<Step>
    ensures { result ≡ answered_of answer }
{
    match answer {
        Ok(Some(fault)) => Ok(Step::Faulted(fault)),
        Ok(None) => Ok(Step::Done),
        Err(error) => Err(error),
    }
}

// A remainder never wraps.
#[inline(always)]
fn remainder(left: i32, right: i32) -> i32
    requires { right ≢ pos 0 }
    ensures { result ≡ int_wrap w32 (int_rem left right) }
{
    rem(left, right)
}

/// The type of the elements of an array type.
pub fn element_type(kind: Option<CoreType>) -> Option<CoreType>
    ensures element { result ≡ option_and_then element_kind kind }
    ensures no_array { IfSome result (λ element. IsTrue (not (is_array_type element))) }
{
    kind?.element()
}

// The size of an array, from 1 to 128.
fn size_of_array(size: u8) -> u8
    ensures same { (1 ≤ size) × (size ≤ 128) → result ≡ size }
    ensures some { 1 ≤ result }
    ensures at_most { result ≤ 128 }
{
    match size {
        1..=128 => size,
        _ => 1,
    }
}
