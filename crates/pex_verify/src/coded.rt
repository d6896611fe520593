// The last step of loading: judged code becomes loaded code, which means the same.
ghost use Rattle.std.specs.Prelude.{◌≡◌, ◌<◌, ℕ, ◌+◌, [], IfOk, IfSome, slice_get};
ghost use Rattle.std.specs.List.{AllZip};
ghost use Rattle.loaded_code.specs.Plain as loaded;
ghost use Rattle.pex_verify.specs.Accepted.{at};
ghost use Rattle.pex_verify.specs.Coded.{CodePlace, IsCoded};
ghost use Rattle.pex_verify.specs.Coding.{AreNamed, AreCodesOf, CodesFunction, CodesInstruction, CodesOperand, CodesProperty, CodesScript, CodesState, CodesWhere, FitsPlain, outline_in};
ghost use Rattle.pex_verify.specs.JudgedCode as judged;
ghost use Rattle.pex_verify.specs.JudgedCode.{by_form, given};
ghost use Rattle.pex_verify.specs.Soundness.{IsSize, LeadsBy};
ghost use Rattle.pex_verify.specs.declared.form.Form.TheVariants as form;
ghost use Rattle.pex_verify.specs.declared.form.PlainForm.TheVariants as plain;

use crate::form::{Form, FourForm, PlainForm, ThreeForm, TwoForm, form_of};
use crate::judged::{
    JudgedFunction, JudgedInstruction, JudgedOperand, JudgedProperty, JudgedScript,
};
use core_tree::OutlineScript;
use loaded_code::{
    LoadedFunction, LoadedInstruction, LoadedProperty, LoadedScript, MethodPlace, Operand,
};
use papy_base::{Made, Name};
use pex_set::{NameNumbers, Objects};
use std::alloc::Global;
use std::marker::Model;
use std::vec::IntoIter;

/// The scripts of a set by name.
#[derive(Clone, Copy)]
pub(crate) struct ScriptNames<'a> {
    pub(crate) alloc: Global,
    pub(crate) names: &'a NameNumbers,
    pub(crate) objects: &'a Objects,
    pub(crate) outline: &'a [OutlineScript],
}

// The number of the first script of this name, one past the last where there is none.
fn script_named(scripts: &ScriptNames<'_>, name: &Name) -> Made<u16>
    requires { AreNamed scripts.now }
    ensures { IfOk result (λ script. script ≡ judged.script_named (outline_in scripts.now) name.now) }
{
    let number = scripts.names.find(scripts.alloc, name.as_bytes())?;
    let found = match number {
        Some(number) => scripts.objects.first_named(number),
        None => None,
    };
    let script = found.unwrap_or(scripts.outline.len());
    Ok(u16::try_from(script).unwrap_or(u16::MAX))
}

// ---- operands

fn coded_operand(operand: JudgedOperand) -> Operand
    ensures { CodesOperand operand result }
{
    match operand {
        JudgedOperand::NoneValue => Operand::NoneValue,
        JudgedOperand::Word(name) => {
            drop(name);
            Operand::NoneValue
        }
        JudgedOperand::Quoted(text) => Operand::Quoted(text),
        JudgedOperand::Int(number) => Operand::Int(number),
        JudgedOperand::Bool(truth) => Operand::Bool(truth),
        JudgedOperand::Slot(number) => Operand::Slot(number),
        JudgedOperand::Variable(number) => Operand::Variable(number),
        JudgedOperand::Instance => Operand::Instance,
        JudgedOperand::State => Operand::State,
    }
}

fn coded_operands(alloc: Global, operands: Vec<JudgedOperand>) -> Made<Vec<Operand>>
    ensures { IfOk result (λ coded. AllZip CodesOperand operands.items coded.items) }
{
    let mut coded = Vec::with_capacity(alloc, operands.len())?;
    for operand in operands {
        coded.push(coded_operand(operand))?;
    }
    Ok(coded)
}

// Operands that are taken one after the other.
#[derive(Drop)]
struct Operands {
    rest: IntoIter<JudgedOperand>,
}

impl Model for Operands {
    ghost use Rattle.std.specs.Prelude.{List};
    ghost use Rattle.std.specs.Vec.Iter.{into_iter_items};
    ghost use Rattle.pex_verify.specs.declared.judged.JudgedOperand.{JudgedOperand};

    ghost Value = { List JudgedOperand };

    ghost view = { λ operands. into_iter_items operands.rest };
}

impl Operands {
    fn of(operands: Vec<JudgedOperand>) -> Operands
        ensures { result ≡ operands.items }
    {
        Operands {
            rest: operands.into_iter(),
        }
    }

    // The next operand, and the value None where there is none.
    fn next(&mut self) -> JudgedOperand
        ensures taken { result ≡ at self.old 0 }
        ensures rest { (k : ℕ) → at self.new k ≡ at self.old (k + 1) }
    {
        match self.rest.next() {
            Some(operand) => operand,
            None => JudgedOperand::NoneValue,
        }
    }

    fn value(&mut self) -> Operand
        ensures taken { CodesOperand (at self.old 0) result }
        ensures rest { (k : ℕ) → at self.new k ≡ at self.old (k + 1) }
    {
        coded_operand(self.next())
    }

    fn name(&mut self, alloc: Global) -> Made<Name>
        ensures taken { IfOk result (λ name. name ≡ judged.name_of (at self.old 0)) }
        ensures rest { (k : ℕ) → at self.new k ≡ at self.old (k + 1) }
    {
        match self.next() {
            JudgedOperand::Word(name) => Ok(name),
            other => {
                drop(other);
                Name::from_bytes(alloc, &[])
            }
        }
    }

    fn number(&mut self) -> i32
        ensures taken { result ≡ judged.number_of (at self.old 0) }
        ensures rest { (k : ℕ) → at self.new k ≡ at self.old (k + 1) }
    {
        match self.next() {
            JudgedOperand::Int(number) => number,
            other => {
                drop(other);
                0
            }
        }
    }
}

// ---- instructions

fn with_two(form: TwoForm, mut operands: Operands) -> LoadedInstruction
    ensures means { loaded.instruction_of result ≡ judged.by_plain (plain.Two form) (given [] operands []) }
    ensures sound { (place : CodePlace) → IsCoded place result }
{
    let first = operands.value();
    let second = operands.value();
    two(form, first, second)
}

fn two(form: TwoForm, first: Operand, second: Operand) -> LoadedInstruction
    ensures means { loaded.instruction_of result ≡ judged.by_two form (loaded.operand_of first) (loaded.operand_of second) }
    ensures sound { (place : CodePlace) → IsCoded place result }
{
    match form {
        TwoForm::Not => LoadedInstruction::Not {
            result: first,
            value: second,
        },
        TwoForm::INeg => LoadedInstruction::INeg {
            result: first,
            value: second,
        },
        TwoForm::Assign => LoadedInstruction::Assign {
            result: first,
            value: second,
        },
        TwoForm::Cast => LoadedInstruction::Cast {
            result: first,
            value: second,
        },
        TwoForm::ArrayLength => LoadedInstruction::ArrayLength {
            result: first,
            array: second,
        },
    }
}

fn with_three(form: ThreeForm, mut operands: Operands) -> LoadedInstruction
    ensures means { loaded.instruction_of result ≡ judged.by_plain (plain.Three form) (given [] operands []) }
    ensures sound { (place : CodePlace) → IsCoded place result }
{
    let first = operands.value();
    let second = operands.value();
    let third = operands.value();
    three(form, first, second, third)
}

fn three(form: ThreeForm, first: Operand, second: Operand, third: Operand) -> LoadedInstruction
    ensures means { loaded.instruction_of result ≡ judged.by_three form (loaded.operand_of first) (loaded.operand_of second) (loaded.operand_of third) }
    ensures sound { (place : CodePlace) → IsCoded place result }
{
    match form {
        ThreeForm::IAdd => LoadedInstruction::IAdd {
            result: first,
            left: second,
            right: third,
        },
        ThreeForm::ISub => LoadedInstruction::ISub {
            result: first,
            left: second,
            right: third,
        },
        ThreeForm::IMul => LoadedInstruction::IMul {
            result: first,
            left: second,
            right: third,
        },
        ThreeForm::IDiv => LoadedInstruction::IDiv {
            result: first,
            left: second,
            right: third,
        },
        ThreeForm::IMod => LoadedInstruction::IMod {
            result: first,
            left: second,
            right: third,
        },
        ThreeForm::CmpEq => LoadedInstruction::CmpEq {
            result: first,
            left: second,
            right: third,
        },
        ThreeForm::CmpLt => LoadedInstruction::CmpLt {
            result: first,
            left: second,
            right: third,
        },
        ThreeForm::CmpLe => LoadedInstruction::CmpLe {
            result: first,
            left: second,
            right: third,
        },
        ThreeForm::CmpGt => LoadedInstruction::CmpGt {
            result: first,
            left: second,
            right: third,
        },
        ThreeForm::CmpGe => LoadedInstruction::CmpGe {
            result: first,
            left: second,
            right: third,
        },
        ThreeForm::StrCat => LoadedInstruction::StrCat {
            result: first,
            left: second,
            right: third,
        },
        ThreeForm::ArrayGetElement => LoadedInstruction::ArrayGetElement {
            result: first,
            array: second,
            index: third,
        },
        ThreeForm::ArraySetElement => LoadedInstruction::ArraySetElement {
            array: first,
            index: second,
            value: third,
        },
    }
}

fn with_four(form: FourForm, mut operands: Operands) -> LoadedInstruction
    ensures means { loaded.instruction_of result ≡ judged.by_plain (plain.Four form) (given [] operands []) }
    ensures sound { (place : CodePlace) → IsCoded place result }
{
    let array = operands.value();
    let result = operands.value();
    let value = operands.value();
    let start = operands.value();
    match form {
        FourForm::ArrayFindElement => LoadedInstruction::ArrayFindElement {
            array,
            result,
            value,
            start,
        },
        FourForm::ArrayRFindElement => LoadedInstruction::ArrayRFindElement {
            array,
            result,
            value,
            start,
        },
    }
}

fn jump(mut operands: Operands, landing: Option<u16>) -> LoadedInstruction
    ensures means { loaded.instruction_of result ≡ judged.by_plain plain.Jmp (given [] operands []) }
    ensures sound { (place : CodePlace) → LeadsBy place.place place.count (slice_get operands 0) landing → IsCoded place result }
{
    LoadedInstruction::Jmp {
        offset: operands.number(),
        landing: landing.unwrap_or(0),
    }
}

fn jump_where_true(mut operands: Operands, landing: Option<u16>) -> LoadedInstruction
    ensures means { loaded.instruction_of result ≡ judged.by_plain plain.JmpT (given [] operands []) }
    ensures sound { (place : CodePlace) → LeadsBy place.place place.count (slice_get operands 1) landing → IsCoded place result }
{
    LoadedInstruction::JmpT {
        condition: operands.value(),
        offset: operands.number(),
        landing: landing.unwrap_or(0),
    }
}

fn jump_where_false(mut operands: Operands, landing: Option<u16>) -> LoadedInstruction
    ensures means { loaded.instruction_of result ≡ judged.by_plain plain.JmpF (given [] operands []) }
    ensures sound { (place : CodePlace) → LeadsBy place.place place.count (slice_get operands 1) landing → IsCoded place result }
{
    LoadedInstruction::JmpF {
        condition: operands.value(),
        offset: operands.number(),
        landing: landing.unwrap_or(0),
    }
}

fn call_method(
    alloc: Global,
    mut operands: Operands,
    more: Vec<JudgedOperand>,
    number: Option<usize>,
) -> Made<LoadedInstruction>
    ensures means { IfOk result (λ coded. loaded.instruction_of coded ≡ by_form form.CallMethod (given [] operands more.items)) }
    ensures sound { IfOk result (λ coded. (place : CodePlace) → IsCoded place coded) }
{
    let arguments = coded_operands(alloc, more)?;
    Ok(LoadedInstruction::CallMethod {
        name: operands.name(alloc)?,
        number,
        object: operands.value(),
        result: operands.value(),
        arguments,
    })
}

fn call_parent(
    alloc: Global,
    mut operands: Operands,
    more: Vec<JudgedOperand>,
    number: Option<usize>,
) -> Made<LoadedInstruction>
    ensures means { IfOk result (λ coded. loaded.instruction_of coded ≡ by_form form.CallParent (given [] operands more.items)) }
    ensures sound { IfOk result (λ coded. (place : CodePlace) → IsCoded place coded) }
{
    let arguments = coded_operands(alloc, more)?;
    Ok(LoadedInstruction::CallParent {
        name: operands.name(alloc)?,
        number,
        result: operands.value(),
        arguments,
    })
}

fn call_static(
    scripts: &ScriptNames<'_>,
    mut operands: Operands,
    more: Vec<JudgedOperand>,
    function: Option<MethodPlace>,
) -> Made<LoadedInstruction>
    requires { AreNamed scripts.now }
    ensures means { IfOk result (λ coded. loaded.instruction_of coded ≡ by_form form.CallStatic (given (outline_in scripts.now) operands more.items)) }
    ensures sound { IfOk result (λ coded. (place : CodePlace) → IfSome function (λ f. f.script < place.scripts) → IsCoded place coded) }
{
    let arguments = coded_operands(scripts.alloc, more)?;
    let script = operands.name(scripts.alloc)?;
    let script = script_named(scripts, &script)?;
    Ok(LoadedInstruction::CallStatic {
        script,
        name: operands.name(scripts.alloc)?,
        function,
        result: operands.value(),
        arguments,
    })
}

fn give_back(mut operands: Operands) -> LoadedInstruction
    ensures means { loaded.instruction_of result ≡ judged.by_plain plain.Return (given [] operands []) }
    ensures sound { (place : CodePlace) → IsCoded place result }
{
    LoadedInstruction::Return {
        value: operands.value(),
    }
}

fn get_property(
    alloc: Global,
    mut operands: Operands,
    number: Option<usize>,
) -> Made<LoadedInstruction>
    ensures means { IfOk result (λ coded. loaded.instruction_of coded ≡ by_form form.PropGet (given [] operands [])) }
    ensures sound { IfOk result (λ coded. (place : CodePlace) → IsCoded place coded) }
{
    Ok(LoadedInstruction::PropGet {
        name: operands.name(alloc)?,
        number,
        object: operands.value(),
        result: operands.value(),
    })
}

fn set_property(
    alloc: Global,
    mut operands: Operands,
    number: Option<usize>,
) -> Made<LoadedInstruction>
    ensures means { IfOk result (λ coded. loaded.instruction_of coded ≡ by_form form.PropSet (given [] operands [])) }
    ensures sound { IfOk result (λ coded. (place : CodePlace) → IsCoded place coded) }
{
    Ok(LoadedInstruction::PropSet {
        name: operands.name(alloc)?,
        number,
        object: operands.value(),
        value: operands.value(),
    })
}

fn create_array(mut operands: Operands) -> LoadedInstruction
    ensures means { loaded.instruction_of result ≡ judged.by_plain plain.ArrayCreate (given [] operands []) }
    ensures sound { (place : CodePlace) → IsSize (at operands 1) → IsCoded place result }
{
    LoadedInstruction::ArrayCreate {
        result: operands.value(),
        size: size_of(operands.number()),
    }
}

fn size_of(number: i32) -> u8
    ensures { result ≡ judged.size_of number }
{
    u8::try_from(number.unsigned_abs()).unwrap_or(0)
}

// The instruction of a form that looks nothing up.
fn plain(form: PlainForm, operands: Operands, landing: Option<u16>) -> LoadedInstruction
    ensures means { loaded.instruction_of result ≡ judged.by_plain form (given [] operands []) }
    ensures sound { (place : CodePlace) → FitsPlain place form operands landing → IsCoded place result }
{
    match form {
        PlainForm::Nop => {
            drop(operands);
            LoadedInstruction::Nop
        }
        PlainForm::Two(form) => with_two(form, operands),
        PlainForm::Three(form) => with_three(form, operands),
        PlainForm::Four(form) => with_four(form, operands),
        PlainForm::Jmp => jump(operands, landing),
        PlainForm::JmpT => jump_where_true(operands, landing),
        PlainForm::JmpF => jump_where_false(operands, landing),
        PlainForm::Return => give_back(operands),
        PlainForm::ArrayCreate => create_array(operands),
    }
}

fn coded_instruction(
    scripts: &ScriptNames<'_>,
    instruction: JudgedInstruction,
) -> Made<LoadedInstruction>
    requires { AreNamed scripts.now }
    ensures { IfOk result (CodesInstruction (outline_in scripts.now) instruction) }
{
    let JudgedInstruction {
        opcode,
        fixed,
        more,
        jump,
        name,
        function,
    } = instruction;
    let operands = Operands::of(fixed);
    match form_of(opcode) {
        Form::Plain(form) => {
            drop(more);
            Ok(plain(form, operands, jump))
        }
        Form::CallMethod => call_method(scripts.alloc, operands, more, name),
        Form::CallParent => call_parent(scripts.alloc, operands, more, name),
        Form::CallStatic => call_static(scripts, operands, more, function),
        Form::PropGet => {
            drop(more);
            get_property(scripts.alloc, operands, name)
        }
        Form::PropSet => {
            drop(more);
            set_property(scripts.alloc, operands, name)
        }
    }
}

// ---- members

fn coded_code(
    scripts: &ScriptNames<'_>,
    code: Vec<JudgedInstruction>,
) -> Made<Vec<LoadedInstruction>>
    requires { AreNamed scripts.now }
    ensures { IfOk result (λ coded. AllZip (CodesInstruction (outline_in scripts.now)) code.items coded.items) }
{
    let mut coded = Vec::with_capacity(scripts.alloc, code.len())?;
    for instruction in code {
        coded.push(coded_instruction(scripts, instruction)?)?;
    }
    Ok(coded)
}

fn coded_function(scripts: &ScriptNames<'_>, function: JudgedFunction) -> Made<LoadedFunction>
    requires { AreNamed scripts.now }
    ensures { IfOk result (CodesFunction (outline_in scripts.now) function) }
{
    let JudgedFunction {
        name,
        result,
        is_global,
        is_native,
        parameters,
        locals,
        code,
        lines,
    } = function;
    let code = coded_code(scripts, code)?;
    Ok(LoadedFunction {
        name,
        result,
        is_global,
        is_native,
        parameters,
        locals,
        code,
        lines,
    })
}

fn coded_where(
    scripts: &ScriptNames<'_>,
    function: Option<JudgedFunction>,
) -> Made<Option<LoadedFunction>>
    requires { AreNamed scripts.now }
    ensures { IfOk result (CodesWhere (outline_in scripts.now) function) }
{
    match function {
        Some(function) => Ok(Some(coded_function(scripts, function)?)),
        None => Ok(None),
    }
}

fn coded_property(scripts: &ScriptNames<'_>, property: JudgedProperty) -> Made<LoadedProperty>
    requires { AreNamed scripts.now }
    ensures { IfOk result (CodesProperty (outline_in scripts.now) property) }
{
    let JudgedProperty {
        name,
        kind,
        bits,
        variable,
        read,
        write,
    } = property;
    let read = coded_where(scripts, read)?;
    let write = coded_where(scripts, write)?;
    Ok(LoadedProperty {
        name,
        kind,
        bits,
        variable,
        read,
        write,
    })
}

fn coded_properties(
    scripts: &ScriptNames<'_>,
    properties: Vec<JudgedProperty>,
) -> Made<Vec<LoadedProperty>>
    requires { AreNamed scripts.now }
    ensures { IfOk result (λ coded. AllZip (CodesProperty (outline_in scripts.now)) properties.items coded.items) }
{
    let mut coded = Vec::with_capacity(scripts.alloc, properties.len())?;
    for property in properties {
        coded.push(coded_property(scripts, property)?)?;
    }
    Ok(coded)
}

fn coded_functions(
    scripts: &ScriptNames<'_>,
    functions: Vec<JudgedFunction>,
) -> Made<Vec<LoadedFunction>>
    requires { AreNamed scripts.now }
    ensures { IfOk result (λ coded. AreCodesOf (outline_in scripts.now) functions.items coded.items) }
{
    let mut coded = Vec::with_capacity(scripts.alloc, functions.len())?;
    for function in functions {
        coded.push(coded_function(scripts, function)?)?;
    }
    Ok(coded)
}

// A state by its name, as it was judged.
type JudgedState = (Name, Vec<JudgedFunction>);

// The same of loaded code.
type LoadedState = (Name, Vec<LoadedFunction>);

fn coded_states(scripts: &ScriptNames<'_>, states: Vec<JudgedState>) -> Made<Vec<LoadedState>>
    requires { AreNamed scripts.now }
    ensures { IfOk result (λ coded. AllZip (CodesState (outline_in scripts.now)) states.items coded.items) }
{
    let mut coded = Vec::with_capacity(scripts.alloc, states.len())?;
    for (name, functions) in states {
        let functions = coded_functions(scripts, functions)?;
        coded.push((name, functions))?;
    }
    Ok(coded)
}

fn coded_script(scripts: &ScriptNames<'_>, script: JudgedScript) -> Made<LoadedScript>
    requires { AreNamed scripts.now }
    ensures { IfOk result (CodesScript (outline_in scripts.now) script) }
{
    let JudgedScript { properties, states } = script;
    let properties = coded_properties(scripts, properties)?;
    let states = coded_states(scripts, states)?;
    Ok(LoadedScript { properties, states })
}

/// The scripts as loaded code.
pub(crate) fn coded_scripts(
    scripts: &ScriptNames<'_>,
    judged: Vec<JudgedScript>,
) -> Made<Vec<LoadedScript>>
    requires { AreNamed scripts.now }
    ensures { IfOk result (λ coded. AllZip (CodesScript (outline_in scripts.now)) judged.items coded.items) }
{
    let mut coded = Vec::with_capacity(scripts.alloc, judged.len())?;
    for script in judged {
        coded.push(coded_script(scripts, script)?)?;
    }
    Ok(coded)
}
