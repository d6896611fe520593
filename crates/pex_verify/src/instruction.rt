// One instruction, with its operands resolved.
ghost use Rattle.std.specs.Prelude.{◌≡◌, vec_len, IfOk, ◌<◌, ◌≤◌, ◌+ℤ◌, ℕ, pos, length, IfSome, Some, option_copied};
ghost use Rattle.pex_verify.specs.Found.{AreTold, IsTold, Allows};
ghost use Rattle.pex_verify.specs.Uses.{use_at as use_in, action_of as action_by};
ghost use Rattle.pex_verify.specs.Soundness.{IsResolved, AreResolved, IsSoundInstruction, HasSize, Leads, LeadsBy};
ghost use Rattle.pex_values.specs.declared.values.Datum.TheVariants.{Word};
ghost use Rattle.pex_verify.specs.Accepted.{HasInstance, OperandsFit};
ghost use Rattle.pex_verify.specs.Judged.{IsTypedIn};
ghost use Rattle.pex_verify.specs.Places.{bounds_of, IsFoundAmong};
ghost use Rattle.pex_verify.specs.declared.action.Use.TheVariants.{Read};

use crate::action::{Action, Use, action_of, uses_of};
use crate::fault::{Judged, VerifyRule, check, refused};
use crate::judged::{JudgedInstruction, JudgedOperand};
use crate::members::method_place;
use crate::operand_rules::{Lookup, look_up, name_at, operands_fit};
use crate::scope::FunctionScope;
use loaded_code::MethodPlace;
use papy_base::{TEXT_LIMIT, Text};
use pex_values::{Datum, Instruction};

// The operands that are used so. Those behind the last use are read.
fn resolve_all(
    scope: &FunctionScope<'_>,
    uses: &[Use],
    data: &[Datum],
) -> Judged<Vec<JudgedOperand>>
    ensures resolved { IfOk result (λ operands. AreResolved (vec_len scope.now.slots.now.list) (vec_len scope.now.home.now.variables.now.list) uses.now operands.items) }
    ensures told { IfOk result (λ operands. AreTold scope.now uses.now «data».now operands.items) }
{
    let mut operands = Vec::with_capacity(scope.home.alloc, data.len())?;
    for (place, datum) in data.iter().enumerate() {
        operands.push_reserved(resolve(scope, use_at(uses, place), *datum)?);
    }
    Ok(operands)
}

fn use_at(uses: &[Use], place: usize) -> Use
    ensures { result ≡ use_in uses.now place }
{
    uses.get(place).copied().unwrap_or(Use::Read)
}

fn resolve(scope: &FunctionScope<'_>, purpose: Use, datum: Datum) -> Judged<JudgedOperand>
    ensures resolved { IfOk result (IsResolved (vec_len scope.now.slots.now.list) (vec_len scope.now.home.now.variables.now.list) purpose) }
    ensures told { IfOk result (IsTold scope.now purpose datum) }
{
    match datum {
        Datum::NoneValue => Ok(JudgedOperand::NoneValue),
        Datum::Word(reference) => resolve_word(scope, purpose, reference),
        Datum::Quoted(reference) => {
            let text = scope.source.text(reference);
            Ok(JudgedOperand::Quoted(Text::try_from_bytes(scope.home.alloc, text)?))
        }
        Datum::Int(number) => Ok(JudgedOperand::Int(number)),
        Datum::Float(_) => Err(refused(VerifyRule::FloatValue)),
        Datum::Bool(byte) => Ok(JudgedOperand::Bool(byte != 0)),
    }
}

fn resolve_word(scope: &FunctionScope<'_>, purpose: Use, reference: u16) -> Judged<JudgedOperand>
    ensures resolved { IfOk result (IsResolved (vec_len scope.now.slots.now.list) (vec_len scope.now.home.now.variables.now.list) purpose) }
    ensures told { IfOk result (IsTold scope.now purpose (Word reference)) }
{
    match purpose {
        Use::Read | Use::Write => {
            let meaning = scope.meaning(scope.source.names.number(reference));
            meaning.ok_or(refused(VerifyRule::UnknownVariable))
        }
        Use::Name | Use::Number => {
            Ok(JudgedOperand::Word(scope.source.title(scope.home.alloc, reference)?))
        }
    }
}

// Whether one of these values is a float.
fn has_float(values: &[Datum]) -> bool {
    values.iter().any(|datum| matches!(datum, Datum::Float(_)))
}

// Whether one of these operands is a text of over 1,024 bytes.
fn has_long_text(operands: &[JudgedOperand]) -> bool {
    operands.iter().any(|operand| is_long_text(operand))
}

fn is_long_text(operand: &JudgedOperand) -> bool {
    matches!(operand, JudgedOperand::Quoted(text) if text.as_bytes().len() > TEXT_LIMIT)
}

/// The instruction at this place of so many with its operands resolved, or the lowest rule that it breaks.
pub(crate) fn load_instruction(
    scope: &FunctionScope<'_>,
    place: usize,
    count: usize,
    instruction: &Instruction,
) -> Judged<JudgedInstruction>
    ensures sound { IfOk result (IsSoundInstruction (bounds_of scope.now.home.now) (vec_len scope.now.slots.now.list) count place) }
    ensures typed { IfOk result (IsTypedIn scope.now) }
{
    let action = judged_action(instruction)?;
    let data = instruction.fixed.as_slice();
    let fixed = resolve_all(scope, uses_of(action), data)?;
    let more = resolve_all(scope, &[], instruction.more.as_slice())?;
    let found = look_up(scope, action, data, fixed.as_slice());
    if let Some(rule) = broken_rule(scope, action, fixed.as_slice(), more.as_slice(), found) {
        return Err(refused(rule));
    }
    let jump = jump_of(action, fixed.as_slice(), place, count)?;
    let has_long = has_long_text(fixed.as_slice()) || has_long_text(more.as_slice());
    check(!has_long, VerifyRule::TextTooLong)?;
    Ok(JudgedInstruction {
        opcode: instruction.opcode,
        fixed,
        more,
        jump,
        name: looked_up_name(scope, action, data),
        function: static_function(action, found),
    })
}

// What the instruction does, where neither that nor an operand has to do with floats.
fn judged_action(instruction: &Instruction) -> Judged<Action>
    ensures { IfOk result (λ action. action_by instruction.now.opcode ≡ Some action) }
{
    let Some(action) = action_of(instruction.opcode) else {
        return Err(refused(VerifyRule::OperandType));
    };
    check(action != Action::Float, VerifyRule::FloatOpcode)?;
    check(
        !has_float(instruction.fixed.as_slice()),
        VerifyRule::FloatValue,
    )?;
    check(
        !has_float(instruction.more.as_slice()),
        VerifyRule::FloatValue,
    )?;
    Ok(action)
}

// The lowest rule of V6, V7, V9 and V10 that the operands break, where this was looked up by them.
fn broken_rule(
    scope: &FunctionScope<'_>,
    action: Action,
    fixed: &[JudgedOperand],
    more: &[JudgedOperand],
    found: Lookup<'_>,
) -> Option<VerifyRule>
    ensures instance { result ≡ None → HasInstance scope.now action }
    ensures fit { result ≡ None → OperandsFit scope.now action fixed.now more.now found.entry }
    ensures size { result ≡ None → HasSize (Some action) fixed.now }
    ensures allowed { result ≡ None → Allows action (length more.now) found.entry }
{
    // A call of a parent's method uses the instance, and a global function has none.
    if action == Action::CallParent && scope.is_global {
        return Some(VerifyRule::UnknownVariable);
    }
    if !operands_fit(scope, action, fixed, more, found) {
        return Some(VerifyRule::OperandType);
    }
    found.broken_rule(action, more.len())
}

// Where a jump leads. Its offset counts from its own place.
fn jump_of(
    action: Action,
    fixed: &[JudgedOperand],
    place: usize,
    count: usize,
) -> Judged<Option<u16>>
    ensures { IfOk result (Leads (Some action) place count fixed.now) }
{
    match action {
        Action::Jump => jump_by(place, fixed.get(0), count),
        Action::JumpIf => jump_by(place, fixed.get(1), count),
        _ => Ok(None),
    }
}

fn jump_by(place: usize, offset: Option<&JudgedOperand>, count: usize) -> Judged<Option<u16>>
    ensures { IfOk result (LeadsBy place count (option_copied offset.entry)) }
{
    let Some(JudgedOperand::Int(offset)) = offset else {
        return Err(refused(VerifyRule::OperandType));
    };
    match landing(place, *offset, count) {
        Some(landing) => Ok(Some(landing)),
        None => Err(refused(VerifyRule::JumpRange)),
    }
}

// The place that is so far from another one, where it is one of so many or the one behind them.
fn landing(place: usize, offset: i32, count: usize) -> Option<u16>
    ensures { IfSome result (λ landing. (pos landing ≡ pos place +ℤ offset) × (landing ≤ count)) }
{
    let landing = place as i128 + i128::from(offset);
    if landing < 0 || landing > count as i128 {
        return None;
    }
    u16::try_from(landing).ok()
}

// The number of the name that the machine looks up each time.
fn looked_up_name(scope: &FunctionScope<'_>, action: Action, data: &[Datum]) -> Option<usize> {
    match action {
        Action::CallMethod | Action::CallParent | Action::GetProperty | Action::SetProperty =>
            name_at(scope, data, 0),
        _ => None,
    }
}

fn static_function(action: Action, found: Lookup<'_>) -> Option<MethodPlace>
    ensures { (count : ℕ) → IsFoundAmong count found.entry → IfSome result (λ f. f.script < count) }
{
    match found {
        Lookup::Function(callee) if action == Action::CallStatic => method_place(callee.place),
        _ => None,
    }
}
