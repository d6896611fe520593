// What calls and uses of properties look up, and what instructions ask of their operands.
ghost use Rattle.std.specs.Prelude.{◌≡◌, None, length, vec_len, IsTrue, option_copied};
ghost use Rattle.pex_verify.specs.Accepted.{found_type};
ghost use Rattle.pex_verify.specs.Found as sought;
ghost use Rattle.pex_verify.specs.Places.{IsFoundAmong};
ghost use Rattle.pex_verify.specs.Judgement.{IsFor, Takes, type_by};
ghost use Rattle.pex_verify.specs.Meanings.{element_type};
ghost use Rattle.pex_verify.specs.Accepted as accepted;
ghost use Rattle.pex_verify.specs.Soundness.{IsSize};

use crate::action::Action;
use crate::fault::VerifyRule;
use crate::judged::JudgedOperand;
use crate::scope::FunctionScope;
use crate::scripts::{CalledFunction, PropertySignature, SetHeads, Signature};
use crate::value_type::{BOOL, INT, ValueType};
use core_tree::CoreType;
use pex_values::Datum;

/// The bits of a property that can be read, and of one that can be written.
const READABLE: u8 = 1;

const WRITABLE: u8 = 2;

/// What an instruction looks up by name.
#[derive(Clone, Copy)]
pub(crate) enum Lookup<'a> {
    /// It looks nothing up.
    Unsought,
    /// There is nothing of that name where it looks.
    Missing,
    Function(CalledFunction<'a>),
    Property(PropertySignature),
}

impl Lookup<'_> {
    /// The type of the result or of the property, where one was found.
    pub(crate) fn type_in(self, set: &SetHeads) -> Option<ValueType>
        ensures { result ≡ found_type set.now self.entry }
    {
        match self {
            Lookup::Unsought | Lookup::Missing => None,
            Lookup::Function(callee) => Some(set.result_type(callee.signature.answer)),
            Lookup::Property(property) => Some(set.value_type(property.kind)),
        }
    }

    /// V9 where a call has another number of arguments than parameters, and V10 where there is nothing of the name, or
    /// it can't be used so.
    pub(crate) fn broken_rule(self, action: Action, arguments: usize) -> Option<VerifyRule>
        ensures { result ≡ None → sought.Allows action arguments self.entry }
    {
        match self {
            Lookup::Unsought => None,
            Lookup::Missing => Some(VerifyRule::UnknownFunction),
            Lookup::Function(callee) => broken_call(callee.signature, action, arguments),
            Lookup::Property(property) => broken_use(property, action),
        }
    }
}

fn broken_call(signature: &Signature, action: Action, arguments: usize) -> Option<VerifyRule>
    ensures count { result ≡ None → arguments ≡ length signature.now.parameters.items }
    ensures kind { result ≡ None → sought.is_global signature.now ≡ sought.is_static action }
{
    if arguments != signature.parameters.len() {
        return Some(VerifyRule::ArgumentCount);
    }
    let is_right = signature.is_global() == is_static(action);
    (!is_right).then_some(VerifyRule::UnknownFunction)
}

fn is_static(action: Action) -> bool
    ensures { result ≡ sought.is_static action }
{
    matches!(action, Action::CallStatic)
}

fn broken_use(property: PropertySignature, action: Action) -> Option<VerifyRule>
    ensures { result ≡ None → sought.PropertyAllows action property }
{
    let is_right = match action {
        Action::GetProperty => property.bits & READABLE != 0,
        _ => property.bits & WRITABLE != 0,
    };
    (!is_right).then_some(VerifyRule::UnknownFunction)
}

/// The number of the name that the operand at this place gives.
pub(crate) fn name_at(scope: &FunctionScope<'_>, data: &[Datum], place: usize) -> Option<usize>
    ensures { result ≡ sought.name_by scope.now «data».now place }
{
    match data.get(place) {
        Some(Datum::Word(reference)) => Some(scope.source.names.number(*reference)),
        _ => None,
    }
}

/// What the instruction of these operands, given as the file has them and resolved, looks up.
pub(crate) fn look_up<'a>(
    scope: &FunctionScope<'a>,
    action: Action,
    data: &[Datum],
    fixed: &[JudgedOperand],
) -> Lookup<'a>
    ensures among { IsFoundAmong (vec_len scope.now.home.now.set.now.heads) result }
    ensures looked { sought.LooksUp scope.now action «data».now fixed.now result }
{
    let set = scope.home.set;
    let name = name_at(scope, data, 0);
    match action {
        Action::CallMethod => function_found(set, object_script(scope, fixed), name),
        Action::CallParent => function_found(set, set.parent(usize::from(scope.home.here)), name),
        Action::CallStatic => function_found(set, script_named(set, name), name_at(scope, data, 1)),
        Action::GetProperty | Action::SetProperty => {
            property_found(set, object_script(scope, fixed), name)
        }
        _ => Lookup::Unsought,
    }
}

// The script of the object that is the second operand.
fn object_script(scope: &FunctionScope<'_>, fixed: &[JudgedOperand]) -> Option<usize>
    ensures { result ≡ sought.object_by scope.now fixed.now }
{
    scope.type_of(fixed.get(1)?).script().map(usize::from)
}

fn script_named(set: &SetHeads, name: Option<usize>) -> Option<usize>
    ensures { result ≡ sought.script_named_by set.now name }
{
    set.objects.first_named(name?)
}

fn function_found(set: &SetHeads, script: Option<usize>, name: Option<usize>) -> Lookup<'_>
    ensures among { IsFoundAmong (vec_len set.now.heads) result }
    ensures found { sought.IsFoundBy set.now script name result }
    ensures function { sought.IsFunction result }
{
    let (Some(script), Some(name)) = (script, name) else {
        return Lookup::Missing;
    };
    match set.find_function(script, name) {
        Some(callee) => Lookup::Function(callee),
        None => Lookup::Missing,
    }
}

fn property_found(set: &SetHeads, script: Option<usize>, name: Option<usize>) -> Lookup<'_>
    ensures among { IsFoundAmong (vec_len set.now.heads) result }
    ensures found { sought.IsFoundBy set.now script name result }
    ensures property { sought.IsProperty result }
{
    let (Some(script), Some(name)) = (script, name) else {
        return Lookup::Missing;
    };
    match set.find_property(script, name) {
        Some(property) => Lookup::Property(property),
        None => Lookup::Missing,
    }
}

/// The most elements that a new array may have.
const ARRAY_LIMIT: i32 = 128;

/// Whether the operands and arguments have the forms and types that the action asks for, where it looks this up.
pub(crate) fn operands_fit(
    scope: &FunctionScope<'_>,
    action: Action,
    fixed: &[JudgedOperand],
    more: &[JudgedOperand],
    found: Lookup<'_>,
) -> bool
    ensures { IsTrue result → accepted.OperandsFit scope.now action fixed.now more.now found.entry }
{
    match (action, fixed) {
        (Action::CallMethod | Action::GetProperty, [name, object, to]) => {
            is_name(name) && is_object(scope, object) && takes_found(scope, to, more, found)
        }
        (Action::CallParent, [name, to]) => is_name(name) && takes_found(scope, to, more, found),
        (Action::CallStatic, [script, name, to]) => {
            is_name(script) && is_name(name) && takes_found(scope, to, more, found)
        }
        (Action::SetProperty, [name, object, value]) => {
            is_name(name) && is_object(scope, object) && fits_found(scope, value, found)
        }
        _ => values_fit(scope, action, fixed),
    }
}

// The same of an action that looks nothing up.
fn values_fit(scope: &FunctionScope<'_>, action: Action, fixed: &[JudgedOperand]) -> bool
    ensures { IsTrue result → accepted.ValuesFit scope.now action fixed.now }
{
    match (action, fixed) {
        (Action::Nothing, _) => true,
        (Action::Arithmetic, [to, left, right]) => {
            computes(scope, to, left, right, CoreType::Int, CoreType::Int)
        }
        (Action::Order, [to, left, right]) => {
            computes(scope, to, left, right, CoreType::Int, CoreType::Bool)
        }
        (Action::Join, [to, left, right]) => {
            computes(scope, to, left, right, CoreType::Text, CoreType::Text)
        }
        (Action::Negate, [to, value]) => scope.takes(to, INT) && scope.is_of(value, INT),
        (Action::Invert, [to, _value]) => scope.takes(to, BOOL),
        (Action::Assign, [to, value]) => scope.takes(to, scope.type_of(value)),
        (Action::Cast, [to, value]) => scope.takes_cast(to, scope.type_of(value)),
        (Action::Equal, [to, left, right]) => scope.takes(to, BOOL) && compare(scope, left, right),
        (Action::Jump, [offset]) | (Action::JumpIf, [_, offset]) => {
            matches!(offset, JudgedOperand::Int(_))
        }
        (Action::Return, [value]) => scope.fits(value, scope.answer),
        _ => elements_fit(scope, action, fixed),
    }
}

// The same of an action on an array.
fn elements_fit(scope: &FunctionScope<'_>, action: Action, fixed: &[JudgedOperand]) -> bool
    ensures { IsTrue result → accepted.ElementsFit scope.now action fixed.now }
{
    match (action, fixed) {
        (Action::CreateArray, [to, size]) => is_array(scope, to) && is_size(size),
        (Action::ArrayLength, [to, array]) => scope.takes(to, INT) && is_array(scope, array),
        (Action::GetElement, [to, array, index]) => {
            scope.is_of(index, INT) && takes_element(scope, to, array)
        }
        (Action::SetElement, [array, index, value]) => {
            scope.is_of(index, INT) && fits_element(scope, array, value)
        }
        (Action::FindElement, [array, to, value, start]) => {
            scope.takes(to, INT) && scope.is_of(start, INT) && fits_element(scope, array, value)
        }
        _ => false,
    }
}

// Whether the operand is a name that stands for itself.
fn is_name(operand: &JudgedOperand) -> bool {
    matches!(operand, JudgedOperand::Word(_))
}

// Whether the operand is a number of elements that stands in the code.
fn is_size(operand: &JudgedOperand) -> bool
    ensures { IsTrue result → IsSize operand.now }
{
    matches!(operand, JudgedOperand::Int(size) if 1 <= *size && *size <= ARRAY_LIMIT)
}

fn is_object(scope: &FunctionScope<'_>, operand: &JudgedOperand) -> bool
    ensures { IsTrue result → accepted.IsObject scope.now operand.now }
{
    scope.type_of(operand).script().is_some()
}

// Whether two values of a type give one of another, which can be stored.
fn computes(
    scope: &FunctionScope<'_>,
    to: &JudgedOperand,
    left: &JudgedOperand,
    right: &JudgedOperand,
    taken: CoreType,
    given: CoreType,
) -> bool
    ensures { IsTrue result → accepted.Computes scope.now taken given to.now left.now right.now }
{
    scope.takes(to, ValueType::Of(given))
        && scope.is_of(left, ValueType::Of(taken))
        && scope.is_of(right, ValueType::Of(taken))
}

// Whether one of the two values fits the other's type.
fn compare(scope: &FunctionScope<'_>, left: &JudgedOperand, right: &JudgedOperand) -> bool
    ensures { IsTrue result → accepted.Compare scope.now left.now right.now }
{
    scope.fits(left, scope.type_of(right)) || scope.fits(right, scope.type_of(left))
}

// The type of the elements, where the operand is an array.
fn element(scope: &FunctionScope<'_>, array: &JudgedOperand) -> Option<ValueType>
    ensures { result ≡ element_type (type_by scope.now array.now) }
{
    scope.type_of(array).element()
}

fn is_array(scope: &FunctionScope<'_>, operand: &JudgedOperand) -> bool
    ensures { IsTrue result → accepted.IsArray scope.now operand.now }
{
    element(scope, operand).is_some()
}

fn takes_element(scope: &FunctionScope<'_>, to: &JudgedOperand, array: &JudgedOperand) -> bool
    ensures { IsTrue result → accepted.IsArrayWith scope.now array.now (λ element. Takes scope.now to.now element) }
{
    match element(scope, array) {
        Some(element) => scope.takes(to, element),
        None => false,
    }
}

fn fits_element(scope: &FunctionScope<'_>, array: &JudgedOperand, value: &JudgedOperand) -> bool
    ensures { IsTrue result → accepted.IsArrayWith scope.now array.now (λ element. IsFor scope.now element value.now) }
{
    match element(scope, array) {
        Some(element) => scope.fits(value, element),
        None => false,
    }
}

// Whether the result and the arguments are of the types of what was found. Where nothing was, the result has to be
// something that a value can be stored in.
fn takes_found(
    scope: &FunctionScope<'_>,
    to: &JudgedOperand,
    more: &[JudgedOperand],
    found: Lookup<'_>,
) -> bool
    ensures { IsTrue result → accepted.TakesFound scope.now to.now more.now found.entry }
{
    match found.type_in(scope.home.set) {
        Some(value) => scope.takes(to, value) && fit_parameters(scope, more, found),
        None => scope.stored_type(to).is_some(),
    }
}

fn fits_found(scope: &FunctionScope<'_>, value: &JudgedOperand, found: Lookup<'_>) -> bool
    ensures { IsTrue result → accepted.FitsFound scope.now value.now found.entry }
{
    match found.type_in(scope.home.set) {
        Some(wanted) => scope.fits(value, wanted),
        None => true,
    }
}

// Whether each argument fits the type of its parameter, where there is one for it.
fn fit_parameters(scope: &FunctionScope<'_>, more: &[JudgedOperand], found: Lookup<'_>) -> bool
    ensures { IsTrue result → accepted.ArgumentsFit scope.now more.now found.entry }
{
    match found {
        Lookup::Function(callee) => each_fits(scope, callee.signature.parameters.as_slice(), more),
        _ => true,
    }
}

fn each_fits(scope: &FunctionScope<'_>, kinds: &[usize], arguments: &[JudgedOperand]) -> bool
    ensures { IsTrue result → accepted.EachFits scope.now kinds.now arguments.now }
{
    for (place, argument) in arguments.iter().enumerate() {
        if !parameter_fits(scope, kinds.get(place), argument) {
            return false;
        }
    }
    true
}

fn parameter_fits(scope: &FunctionScope<'_>, kind: Option<&usize>, argument: &JudgedOperand) -> bool
    ensures { IsTrue result → accepted.ParameterFits scope.now (option_copied kind.entry) argument.now }
{
    match kind {
        Some(kind) => scope.fits(argument, scope.home.set.value_type(*kind)),
        None => true,
    }
}
