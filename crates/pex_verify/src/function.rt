// One function.
ghost use Rattle.std.specs.Prelude.{◌≡◌, ◌+◌, ℕ, [], ◌∷◌, ◌++◌, map, vec_len, All, IfOk, OnOk, IfSome};
ghost use Rattle.pex_verify.specs.Meanings.{of_result};
ghost use Rattle.pex_verify.specs.Matching.{parameter_type, parameter_types, local_type, local_types, IsWritten};
ghost use Rattle.pex_verify.specs.Judged.{AreTypedIn};
ghost use Rattle.pex_verify.specs.Sites.{site_of};
ghost use Rattle.pex_verify.specs.Places.{bounds_of};
ghost use Rattle.pex_verify.specs.Types.{IsTypeAmong, IsValueTypeAmong};
ghost use Rattle.pex_verify.specs.Soundness.{IsSoundFunction, AreSoundInstructions};

use crate::fault::{Judged, VerifyRule, at_instruction, refused};
use crate::instruction::load_instruction;
use crate::judged::{JudgedFunction, JudgedInstruction};
use crate::scope::{FunctionScope, Home, SlotList};
use crate::scripts::{GLOBAL, NATIVE};
use crate::sources::{SetFile, lines_of};
use crate::value_type::ValueType;
use core_tree::CoreType;
use papy_base::Name;
use pex_values::{Instruction, PexFunction};

/// How many parameters and locals a function may have.
const SLOT_LIMIT: usize = 8192;

/// Whether a function has too many parameters and locals.
pub(crate) fn has_too_many_slots(function: &PexFunction) -> bool {
    function.parameters.len() > SLOT_LIMIT
        || function.locals.len() > SLOT_LIMIT - function.parameters.len()
}

/// A function of this name, with these lines, or the first rule that its result, its parameters, its locals
/// and its instructions break.
pub(crate) fn load_function(
    home: &Home<'_>,
    source: &SetFile<'_>,
    slots: &mut SlotList,
    name: u16,
    function: &PexFunction,
    lines: &[u16],
) -> Judged<JudgedFunction>
    ensures sound { IfOk result (IsSoundFunction (bounds_of home.now)) }
    ensures written { IfOk result (IsWritten (site_of home.now) (record { numbers = source.now.names.now; titles = source.now.titles.now; name = name; function = function.now })) }
{
    let alloc = home.alloc;
    let answer = home.set.result_type(source.names.number(function.result));
    let result = known_type(answer)?;
    slots.clear();
    let parameters = load_parameters(home, source, slots, function.parameters.as_slice())?;
    let locals = load_locals(home, source, slots, function.locals.as_slice())?;
    let is_global = function.bits & GLOBAL != 0;
    let scope = FunctionScope {
        home,
        source,
        slots,
        is_global,
        answer,
    };
    let code = load_code(&scope, function.code.as_slice())?;
    let lines = lines_of(alloc, lines, code.len())?;
    Ok(JudgedFunction {
        name: source.title(alloc, name)?,
        result,
        is_global,
        is_native: function.bits & NATIVE != 0,
        parameters,
        locals,
        code,
        lines,
    })
}

/// The type of a type name that must mean one, none for `None`.
pub(crate) fn known_type(declared: ValueType) -> Judged<Option<CoreType>>
    ensures known { IfOk result (λ found. of_result found ≡ declared) }
    ensures among { (count : ℕ) → IsValueTypeAmong count declared → IfOk result (λ found. IfSome found (IsTypeAmong count)) }
{
    match declared {
        ValueType::Nothing => Ok(None),
        ValueType::Float => Err(refused(VerifyRule::FloatValue)),
        ValueType::Unknown => Err(refused(VerifyRule::OperandType)),
        ValueType::Of(found) => Ok(Some(found)),
    }
}

fn load_parameters(
    home: &Home<'_>,
    source: &SetFile<'_>,
    slots: &mut SlotList,
    pairs: &[(u16, u16)],
) -> Judged<Vec<(Name, CoreType)>>
    ensures count { IfOk result (λ parameters. vec_len slots.new.list ≡ vec_len slots.old.list + vec_len parameters) }
    ensures typed { IfOk result (λ parameters. All (λ p. IsTypeAmong (vec_len home.now.set.now.heads) p.1) parameters.items) }
    ensures slots { IfOk result (λ parameters. slots.new.list.items ≡ slots.old.list.items ++ map parameter_type parameters.items) }
    ensures kinds { IfOk result (λ parameters. map parameter_type parameters.items ≡ parameter_types home.now.set.now.types source.now.names.now pairs.now) }
{
    let mut parameters = Vec::with_capacity(home.alloc, pairs.len())?;
    for pair in pairs {
        let declared = home.set.value_type(source.names.number(pair.1));
        let Some(kind) = judged_slot(source, slots, *pair, declared)? else {
            return Err(refused(VerifyRule::OperandType));
        };
        parameters.push((source.title(home.alloc, pair.0)?, kind))?;
    }
    Ok(parameters)
}

fn load_locals(
    home: &Home<'_>,
    source: &SetFile<'_>,
    slots: &mut SlotList,
    pairs: &[(u16, u16)],
) -> Judged<Vec<(Name, Option<CoreType>)>>
    ensures count { IfOk result (λ locals. vec_len slots.new.list ≡ vec_len slots.old.list + vec_len locals) }
    ensures typed { IfOk result (λ locals. All (λ l. IfSome l.1 (IsTypeAmong (vec_len home.now.set.now.heads))) locals.items) }
    ensures slots { IfOk result (λ locals. slots.new.list.items ≡ slots.old.list.items ++ map local_type locals.items) }
    ensures kinds { IfOk result (λ locals. map local_type locals.items ≡ local_types home.now.set.now.types source.now.names.now pairs.now) }
{
    let mut locals = Vec::with_capacity(home.alloc, pairs.len())?;
    for pair in pairs {
        let declared = home.set.result_type(source.names.number(pair.1));
        let kind = judged_slot(source, slots, *pair, declared)?;
        locals.push((source.title(home.alloc, pair.0)?, kind))?;
    }
    Ok(locals)
}

// Adds a parameter or local of this type, unless it breaks a rule: V2, V5, then V7.
fn judged_slot(
    source: &SetFile<'_>,
    slots: &mut SlotList,
    pair: (u16, u16),
    declared: ValueType,
) -> Judged<Option<CoreType>>
    ensures count { OnOk result (vec_len slots.new.list ≡ vec_len slots.old.list + 1) }
    ensures slots { OnOk result (slots.new.list.items ≡ slots.old.list.items ++ declared ∷ []) }
    ensures known { IfOk result (λ found. of_result found ≡ declared) }
    ensures typed { (count : ℕ) → IsValueTypeAmong count declared → IfOk result (λ found. IfSome found (IsTypeAmong count)) }
{
    let name = source.names.number(pair.0);
    if declared != ValueType::Float && slots.place(name).is_some() {
        return Err(refused(VerifyRule::DuplicateName));
    }
    let found = known_type(declared)?;
    slots.add(name, declared)?;
    Ok(found)
}

// The code of a function with its operands resolved.
fn load_code(scope: &FunctionScope<'_>, code: &[Instruction]) -> Judged<Vec<JudgedInstruction>>
    ensures sound { IfOk result (λ loaded. AreSoundInstructions (bounds_of scope.now.home.now) (vec_len scope.now.slots.now.list) (vec_len loaded) loaded.items) }
    ensures typed { IfOk result (λ loaded. AreTypedIn scope.now loaded.items) }
{
    let mut loaded = Vec::with_capacity(scope.home.alloc, code.len())?;
    for (place, instruction) in code.iter().enumerate() {
        match load_instruction(scope, place, code.len(), instruction) {
            Ok(found) => loaded.push_reserved(found),
            Err(refusal) => return Err(at_instruction(place, refusal)),
        }
    }
    Ok(loaded)
}
