// One object: its variables, its properties and its states.
ghost use Rattle.std.specs.Prelude.{◌≡◌, ◌==◌, ◌++◌, ℕ, List, Some, None, true, nat_eq, if◌then◌else◌, map, vec_len, All, IfOk, IsTrue, OnOk, option_copied, [], ◌∷◌};
ghost use Rattle.pex_verify.specs.Found.{function_found, parent_of};
ghost use Rattle.pex_verify.specs.Rules.{AreDistinct, EachReplaces, Overrides, Replaces, Varies, state_numbers};
ghost use Rattle.pex_verify.specs.declared.scripts.Signature.{Signature};
ghost use Rattle.pex_verify.specs.Soundness.{IsSoundFunction, AreSoundFunctions, IsSoundState, IsSoundProperty, AreTyped};
ghost use Rattle.pex_verify.specs.Objects.{IsSoundObject};
ghost use Rattle.pex_verify.specs.Sites.{site_of};
ghost use Rattle.pex_verify.specs.Places.{bounds_of};
ghost use Rattle.pex_verify.specs.Heads.{placed};
ghost use Rattle.pex_verify.specs.Loading.{judged_by, judged_in, placed_at, AreProperties, IsObjectOf, IsWholeObject};
ghost use Rattle.pex_verify.specs.Matching.{Written, IsWritten, AreWritten};
ghost use Rattle.std.specs.HashMap.{get};
ghost use Rattle.std.specs.List.{list_any};
ghost use Rattle.pex_verify.specs.States.{is_empty_state, own_written, written_member, member_in, lacking_written, WrittenState, state_written, state_functions, added_state, states_written, IsState, AreStates};
ghost use Rattle.pex_verify.specs.Variables.{variable_type, type_of_variable, initial_value, AreVariables};
ghost use Rattle.pex_values.specs.declared.values.PexVariable.{PexVariable};
ghost use Rattle.run_laws.specs.Fits.{Known, HasType};

use crate::accessors::load_property;
use crate::fault::{Judged, Valid, VerifyRule, check, refused};
use crate::function::{has_too_many_slots, known_type, load_function};
use crate::judged::{JudgedFunction, JudgedProperty, JudgedScript};
use crate::outlining::outline_script;
use crate::scope::{Home, NamedList, SlotList};
use crate::scripts::{KIND_BITS, SetHeads, Signature};
use crate::sources::{DefaultMembers, FileLines, OF_STATE, SetFile};
use crate::value_type::ValueType;
use core_tree::{CoreType, OutlineScript, OutlineVariable, Value};
use papy_base::{Made, Name, TEXT_LIMIT, Text};
use pex_set::EMPTY_NAME;
use pex_values::{Datum, PexFunction, PexObject, PexState, PexVariable};
use std::alloc::Global;
use std::collections::HashMap;

// The functions of a state.
type Functions = Vec<JudgedFunction>;

// A state by its name.
type StateFunctions = (Name, Functions);

/// How many bytes the name of an object and that of its auto state may have.
const NAME_LIMIT: usize = 255;

/// What all objects of a set are judged by.
#[derive(Clone, Copy)]
pub(crate) struct Loader<'a> {
    pub(crate) alloc: Global,
    pub(crate) set: &'a SetHeads,
    /// The members of every script without parent.
    pub(crate) members: &'a DefaultMembers<'a>,
}

/// Lists that the objects of a set use one after the other.
#[derive(Drop)]
pub(crate) struct ObjectLists {
    variables: NamedList<OutlineVariable>,
    slots: SlotList,
}

impl ObjectLists {
    /// Empty lists, in a set with so many names.
    pub(crate) fn new(alloc: Global, names: usize) -> Made<ObjectLists> {
        Ok(ObjectLists {
            variables: NamedList::new(alloc, names)?,
            slots: NamedList::new(alloc, names)?,
        })
    }
}

/// An object's script, and its outline.
#[derive(Drop)]
pub(crate) struct LoadedObject {
    pub(crate) script: JudgedScript,
    pub(crate) outline: OutlineScript,
}

/// Loads the object, which is the script of this number, or gives the first fault in it: of the object
/// itself, its variables, its properties, and its states, each before its functions.
pub(crate) fn load_object(
    loader: &Loader<'_>,
    lists: &mut ObjectLists,
    here: u16,
    source: &SetFile<'_>,
    lines: &FileLines<'_>,
    object: &PexObject,
) -> Valid<LoadedObject>
    ensures sound { IfOk result (IsSoundObject (vec_len loader.now.set.now.heads)) }
    ensures object { IfOk result (λ loaded. IsWholeObject (judged_by loader.now) here (placed source.now object.now) loaded.script loaded.outline) }
{
    judge_names(loader.alloc, source, object)?;
    load_variables(loader, source, object, &mut lists.variables)?;
    let home = Home {
        alloc: loader.alloc,
        set: loader.set,
        members: loader.members,
        here,
        source,
        lines,
        object,
        variables: &lists.variables,
    };
    load_script(&home, &mut lists.slots)
}

// The object's script and outline, once its variables were judged.
fn load_script(home: &Home<'_>, slots: &mut SlotList) -> Valid<LoadedObject>
    requires { AreTyped (vec_len home.now.set.now.heads) home.now.variables.now.list.items }
    ensures sound { IfOk result (IsSoundObject (vec_len home.now.set.now.heads)) }
    ensures object { IfOk result (λ loaded. IsObjectOf (judged_in home.now) home.now.here (placed_at home.now) loaded.script loaded.outline) }
    ensures variables { IfOk result (λ loaded. loaded.outline.variables.items ≡ home.now.variables.now.list.items) }
{
    let properties = load_properties(home, slots)?;
    let states = load_states(home, slots)?;
    let script = JudgedScript { properties, states };
    let outline = outline_script(home, &script)?;
    Ok(LoadedObject { script, outline })
}

// V12 of the names of the object and of its auto state.
fn judge_names(alloc: Global, source: &SetFile<'_>, object: &PexObject) -> Valid<()> {
    let name = source.text(object.name);
    let auto_state = source.text(object.auto_state);
    if name.len() > NAME_LIMIT || auto_state.len() > NAME_LIMIT {
        return Err(source.site(object).fault(alloc, VerifyRule::TextTooLong));
    }
    Ok(())
}

// Puts the variables of an object, in their order, in place of those of the list.
fn load_variables(
    loader: &Loader<'_>,
    source: &SetFile<'_>,
    object: &PexObject,
    variables: &mut NamedList<OutlineVariable>,
) -> Valid<()>
    ensures typed { OnOk result (AreTyped (vec_len loader.now.set.now.heads) variables.new.list.items) }
    ensures kinds { OnOk result (map variable_type variables.new.list.items ≡ map (type_of_variable loader.now.set.now.types source.now.names.now) object.now.variables.items) }
    ensures initial { OnOk result (AreVariables source.now object.now.variables.items variables.new.list.items) }
{
    variables.clear();
    for variable in &object.variables {
        if let Err(refusal) = load_variable(loader, source, variables, variable) {
            let site = source.site(object);
            return Err(site.fault_in(loader.alloc, source.text(variable.name), refusal));
        }
    }
    Ok(())
}

// Adds a variable, unless it breaks a rule: V2, V5, V7, then V12.
fn load_variable(
    loader: &Loader<'_>,
    source: &SetFile<'_>,
    variables: &mut NamedList<OutlineVariable>,
    variable: &PexVariable,
) -> Judged<()>
    ensures typed { AreTyped (vec_len loader.now.set.now.heads) variables.old.list.items → OnOk result (AreTyped (vec_len loader.now.set.now.heads) variables.new.list.items) }
    ensures kinds { OnOk result (map variable_type variables.new.list.items ≡ map variable_type variables.old.list.items ++ type_of_variable loader.now.set.now.types source.now.names.now variable.now ∷ []) }
    ensures initial { (before : List PexVariable) → AreVariables source.now before variables.old.list.items
        → OnOk result (AreVariables source.now (before ++ variable.now ∷ []) variables.new.list.items) }
{
    let name = source.names.number(variable.name);
    let declared = loader.set.value_type(source.names.number(variable.kind));
    let is_float = declared == ValueType::Float || matches!(variable.value, Datum::Float(_));
    check(!is_float, VerifyRule::FloatValue)?;
    check(variables.place(name).is_none(), VerifyRule::DuplicateName)?;
    let Some(kind) = known_type(declared)? else {
        return Err(refused(VerifyRule::OperandType));
    };
    let value = start_value(loader.alloc, source, kind, variable.value)?;
    let title = source.title(loader.alloc, variable.name)?;
    let variable = OutlineVariable {
        name: title,
        kind,
        value,
    };
    variables.add(name, variable)?;
    Ok(())
}

// The value at the start: V7 where it isn't of the type, and V12 where a text is too long.
fn start_value(alloc: Global, source: &SetFile<'_>, kind: CoreType, datum: Datum) -> Judged<Value>
    ensures value { IfOk result (λ value. value ≡ initial_value source.now.pex.now.strings.items kind datum) }
    ensures fits { IfOk result (λ value. (known : Known) → HasType known kind value) }
{
    match (kind, datum) {
        (_, Datum::NoneValue) => Ok(Value::default_of(alloc, Some(kind))?),
        (CoreType::Int, Datum::Int(number)) => Ok(Value::Int(number)),
        (CoreType::Bool, Datum::Bool(byte)) => Ok(Value::Bool(byte != 0)),
        (CoreType::Text, Datum::Quoted(reference)) => {
            let text = source.text(reference);
            check(text.len() <= TEXT_LIMIT, VerifyRule::TextTooLong)?;
            Ok(Value::Text(Text::try_from_bytes(alloc, text)?))
        }
        _ => Err(refused(VerifyRule::OperandType)),
    }
}

fn load_properties(home: &Home<'_>, slots: &mut SlotList) -> Valid<Vec<JudgedProperty>>
    ensures sound { IfOk result (λ properties. All (IsSoundProperty (bounds_of home.now)) properties.items) }
    ensures written { IfOk result (λ properties. AreProperties home.now properties.items) }
{
    let mut properties = Vec::with_capacity(home.alloc, home.object.properties.len())?;
    for (place, property) in home.object.properties.iter().enumerate() {
        match load_property(home, slots, place, property) {
            Ok(loaded) => properties.push(loaded)?,
            Err(refusal) => return Err(home.fault_in(home.source.text(property.name), refusal)),
        }
    }
    Ok(properties)
}

// The members that a script without parent lacks stand last in its empty state, or in a last one that is
// added for them.
fn load_states(home: &Home<'_>, slots: &mut SlotList) -> Valid<Vec<StateFunctions>>
    ensures sound { IfOk result (λ states. All (λ state. IsSoundState (bounds_of home.now) state.1.items) states.items) }
    ensures written { IfOk result (λ states. AreStates (site_of home.now) (states_written home.now home.now.object.now.states.items) states.items) }
    ensures distinct { OnOk result (AreDistinct (state_numbers home.now)) }
    ensures replaces { OnOk result (All (EachReplaces home.now) home.now.object.now.states.items) }
{
    let mut seen = HashMap::new(home.alloc);
    let mut states = Vec::with_capacity(home.alloc, home.object.states.len())?;
    for state in &home.object.states {
        if !note(&mut seen, home.source.names.number(state.name))? {
            let refusal = refused(VerifyRule::DuplicateName);
            return Err(home.fault_in(home.source.text(state.name), refusal));
        }
        states.push(load_state(home, slots, state)?)?;
    }
    if has_empty_state(home) {
        return Ok(states);
    }
    completed(home, slots, states)
}

// Notes a number, and tells whether it is new.
fn note(seen: &mut HashMap<usize, ()>, number: usize) -> Made<bool>
    ensures new { IfOk result (λ is_new. is_new ≡ true → get nat_eq seen.old number ≡ None) }
    ensures noted { OnOk result ((other : ℕ) → get nat_eq seen.new other ≡ (if number == other then Some tt else get nat_eq seen.old other)) }
{
    Ok(seen.insert(number, ())?.is_none())
}

fn has_empty_state(home: &Home<'_>) -> bool
    ensures { result ≡ list_any (is_empty_state home.now) home.now.object.now.states.items }
{
    home.object
        .states
        .iter()
        .any(|state| home.source.names.number(state.name) == EMPTY_NAME)
}

// These states, none of which is the empty one, and an empty state of the members that the script lacks.
fn completed(
    home: &Home<'_>,
    slots: &mut SlotList,
    mut states: Vec<StateFunctions>,
) -> Valid<Vec<StateFunctions>>
    requires { All (λ state. IsSoundState (bounds_of home.now) state.1.items) states.items }
    ensures sound { IfOk result (λ states. All (λ state. IsSoundState (bounds_of home.now) state.1.items) states.items) }
    ensures written { (before : List WrittenState) → AreStates (site_of home.now) before states.items
        → IfOk result (λ states. AreStates (site_of home.now) (before ++ added_state (lacking_written home.now)) states.items) }
{
    let mut added = Vec::new(home.alloc);
    add_members(home, slots, &mut added)?;
    if added.is_empty() {
        return Ok(states);
    }
    states.push((Name::from_bytes(home.alloc, &[])?, added))?;
    Ok(states)
}

fn load_state(home: &Home<'_>, slots: &mut SlotList, state: &PexState) -> Valid<StateFunctions>
    ensures sound { IfOk result (λ loaded. IsSoundState (bounds_of home.now) loaded.1.items) }
    ensures written { IfOk result (IsState (site_of home.now) (state_written home.now state.now)) }
    ensures replaces { OnOk result (EachReplaces home.now state.now) }
{
    let name = home.source.title(home.alloc, state.name)?;
    Ok((name, all_functions(home, slots, state)?))
}

// The functions of a state, and behind those of the empty state the members that the script lacks.
fn all_functions(home: &Home<'_>, slots: &mut SlotList, state: &PexState) -> Valid<Functions>
    ensures sound { IfOk result (λ functions. IsSoundState (bounds_of home.now) functions.items) }
    ensures written { IfOk result (λ functions. AreWritten (site_of home.now) (state_functions home.now state.now) functions.items) }
    ensures replaces { OnOk result (EachReplaces home.now state.now) }
{
    let mut functions = load_functions(home, slots, state)?;
    if home.source.names.number(state.name) != EMPTY_NAME {
        return Ok(functions);
    }
    add_members(home, slots, &mut functions)?;
    Ok(functions)
}

fn load_functions(home: &Home<'_>, slots: &mut SlotList, state: &PexState) -> Valid<Functions>
    ensures sound { IfOk result (λ functions. AreSoundFunctions (bounds_of home.now) functions.items) }
    ensures written { IfOk result (λ functions. AreWritten (site_of home.now) (map (own_written home.now) state.now.functions.items) functions.items) }
    ensures replaces { OnOk result (EachReplaces home.now state.now) }
{
    let mut seen = HashMap::new(home.alloc);
    let mut functions = Vec::with_capacity(home.alloc, state.functions.len())?;
    for (name, function) in &state.functions {
        let is_new = note(&mut seen, home.source.names.number(*name))?;
        match load_state_function(home, slots, state.name, *name, function, is_new) {
            Ok(loaded) => functions.push(loaded)?,
            Err(refusal) => return Err(home.fault_in(home.source.text(*name), refusal)),
        }
    }
    Ok(functions)
}

// A function of a state, which has to have a new name there: V5, V11, then V13.
fn load_state_function(
    home: &Home<'_>,
    slots: &mut SlotList,
    state: u16,
    name: u16,
    function: &PexFunction,
    is_new: bool,
) -> Judged<JudgedFunction>
    ensures sound { IfOk result (IsSoundFunction (bounds_of home.now)) }
    ensures written { IfOk result (IsWritten (site_of home.now) (own_written home.now (name, function.now))) }
    ensures replaces { OnOk result (Replaces home.now state (name, function.now)) }
    ensures new { OnOk result (IsTrue is_new) }
{
    check(is_new, VerifyRule::DuplicateName)?;
    let is_alike = replaces_alike(home, state, name, function);
    check(is_alike, VerifyRule::SignatureDiffers)?;
    check(!has_too_many_slots(function), VerifyRule::TooMany)?;
    let names = home.source.names;
    let object = names.number(home.object.name);
    let lines = home
        .lines
        .find(OF_STATE, object, names.number(state), names.number(name));
    load_function(home, home.source, slots, name, function, lines)
}

// Whether a function of a state gives and takes what the function that it replaces does.
fn replaces_alike(home: &Home<'_>, state: u16, name: u16, function: &PexFunction) -> bool
    ensures { IsTrue result → Replaces home.now state (name, function.now) }
{
    let names = home.source.names;
    let name = names.number(name);
    if names.number(state) == EMPTY_NAME {
        overrides_alike(home, name, function)
    } else {
        varies_alike(home, name, function)
    }
}

fn overrides_alike(home: &Home<'_>, name: usize, function: &PexFunction) -> bool
    ensures { IsTrue result → Overrides home.now name function.now }
{
    match overridden(home, name) {
        Some(replaced) => replaced.is_of(home.source.names, function),
        None => true,
    }
}

// A function of a named state replaces the nearest one of the empty states, which has to be there. Neither
// is global or native.
fn varies_alike(home: &Home<'_>, name: usize, function: &PexFunction) -> bool
    ensures { IsTrue result → Varies home.now name function.now }
{
    let here = usize::from(home.here);
    match home.set.find_function(here, name) {
        Some(replaced) => {
            function.bits & KIND_BITS == 0 && replaced.signature.is_of(home.source.names, function)
        }
        None => false,
    }
}

// What a function of the empty state replaces: the nearest one of the parents, if there is one. Without a parent
// it is a member that every such script has.
fn overridden<'a>(home: &Home<'a>, name: usize) -> Option<&'a Signature>
    ensures { (parent : ℕ) (signature : Signature) → parent_of home.now.set.now home.now.here ≡ Some parent
        → function_found home.now.set.now parent name ≡ Some signature → option_copied result ≡ Some signature }
{
    let set: &'a SetHeads = home.set;
    match set.parent(usize::from(home.here)) {
        Some(parent) => inherited_function(set, parent, name),
        None => set.member(name),
    }
}

fn inherited_function(set: &SetHeads, script: usize, name: usize) -> Option<&Signature>
    ensures { option_copied result ≡ function_found set.now script name }
{
    Some(set.find_function(script, name)?.signature)
}

// Adds those of the four members that the script lacks. They are judged like all other functions.
fn add_members(home: &Home<'_>, slots: &mut SlotList, functions: &mut Functions) -> Valid<()>
    ensures sound { AreSoundFunctions (bounds_of home.now) functions.old.items
        → OnOk result (AreSoundFunctions (bounds_of home.now) functions.new.items) }
    ensures written { (before : List Written) → AreWritten (site_of home.now) before functions.old.items
        → OnOk result (AreWritten (site_of home.now) (before ++ lacking_written home.now) functions.new.items) }
{
    for place in home.set.lacking(usize::from(home.here)) {
        add_member(home, slots, *place, functions)?;
    }
    Ok(())
}

// Adds the member at this place.
fn add_member(
    home: &Home<'_>,
    slots: &mut SlotList,
    place: usize,
    functions: &mut Functions,
) -> Valid<()>
    ensures sound { AreSoundFunctions (bounds_of home.now) functions.old.items
        → OnOk result (AreSoundFunctions (bounds_of home.now) functions.new.items) }
    ensures written { (before : List Written) → AreWritten (site_of home.now) before functions.old.items
        → OnOk result (AreWritten (site_of home.now) (before ++ member_in home.now place) functions.new.items) }
{
    let Some(member) = home.members.list.get(place) else {
        return Ok(());
    };
    functions.push(load_member(home, slots, member)?)?;
    Ok(())
}

fn load_member(
    home: &Home<'_>,
    slots: &mut SlotList,
    member: &(u16, PexFunction),
) -> Valid<JudgedFunction>
    ensures sound { IfOk result (IsSoundFunction (bounds_of home.now)) }
    ensures written { IfOk result (IsWritten (site_of home.now) (written_member home.now member.now)) }
{
    let source = home.members.source;
    let loaded = load_function(home, source, slots, member.0, &member.1, &[]);
    loaded.map_err(|refusal| home.fault_in(source.text(member.0), refusal))
}
