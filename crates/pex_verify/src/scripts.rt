// The scripts of a set, as other scripts see them.
ghost use Rattle.std.specs.Prelude.{◌≡◌, map, IsTrue, IfOk, ◌+◌, ◌<◌, ℕ, List, ◌++◌, Option, Some, length, slice_get, true, vec_len, IfSome, OnOk};
ghost use Rattle.pex_verify.specs.Signatures.{number_at, kind_at, has_bit, declared_of, declared_by, AreAlike};
ghost use Rattle.pex_verify.specs.Fitting.{CastsIn, FitsIn};
ghost use Rattle.pex_verify.specs.Types.{IsValueTypeAmong};
ghost use Rattle.pex_verify.specs.TypesMeant.{AreTypes};
ghost use Rattle.pex_verify.specs.Meanings.{result_meaning, value_meaning};
ghost use Rattle.pex_verify.specs.Sources.{object_count};
ghost use Rattle.pex_verify.specs.Heads.{Placed, placed_in, placed_objects, Members, members_of, member_at, parent_at, property_by, empty_state_of, functions_of_state, lacking_in, IsHeadOf, AreHeads};
ghost use Rattle.pex_verify.specs.Parents.{parent_in, parent_among};
ghost use Rattle.pex_verify.specs.Tables.{no_members, all_members, IsTable};
ghost use Rattle.papy_base.specs.Lineage.{AreAmong, AreRooted};
ghost use Rattle.pex_set.specs.Names.{empty_name};
ghost use Rattle.papy_base.specs.declared.descent.Span.{Span};
ghost use Rattle.pex_values.specs.declared.values.PexObject.{PexObject};

use crate::members::{MemberLists, MemberTable};
use crate::sources::{DefaultMembers, SetFile};
use crate::value_type::{TypeNames, ValueType};
use core_tree::CoreType;
use papy_base::{LIBRARY_COUNT, Made};
use pex_set::{EMPTY_NAME, FileNames, MemberPlace, NameNumbers, Objects};
use pex_values::{PexFunction, PexObject, PexProperty, PexState};
use std::alloc::Global;

/// The bits of a function that count: 1 is global, 2 is native.
pub(crate) const GLOBAL: u8 = 1;

pub(crate) const NATIVE: u8 = 2;

pub(crate) const KIND_BITS: u8 = GLOBAL | NATIVE;

/// A function without its code. Names of types are numbers of names: two are one type where they are the
/// same with case ignored.
#[derive(Drop)]
pub(crate) struct Signature {
    pub(crate) name: usize,
    pub(crate) answer: usize,
    pub(crate) parameters: Vec<usize>,
    pub(crate) bits: u8,
}

impl Signature {
    fn of(alloc: Global, names: &FileNames, name: u16, function: &PexFunction) -> Made<Signature>
        ensures { IfOk result (λ signature. declared_of signature ≡ declared_by names.now (name, function.now)) }
    {
        Ok(Signature {
            name: names.number(name),
            answer: names.number(function.result),
            parameters: kinds_of(alloc, names, function.parameters.as_slice())?,
            bits: function.bits & KIND_BITS,
        })
    }

    pub(crate) fn is_global(&self) -> bool
        ensures { result ≡ has_bit self.now.bits 1 }
    {
        self.bits & GLOBAL != 0
    }

    /// Whether the result, the parameter types and what kind of function it is are those of the function.
    pub(crate) fn is_of(&self, names: &FileNames, function: &PexFunction) -> bool
        ensures { IsTrue result → AreAlike (declared_of self.now) (declared_by names.now (0, function.now)) }
    {
        self.answer == names.number(function.result)
            && self.bits == function.bits & KIND_BITS
            && self.has_parameters(names, function.parameters.as_slice())
    }

    fn has_parameters(&self, names: &FileNames, parameters: &[(u16, u16)]) -> bool
        ensures { IsTrue result → self.now.parameters.items ≡ map (kind_at names.now) parameters.now }
    {
        if self.parameters.len() != parameters.len() {
            return false;
        }
        for (place, other) in parameters.iter().enumerate() {
            if self.parameters[place] != names.number(other.1) {
                return false;
            }
        }
        true
    }
}

// The numbers of the types of these parameters.
fn kinds_of(alloc: Global, names: &FileNames, parameters: &[(u16, u16)]) -> Made<Vec<usize>>
    ensures { IfOk result (λ kinds. kinds.items ≡ map (kind_at names.now) parameters.now) }
{
    let mut kinds = Vec::with_capacity(alloc, parameters.len())?;
    for parameter in parameters {
        kinds.push(names.number(parameter.1))?;
    }
    Ok(kinds)
}

/// A property as other scripts see it. Bits 1 and 2 say whether it can be read and written.
#[derive(Clone, Copy, PartialEq, Eq)]
pub(crate) struct PropertySignature {
    pub(crate) name: usize,
    pub(crate) kind: usize,
    pub(crate) bits: u8,
}

/// A function of an empty state, where it stands and what it gives and takes.
#[derive(Clone, Copy)]
pub(crate) struct CalledFunction<'a> {
    pub(crate) place: MemberPlace,
    pub(crate) signature: &'a Signature,
}

/// What a script offers.
#[derive(Drop)]
pub(crate) struct ScriptHead {
    pub(crate) parent: Option<usize>,
    pub(crate) properties: Vec<PropertySignature>,
    /// The place of the first empty state, and how many states there are where there is none.
    pub(crate) empty_state: usize,
    /// The functions of the first empty state, and the members that the script lacks behind them.
    pub(crate) functions: Vec<Signature>,
    /// The places of the members that the script lacks.
    pub(crate) lacking: Vec<usize>,
}

/// The scripts of a set.
#[derive(Drop)]
pub(crate) struct SetHeads {
    pub(crate) heads: Vec<ScriptHead>,
    /// The four members of every script without parent.
    pub(crate) members: Vec<Signature>,
    /// What each name means as the name of a type.
    pub(crate) types: TypeNames,
    pub(crate) objects: Objects,
    /// What each script has from itself upward.
    pub(crate) table: MemberTable,
    /// The numbers of the words `self` and `::State`.
    pub(crate) instance_word: Option<usize>,
    pub(crate) state_word: Option<usize>,
    ghost one_each: { types.scripts ≡ vec_len heads },
}

impl ScriptHead {
    /// What an object offers.
    fn of(
        alloc: Global,
        names: &FileNames,
        object: &PexObject,
        parent: Option<usize>,
    ) -> Made<ScriptHead>
        ensures { (members : Members) → IfOk result (IsHeadOf members parent names.now object.now) }
    {
        let empty_state = empty_state_place(names, object);
        let functions = signatures_at(alloc, names, object.states.as_slice(), empty_state)?;
        Ok(ScriptHead {
            parent,
            properties: property_heads(alloc, names, object.properties.as_slice())?,
            empty_state,
            functions,
            lacking: Vec::new(alloc),
        })
    }

    /// Adds those of the four members that the script doesn't have.
    fn complete(&mut self, alloc: Global, members: &DefaultMembers<'_>) -> Made<()>
        ensures { (above : Option ℕ) (numbers : List ℕ) (object : PexObject) → number_at numbers object.parent ≡ empty_name
            → IsHeadOf (members_of members.now) above numbers object self.old
            → OnOk result (IsHeadOf (members_of members.now) above numbers object self.new) }
    {
        for (place, member) in members.list.iter().enumerate() {
            let signature = Signature::of(alloc, members.source.names, member.0, &member.1)?;
            self.add_lacking(place, signature)?;
        }
        Ok(())
    }

    // Adds the member at this place, if the script doesn't have it.
    fn add_lacking(&mut self, place: usize, signature: Signature) -> Made<()>
        ensures { (members : Members) (above : Option ℕ) (numbers : List ℕ) (object : PexObject)
            → number_at numbers object.parent ≡ empty_name
            → member_at members place ≡ Some (declared_of signature)
            → IsHeadOf members above numbers object self.old → OnOk result (IsHeadOf members above numbers object self.new) }
    {
        if self.has_function(signature.name) {
            return Ok(());
        }
        self.functions.push(signature)?;
        self.lacking.push(place)?;
        Ok(())
    }

    fn has_function(&self, name: usize) -> bool {
        self.functions.iter().any(|function| function.name == name)
    }
}

// The place of the first state without name.
fn empty_state_place(names: &FileNames, object: &PexObject) -> usize
    ensures { result ≡ empty_state_of names.now object.now.states.items }
{
    for (place, state) in object.states.iter().enumerate() {
        if names.number(state.name) == EMPTY_NAME {
            return place;
        }
    }
    object.states.len()
}

fn property_heads(
    alloc: Global,
    names: &FileNames,
    properties: &[PexProperty],
) -> Made<Vec<PropertySignature>>
    ensures { IfOk result (λ heads. heads.items ≡ map (property_by names.now) properties.now) }
{
    let mut heads = Vec::with_capacity(alloc, properties.len())?;
    for property in properties {
        heads.push(PropertySignature {
            name: names.number(property.name),
            kind: names.number(property.kind),
            bits: property.bits,
        })?;
    }
    Ok(heads)
}

/// The signatures of these functions.
pub(crate) fn signatures(
    alloc: Global,
    names: &FileNames,
    functions: &[(u16, PexFunction)],
) -> Made<Vec<Signature>>
    ensures { IfOk result (λ found. map declared_of found.items ≡ map (declared_by names.now) functions.now) }
{
    let mut found = Vec::with_capacity(alloc, functions.len())?;
    for function in functions {
        found.push(Signature::of(alloc, names, function.0, &function.1)?)?;
    }
    Ok(found)
}

// The parent of the script of this number.
fn parent_of(parents: &[Option<usize>], number: usize) -> Option<usize>
    ensures { result ≡ parent_at parents.now number }
{
    *parents.get(number)?
}

// What the object of this number offers.
fn whole_head(
    alloc: Global,
    number: usize,
    names: &FileNames,
    object: &PexObject,
    parents: &[Option<usize>],
    members: &DefaultMembers<'_>,
) -> Made<ScriptHead>
    ensures { IfOk result (IsHeadOf (members_of members.now) (parent_at parents.now number) names.now object.now) }
{
    let mut head = ScriptHead::of(alloc, names, object, parent_of(parents, number))?;
    if !has_members(number, names, object) {
        return Ok(head);
    }
    head.complete(alloc, members)?;
    Ok(head)
}

// The signatures of the functions of the state at this place, none where there is no such state.
fn signatures_at(
    alloc: Global,
    names: &FileNames,
    states: &[PexState],
    place: usize,
) -> Made<Vec<Signature>>
    ensures { IfOk result (λ found. map declared_of found.items ≡ map (declared_by names.now) (functions_of_state (slice_get states.now place))) }
{
    match states.get(place) {
        Some(state) => signatures(alloc, names, state.functions.as_slice()),
        None => Ok(Vec::new(alloc)),
    }
}

// Adds what the objects of the next file offer.
fn add_heads(
    alloc: Global,
    heads: &mut Vec<ScriptHead>,
    lists: &mut MemberLists,
    parents: &[Option<usize>],
    members: &DefaultMembers<'_>,
    source: &SetFile<'_>,
) -> Made<()>
    ensures count { OnOk result (vec_len heads.new ≡ vec_len heads.old + vec_len source.now.pex.now.objects) }
    ensures heads { (before : List Placed) → AreHeads (members_of members.now) parents.now before heads.old.items
        → OnOk result (AreHeads (members_of members.now) parents.now (before ++ placed_in source.now) heads.new.items) }
    ensures lists { (descent : List Span) (before : List Placed) → length before ≡ vec_len heads.old
        → lists.old ≡ all_members descent before heads.old.items
        → OnOk result (lists.new ≡ all_members descent (before ++ placed_in source.now) heads.new.items) }
{
    for object in &source.pex.objects {
        let number = heads.len();
        let head = whole_head(alloc, number, source.names, object, parents, members)?;
        lists.add(number, source.names, object, &head)?;
        heads.push(head)?;
    }
    Ok(())
}

// What the objects of these files offer.
fn all_heads(
    alloc: Global,
    lists: &mut MemberLists,
    parents: &[Option<usize>],
    members: &DefaultMembers<'_>,
    sources: &[SetFile<'_>],
) -> Made<Vec<ScriptHead>>
    ensures count { IfOk result (λ heads. vec_len heads ≡ object_count sources.now) }
    ensures heads { IfOk result (λ heads. AreHeads (members_of members.now) parents.now (placed_objects sources.now) heads.items) }
    ensures lists { (descent : List Span) → lists.old ≡ no_members descent
        → IfOk result (λ heads. lists.new ≡ all_members descent (placed_objects sources.now) heads.items) }
{
    let mut heads = Vec::with_capacity(alloc, parents.len())?;
    for source in sources {
        add_heads(alloc, &mut heads, lists, parents, members, source)?;
    }
    Ok(heads)
}

// Whether the object of this number is read as if it had the four members.
fn has_members(number: usize, names: &FileNames, object: &PexObject) -> bool
    ensures { result ≡ true → number_at names.now object.now.parent ≡ empty_name }
{
    number >= LIBRARY_COUNT && names.number(object.parent) == EMPTY_NAME
}

impl SetHeads {
    ghost use Rattle.std.specs.Prelude.{Some};
    ghost use Rattle.pex_verify.specs.Found as found;
    ghost use Rattle.pex_verify.specs.Rules as rules;

    /// The scripts of these files, the first of which is the prelude, whose objects are these.
    pub(crate) fn of(
        alloc: Global,
        table: &NameNumbers,
        members: &DefaultMembers<'_>,
        sources: &[SetFile<'_>],
        objects: Objects,
        parents: &[Option<usize>],
    ) -> Made<SetHeads>
        requires { length objects ≡ object_count sources.now }
        ensures count { IfOk result (λ scripts. vec_len scripts.heads ≡ object_count sources.now) }
        ensures objects { IfOk result (λ scripts. scripts.objects ≡ objects) }
        ensures heads { IfOk result (λ scripts. AreHeads (members_of members.now) parents.now (placed_objects sources.now) scripts.heads.items) }
        ensures meanings { IfOk result (λ scripts. (name : ℕ) → IsValueTypeAmong (vec_len scripts.heads) (result_meaning scripts.types name)) }
        ensures table { IfOk result (λ scripts. AreAmong parents.now → AreRooted parents.now
            → IsTable parents.now (placed_objects sources.now) scripts.heads.items scripts.table) }
        ensures types { IfOk result (λ scripts. AreTypes table.now scripts.objects scripts.types) }
    {
        let types = TypeNames::of(alloc, table, &objects)?;
        let mut lists = MemberLists::new(alloc, parents)?;
        Ok(SetHeads {
            heads: all_heads(alloc, &mut lists, parents, members, sources)?,
            members: signatures(alloc, members.source.names, members.list)?,
            types,
            objects,
            table: lists.inherited(alloc)?,
            instance_word: table.find(alloc, b"self")?,
            state_word: table.find(alloc, b"::State")?,
        })
    }

    /// The nearest function of this name in the empty states, from the script upward.
    pub(crate) fn find_function(&self, script: usize, name: usize) -> Option<CalledFunction<'_>>
        ensures among { IfSome result (λ callee. callee.place.object < vec_len self.now.heads) }
        ensures nearest { IfSome result (λ callee. found.function_found self.now script name ≡ Some callee.signature.now) }
        ensures missing { result ≡ None → found.function_found self.now script name ≡ None }
    {
        let place = self.table.in_state(script, EMPTY_NAME, name)?;
        let head = self.heads.get(place.object)?;
        let signature = head.functions.get(place.place)?;
        Some(CalledFunction { place, signature })
    }

    /// The nearest property of this name, from the script upward.
    pub(crate) fn find_property(&self, script: usize, name: usize) -> Option<PropertySignature>
        ensures { result ≡ found.property_found self.now script name }
    {
        let found = self.table.property(script, name)?;
        let head = self.heads.get(found.object)?;
        head.properties.get(found.place).copied()
    }

    /// The place of the script's own first property of this name.
    pub(crate) fn first_property(&self, script: usize, name: usize) -> Option<usize>
        ensures { result ≡ rules.first_property_of self.now script name }
    {
        let found = self.table.property(script, name)?;
        (found.object == script).then_some(found.place)
    }

    /// The places of the members that the script lacks.
    pub(crate) fn lacking(&self, script: usize) -> &[usize]
        ensures { result.now ≡ lacking_in (slice_get self.now.heads.items script) }
    {
        match self.heads.get(script) {
            Some(head) => head.lacking.as_slice(),
            None => &[],
        }
    }

    /// The number of the script's parent, where it is one of the set.
    pub(crate) fn parent_number(&self, script: usize) -> Option<u16>
        ensures among { IfSome result (λ n. n < vec_len self.now.heads) }
        ensures parent { result ≡ parent_among (length self.now.heads.items) (parent_in self.now.heads.items script) }
    {
        let parent = self.parent(script)?;
        if parent < self.heads.len() {
            u16::try_from(parent).ok()
        } else {
            None
        }
    }

    pub(crate) fn parent(&self, script: usize) -> Option<usize>
        ensures { result ≡ parent_in self.now.heads.items script }
    {
        self.heads.get(script)?.parent
    }

    /// The member that every script without parent has, where the name is that of one.
    pub(crate) fn member(&self, name: usize) -> Option<&Signature> {
        self.members.iter().find(|member| member.name == name)
    }

    /// What this name means as the name of the type of a result or a local.
    pub(crate) fn result_type(&self, name: usize) -> ValueType
        ensures meaning { result ≡ result_meaning self.now.types name }
        ensures among { IsValueTypeAmong (vec_len self.now.heads) result }
    {
        self.types.meaning(name)
    }

    /// What this name means as the name of any other type, where None is none.
    pub(crate) fn value_type(&self, name: usize) -> ValueType
        ensures meaning { result ≡ value_meaning self.now.types name }
        ensures among { IsValueTypeAmong (vec_len self.now.heads) result }
    {
        self.result_type(name).without_none()
    }

    /// Whether a value of one type fits the other: it has the type, or is of a script below it, or is None
    /// and the type is a script or array type.
    pub(crate) fn fits(&self, value: ValueType, to: ValueType) -> bool
        ensures { IsTrue result → FitsIn self.now.table.descent value to }
    {
        match (value, to) {
            (ValueType::Of(CoreType::Script(script)), ValueType::Of(CoreType::Script(parent))) => {
                self.table.is_child(script, parent)
            }
            (ValueType::Of(from), ValueType::Of(to)) => from == to,
            (ValueType::Nothing, ValueType::Of(_)) => to.holds_none(),
            (ValueType::Nothing, ValueType::Nothing) => true,
            _ => false,
        }
    }

    /// Whether `as` gives the other type from a value of this one.
    pub(crate) fn casts(&self, value: ValueType, to: ValueType) -> bool
        ensures { IsTrue result → CastsIn self.now.table.descent value to }
    {
        match (value, to) {
            (ValueType::Float | ValueType::Unknown, _) => false,
            (_, ValueType::Of(CoreType::Bool)) => true,
            (ValueType::Of(CoreType::Bool | CoreType::Text), ValueType::Of(CoreType::Int)) => true,
            (
                ValueType::Nothing
                | ValueType::Of(CoreType::Int | CoreType::Bool | CoreType::Script(_)),
                ValueType::Of(CoreType::Text),
            ) => true,
            (ValueType::Of(CoreType::Script(from)), ValueType::Of(CoreType::Script(to))) => {
                self.table.is_child(from, to) || self.table.is_child(to, from)
            }
            _ => self.fits(value, to),
        }
    }
}
