// The types that values, variables and results have while code is judged, and the names of types.
ghost use Rattle.std.specs.Prelude.{◌≡◌, ℕ, ◌<◌, List, [], Some, IfSome, length, slice_index_or, All, IfOk};
ghost use Rattle.pex_verify.specs.Meanings.{element_type, script_type, takes_none, where_none_is_none, result_meaning};
ghost use Rattle.pex_verify.specs.Types.{IsValueTypeAmong};
ghost use Rattle.pex_verify.specs.TypesMeant.{kind_of, word_in, script_kind, IsLowered, AreScripts, AreMeanings, AreTypes};
ghost use Rattle.pex_meaning.specs.Names.{array_of, type_of_word, type_named};
ghost use Rattle.pex_set.specs.Names.{number_in};
ghost use Rattle.pex_set.specs.Objects.{first_named};
ghost use Rattle.std.specs.Option.{option_and_then, option_or};

use core_tree::CoreType;
use papy_base::{LIBRARY_COUNT, Made};
use pex_set::{NameNumbers, Objects};
use std::alloc::Global;
use std::marker::Model;

/// What a value, a variable, a result or a type name means.
#[derive(Clone, Copy, PartialEq, Eq)]
pub(crate) enum ValueType {
    /// The value None, and what a local or a result of the type `None` holds.
    Nothing,
    /// `Float` and `Float[]`. No value fits it.
    Float,
    /// No type. No value fits it.
    Unknown,
    Of(CoreType),
}

pub(crate) const INT: ValueType = ValueType::Of(CoreType::Int);

pub(crate) const BOOL: ValueType = ValueType::Of(CoreType::Bool);

pub(crate) const TEXT: ValueType = ValueType::Of(CoreType::Text);

impl ValueType {
    /// The same where None is no type.
    pub(crate) fn without_none(self) -> ValueType
        ensures meaning { result ≡ where_none_is_none self }
        ensures among { (count : ℕ) → IsValueTypeAmong count self → IsValueTypeAmong count result }
    {
        match self {
            ValueType::Nothing => ValueType::Unknown,
            found => found,
        }
    }

    /// Whether it is a script type or an array type, to which None belongs.
    pub(crate) fn holds_none(self) -> bool
        ensures { result ≡ takes_none self }
    {
        match self {
            ValueType::Of(kind) => kind.holds_none(),
            _ => false,
        }
    }

    /// The type of an array's elements.
    pub(crate) fn element(self) -> Option<ValueType>
        ensures { result ≡ element_type self }
    {
        match self {
            Self::Of(kind) => Some(Self::Of(kind.element()?)),
            _ => None,
        }
    }

    /// The script of a script type.
    pub(crate) fn script(self) -> Option<u16>
        ensures { result ≡ script_type self }
    {
        match self {
            ValueType::Of(CoreType::Script(script)) => Some(script),
            _ => None,
        }
    }

    /// The type of arrays of this element type, where there are such.
    pub(crate) fn array(self) -> Option<ValueType>
        ensures among { (count : ℕ) → IsValueTypeAmong count self → IfSome result (IsValueTypeAmong count) }
        ensures elements { IfSome result (λ array. element_type array ≡ Some self) }
        ensures meant { option_and_then kind_of result ≡ option_and_then array_of (kind_of self) }
    {
        match self {
            Self::Of(CoreType::Int) => Some(Self::Of(CoreType::IntArray)),
            Self::Of(CoreType::Bool) => Some(Self::Of(CoreType::BoolArray)),
            Self::Of(CoreType::Text) => Some(Self::Of(CoreType::TextArray)),
            Self::Of(CoreType::Script(script)) => Some(Self::Of(CoreType::ScriptArray(script))),
            _ => None,
        }
    }
}

/// What names mean as names of types, in a set of so many scripts.
#[derive(Drop)]
pub(crate) struct TypeNames {
    scripts: usize,
    // By the numbers of the names.
    meanings: Vec<ValueType>,
}

impl Model for TypeNames {
    ghost use Rattle.std.specs.Prelude.{All};
    ghost use Rattle.pex_verify.specs.Meanings.{Meanings};
    ghost use Rattle.pex_verify.specs.Types.{IsValueTypeAmong};

    ghost Value = { Meanings };

    ghost view = { λ types. record { scripts = types.scripts; meanings = types.meanings.items } };

    ghost invariant = { λ types. All (IsValueTypeAmong types.scripts) types.meanings.items };
}

impl TypeNames {
    /// What the names of the table mean, where the scripts are these objects.
    pub(crate) fn of(alloc: Global, table: &NameNumbers, objects: &Objects) -> Made<TypeNames>
        ensures scripts { IfOk result (λ types. types.scripts ≡ length objects.now) }
        ensures meanings { IfOk result (λ types. (name : ℕ) → IsValueTypeAmong types.scripts (result_meaning types name)) }
        ensures meant { IfOk result (AreTypes table.now objects.now) }
    {
        Ok(TypeNames {
            scripts: objects.count(),
            meanings: meanings_of_names(alloc, table, objects)?,
        })
    }

    /// What the name of this number means.
    pub(crate) fn meaning(&self, name: usize) -> ValueType
        ensures meaning { result ≡ result_meaning self.now name }
        ensures among { IsValueTypeAmong self.now.scripts result }
    {
        let meaning = self.meanings.get(name);
        meaning.copied().unwrap_or(ValueType::Unknown)
    }
}

fn meanings_of_names(alloc: Global, table: &NameNumbers, objects: &Objects) -> Made<Vec<ValueType>>
    ensures among { IfOk result (λ meanings. All (IsValueTypeAmong (length objects.now)) meanings.items) }
    ensures meant { IfOk result (λ meanings. AreMeanings table.now objects.now (length table.now) meanings.items) }
{
    let mut meanings = Vec::with_capacity(alloc, table.count())?;
    for number in 0..table.count() {
        meanings.push(meaning_of(alloc, table, objects, number)?)?;
    }
    Ok(meanings)
}

fn meaning_of(
    alloc: Global,
    table: &NameNumbers,
    objects: &Objects,
    number: usize,
) -> Made<ValueType>
    ensures among { IfOk result (IsValueTypeAmong (length objects.now)) }
    ensures meant { (scripts : List (List ℕ)) → AreScripts table.now objects.now scripts → number_in table.now (slice_index_or table.now number []) ≡ Some number
        → IfOk result (λ meaning. kind_of meaning ≡ type_named scripts (slice_index_or table.now number [])) }
{
    let name = table.name(number);
    if name == b"none".as_slice() {
        return Ok(ValueType::Nothing);
    }
    let plain = plain_meaning(objects, name, Some(number));
    match name.strip_suffix(b"[]") {
        Some(element) => {
            let found = table.find(alloc, element)?;
            Ok(array_or(plain_meaning(objects, element, found), plain))
        }
        None => Ok(plain),
    }
}

// The arrays of this element type, and the other type where there are none.
fn array_or(element: ValueType, other: ValueType) -> ValueType
    ensures among { (count : ℕ) → IsValueTypeAmong count element → IsValueTypeAmong count other → IsValueTypeAmong count result }
    ensures meant { kind_of result ≡ option_or (option_and_then array_of (kind_of element)) (kind_of other) }
{
    match element.array() {
        Some(array) => array,
        None => other,
    }
}

// The meaning of a name that is no array type, and has this number if any.
fn plain_meaning(objects: &Objects, name: &[u8], number: Option<usize>) -> ValueType
    ensures among { IsValueTypeAmong (length objects.now) result }
    ensures meant { (names scripts : List (List ℕ)) → AreScripts names objects.now scripts → number ≡ number_in names name.now → IsLowered name.now
        → kind_of result ≡ type_of_word scripts name.now }
{
    if let Some(found) = word_meaning(name) {
        return found;
    }
    match script_of(objects, number) {
        Some(script) => script_meaning(script, objects.count()),
        None => ValueType::Unknown,
    }
}

// The first script of the name of this number, if any.
fn script_of(objects: &Objects, number: Option<usize>) -> Option<usize>
    ensures { result ≡ option_and_then (first_named objects.now) number }
{
    match number {
        Some(number) => objects.first_named(number),
        None => None,
    }
}

// The meaning of the words of the language. They win over scripts of such a name.
fn word_meaning(name: &[u8]) -> Option<ValueType>
    ensures among { (count : ℕ) → IfSome result (IsValueTypeAmong count) }
    ensures word { result ≡ word_in name.now }
{
    if name == b"int".as_slice() {
        Some(INT)
    } else if name == b"bool".as_slice() {
        Some(BOOL)
    } else if name == b"string".as_slice() {
        Some(TEXT)
    } else if name == b"float".as_slice() || name == b"float[]".as_slice() {
        Some(ValueType::Float)
    } else if name == b"none".as_slice() {
        Some(ValueType::Unknown)
    } else {
        None
    }
}

// The type of the instances of a script among so many. A library has none.
fn script_meaning(script: usize, count: usize) -> ValueType
    ensures among { IsValueTypeAmong count result }
    ensures meant { count < 65536 → script < count → kind_of result ≡ script_kind (Some script) }
{
    if script < LIBRARY_COUNT || script >= count {
        return ValueType::Unknown;
    }
    match u16::try_from(script) {
        Ok(script) => ValueType::Of(CoreType::Script(script)),
        Err(_) => ValueType::Unknown,
    }
}
