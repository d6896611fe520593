// The scripts of a set by their names, and what names mean in them.
ghost use Rattle.std.specs.Prelude.{◌≡◌, ◌<◌, ◌≤◌, length, IfNone, IfOk, IfSome, OnSome, slice_index_or};
ghost use Rattle.core_tree.specs.InRange.{Signatures, TypeInRange, ResultInRange};
ghost use Rattle.script_linker.specs.Lookup.{parent_in, script_name, script_named};
ghost use Rattle.papy_base.specs.Table.{IsPlaceTable};
ghost use Rattle.type_scope.specs.Scope.{IsCallee, KindInRange};
ghost use Rattle.type_scope.specs.Types.{array_of, element_named, plain_type, signatures, type_named};

use crate::COMPARED_LIMIT;
use core_tree::{CoreType, FunctionPlace};
use line_parser::{Heading, TypeName};
use papy_base::{LIBRARY_COUNT, Made, Name, NameTable};
use script_linker::{PropertyRef, ScriptSet};
use script_parser::{Property, Script};
use std::alloc::Global;

/// What is known of the type of an expression.
#[derive(Clone, Copy, PartialEq, Eq)]
pub enum Kind {
    /// It has this type.
    Of(CoreType),
    /// It is the literal None.
    NoneLiteral,
    /// It calls a function without result.
    Nothing,
    /// Its type isn't known, since a rule is broken.
    Unknown,
}

impl Kind {
    /// What is known where a type was looked up.
    pub fn from_type(found: Option<CoreType>) -> Kind
        ensures { (functions : Signatures) → ResultInRange functions found → KindInRange functions result }
    {
        match found {
            Some(found) => Kind::Of(found),
            None => Kind::Unknown,
        }
    }
}

/// A function that a call means.
#[derive(Clone, Copy)]
pub struct Callee<'a> {
    pub at: FunctionPlace,
    pub heading: &'a Heading,
}

/// The scripts of a set by their names. A name that two scripts bear means the first.
#[derive(Drop)]
pub struct Catalog<'a> {
    pub alloc: Global,
    pub set: &'a ScriptSet,
    numbers: NameTable,
    ghost numbered: { IsPlaceTable script_name set.now numbers },
}

impl<'a> Catalog<'a> {
    ghost use Rattle.script_linker.specs.declared.set.SourceFile.{SourceFile};

    /// The catalog of a set.
    pub fn new(alloc: Global, set: &'a ScriptSet) -> Made<Catalog<'a>>
        ensures { IfOk result (λ catalog. catalog.set.now ≡ set.now) }
    {
        let mut numbers = NameTable::new(alloc);
        for number in 0..set.count() {
            numbers.note(alloc, &set.script(number).name, usize::from(number))?;
        }
        Ok(Catalog {
            alloc,
            set,
            numbers,
        })
    }

    /// The number of the first script of this name.
    pub fn find_script(&self, name: &Name) -> Option<u16>
        ensures found { result ≡ script_named self.now.set.now name.now }
        ensures within { IfSome result (λ n. n < length self.now.set.now) }
    {
        match self.numbers.find(name) {
            Some(number) if number < usize::from(self.set.count()) => Some(number as u16),
            _ => None,
        }
    }

    /// The script of this number.
    pub fn script(&self, number: u16) -> Option<&'a Script>
        ensures within { OnSome result (number < length self.now.set.now) }
        ensures none { IfNone result (length self.now.set.now ≤ number) }
        ensures script { (file : SourceFile) → IfSome result (λ script. script.now ≡ (slice_index_or self.now.set.now number file).script) }
    {
        if number < self.set.count() {
            Some(self.set.script(number))
        } else {
            None
        }
    }

    /// The parent of a script, where it has one.
    pub fn parent_of(&self, script: u16) -> Option<u16>
        ensures parent { (file : SourceFile) → script < length self.now.set.now → result ≡ parent_in self.now.set.now (slice_index_or self.now.set.now script file) }
        ensures within { IfSome result (λ n. n < length self.now.set.now) }
    {
        self.find_script(self.script(script)?.parent.as_ref()?)
    }

    /// The type that is written so, or none.
    pub fn type_of(&self, name: &TypeName) -> Option<CoreType>
        ensures found { result ≡ type_named self.now.set.now name.now }
        ensures in_range { ResultInRange (signatures self.now.set.now) result }
    {
        let element = self.element_type(&name.word)?;
        if name.is_array {
            Some(array_of(element))
        } else {
            Some(element)
        }
    }

    /// The type of this name that is no array, or none.
    pub fn element_type(&self, word: &Name) -> Option<CoreType>
        ensures found { result ≡ element_named self.now.set.now word.now }
        ensures in_range { ResultInRange (signatures self.now.set.now) result }
    {
        if let Some(found) = plain_type(word.as_bytes()) {
            return Some(found);
        }
        match self.find_script(word) {
            Some(script) if usize::from(script) >= LIBRARY_COUNT => Some(CoreType::Script(script)),
            _ => None,
        }
    }

    /// The nearest function of this name in the empty states, from the script upward.
    pub fn find_function(&self, script: u16, name: &Name) -> Option<Callee<'a>>
        ensures { IfSome result (IsCallee self.now.set.now name.now) }
    {
        if script >= self.set.count() {
            return None;
        }
        let found = self.set.find_function(script, name)?;
        let functions = self.script(found.script)?.functions.as_slice();
        let function = functions.get(usize::from(found.place))?;
        Some(Callee {
            at: FunctionPlace {
                script: found.script,
                place: found.place,
            },
            heading: &function.heading,
        })
    }

    /// The nearest property of this name, from the script upward.
    pub fn find_property(&self, script: u16, name: &Name) -> Option<PropertyRef> {
        let own = self.script(script)?.properties.as_slice();
        if own.len() <= COMPARED_LIMIT
            && let Some(place) = own.iter().position(|property| property.name.same(name))
        {
            return Some(PropertyRef {
                script,
                place: place as u16,
            });
        }
        self.set.find_property(script, name)
    }

    /// The property at this place.
    pub fn property(&self, at: PropertyRef) -> Option<&'a Property> {
        let properties = self.script(at.script)?.properties.as_slice();
        properties.get(usize::from(at.place))
    }

    /// Whether the parent is the script itself or stands above it.
    pub fn is_child(&self, child: u16, parent: u16) -> bool {
        child < self.set.count() && self.set.is_child(child, parent)
    }

    /// The first Global function of this name that a script imported by this one has itself.
    pub fn find_imported(&self, script: u16, name: &Name) -> Option<Callee<'a>>
        ensures { IfSome result (IsCallee self.now.set.now name.now) }
    {
        for (_, import) in &self.script(script)?.imports {
            if let Some(script) = self.find_script(import)
                && let Some(found) = self.find_function(script, name)
                && found.at.script == script
                && found.heading.is_global
            {
                return Some(found);
            }
        }
        None
    }
}

// `Int`, `Bool` and `String`.
fn plain_type(word: &[u8]) -> Option<CoreType>
    ensures found { result ≡ plain_type word.now }
    ensures in_range { (functions : Signatures) → ResultInRange functions result }
{
    if word == b"Int".as_slice() {
        Some(CoreType::Int)
    } else if word == b"Bool".as_slice() {
        Some(CoreType::Bool)
    } else if word == b"String".as_slice() {
        Some(CoreType::Text)
    } else {
        None
    }
}

/// The type of arrays of this element type. An array type stays as it is.
pub fn array_of(element: CoreType) -> CoreType
    ensures found { result ≡ array_of element }
    ensures in_range { (functions : Signatures) → TypeInRange functions element → TypeInRange functions result }
{
    match element {
        CoreType::Int => CoreType::IntArray,
        CoreType::Bool => CoreType::BoolArray,
        CoreType::Text => CoreType::TextArray,
        CoreType::Script(script) => CoreType::ScriptArray(script),
        array => array,
    }
}
