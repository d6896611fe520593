// What words and members name, and the lengths, elements and sizes of arrays.
ghost use Rattle.std.specs.Prelude.{◌≡◌, ◌<◌, ◌≤◌, pos, IfOk, IfSome, IfNone, ℕ};
ghost use Rattle.core_tree.specs.InRange.{Signatures, ResultInRange};
ghost use Rattle.type_scope.specs.Scope.{KindInRange};
ghost use Rattle.type_scope.specs.Types.{signatures};
ghost use Rattle.expression_rules.specs.Ranges.{CoreInRange, TypedInRange, ResolvedInRange, ContextInRange, bounds_of};

use crate::rule::{ScriptNotes, TypeRule};
use crate::scope::{Context, Typed};
use core_tree::{Core, CoreType};
use papy_base::{Made, Name};
use script_linker::PropertyRef;
use script_parser::{Function, Property, PropertyForm};
use type_scope::{Kind, array_of};

// A word of no script: generated functions read and write the state by it.
const STATE_WORD: &[u8] = b"::State";

/// What a word names.
#[derive(Clone, Copy)]
pub(crate) enum Resolved {
    Local(u16, Option<CoreType>),
    Field(u16, Option<CoreType>),
    Property(PropertyRef),
    State,
}

/// What is done with a property.
#[derive(Clone, Copy, PartialEq, Eq)]
pub(crate) enum PropertyUse {
    Read,
    Write,
    /// Read and then written.
    Change,
}

impl Context<'_> {
    /// What a word names: a local or a parameter, a variable of the script, or a property of it or of a parent.
    pub fn resolve(&self, name: &Name) -> Option<Resolved>
        ensures { ContextInRange self.now → IfSome result (ResolvedInRange (bounds_of self.now)) }
    {
        if let Some(local) = self.locals.find(name) {
            let number = u16::try_from(local.number).unwrap_or(u16::MAX);
            return Some(Resolved::Local(number, local.kind));
        }
        if let Some((number, kind)) = self.layout.find(name) {
            return Some(Resolved::Field(number, self.catalog.type_of(kind)));
        }
        if let Some(at) = self.catalog.find_property(self.script, name) {
            return Some(Resolved::Property(at));
        }
        (name.as_bytes() == STATE_WORD).then_some(Resolved::State)
    }

    /// The value of a word that names this.
    pub fn read_word(&self, notes: &mut ScriptNotes, resolved: Resolved, name: &Name) -> Made<Typed>
        ensures { ResolvedInRange (bounds_of self.now) resolved → IfOk result (TypedInRange (bounds_of self.now)) }
    {
        match resolved {
            Resolved::Local(number, kind) => self.typed(Core::Local(number), Kind::from_type(kind)),
            Resolved::State => self.known(Core::StateText, CoreType::Text),
            Resolved::Field(number, kind) => {
                self.needs_instance(notes);
                self.typed(Core::Field(number), Kind::from_type(kind))
            }
            Resolved::Property(at) => {
                self.needs_instance(notes);
                let own = self.own_instance()?;
                self.read_property(notes, own, at, name)
            }
        }
    }

    /// `Self`
    pub fn instance(&self, notes: &mut ScriptNotes) -> Made<Typed>
        ensures { ContextInRange self.now → IfOk result (TypedInRange (bounds_of self.now)) }
    {
        self.needs_instance(notes);
        self.known(Core::SelfValue, CoreType::Script(self.script))
    }

    /// A member of a word that names no value. It may name a script, which has no members.
    pub fn member_of_word(&self, notes: &mut ScriptNotes, word: &Name) -> Made<Typed>
        ensures { IfOk result (TypedInRange (bounds_of self.now)) }
    {
        match self.catalog.find_script(word) {
            Some(_) => self.broken(notes, TypeRule::NoProperty),
            None => self.broken(notes, TypeRule::UnknownName),
        }
    }

    /// `of.name`, read.
    pub fn member(&self, notes: &mut ScriptNotes, of: Typed, name: &Name) -> Made<Typed>
        ensures { TypedInRange (bounds_of self.now) of → IfOk result (TypedInRange (bounds_of self.now)) }
    {
        match self.property_of(notes, of.kind, name) {
            Some(at) => self.read_property(notes, of.core, at, name),
            None => self.unknown(),
        }
    }

    /// The property of this name that values of the type have.
    pub fn property_of(
        &self,
        notes: &mut ScriptNotes,
        kind: Kind,
        name: &Name,
    ) -> Option<PropertyRef> {
        let found = match kind {
            Kind::Unknown => return None,
            Kind::Of(CoreType::Script(script)) => self.catalog.find_property(script, name),
            _ => None,
        };
        if found.is_none() {
            self.fault(notes, TypeRule::NoProperty);
        }
        found
    }

    // The value of a property: a variable, where it is an own Auto property of the frame's instance.
    fn read_property(
        &self,
        notes: &mut ScriptNotes,
        of: Box<Core>,
        at: PropertyRef,
        name: &Name,
    ) -> Made<Typed>
        ensures { CoreInRange (bounds_of self.now) of.value → IfOk result (TypedInRange (bounds_of self.now)) }
    {
        let Some(kind) = self.kind_for(notes, at, PropertyUse::Read) else {
            return self.unknown();
        };
        if let Some(number) = self.own_variable(&of, at) {
            return self.known(Core::Field(number), kind);
        }
        let name = name.try_clone(self.catalog.alloc)?;
        let core = Core::PropGet {
            of,
            name,
            result: kind,
        };
        self.known(core, kind)
    }

    /// A property's type. `PropertyDirection` is broken where it can't be used so.
    pub fn kind_for(
        &self,
        notes: &mut ScriptNotes,
        at: PropertyRef,
        access: PropertyUse,
    ) -> Option<CoreType>
        ensures { ResultInRange (signatures self.now.catalog.now.set.now) result }
    {
        let property = self.catalog.property(at)?;
        if !allows(property, access) {
            self.fault(notes, TypeRule::PropertyDirection);
        }
        self.catalog.type_of(&property.kind)
    }

    /// The number of the variable that keeps a property, where it is an Auto property of the frame's own script
    /// on the frame's own instance.
    pub fn own_variable(&self, of: &Core, at: PropertyRef) -> Option<u16>
        ensures { IfSome result (λ number. number < (bounds_of self.now).variables) }
    {
        if matches!(of, Core::SelfValue) && at.script == self.script {
            self.layout.auto_variable(usize::from(at.place))
        } else {
            None
        }
    }

    /// `of.Length`
    pub fn length(&self, notes: &mut ScriptNotes, of: Typed) -> Made<Typed>
        ensures { TypedInRange (bounds_of self.now) of → IfOk result (TypedInRange (bounds_of self.now)) }
    {
        if of.kind != Kind::Unknown && element_kind(of.kind).is_none() {
            return self.broken(notes, TypeRule::NoProperty);
        }
        self.known(Core::Length(of.core), CoreType::Int)
    }

    /// `of[at]`, read.
    pub fn element(&self, notes: &mut ScriptNotes, of: Typed, at: Typed) -> Made<Typed>
        ensures { TypedInRange (bounds_of self.now) of → TypedInRange (bounds_of self.now) at → IfOk result (TypedInRange (bounds_of self.now)) }
    {
        let at = self.convert(notes, at, Some(CoreType::Int))?;
        match self.indexed(notes, of.kind) {
            Some(element) => self.known(Core::Element(of.core, at, element), element),
            None => self.unknown(),
        }
    }

    /// The type of the elements of what `[ ]` stands on.
    pub fn indexed(&self, notes: &mut ScriptNotes, kind: Kind) -> Option<CoreType>
        ensures { (functions : Signatures) → KindInRange functions kind → ResultInRange functions result }
    {
        let element = element_kind(kind);
        if element.is_none() && kind != Kind::Unknown {
            self.fault(notes, TypeRule::Operand);
        }
        element
    }

    /// `New word[count]`
    pub fn new_array(&self, notes: &mut ScriptNotes, word: &Name, count: i32) -> Made<Typed>
        ensures { IfOk result (TypedInRange (bounds_of self.now)) }
    {
        let size = array_size(count);
        if size.is_none() {
            self.fault(notes, TypeRule::ArraySize);
        }
        let Some(element) = self.catalog.element_type(word) else {
            return self.broken(notes, TypeRule::UnknownType);
        };
        let core = Core::NewArray(element, size.unwrap_or(1));
        self.known(core, array_of(element))
    }
}

fn allows(property: &Property, access: PropertyUse) -> bool {
    match &property.form {
        PropertyForm::Auto(_) => true,
        PropertyForm::ReadOnly(_) => access == PropertyUse::Read,
        PropertyForm::Full(functions) => {
            (access == PropertyUse::Write || has(functions.as_slice(), b"get"))
                && (access == PropertyUse::Read || has(functions.as_slice(), b"set"))
        }
    }
}

fn has(functions: &[Function], name: &[u8]) -> bool {
    functions.iter().any(|function| function.heading.name.as_bytes().eq_ignore_ascii_case(name))
}

/// The type of the elements, where this is the type of an array.
pub(crate) fn element_kind(kind: Kind) -> Option<CoreType>
    ensures { (functions : Signatures) → KindInRange functions kind → ResultInRange functions result }
{
    match kind {
        Kind::Of(array) => array.element(),
        _ => None,
    }
}

// The size of an array, where it is one.
fn array_size(count: i32) -> Option<u8>
    ensures some { IfSome result (λ size. (pos size ≡ count) × (1 ≤ size) × (size ≤ 128)) }
    ensures none { IfNone result ((size : ℕ) → 1 ≤ size → size ≤ 128 → ¬ (pos size ≡ count)) }
{
    match u8::try_from(count) {
        Ok(size) if size >= 1 && size <= 128 => Some(size),
        _ => None,
    }
}
