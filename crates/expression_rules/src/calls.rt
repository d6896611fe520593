// The forms of calls, and their arguments: each finds its parameter, and default arguments follow.
ghost use Rattle.std.specs.Prelude.{◌≡◌, ◌<◌, ℕ, false, IfOk, IfSome, OnOk, Some, slice_get, vec_len};
ghost use Rattle.core_tree.specs.InRange.{Bounds, NameTakes, PlaceTakes, TypeInRange, ResultInRange};
ghost use Rattle.type_scope.specs.Scope.{IsCallee, KindInRange};
ghost use Rattle.expression_rules.specs.Ranges.{CoreInRange, TypedInRange, GivenInRange, ParametersInRange, ArgumentsInRange, CompleteInRange, CallFormInRange, bounds_of, heading_count, parameter_count};

use crate::conversions::{default_fits, kind_of, value_of};
use crate::names::element_kind;
use crate::rule::{ScriptNotes, TypeRule};
use crate::scope::{Context, Typed};
use core_tree::{Core, CoreType, FunctionPlace};
use line_parser::{Constant, Heading, Parameter, TypeName};
use papy_base::{Made, Name, OutOfMemory};
use std::alloc::Global;
use type_scope::{Callee, Kind};

/// An argument as it is written: its value, and the parameter's name where that stands before it.
#[derive(Drop)]
pub(crate) struct Given<'t> {
    pub(crate) name: Option<&'t Name>,
    pub(crate) value: Typed,
}

/// A call as it is written: the function's name, and the arguments. These are kept with the last one
/// first, so that each is taken from the end.
#[derive(Drop)]
pub(crate) struct WrittenCall<'t> {
    pub(crate) name: &'t Name,
    pub(crate) given: Vec<Given<'t>>,
}

// The parameters of what is called.
#[derive(Clone, Copy)]
enum Parameters<'a> {
    Declared(&'a [Parameter]),
    // Those of `.Find` and `.RFind`: a value, and the place to start at.
    Search {
        element: CoreType,
        start: &'a Constant,
    },
}

impl<'a> Parameters<'a> {
    fn count(&self) -> usize
        ensures { result ≡ parameter_count self.now }
    {
        match self {
            Parameters::Declared(parameters) => parameters.len(),
            Parameters::Search { .. } => 2,
        }
    }

    // The place of the first parameter of this name.
    fn place_of(&self, name: &Name) -> Option<usize> {
        match self {
            Parameters::Declared(parameters) => parameters
                .iter()
                .position(|parameter| parameter.name.same(name)),
            Parameters::Search { .. } if name.as_bytes().eq_ignore_ascii_case(b"value") => Some(0),
            Parameters::Search { .. } if name.as_bytes().eq_ignore_ascii_case(b"start") => Some(1),
            Parameters::Search { .. } => None,
        }
    }

    // The type of the parameter at this place, where it is known.
    fn kind(&self, context: &Context<'_>, place: usize) -> Option<CoreType>
        ensures { ParametersInRange (bounds_of context.now) self.now → ResultInRange (bounds_of context.now).functions result }
    {
        match self {
            Parameters::Declared(parameters) => {
                context.catalog.type_of(&parameters.get(place)?.kind)
            }
            Parameters::Search { element, .. } if place == 0 => Some(*element),
            Parameters::Search { .. } => Some(CoreType::Int),
        }
    }

    // The default of the parameter at this place.
    fn default(&self, place: usize) -> Option<&'a Constant> {
        match *self {
            Parameters::Declared(parameters) => parameters.get(place)?.default.as_ref(),
            Parameters::Search { start, .. } if place == 1 => Some(start),
            Parameters::Search { .. } => None,
        }
    }
}

// Arguments with the number of each one's parameter.
#[derive(Drop)]
struct Arguments {
    cores: Vec<Core>,
    places: Vec<u16>,
    // Which parameters have an argument.
    filled: Vec<bool>,
}

impl Arguments {
    fn new(alloc: Global, parameters: usize) -> Made<Arguments>
        ensures { (b : Bounds) → IfOk result (ArgumentsInRange b parameters) }
    {
        Ok(Arguments {
            cores: Vec::with_capacity(alloc, parameters)?,
            places: Vec::with_capacity(alloc, parameters)?,
            filled: vec![in alloc; false; parameters]?,
        })
    }

    // The place, where it is a parameter's that has no argument yet.
    fn free(&self, place: Option<usize>) -> Option<usize>
        ensures within { IfSome result (λ found. found < vec_len self.now.filled) }
        ensures free { IfSome result (λ found. slice_get self.now.filled.items found ≡ Some false) }
    {
        let place = place?;
        match self.filled.get(place) {
            Some(false) => Some(place),
            _ => None,
        }
    }

    fn add(&mut self, place: usize, core: Core) -> Made<()>
        requires within { place < vec_len self.old.filled }
        requires free { slice_get self.old.filled.items place ≡ Some false }
        ensures { (b : Bounds) (count : ℕ) → ArgumentsInRange b count self.old → CoreInRange b core → OnOk result (ArgumentsInRange b count self.new) }
    {
        // A heading has at most 8,000 tokens.
        let Ok(number) = u16::try_from(place) else {
            drop(core);
            return Err(OutOfMemory);
        };
        self.filled[place] = true;
        self.cores.push(core)?;
        self.places.push(number)?;
        Ok(())
    }

    // The arguments, where each parameter has one.
    fn complete(self) -> Option<Arguments>
        ensures { (b : Bounds) (count : ℕ) → ArgumentsInRange b count self → IfSome result (CompleteInRange b count) }
    {
        if self.cores.len() == self.filled.len() {
            Some(self)
        } else {
            None
        }
    }
}

// How a function is called.
#[derive(Drop)]
enum CallForm<'t> {
    // By name, of an instance.
    Method(Box<Core>, &'t Name),
    // By name, of the parent.
    Parent(&'t Name),
    Global(FunctionPlace),
    Native(FunctionPlace),
}

impl<'s> Context<'s> {
    /// `name(arguments)`: a function of the script or of a parent, else a Global one of an import.
    pub fn plain_call(&self, notes: &mut ScriptNotes, call: WrittenCall<'_>) -> Made<Typed>
        ensures { GivenInRange (bounds_of self.now) call.entry.given.items → IfOk result (TypedInRange (bounds_of self.now)) }
    {
        let Some(callee) = self.plain_callee(call.name) else {
            return self.broken(notes, TypeRule::NoFunction);
        };
        if callee.heading.is_global {
            return self.global_call(notes, callee, call.given);
        }
        self.needs_instance(notes);
        let form = CallForm::Method(self.own_instance()?, call.name);
        self.call(notes, form, callee.heading, call.given)
    }

    fn plain_callee(&self, name: &Name) -> Option<Callee<'s>>
        ensures { IfSome result (IsCallee self.now.catalog.now.set.now name.now) }
    {
        match self.catalog.find_function(self.script, name) {
            Some(callee) => Some(callee),
            None => self.catalog.find_imported(self.script, name),
        }
    }

    /// `Parent.name(arguments)`
    pub fn parent_call(&self, notes: &mut ScriptNotes, call: WrittenCall<'_>) -> Made<Typed>
        ensures { GivenInRange (bounds_of self.now) call.entry.given.items → IfOk result (TypedInRange (bounds_of self.now)) }
    {
        self.needs_instance(notes);
        let Some(parent) = self.catalog.parent_of(self.script) else {
            return self.broken(notes, TypeRule::NoParent);
        };
        match self.method_named(parent, call.name) {
            Some(heading) => self.call(notes, CallForm::Parent(call.name), heading, call.given),
            None => self.broken(notes, TypeRule::NoFunction),
        }
    }

    /// `word.name(arguments)` where the word names no value: a Global function of the script of that name, or
    /// of a parent of it.
    pub fn script_call(
        &self,
        notes: &mut ScriptNotes,
        word: &Name,
        call: WrittenCall<'_>,
    ) -> Made<Typed>
        ensures { GivenInRange (bounds_of self.now) call.entry.given.items → IfOk result (TypedInRange (bounds_of self.now)) }
    {
        let Some(script) = self.catalog.find_script(word) else {
            return self.broken(notes, TypeRule::UnknownName);
        };
        match self.catalog.find_function(script, call.name) {
            Some(callee) if callee.heading.is_global => {
                self.global_call(notes, callee, call.given)
            }
            _ => self.broken(notes, TypeRule::NoFunction),
        }
    }

    fn global_call(
        &self,
        notes: &mut ScriptNotes,
        callee: Callee<'_>,
        given: Vec<Given<'_>>,
    ) -> Made<Typed>
        ensures { PlaceTakes (bounds_of self.now).functions callee.entry.at (heading_count callee.entry.heading.now) → GivenInRange (bounds_of self.now) given.entry.items → IfOk result (TypedInRange (bounds_of self.now)) }
    {
        notes.write_out(callee.heading.name.as_bytes())?;
        if callee.heading.is_native {
            return self.call(notes, CallForm::Native(callee.at), callee.heading, given);
        }
        self.call(notes, CallForm::Global(callee.at), callee.heading, given)
    }

    /// `of.name(arguments)`: a search in an array, or a function of the value's script or of a parent.
    pub fn member_call(
        &self,
        notes: &mut ScriptNotes,
        of: Typed,
        call: WrittenCall<'_>,
    ) -> Made<Typed>
        ensures { TypedInRange (bounds_of self.now) of → GivenInRange (bounds_of self.now) call.entry.given.items → IfOk result (TypedInRange (bounds_of self.now)) }
    {
        if of.kind == Kind::Unknown {
            return self.unknown();
        }
        if let Some(element) = element_kind(of.kind) {
            return self.search_call(notes, of.core, element, call);
        }
        if let Kind::Of(CoreType::Script(script)) = of.kind
            && let Some(heading) = self.method_named(script, call.name)
        {
            let form = CallForm::Method(of.core, call.name);
            return self.call(notes, form, heading, call.given);
        }
        self.broken(notes, TypeRule::NoFunction)
    }

    // The nearest function of this name, where it isn't Global.
    fn method_named(&self, script: u16, name: &Name) -> Option<&'s Heading>
        ensures { IfSome result (λ heading. NameTakes (bounds_of self.now).functions name.now (heading_count heading.now)) }
    {
        let callee = self.catalog.find_function(script, name)?;
        if callee.heading.is_global {
            None
        } else {
            Some(callee.heading)
        }
    }

    // A call of a function with this heading. It keeps its type where a rule is broken in its arguments.
    fn call(
        &self,
        notes: &mut ScriptNotes,
        form: CallForm<'_>,
        heading: &Heading,
        given: Vec<Given<'_>>,
    ) -> Made<Typed>
        ensures { CallFormInRange (bounds_of self.now) (heading_count heading.now) form.entry → GivenInRange (bounds_of self.now) given.entry.items → IfOk result (TypedInRange (bounds_of self.now)) }
    {
        let parameters = Parameters::Declared(heading.parameters.as_slice());
        let found = self.place_arguments(notes, given, parameters)?;
        let (result_type, kind) = self.result_of(&heading.result);
        match found {
            Some(found) => self.typed(self.call_tree(form, found, result_type)?, kind),
            None => self.without_tree(kind),
        }
    }

    fn call_tree(
        &self,
        form: CallForm<'_>,
        found: Arguments,
        result_type: Option<CoreType>,
    ) -> Made<Core>
        ensures { (b : Bounds) (count : ℕ) → CallFormInRange b count form.entry → CompleteInRange b count found → ResultInRange b.functions result_type → IfOk result (CoreInRange b) }
    {
        let alloc = self.catalog.alloc;
        let (arguments, places) = (found.cores, found.places);
        match form {
            CallForm::Method(of, name) => Ok(Core::CallMethod {
                name: name.try_clone(alloc)?,
                of,
                arguments,
                places,
                result: result_type,
            }),
            CallForm::Parent(name) => Ok(Core::CallParent {
                name: name.try_clone(alloc)?,
                arguments,
                places,
                result: result_type,
            }),
            CallForm::Global(at) => Ok(Core::CallGlobal {
                at,
                arguments,
                places,
                result: result_type,
            }),
            CallForm::Native(at) => Ok(Core::CallNative {
                at,
                arguments,
                places,
                result: result_type,
            }),
        }
    }

    // The type that a function gives, and what is known of it.
    fn result_of(&self, name: &Option<TypeName>) -> (Option<CoreType>, Kind)
        ensures { ResultInRange (bounds_of self.now).functions result.0 × KindInRange (bounds_of self.now).functions result.1 }
    {
        match name {
            Some(name) => {
                let found = self.catalog.type_of(name);
                (found, Kind::from_type(found))
            }
            None => (None, Kind::Nothing),
        }
    }

    // `.Find` and `.RFind`
    fn search_call(
        &self,
        notes: &mut ScriptNotes,
        array: Box<Core>,
        element: CoreType,
        call: WrittenCall<'_>,
    ) -> Made<Typed>
        ensures { CoreInRange (bounds_of self.now) array.value → TypeInRange (bounds_of self.now).functions element → GivenInRange (bounds_of self.now) call.entry.given.items → IfOk result (TypedInRange (bounds_of self.now)) }
    {
        let name = call.name.as_bytes();
        let backward = name.eq_ignore_ascii_case(b"rfind");
        if !backward && !name.eq_ignore_ascii_case(b"find") {
            return self.broken(notes, TypeRule::NoFunction);
        }
        let start = Constant::Int(if backward { -1 } else { 0 });
        let parameters = Parameters::Search {
            element,
            start: &start,
        };
        let found = self.place_arguments(notes, call.given, parameters)?;
        match value_and_start(found) {
            Some((value, start)) => self.search(backward, array, value, start),
            None => self.without_tree(Kind::Of(CoreType::Int)),
        }
    }

    fn search(&self, backward: bool, array: Box<Core>, value: Core, start: Core) -> Made<Typed>
        ensures { CoreInRange (bounds_of self.now) array.value → CoreInRange (bounds_of self.now) value → CoreInRange (bounds_of self.now) start → IfOk result (TypedInRange (bounds_of self.now)) }
    {
        let value = Box::new(self.catalog.alloc, value)?;
        let start = Box::new(self.catalog.alloc, start)?;
        if backward {
            self.known(Core::FindBack(array, value, start), CoreType::Int)
        } else {
            self.known(Core::Find(array, value, start), CoreType::Int)
        }
    }

    // The arguments of a call in order of writing, and then the default arguments in order of parameters.
    // There are none where a rule is broken in them, or where too many defaults are written out.
    fn place_arguments(
        &self,
        notes: &mut ScriptNotes,
        given: Vec<Given<'_>>,
        parameters: Parameters<'_>,
    ) -> Made<Option<Arguments>>
        ensures { GivenInRange (bounds_of self.now) given.entry.items → ParametersInRange (bounds_of self.now) parameters.entry → IfOk result (λ found. IfSome found (CompleteInRange (bounds_of self.now) (parameter_count parameters.entry))) }
    {
        let mut given = given;
        let mut found = Arguments::new(self.catalog.alloc, parameters.count())?;
        let mut named = false;
        let mut position = 0;
        'given: while let Some(Given { name, value }) = given.pop() {
            named = named || name.is_some();
            let place = match name {
                Some(name) => parameters.place_of(name),
                None if named => None,
                None => Some(position),
            };
            self.place_argument(notes, &mut found, parameters, place, value)?;
            position = usize::saturating_add(position, 1);
        }
        self.add_defaults(notes, &mut found, parameters)?;
        Ok(found.complete())
    }

    // Gives the parameter at this place an argument.
    fn place_argument(
        &self,
        notes: &mut ScriptNotes,
        found: &mut Arguments,
        parameters: Parameters<'_>,
        place: Option<usize>,
        value: Typed,
    ) -> Made<()>
        ensures { ParametersInRange (bounds_of self.now) parameters.entry → ArgumentsInRange (bounds_of self.now) (parameter_count parameters.entry) found.old → TypedInRange (bounds_of self.now) value → OnOk result (ArgumentsInRange (bounds_of self.now) (parameter_count parameters.entry) found.new) }
    {
        let Some(place) = found.free(place) else {
            self.fault(notes, TypeRule::Arguments);
            return Ok(());
        };
        let core = self.convert(notes, value, parameters.kind(self, place))?;
        found.add(place, Box::into_inner(core))
    }

    // Gives each parameter that has none its default argument.
    fn add_defaults(
        &self,
        notes: &mut ScriptNotes,
        found: &mut Arguments,
        parameters: Parameters<'_>,
    ) -> Made<()>
        ensures { ParametersInRange (bounds_of self.now) parameters.entry → ArgumentsInRange (bounds_of self.now) (parameter_count parameters.entry) found.old → OnOk result (ArgumentsInRange (bounds_of self.now) (parameter_count parameters.entry) found.new) }
    {
        for place in 0..parameters.count() {
            if let Some(place) = found.free(Some(place))
                && !self.add_default(notes, found, parameters, place)?
            {
                return Ok(());
            }
        }
        Ok(())
    }

    // Gives a parameter its default argument, and whether there is one, unless there are too many already.
    fn add_default(
        &self,
        notes: &mut ScriptNotes,
        found: &mut Arguments,
        parameters: Parameters<'_>,
        place: usize,
    ) -> Made<bool>
        requires within { place < vec_len found.old.filled }
        requires free { slice_get found.old.filled.items place ≡ Some false }
        ensures { ParametersInRange (bounds_of self.now) parameters.entry → ArgumentsInRange (bounds_of self.now) (parameter_count parameters.entry) found.old → OnOk result (ArgumentsInRange (bounds_of self.now) (parameter_count parameters.entry) found.new) }
    {
        let Some(default) = parameters.default(place) else {
            self.fault(notes, TypeRule::Arguments);
            return Ok(false);
        };
        if !notes.takes_default() {
            return Ok(false);
        }
        if let Constant::Quoted(text) = default {
            notes.write_out(text.as_bytes())?;
        }
        let core = self.default_argument(notes, default, parameters.kind(self, place))?;
        found.add(place, Box::into_inner(core))?;
        Ok(true)
    }

    // A default with the `Cast` that its parameter needs. One that doesn't convert is a broken rule of the
    // function that declares it.
    fn default_argument(
        &self,
        notes: &mut ScriptNotes,
        default: &Constant,
        kind: Option<CoreType>,
    ) -> Made<Box<Core>>
        ensures { ResultInRange (bounds_of self.now).functions kind → IfOk result (λ core. CoreInRange (bounds_of self.now) core.value) }
    {
        let literal = value_of(self.catalog.alloc, default)?;
        let value = self.literal(literal, kind_of(default))?;
        if default_fits(self.catalog, default, kind) {
            self.convert(notes, value, kind)
        } else {
            Ok(value.core)
        }
    }
}

// The value that is looked for, and the place to start at.
fn value_and_start(found: Option<Arguments>) -> Option<(Core, Core)>
    ensures { (b : Bounds) (count : ℕ) → IfSome found (CompleteInRange b count) → IfSome result (λ parts. CoreInRange b parts.0 × CoreInRange b parts.1) }
{
    let mut found = found?;
    let second = found.cores.pop()?;
    let Some(first) = found.cores.pop() else {
        drop(second);
        return None;
    };
    if found.places.first() == Some(&0) {
        Some((first, second))
    } else {
        Some((second, first))
    }
}
