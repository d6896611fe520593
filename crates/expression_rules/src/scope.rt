// One function while its lines are judged, and values of which larger expressions are made.
ghost use Rattle.std.specs.Prelude.{◌≡◌, ◌<◌, ◌++◌, ◌∷◌, [], IfNone, IfOk, IfSome, IsSome, IsTrue, OnOk, min, vec_len};
ghost use Rattle.core_tree.specs.InRange.{TypeInRange, ResultInRange, LiteralInRange};
ghost use Rattle.type_scope.specs.Scope.{KindInRange};
ghost use Rattle.type_scope.specs.Types.{signatures, type_named};
ghost use Rattle.expression_rules.specs.Ranges.{CoreInRange, FormInRange, TypedInRange, bounds_of};
ghost use Rattle.expression_rules.specs.Rules.{rule_number};
ghost use Rattle.papy_base.specs.Earliest.{IsFirst};
ghost use Rattle.expression_rules.specs.Scopes.{Keeps, ScopeInRange, scope_bounds};

use crate::rule::{ScriptNotes, TypeRule};
use core_tree::{Core, CoreStatement, CoreType, Value};
use line_parser::{Expr, TypeName};
use papy_base::{Made, Name};
use script_lexer::Sign;
use type_scope::{Catalog, Kind, Layout, Locals};

/// An expression's tree, and what is known of its type.
///
/// Where a rule is broken the tree is some tree, which nobody uses.
#[derive(Drop)]
pub(crate) struct Typed {
    pub(crate) core: Box<Core>,
    pub(crate) kind: Kind,
}

/// What is seen where an expression stands.
#[derive(Clone, Copy)]
pub(crate) struct Context<'s> {
    pub(crate) catalog: &'s Catalog<'s>,
    /// The variables of the function's script.
    pub(crate) layout: &'s Layout<'s>,
    /// The number of the function's script.
    pub(crate) script: u16,
    pub(crate) is_global: bool,
    pub(crate) line: u16,
    /// The function's parameters and locals.
    pub(crate) locals: &'s Locals,
}

impl Context<'_> {
    /// A tree of whose type this is known.
    #[inline(always)]
    pub fn typed(&self, core: Core, kind: Kind) -> Made<Typed>
        ensures { CoreInRange (bounds_of self.now) core → KindInRange (bounds_of self.now).functions kind → IfOk result (TypedInRange (bounds_of self.now)) }
    {
        let core = Box::new(self.catalog.alloc, core)?;
        Ok(Typed { core, kind })
    }

    /// A tree of this type.
    #[inline(always)]
    pub fn known(&self, core: Core, kind: CoreType) -> Made<Typed>
        ensures { CoreInRange (bounds_of self.now) core → TypeInRange (bounds_of self.now).functions kind → IfOk result (TypedInRange (bounds_of self.now)) }
    {
        self.typed(core, Kind::Of(kind))
    }

    /// A literal.
    #[inline(always)]
    pub fn literal(&self, value: Value, kind: Kind) -> Made<Typed>
        ensures { LiteralInRange value → KindInRange (bounds_of self.now).functions kind → IfOk result (TypedInRange (bounds_of self.now)) }
    {
        self.typed(Core::Lit(value), kind)
    }

    /// What stands for a value of which only the type is known, since a rule is broken.
    pub fn without_tree(&self, kind: Kind) -> Made<Typed>
        ensures { KindInRange (bounds_of self.now).functions kind → IfOk result (TypedInRange (bounds_of self.now)) }
    {
        self.literal(Value::NoneValue, kind)
    }

    /// What stands where something is unknown since a rule is broken.
    pub fn unknown(&self) -> Made<Typed>
        ensures { IfOk result (TypedInRange (bounds_of self.now)) }
    {
        self.without_tree(Kind::Unknown)
    }

    /// The same where this rule is broken.
    pub fn broken(&self, notes: &mut ScriptNotes, rule: TypeRule) -> Made<Typed>
        ensures noted { IsSome notes.new.first.found }
        ensures least { IfSome notes.new.first.found (IsFirst rule_number notes.old.first.found self.now.line rule) }
        ensures in_range { IfOk result (TypedInRange (bounds_of self.now)) }
    {
        self.fault(notes, rule);
        self.unknown()
    }

    /// The frame's own instance.
    pub fn own_instance(&self) -> Made<Box<Core>>
        ensures { IfOk result (λ own. CoreInRange (bounds_of self.now) own.value) }
    {
        Ok(Box::new(self.catalog.alloc, Core::SelfValue)?)
    }

    /// Notes that a rule is broken.
    pub fn fault(&self, notes: &mut ScriptNotes, rule: TypeRule)
        ensures noted { IsSome notes.new.first.found }
        ensures least { IfSome notes.new.first.found (IsFirst rule_number notes.old.first.found self.now.line rule) }
    {
        notes.note(self.line, rule);
    }

    /// Notes that something needs an instance, which a Global function has not.
    pub fn needs_instance(&self, notes: &mut ScriptNotes)
        ensures { IsTrue self.now.is_global → IsSome notes.new.first.found }
    {
        if self.is_global {
            self.fault(notes, TypeRule::InstanceInGlobal);
        }
    }

    /// The type of this name. `UnknownType` is broken where there is none.
    pub fn kind_named(&self, notes: &mut ScriptNotes, name: &TypeName) -> Option<CoreType>
        ensures found { result ≡ type_named self.now.catalog.now.set.now name.now }
        ensures in_range { ResultInRange (signatures self.now.catalog.now.set.now) result }
        ensures noted { IfNone result (IsSome notes.new.first.found) }
    {
        let found = self.catalog.type_of(name);
        if found.is_none() {
            self.fault(notes, TypeRule::UnknownType);
        }
        found
    }
}

// What is seen in a scope.
macro_rules! context_of {
    ($scope:expr) => {
        Context {
            catalog: $scope.catalog,
            layout: $scope.layout,
            script: $scope.script,
            is_global: $scope.is_global,
            line: $scope.line,
            locals: &$scope.locals,
        }
    };
}

/// One function while its lines are judged.
#[derive(Drop)]
pub struct Scope<'a> {
    pub catalog: &'a Catalog<'a>,
    /// The variables of the function's script.
    pub layout: &'a Layout<'a>,
    /// The number of the function's script.
    pub script: u16,
    pub is_global: bool,
    /// The line at which broken rules are noted.
    pub line: u16,
    /// The function's parameters and locals.
    pub locals: Locals,
    pub notes: ScriptNotes,
}

impl<'a> Scope<'a> {
    /// A function of this script, of which nothing is judged yet.
    pub fn new(
        catalog: &'a Catalog<'a>,
        layout: &'a Layout<'a>,
        script: u16,
        is_global: bool,
        line: u16,
        notes: ScriptNotes,
    ) -> Scope<'a>
        ensures catalog { result.catalog ≡ catalog.entry }
        ensures layout { result.layout ≡ layout.entry }
        ensures script { result.script ≡ script }
        ensures locals { result.locals.kinds.items ≡ [] }
        ensures notes { result.notes ≡ notes }
    {
        Scope {
            catalog,
            layout,
            script,
            is_global,
            line,
            locals: Locals::new(catalog.alloc),
            notes,
        }
    }

    /// What was noted.
    pub fn into_notes(self) -> ScriptNotes
        ensures { result ≡ self.entry.notes }
    {
        self.notes
    }

    /// Notes that a rule is broken at the present line.
    pub fn fault(&mut self, rule: TypeRule)
        ensures kept { Keeps self.old self.new }
        ensures noted { IsSome self.new.notes.first.found }
        ensures least { IfSome self.new.notes.first.found (IsFirst rule_number self.old.notes.first.found self.old.line rule) }
    {
        self.notes.note(self.line, rule);
    }

    /// The type of this name. `UnknownType` is broken where there is none.
    pub fn kind_named(&mut self, name: &TypeName) -> Option<CoreType>
        ensures found { result ≡ type_named self.old.catalog.now.set.now name.now }
        ensures in_range { ResultInRange (signatures self.old.catalog.now.set.now) result }
        ensures kept { Keeps self.old self.new }
        ensures noted { IfNone result (IsSome self.new.notes.first.found) }
    {
        context_of!(self).kind_named(&mut self.notes, name)
    }

    /// Adds a parameter or a local, and gives its number. `DuplicateLocal` is broken where one of the name
    /// is seen. All that come after the 65,535th have its number.
    pub fn new_local(&mut self, name: &Name, kind: Option<CoreType>) -> Made<u16>
        ensures number { IfOk result (λ number. number ≡ min (vec_len self.old.locals.kinds) 65535) }
        ensures added { OnOk result (self.new.locals.kinds.items ≡ self.old.locals.kinds.items ++ kind ∷ []) }
        ensures catalog { self.new.catalog ≡ self.old.catalog }
        ensures layout { self.new.layout ≡ self.old.layout }
        ensures script { self.new.script ≡ self.old.script }
        ensures is_global { self.new.is_global ≡ self.old.is_global }
        ensures line { self.new.line ≡ self.old.line }
    {
        if self.locals.find(name).is_some() {
            self.fault(TypeRule::DuplicateLocal);
        }
        let number = self.locals.add(name, kind)?;
        Ok(u16::try_from(number).unwrap_or(u16::MAX))
    }

    /// The tree of an expression, which may have no value.
    ///
    /// `OutOfMemory` is also the answer where the tree is deeper than any line's, here and below.
    pub fn any(&mut self, tree: &Expr) -> Made<Core>
        ensures in_range { ScopeInRange self.old → IfOk result (CoreInRange (scope_bounds self.old)) }
        ensures kept { Keeps self.old self.new }
    {
        let typed = context_of!(self).any(&mut self.notes, tree)?;
        Ok(Box::into_inner(typed.core))
    }

    /// The tree of a value that is needed as this type. `NoValue` is broken where it has none, and
    /// `NoConversion` where it doesn't convert to the type by itself.
    pub fn value_as(&mut self, tree: &Expr, to: Option<CoreType>) -> Made<Core>
        ensures in_range { ScopeInRange self.old → ResultInRange (scope_bounds self.old).functions to → IfOk result (CoreInRange (scope_bounds self.old)) }
        ensures kept { Keeps self.old self.new }
    {
        let context = context_of!(self);
        let value = context.value(&mut self.notes, tree)?;
        let core = context.convert(&mut self.notes, value, to)?;
        Ok(Box::into_inner(core))
    }

    /// The tree of a value that is needed as a Bool.
    pub fn truth(&mut self, tree: &Expr) -> Made<Core>
        ensures in_range { ScopeInRange self.old → IfOk result (CoreInRange (scope_bounds self.old)) }
        ensures kept { Keeps self.old self.new }
    {
        self.value_as(tree, Some(CoreType::Bool))
    }

    /// An assignment, also one such as `+=`.
    pub fn assign(&mut self, target: &Expr, sign: Sign, value: &Expr) -> Made<CoreStatement>
        ensures in_range { ScopeInRange self.old → IfOk result (FormInRange (scope_bounds self.old)) }
        ensures kept { Keeps self.old self.new }
    {
        context_of!(self).assign(&mut self.notes, target, sign, value)
    }
}
