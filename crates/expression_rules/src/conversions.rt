// Constants, which types convert to which, and the conversions that are written out.
ghost use Rattle.std.specs.Prelude.{◌≡◌, IfOk};
ghost use Rattle.core_tree.specs.InRange.{Bounds, LiteralInRange, Signatures, ResultInRange};
ghost use Rattle.type_scope.specs.Scope.{KindInRange};
ghost use Rattle.expression_rules.specs.Constants.{constant_value, constant_kind};
ghost use Rattle.expression_rules.specs.Conversions.{prints};
ghost use Rattle.expression_rules.specs.Ranges.{CoreInRange, TypedInRange, bounds_of};

use crate::rule::{ScriptNotes, TypeRule};
use crate::scope::{Context, Typed};
use core_tree::{Core, CoreType, Value};
use line_parser::{Constant, TypeName};
use papy_base::{Made, Text};
use std::alloc::Global;
use type_scope::{Catalog, Kind};

/// A constant's value.
pub fn value_of(alloc: Global, constant: &Constant) -> Made<Value>
    ensures value { IfOk result (λ value. value ≡ constant_value constant.now) }
    ensures in_range { IfOk result LiteralInRange }
{
    Ok(match constant {
        Constant::Int(number) => Value::Int(*number),
        Constant::Bool(truth) => Value::Bool(*truth),
        Constant::Quoted(text) => Value::Text(text.try_clone(alloc)?),
        Constant::NoneValue => Value::NoneValue,
    })
}

/// What is known of a constant's type.
pub fn kind_of(constant: &Constant) -> Kind
    ensures kind { result ≡ constant_kind constant.now }
    ensures in_range { (functions : Signatures) → KindInRange functions result }
{
    match constant {
        Constant::Int(_) => Kind::Of(CoreType::Int),
        Constant::Bool(_) => Kind::Of(CoreType::Bool),
        Constant::Quoted(_) => Kind::Of(CoreType::Text),
        Constant::NoneValue => Kind::NoneLiteral,
    }
}

/// Whether a parameter's default converts by itself to the parameter's type. Where that isn't known no
/// default breaks a rule.
pub fn default_fits(catalog: &Catalog<'_>, constant: &Constant, kind: Option<CoreType>) -> bool {
    match kind {
        Some(to) => converts(catalog, kind_of(constant), to),
        None => true,
    }
}

impl Context<'_> {
    /// The tree of a value as this type: the value's own where it has the type, else with a `Cast`.
    pub fn convert(
        &self,
        notes: &mut ScriptNotes,
        of: Typed,
        to: Option<CoreType>,
    ) -> Made<Box<Core>>
        ensures { (b : Bounds) → ResultInRange b.functions to → TypedInRange b of → IfOk result (λ core. CoreInRange b core.value) }
    {
        let Some(to) = to else {
            return Ok(of.core);
        };
        if of.kind == Kind::Unknown || of.kind == Kind::Of(to) {
            return Ok(of.core);
        }
        if !converts(self.catalog, of.kind, to) {
            self.fault(notes, TypeRule::NoConversion);
            return Ok(of.core);
        }
        Ok(Box::new(self.catalog.alloc, Core::Cast(to, of.core))?)
    }

    /// `as`
    pub fn cast(&self, notes: &mut ScriptNotes, of: Typed, to: &TypeName) -> Made<Typed>
        ensures { TypedInRange (bounds_of self.now) of → IfOk result (TypedInRange (bounds_of self.now)) }
    {
        let Some(to) = self.kind_named(notes, to) else {
            return self.unknown();
        };
        if !casts(self.catalog, of.kind, to) {
            self.fault(notes, TypeRule::NoConversion);
        }
        self.known(Core::Cast(to, of.core), to)
    }
}

// Whether a value converts to the type by itself. A type that isn't known breaks no rule.
fn converts(catalog: &Catalog<'_>, kind: Kind, to: CoreType) -> bool {
    match (kind, to) {
        (Kind::Unknown, _) | (Kind::Of(_), CoreType::Bool) => true,
        (Kind::NoneLiteral, _) => to != CoreType::Int,
        (Kind::Of(from), _) if from == to => true,
        (Kind::Of(_), CoreType::Text) => prints(kind),
        (Kind::Of(CoreType::Script(from)), CoreType::Script(to)) => catalog.is_child(from, to),
        _ => false,
    }
}

// Whether `as` gives the type of such a value.
fn casts(catalog: &Catalog<'_>, kind: Kind, to: CoreType) -> bool {
    match (kind, to) {
        (Kind::Of(CoreType::Bool | CoreType::Text), CoreType::Int) => true,
        (Kind::Of(CoreType::Script(from)), CoreType::Script(to)) => {
            catalog.is_child(from, to) || catalog.is_child(to, from)
        }
        _ => converts(catalog, kind, to),
    }
}

/// Whether such values convert to texts by themselves.
pub(crate) fn prints(kind: Kind) -> bool
    ensures { result ≡ prints kind }
{
    match kind {
        Kind::NoneLiteral | Kind::Of(CoreType::Int | CoreType::Bool | CoreType::Text) => true,
        Kind::Of(CoreType::Script(_)) => true,
        _ => false,
    }
}

/// The type that both sides of `==` have after at most one of them was cast, none where there is none.
pub(crate) fn common_type(catalog: &Catalog<'_>, left: Kind, right: Kind) -> Option<CoreType>
    ensures { (functions : Signatures) → KindInRange functions left → KindInRange functions right → ResultInRange functions result }
{
    if left == right {
        type_of(left)
    } else if meets(catalog, left, right, CoreType::Text) {
        Some(CoreType::Text)
    } else if meets(catalog, left, right, CoreType::Bool) {
        Some(CoreType::Bool)
    } else if converts_to(catalog, left, right) {
        type_of(right)
    } else if converts_to(catalog, right, left) {
        type_of(left)
    } else {
        None
    }
}

fn type_of(kind: Kind) -> Option<CoreType>
    ensures { (functions : Signatures) → KindInRange functions kind → ResultInRange functions result }
{
    match kind {
        Kind::Of(known) => Some(known),
        _ => None,
    }
}

// Whether one side has this type and the other converts to it by itself.
fn meets(catalog: &Catalog<'_>, left: Kind, right: Kind, to: CoreType) -> bool {
    (left == Kind::Of(to) && converts(catalog, right, to))
        || (right == Kind::Of(to) && converts(catalog, left, to))
}

fn converts_to(catalog: &Catalog<'_>, kind: Kind, to: Kind) -> bool {
    matches!(to, Kind::Of(to) if converts(catalog, kind, to))
}
