// Assignments.
ghost use Rattle.std.specs.Prelude.{◌≡◌, IfOk, IfSome};
ghost use Rattle.core_tree.specs.InRange.{Bounds, ResultInRange, TypeInRange};
ghost use Rattle.expression_rules.specs.Operations.{sign_of_change};
ghost use Rattle.expression_rules.specs.Ranges.{CoreInRange, FormInRange, TypedInRange, TargetInRange, ContextInRange, bounds_of};

use crate::names::{PropertyUse, Resolved};
use crate::operators::operand_type;
use crate::rule::{ScriptNotes, TypeRule};
use crate::scope::{Context, Typed};
use core_tree::{Arith, Core, CoreStatement, CoreType, Value};
use line_parser::Expr;
use papy_base::{Made, Name};
use script_lexer::Sign;
use script_linker::PropertyRef;
use type_scope::Kind;

// What is assigned to, with its type where that is known.
#[derive(Drop)]
enum Target {
    Local(u16, Option<CoreType>),
    Field(u16, Option<CoreType>),
    State,
    Property(Box<Core>, Name, Option<CoreType>),
    Element(Box<Core>, Box<Core>, CoreType),
    // A rule is broken in it.
    Broken,
}

impl Target {
    fn kind(&self) -> Option<CoreType>
        ensures { (b : Bounds) → TargetInRange b self.now → ResultInRange b.functions result }
    {
        match self {
            Target::Local(_, kind) => *kind,
            Target::Field(_, kind) => *kind,
            Target::State => Some(CoreType::Text),
            Target::Property(_, _, kind) => *kind,
            Target::Element(_, _, kind) => Some(*kind),
            Target::Broken => None,
        }
    }

    // The value of a local, a variable or the state.
    fn variable(&self) -> Option<Core>
        ensures { (b : Bounds) → TargetInRange b self.now → IfSome result (CoreInRange b) }
    {
        match self {
            Target::Local(number, _) => Some(Core::Local(*number)),
            Target::Field(number, _) => Some(Core::Field(*number)),
            Target::State => Some(Core::StateText),
            _ => None,
        }
    }
}

impl Context<'_> {
    /// An assignment, also one such as `+=`.
    pub fn assign(
        &self,
        notes: &mut ScriptNotes,
        target: &Expr,
        sign: Sign,
        right: &Expr,
    ) -> Made<CoreStatement>
        ensures { ContextInRange self.now → IfOk result (FormInRange (bounds_of self.now)) }
    {
        let change = change_of(sign);
        let access = if change.is_some() {
            PropertyUse::Change
        } else {
            PropertyUse::Write
        };
        let target = self.target(notes, target, access)?;
        let right = self.value(notes, right)?;
        match change {
            Some(sign) => self.change(notes, target, sign, right),
            None => self.store(notes, target, right),
        }
    }

    // What is assigned to.
    fn target(&self, notes: &mut ScriptNotes, target: &Expr, access: PropertyUse) -> Made<Target>
        ensures { ContextInRange self.now → IfOk result (TargetInRange (bounds_of self.now)) }
    {
        match target {
            Expr::Word(name) => self.word_target(notes, name, access),
            Expr::Member { of, name } => {
                let of: &Expr = of;
                if let Expr::Word(word) = of
                    && self.resolve(word).is_none()
                {
                    let _ = self.member_of_word(notes, word)?;
                    return Ok(Target::Broken);
                }
                let of = self.value(notes, of)?;
                match self.property_of(notes, of.kind, name) {
                    Some(at) => self.property_target(notes, of.core, at, name, access),
                    None => Ok(Target::Broken),
                }
            }
            Expr::Index { of, at } => self.element_target(notes, of, at),
            other => {
                let _ = self.any(notes, other)?;
                self.fault(notes, TypeRule::NotAssignable);
                Ok(Target::Broken)
            }
        }
    }

    fn word_target(&self, notes: &mut ScriptNotes, name: &Name, access: PropertyUse) -> Made<Target>
        ensures { ContextInRange self.now → IfOk result (TargetInRange (bounds_of self.now)) }
    {
        match self.resolve(name) {
            None => {
                self.fault(notes, TypeRule::UnknownName);
                Ok(Target::Broken)
            }
            Some(Resolved::Local(number, kind)) => Ok(Target::Local(number, kind)),
            Some(Resolved::State) => Ok(Target::State),
            Some(Resolved::Field(number, kind)) => {
                self.needs_instance(notes);
                Ok(Target::Field(number, kind))
            }
            Some(Resolved::Property(at)) => {
                self.needs_instance(notes);
                self.property_target(notes, self.own_instance()?, at, name, access)
            }
        }
    }

    fn property_target(
        &self,
        notes: &mut ScriptNotes,
        of: Box<Core>,
        at: PropertyRef,
        name: &Name,
        access: PropertyUse,
    ) -> Made<Target>
        ensures { CoreInRange (bounds_of self.now) of.value → IfOk result (TargetInRange (bounds_of self.now)) }
    {
        let kind = self.kind_for(notes, at, access);
        if let Some(number) = self.own_variable(&of, at) {
            return Ok(Target::Field(number, kind));
        }
        let name = name.try_clone(self.catalog.alloc)?;
        Ok(Target::Property(of, name, kind))
    }

    fn element_target(&self, notes: &mut ScriptNotes, of: &Expr, at: &Expr) -> Made<Target>
        ensures { ContextInRange self.now → IfOk result (TargetInRange (bounds_of self.now)) }
    {
        let array = self.value(notes, of)?;
        let index = self.value(notes, at)?;
        let place = self.convert(notes, index, Some(CoreType::Int))?;
        match self.indexed(notes, array.kind) {
            Some(element) => Ok(Target::Element(array.core, place, element)),
            None => Ok(Target::Broken),
        }
    }

    // `=`
    fn store(&self, notes: &mut ScriptNotes, target: Target, value: Typed) -> Made<CoreStatement>
        ensures { TargetInRange (bounds_of self.now) target → TypedInRange (bounds_of self.now) value → IfOk result (FormInRange (bounds_of self.now)) }
    {
        let core = self.convert(notes, value, target.kind())?;
        Ok(stored(target, Box::into_inner(core)))
    }

    // An assignment such as `+=`. A local, a variable or the state gets the new value, and a property or an
    // element is changed in one statement. The tree of that has no place for a conversion of the old or of
    // the new value, so both have the type of the operation.
    fn change(
        &self,
        notes: &mut ScriptNotes,
        target: Target,
        sign: Sign,
        value: Typed,
    ) -> Made<CoreStatement>
        ensures { TargetInRange (bounds_of self.now) target → TypedInRange (bounds_of self.now) value → IfOk result (FormInRange (bounds_of self.now)) }
    {
        if let Some(old) = target.variable() {
            let old = self.typed(old, Kind::from_type(target.kind()))?;
            let new = self.binary(notes, sign, old, value)?;
            return self.store(notes, target, new);
        }
        let Some(kind) = target.kind() else {
            return Ok(no_form());
        };
        let Some(operation) = self.operation(notes, sign, Kind::Of(kind), value.kind) else {
            return Ok(no_form());
        };
        if kind != operand_type(operation) {
            self.fault(notes, TypeRule::NoConversion);
            return Ok(no_form());
        }
        let right = self.convert(notes, value, Some(kind))?;
        Ok(changed(target, kind, operation, Box::into_inner(right)))
    }
}

// The assignment of a value of the target's type.
fn stored(target: Target, value: Core) -> CoreStatement
    ensures { (b : Bounds) → TargetInRange b target → CoreInRange b value → FormInRange b result }
{
    match target {
        Target::Local(number, _) => CoreStatement::SetLocal(number, value),
        Target::Field(number, _) => CoreStatement::SetField(number, value),
        Target::State => CoreStatement::SetState(value),
        Target::Property(of, name, _) => CoreStatement::SetProp(Box::into_inner(of), name, value),
        Target::Element(array, at, _) => {
            let array = Box::into_inner(array);
            CoreStatement::SetElement(array, Box::into_inner(at), value)
        }
        Target::Broken => CoreStatement::Plain(value),
    }
}

// The change of a property or an element.
fn changed(target: Target, kind: CoreType, operation: Arith, right: Core) -> CoreStatement
    ensures { (b : Bounds) → TargetInRange b target → TypeInRange b.functions kind → CoreInRange b right → FormInRange b result }
{
    match target {
        Target::Property(of, name, _) => {
            CoreStatement::ChangeProp(Box::into_inner(of), name, kind, operation, right)
        }
        Target::Element(array, at, _) => {
            let array = Box::into_inner(array);
            let at = Box::into_inner(at);
            CoreStatement::ChangeElement(array, at, kind, operation, right)
        }
        other => {
            drop(other);
            CoreStatement::Plain(right)
        }
    }
}

// The sign between two values that an assignment such as `+=` stands for.
fn change_of(sign: Sign) -> Option<Sign>
    ensures { result ≡ sign_of_change sign }
{
    match sign {
        Sign::PlusAssign => Some(Sign::Plus),
        Sign::MinusAssign => Some(Sign::Minus),
        Sign::StarAssign => Some(Sign::Star),
        Sign::SlashAssign => Some(Sign::Slash),
        Sign::PercentAssign => Some(Sign::Percent),
        _ => None,
    }
}

// A statement that stands where a rule is broken.
fn no_form() -> CoreStatement
    ensures { (b : Bounds) → FormInRange b result }
{
    CoreStatement::Plain(Core::Lit(Value::NoneValue))
}
