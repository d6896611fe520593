// The operators on one and two values.
ghost use Rattle.std.specs.Prelude.{◌≡◌, IfOk};
ghost use Rattle.expression_rules.specs.Operations.{whole_operation, operation_of, operand_type};
ghost use Rattle.expression_rules.specs.Ranges.{TypedInRange, bounds_of};

use crate::conversions::{common_type, prints};
use crate::rule::{ScriptNotes, TypeRule};
use crate::scope::{Context, Typed};
use core_tree::{Arith, Core, CoreType, Order};
use papy_base::Made;
use script_lexer::Sign;
use type_scope::Kind;

const INT: Kind = Kind::Of(CoreType::Int);

impl Context<'_> {
    /// `-of` or `!of`
    pub fn unary(&self, notes: &mut ScriptNotes, sign: Sign, of: Typed) -> Made<Typed>
        ensures { TypedInRange (bounds_of self.now) of → IfOk result (TypedInRange (bounds_of self.now)) }
    {
        if of.kind == Kind::Unknown {
            return self.unknown();
        }
        if sign == Sign::Not {
            let truth = self.convert(notes, of, Some(CoreType::Bool))?;
            return self.known(Core::Not(truth), CoreType::Bool);
        }
        if of.kind != INT {
            return self.broken(notes, TypeRule::Operand);
        }
        self.known(Core::Neg(of.core), CoreType::Int)
    }

    /// A sign between two values.
    pub fn binary(
        &self,
        notes: &mut ScriptNotes,
        sign: Sign,
        left: Typed,
        right: Typed,
    ) -> Made<Typed>
        ensures { TypedInRange (bounds_of self.now) left → TypedInRange (bounds_of self.now) right → IfOk result (TypedInRange (bounds_of self.now)) }
    {
        if left.kind == Kind::Unknown || right.kind == Kind::Unknown {
            return self.unknown();
        }
        match sign {
            Sign::And | Sign::Or => self.logical(notes, sign, left, right),
            Sign::Equal => self.equal(notes, left, right),
            Sign::NotEqual => {
                let equal = self.equal(notes, left, right)?;
                self.unary(notes, Sign::Not, equal)
            }
            Sign::Less => self.compare(notes, Order::Less, left, right),
            Sign::LessEqual => self.compare(notes, Order::LessEqual, left, right),
            Sign::Greater => self.compare(notes, Order::Greater, left, right),
            Sign::GreaterEqual => self.compare(notes, Order::GreaterEqual, left, right),
            _ => self.arithmetic(notes, sign, left, right),
        }
    }

    // `&&` and `||`
    fn logical(&self, notes: &mut ScriptNotes, sign: Sign, left: Typed, right: Typed) -> Made<Typed>
        ensures { TypedInRange (bounds_of self.now) left → TypedInRange (bounds_of self.now) right → IfOk result (TypedInRange (bounds_of self.now)) }
    {
        let left = self.convert(notes, left, Some(CoreType::Bool))?;
        let right = self.convert(notes, right, Some(CoreType::Bool))?;
        if sign == Sign::And {
            self.known(Core::And(left, right), CoreType::Bool)
        } else {
            self.known(Core::Or(left, right), CoreType::Bool)
        }
    }

    fn equal(&self, notes: &mut ScriptNotes, left: Typed, right: Typed) -> Made<Typed>
        ensures { TypedInRange (bounds_of self.now) left → TypedInRange (bounds_of self.now) right → IfOk result (TypedInRange (bounds_of self.now)) }
    {
        let to = common_type(self.catalog, left.kind, right.kind);
        if to.is_none() && (left.kind != Kind::NoneLiteral || right.kind != Kind::NoneLiteral) {
            return self.broken(notes, TypeRule::Operand);
        }
        let left = self.convert(notes, left, to)?;
        let right = self.convert(notes, right, to)?;
        self.known(Core::Equal(left, right), CoreType::Bool)
    }

    fn compare(
        &self,
        notes: &mut ScriptNotes,
        order: Order,
        left: Typed,
        right: Typed,
    ) -> Made<Typed>
        ensures { TypedInRange (bounds_of self.now) left → TypedInRange (bounds_of self.now) right → IfOk result (TypedInRange (bounds_of self.now)) }
    {
        if left.kind != INT || right.kind != INT {
            return self.broken(notes, TypeRule::Operand);
        }
        self.known(Core::Order(order, left.core, right.core), CoreType::Bool)
    }

    // Arithmetic on whole numbers, or two texts joined.
    fn arithmetic(
        &self,
        notes: &mut ScriptNotes,
        sign: Sign,
        left: Typed,
        right: Typed,
    ) -> Made<Typed>
        ensures { TypedInRange (bounds_of self.now) left → TypedInRange (bounds_of self.now) right → IfOk result (TypedInRange (bounds_of self.now)) }
    {
        match self.operation(notes, sign, left.kind, right.kind) {
            Some(Arith::Join) => self.join(notes, left, right),
            Some(operation) => {
                self.known(Core::Arith(operation, left.core, right.core), CoreType::Int)
            }
            None => self.unknown(),
        }
    }

    fn join(&self, notes: &mut ScriptNotes, left: Typed, right: Typed) -> Made<Typed>
        ensures { TypedInRange (bounds_of self.now) left → TypedInRange (bounds_of self.now) right → IfOk result (TypedInRange (bounds_of self.now)) }
    {
        let left = self.convert(notes, left, Some(CoreType::Text))?;
        let right = self.convert(notes, right, Some(CoreType::Text))?;
        self.known(Core::Join(left, right), CoreType::Text)
    }

    /// What a sign does with values of these types. `Operand` is broken where it does nothing with them.
    pub fn operation(
        &self,
        notes: &mut ScriptNotes,
        sign: Sign,
        left: Kind,
        right: Kind,
    ) -> Option<Arith>
        ensures { result ≡ operation_of sign left right }
    {
        let found = operation_of(sign, left, right);
        if found.is_none() && left != Kind::Unknown && right != Kind::Unknown {
            self.fault(notes, TypeRule::Operand);
        }
        found
    }
}

/// The type of the operands and of the result.
pub(crate) fn operand_type(operation: Arith) -> CoreType
    ensures { result ≡ operand_type operation }
{
    match operation {
        Arith::Join => CoreType::Text,
        _ => CoreType::Int,
    }
}

fn operation_of(sign: Sign, left: Kind, right: Kind) -> Option<Arith>
    ensures { result ≡ operation_of sign left right }
{
    match (left, right) {
        (Kind::Of(CoreType::Int), Kind::Of(CoreType::Int)) => whole_operation(sign),
        (Kind::Of(CoreType::Text), other) | (other, Kind::Of(CoreType::Text)) => {
            (sign == Sign::Plus && prints(other)).then_some(Arith::Join)
        }
        _ => None,
    }
}

fn whole_operation(sign: Sign) -> Option<Arith>
    ensures { result ≡ whole_operation sign }
{
    match sign {
        Sign::Plus => Some(Arith::Add),
        Sign::Minus => Some(Arith::Sub),
        Sign::Star => Some(Arith::Mul),
        Sign::Slash => Some(Arith::Div),
        Sign::Percent => Some(Arith::Rem),
        _ => None,
    }
}
