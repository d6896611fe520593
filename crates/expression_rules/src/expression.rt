// Expressions: the first part, and then one step after the other.
ghost use Rattle.std.specs.Prelude.{◌<◌, IfOk, IfSome};
ghost use Rattle.line_parser.specs.declared.tree.Expr.{size-Expr as size_of};
ghost use Rattle.expression_rules.specs.Ranges.{TypedInRange, GivenInRange, ContextInRange, bounds_of};

use crate::calls::{Given, WrittenCall};
use crate::rule::{ScriptNotes, TypeRule};
use crate::scope::{Context, Typed};
use core_tree::{CoreType, Value};
use line_parser::{Argument, Expr};
use papy_base::{Made, Name, OutOfMemory};
use std::alloc::Global;
use type_scope::Kind;

// How deep arguments, indexes and right sides may stand in each other. Up to 64 brackets are open in a line,
// and between two of them are at most five right sides, one for each level of signs.
const DEPTH_LIMIT: u16 = 512;

impl Context<'_> {
    /// An expression. Its kind is `Nothing` where it calls a function without result.
    pub fn any(&self, notes: &mut ScriptNotes, tree: &Expr) -> Made<Typed>
        ensures { ContextInRange self.now → IfOk result (TypedInRange (bounds_of self.now)) }
    {
        self.expression(notes, tree, DEPTH_LIMIT)
    }

    /// An expression whose value is needed. `NoValue` is broken where it has none.
    pub fn value(&self, notes: &mut ScriptNotes, tree: &Expr) -> Made<Typed>
        ensures { ContextInRange self.now → IfOk result (TypedInRange (bounds_of self.now)) }
    {
        let value = self.any(notes, tree)?;
        Ok(self.used(notes, value))
    }

    // The same where a value is needed.
    fn used(&self, notes: &mut ScriptNotes, value: Typed) -> Typed
        ensures { TypedInRange (bounds_of self.now) value → TypedInRange (bounds_of self.now) result }
    {
        if value.kind != Kind::Nothing {
            return value;
        }
        self.fault(notes, TypeRule::NoValue);
        Typed {
            core: value.core,
            kind: Kind::Unknown,
        }
    }

    // An expression. `OutOfMemory` is also the answer where it is deeper than any line's.
    #[cycle(expression)]
    fn expression(&self, notes: &mut ScriptNotes, tree: &Expr, depth: u16) -> Made<Typed>
        ensures { ContextInRange self.now → IfOk result (TypedInRange (bounds_of self.now)) }
    {
        let Some(inner) = depth.checked_sub(1) else {
            return Err(OutOfMemory);
        };
        let (first, mut step, mut further) = spine(self.catalog.alloc, tree)?;
        let mut value = self.first(notes, first, &mut step, inner)?;
        if step.is_none() {
            step = further.pop();
        }
        'steps: while let Some(next) = step {
            value = self.step(notes, value, next, inner)?;
            step = further.pop();
        }
        Ok(value)
    }

    // What an expression begins with.
    #[cycle(expression)]
    fn first(
        &self,
        notes: &mut ScriptNotes,
        tree: &Expr,
        step: &mut Option<&Expr>,
        depth: u16,
    ) -> Made<Typed>
        ensures { ContextInRange self.now → IfOk result (TypedInRange (bounds_of self.now)) }
    {
        match tree {
            Expr::Int(number) => self.literal(Value::Int(*number), Kind::Of(CoreType::Int)),
            Expr::Bool(truth) => self.literal(Value::Bool(*truth), Kind::Of(CoreType::Bool)),
            Expr::Quoted(text) => {
                let text = text.try_clone(self.catalog.alloc)?;
                self.literal(Value::Text(text), Kind::Of(CoreType::Text))
            }
            Expr::NoneValue => self.literal(Value::NoneValue, Kind::NoneLiteral),
            Expr::SelfValue => self.instance(notes),
            Expr::Word(name) => self.word(notes, name, step, depth),
            Expr::Call { name, arguments } => {
                let given = self.given(notes, arguments.as_slice(), depth)?;
                self.plain_call(notes, WrittenCall { name, given })
            }
            Expr::ParentCall { name, arguments } => {
                let given = self.given(notes, arguments.as_slice(), depth)?;
                self.parent_call(notes, WrittenCall { name, given })
            }
            Expr::NewArray { element, count } => self.new_array(notes, element, *count),
            // The others begin with another expression.
            _ => self.unknown(),
        }
    }

    // A word. Where it names no value it may name a script, together with the step behind it.
    #[cycle(expression)]
    fn word(
        &self,
        notes: &mut ScriptNotes,
        word: &Name,
        step: &mut Option<&Expr>,
        depth: u16,
    ) -> Made<Typed>
        ensures { ContextInRange self.now → IfOk result (TypedInRange (bounds_of self.now)) }
    {
        if let Some(resolved) = self.resolve(word) {
            return self.read_word(notes, resolved, word);
        }
        match step.take() {
            Some(
                Expr::MemberCall {
                    name,
                    arguments,
                    ..
                },
            ) => {
                let given = self.given(notes, arguments.as_slice(), depth)?;
                self.script_call(notes, word, WrittenCall { name, given })
            }
            Some(Expr::Member { .. } | Expr::Length { .. }) => self.member_of_word(notes, word),
            _ => self.broken(notes, TypeRule::UnknownName),
        }
    }

    // What is done to the value of the part that an expression begins with.
    #[cycle(expression)]
    fn step(&self, notes: &mut ScriptNotes, of: Typed, tree: &Expr, depth: u16) -> Made<Typed>
        ensures { ContextInRange self.now → TypedInRange (bounds_of self.now) of → IfOk result (TypedInRange (bounds_of self.now)) }
    {
        let of = self.used(notes, of);
        match tree {
            Expr::Member { name, .. } => self.member(notes, of, name),
            Expr::Length { .. } => self.length(notes, of),
            Expr::MemberCall {
                name,
                arguments,
                ..
            } => {
                let given = self.given(notes, arguments.as_slice(), depth)?;
                self.member_call(notes, of, WrittenCall { name, given })
            }
            Expr::Index { at, .. } => {
                let at = self.expression(notes, at, depth)?;
                let at = self.used(notes, at);
                self.element(notes, of, at)
            }
            Expr::Unary { sign, .. } => self.unary(notes, *sign, of),
            Expr::Binary { sign, right, .. } => {
                let right = self.expression(notes, right, depth)?;
                let right = self.used(notes, right);
                self.binary(notes, *sign, of, right)
            }
            Expr::Cast { to, .. } => self.cast(notes, of, to),
            // The others begin with no other expression.
            _ => Ok(of),
        }
    }

    // The values of arguments, the last one first.
    #[cycle(expression)]
    fn given<'t>(
        &self,
        notes: &mut ScriptNotes,
        arguments: &'t [Argument],
        depth: u16,
    ) -> Made<Vec<Given<'t>>>
        ensures { ContextInRange self.now → IfOk result (λ found. GivenInRange (bounds_of self.now) found.items) }
    {
        let mut found = Vec::with_capacity(self.catalog.alloc, arguments.len())?;
        for argument in arguments.iter().rev() {
            let value = self.expression(notes, &argument.value, depth)?;
            let value = self.used(notes, value);
            found.push(Given {
                name: argument.name.as_ref(),
                value,
            })?;
        }
        Ok(found)
    }
}

// The part that no other begins, and the expressions that begin with it: the shortest one, which is mostly all and so
// needs no memory, and the others, the longest one first.
//
// A line such as `1 + 1 + 1 ..` has thousands of them, so they are gone through in a loop.
fn spine<'t>(alloc: Global, tree: &'t Expr) -> Made<(&'t Expr, Option<&'t Expr>, Vec<&'t Expr>)> {
    let mut further = Vec::new(alloc);
    let mut step = None;
    let mut first = tree;
    'parts: while let Some(part) = first_part(first) {
        if let Some(longer) = step {
            further.push(longer)?;
        }
        step = Some(first);
        first = part;
    }
    Ok((first, step, further))
}

// The expression that another one begins with.
fn first_part(tree: &Expr) -> Option<&Expr>
    ensures { IfSome result (λ first. size_of first.now < size_of tree.now) }
{
    match tree {
        Expr::MemberCall { of, .. } | Expr::Member { of, .. } | Expr::Length { of } => Some(of),
        Expr::Index { of, .. } | Expr::Unary { of, .. } | Expr::Cast { of, .. } => Some(of),
        Expr::Binary { left, .. } => Some(left),
        _ => None,
    }
}
