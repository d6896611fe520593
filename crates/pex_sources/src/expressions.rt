// The text of a function's body: its lines, and their expressions.
use crate::blocks::BodyLine;
use crate::code::{CMP_NE, FunctionCode, OperandMeaning, sign_of};
use crate::compiled_scripts::{BOOL, NONE, STRING, Slot};
use crate::fault::{Attempt, NOT_FOUND, check};
use crate::page::Page;
use crate::trees::{ExpressionNode, Form, Input, Trees};
use pex_values::{
    ARRAY_CREATE, ARRAY_FINDELEMENT, ARRAY_GETELEMENT, ARRAY_LENGTH, ARRAY_RFINDELEMENT,
    CALL_METHOD, CALL_PARENT, CALL_STATIC, CAST, CMP_EQ, Datum, INEG, JMPF, JMPT, NOT, PROPGET,
    STRCAT,
};

/// The levels of the grammar above those of the signs between two values: a chain, a cast, and a sign before a value.
const CHAIN: u8 = 7;

const CAST_LEVEL: u8 = 6;

const UNARY: u8 = 5;

/// The place of the prelude's script Debug.
const DEBUG: usize = 0;

/// What is still to be written of a line.
#[derive(Clone, Copy)]
enum Unwritten<'a> {
    /// An expression, in brackets where its own level is below this one.
    Node(usize, u8),
    Bytes(&'a [u8]),
    Literal(Datum),
    Slot(Slot<'a>),
}

type Items<'a> = Vec<Unwritten<'a>>;

/// A function whose expressions are written.
#[derive(Clone, Copy)]
pub(crate) struct Speaker<'w, 'f> {
    pub code: &'f FunctionCode<'w>,
    pub trees: &'f Trees,
}

impl<'w, 'f> Speaker<'w, 'f> {
    /// Appends the lines of the body.
    pub(crate) fn put_lines(self, page: &mut Page, lines: &[BodyLine]) -> Attempt<()> {
        for line in lines {
            self.put_line(page, *line)?;
        }
        Ok(())
    }

    fn put_line(self, page: &mut Page, line: BodyLine) -> Attempt<()> {
        match line {
            BodyLine::Skipped => return Ok(()),
            BodyLine::EndIf | BodyLine::EndWhile | BodyLine::Else | BodyLine::ElseIf(_) =>
                page.outdent(),
            _ => {}
        }
        page.begin(&[])?;
        match line {
            BodyLine::If(test) => self.put_value(page, b"If ", test, BOOL)?,
            BodyLine::ElseIf(test) => self.put_value(page, b"ElseIf ", test, BOOL)?,
            BodyLine::While(test) => self.put_value(page, b"While ", test, BOOL)?,
            BodyLine::Else => page.put(&[b"Else"])?,
            BodyLine::EndIf => page.put(&[b"EndIf"])?,
            BodyLine::EndWhile => page.put(&[b"EndWhile"])?,
            BodyLine::Nothing => page.put(&[b"0"])?,
            BodyLine::Skipped => {}
            BodyLine::Plain(value) => self.put(page, &[Unwritten::Node(value, 0)])?,
            BodyLine::Return(value) => self.put_return(page, value)?,
            BodyLine::Define(slot, value) => self.put_definition(page, slot, value)?,
            BodyLine::Set(target, value) => self.put_assignment(page, target, value)?,
        }
        page.end()?;
        if let BodyLine::If(_) | BodyLine::ElseIf(_) | BodyLine::Else | BodyLine::While(_) = line {
            page.indent();
        }
        Ok(())
    }

    fn put_return(self, page: &mut Page, value: usize) -> Attempt<()> {
        let kind = self.code.script.number(self.code.function.result);
        if kind == NONE && self.is_literal(value, Datum::NoneValue)? {
            return page.put(&[b"Return"]);
        }
        self.put_value(page, b"Return ", value, kind)
    }

    fn put_definition(self, page: &mut Page, slot: usize, value: usize) -> Attempt<()> {
        let (_, kind) = self.code.pair(slot)?;
        let name = self.leaf(OperandMeaning::Slot(slot))?;
        self.put(page, &[self.name(kind), Unwritten::Bytes(b" "), name])?;
        if self.is_literal(value, Datum::NoneValue)? {
            return Ok(());
        }
        self.put_value(page, b" = ", value, self.code.script.number(kind))
    }

    fn put_assignment(self, page: &mut Page, target: usize, value: usize) -> Attempt<()> {
        self.put(page, &[Unwritten::Node(target, 0)])?;
        let Some((opcode, right)) = self.trees.change(value, target)? else {
            return self.put_value(page, b" = ", value, self.trees.node(target)?.kind);
        };
        let (sign, _) = sign_of(opcode).ok_or(NOT_FOUND)?;
        page.put(&[sign.trim_ascii_end()])?;
        self.put_value(page, b"= ", right, STRING)
    }

    // A value behind these bytes, which converts to the type by itself.
    fn put_value(
        self,
        page: &mut Page,
        lead: &'static [u8],
        value: usize,
        to: usize,
    ) -> Attempt<()> {
        let value = Unwritten::Node(self.loose(value, to)?, 0);
        self.put(page, &[Unwritten::Bytes(lead), value])
    }

    // Appends these parts to a line.
    fn put(self, page: &mut Page, parts: &[Unwritten<'w>]) -> Attempt<()> {
        let mut items = Vec::new(page.alloc);
        push(&mut items, parts)?;
        for _ in 0..self.trees.size().saturating_mul(8).saturating_add(8) {
            match items.pop() {
                Some(Unwritten::Node(number, level)) => {
                    let mut parts = Vec::new(page.alloc);
                    self.expand(number, level, &mut parts)?;
                    push(&mut items, &parts)?;
                }
                Some(Unwritten::Bytes(bytes)) => page.put(&[bytes])?,
                Some(Unwritten::Literal(value)) => page.put_literal(self.code.script, value)?,
                Some(Unwritten::Slot(slot)) => self.code.set.put_slot(page, slot)?,
                None => return Ok(()),
            }
        }
        Err(NOT_FOUND)
    }

    // Appends the parts of an expression.
    fn expand(self, number: usize, level: u8, parts: &mut Items<'w>) -> Attempt<()> {
        let mut node = self.trees.node(number)?;
        if let (Form::Apply(NOT, names), [of]) = (node.form, self.trees.inputs(node)?) {
            let inner = self.trees.node(of.node)?;
            if matches!(inner.form, Form::Apply(CMP_EQ, _)) {
                node = inner;
                node.form = Form::Apply(CMP_NE, names);
            }
        }
        if level_of(node.form) >= level {
            return self.expand_bare(node, parts);
        }
        parts.push(Unwritten::Bytes(b"("))?;
        self.expand_bare(node, parts)?;
        add(parts, &[Unwritten::Bytes(b")")])
    }

    fn expand_bare(self, node: ExpressionNode, parts: &mut Items<'w>) -> Attempt<()> {
        let (opcode, names) = match node.form {
            Form::Leaf(operand) => return add(parts, &[self.leaf(operand)?]),
            Form::Apply(opcode, names) => (opcode, names),
        };
        let name = self.name(names.1);
        match (opcode, self.trees.inputs(node)?) {
            (CALL_METHOD | CALL_PARENT | CALL_STATIC, _) => self.call(node, opcode, names, parts),
            (NOT, [of]) => {
                let value = self.loose(of.node, BOOL)?;
                add(
                    parts,
                    &[Unwritten::Bytes(b"!"), Unwritten::Node(value, CAST_LEVEL)],
                )
            }
            (INEG, [of]) => add(
                parts,
                &[Unwritten::Bytes(b"-"), Unwritten::Node(of.node, CAST_LEVEL)],
            ),
            (CAST, [of]) => add(parts, &[chain(of), Unwritten::Bytes(b" as "), name]),
            (PROPGET, [of]) => add(parts, &[chain(of), Unwritten::Bytes(b"."), name]),
            (ARRAY_LENGTH, [of]) => add(parts, &[chain(of), Unwritten::Bytes(b".Length")]),
            (ARRAY_GETELEMENT, [of, index]) => {
                add(parts, &[chain(of), Unwritten::Bytes(b"[")])?;
                add(
                    parts,
                    &[Unwritten::Node(index.node, 0), Unwritten::Bytes(b"]")],
                )
            }
            (ARRAY_CREATE, [size]) => {
                let element = self.code.script.text(names.1).strip_suffix(b"[]");
                let element = Unwritten::Bytes(element.ok_or(NOT_FOUND)?);
                add(
                    parts,
                    &[Unwritten::Bytes(b"new "), element, Unwritten::Bytes(b"[")],
                )?;
                add(
                    parts,
                    &[Unwritten::Node(size.node, 0), Unwritten::Bytes(b"]")],
                )
            }
            (ARRAY_FINDELEMENT, _) => self.find(node, b".Find(", 0, parts),
            (ARRAY_RFINDELEMENT, _) => self.find(node, b".RFind(", -1, parts),
            _ => self.binary(node, opcode, parts),
        }
    }

    fn name(self, reference: u16) -> Unwritten<'w> {
        Unwritten::Bytes(self.code.script.text(reference))
    }

    fn leaf(self, operand: OperandMeaning) -> Attempt<Unwritten<'w>> {
        let script = self.code.script;
        match operand {
            OperandMeaning::Slot(place) => Ok(Unwritten::Slot((
                script,
                self.code.pair(place)?,
                place,
            ))),
            OperandMeaning::Variable(place) => {
                let name = script.variable(place)?.name;
                let property = self.code.set.property(script, script.number(name));
                Ok(self.name(property.map_or(name, |property| property.name)))
            }
            OperandMeaning::OwnInstance => Ok(Unwritten::Bytes(b"Self")),
            OperandMeaning::Literal(value) => Ok(Unwritten::Literal(value)),
            OperandMeaning::StateText => Err(NOT_FOUND),
        }
    }

    fn is_literal(self, node: usize, value: Datum) -> Attempt<bool> {
        Ok(self.trees.node(node)?.form == Form::Leaf(OperandMeaning::Literal(value)))
    }

    // Two values with a sign between them. The cast of one side, or with And and Or of both, is left out where it comes by itself.
    fn binary(self, node: ExpressionNode, opcode: u8, parts: &mut Items<'w>) -> Attempt<()> {
        let (Some((sign, level)), [left, right]) = (sign_of(opcode), self.trees.inputs(node)?)
        else {
            return Err(NOT_FOUND);
        };
        let (mut left, mut right) = (left.node, right.node);
        match opcode {
            JMPF | JMPT => {
                left = self.loose(left, BOOL)?;
                right = self.loose(right, BOOL)?;
            }
            STRCAT | CMP_EQ | CMP_NE => {
                let bare = self.loose_beside(right, left, opcode)?;
                if bare == right {
                    left = self.loose_beside(left, right, opcode)?;
                }
                right = bare;
            }
            _ => {}
        }
        add(
            parts,
            &[Unwritten::Node(left, level), Unwritten::Bytes(sign)],
        )?;
        add(parts, &[Unwritten::Node(right, level.saturating_add(1))])
    }

    // A search, whose start is left out where it is the one that stands for none.
    fn find(
        self,
        node: ExpressionNode,
        name: &'static [u8],
        start: i32,
        parts: &mut Items<'w>,
    ) -> Attempt<()> {
        let [array, value, from] = self.trees.inputs(node)? else {
            return Err(NOT_FOUND);
        };
        let element = self.code.set.element(self.trees.node(array.node)?.kind)?;
        let value = Unwritten::Node(self.loose(value.node, element)?, 0);
        add(parts, &[chain(array), Unwritten::Bytes(name), value])?;
        if !self.is_literal(from.node, Datum::Int(start))? {
            add(
                parts,
                &[Unwritten::Bytes(b", "), Unwritten::Node(from.node, 0)],
            )?;
        }
        add(parts, &[Unwritten::Bytes(b")")])
    }

    fn call(
        self,
        node: ExpressionNode,
        opcode: u8,
        names: (u16, u16),
        parts: &mut Items<'w>,
    ) -> Attempt<()> {
        let script = self.code.script;
        let (kind, arguments) = match (opcode, self.trees.inputs(node)?) {
            (CALL_PARENT, arguments) => {
                add(parts, &[Unwritten::Bytes(b"Parent.")])?;
                (script.number(script.object.parent), arguments)
            }
            (CALL_METHOD, [of, arguments @ ..]) => {
                let target = self.trees.node(of.node)?;
                if target.form != Form::Leaf(OperandMeaning::OwnInstance) {
                    add(parts, &[chain(of), Unwritten::Bytes(b".")])?;
                }
                (target.kind, arguments)
            }
            (_, arguments) => {
                let kind = script.number(names.0);
                if !self.code.set.hides(script, kind) {
                    add(parts, &[self.name(names.0), Unwritten::Bytes(b".")])?;
                }
                (kind, arguments)
            }
        };
        add(parts, &[self.name(names.1), Unwritten::Bytes(b"(")])?;
        self.arguments(kind, names.1, arguments, parts)?;
        add(parts, &[Unwritten::Bytes(b")")])
    }

    // The arguments of a call of the function that is found from the script of this type upward, each with the name of its
    // parameter from the first on that doesn't stand at its place.
    fn arguments(
        self,
        of: usize,
        name: u16,
        inputs: &[Input],
        parts: &mut Items<'w>,
    ) -> Attempt<()> {
        let name = self.code.script.number(name);
        let found = self.code.set.find_function(of, name);
        let (script, function) = found.ok_or(NOT_FOUND)?;
        check(function.parameters.len() == inputs.len())?;
        let mut is_named = false;
        for (at, input) in inputs.iter().enumerate() {
            is_named = is_named || input.place != at;
            let pair = *function.parameters.get(input.place).ok_or(NOT_FOUND)?;
            // The argument of Debug.Trace that stands there where none is written.
            let is_last = script.place == DEBUG && at == 1 && input.place == 1;
            if is_last && self.is_literal(input.node, Datum::Int(0))? {
                continue;
            }
            if at > 0 {
                add(parts, &[Unwritten::Bytes(b", ")])?;
            }
            if is_named {
                let slot = Unwritten::Slot((script, pair, input.place));
                add(parts, &[slot, Unwritten::Bytes(b" = ")])?;
            }
            let value = self.loose(input.node, script.number(pair.1))?;
            add(parts, &[Unwritten::Node(value, 0)])?;
        }
        Ok(())
    }

    // The expression without its cast, where a value converts to that type by itself.
    fn loose(self, number: usize, to: usize) -> Attempt<usize> {
        let node = self.trees.node(number)?;
        let (Form::Apply(CAST, _), [inner]) = (node.form, self.trees.inputs(node)?) else {
            return Ok(number);
        };
        let kind = self.trees.node(inner.node)?.kind;
        let is_loose = node.kind == to && kind != to && self.code.set.converts(kind, to);
        Ok(if is_loose { inner.node } else { number })
    }

    // One side of such an operation without its cast, where the other side brings it back.
    fn loose_beside(self, side: usize, other: usize, opcode: u8) -> Attempt<usize> {
        let kind = self.trees.node(side)?.kind;
        let loose = self.loose(side, kind)?;
        let (other, inner) = (self.trees.node(other)?.kind, self.trees.node(loose)?.kind);
        let comes_back = opcode == STRCAT || self.code.set.common(other, inner) == Some(kind);
        Ok(if comes_back { loose } else { side })
    }
}

// Puts parts on top of the items, the first uppermost.
fn push<'a>(items: &mut Items<'a>, parts: &[Unwritten<'a>]) -> Attempt<()> {
    for part in parts.iter().rev() {
        items.push(*part)?;
    }
    Ok(())
}

fn add<'a>(parts: &mut Items<'a>, more: &[Unwritten<'a>]) -> Attempt<()> {
    parts.extend_from_slice(more)?;
    Ok(())
}

fn chain<'a>(of: &Input) -> Unwritten<'a> {
    Unwritten::Node(of.node, CHAIN)
}

fn level_of(form: Form) -> u8 {
    match form {
        Form::Apply(CAST, _) => CAST_LEVEL,
        Form::Apply(NOT | INEG, _) => UNARY,
        Form::Apply(opcode, _) => sign_of(opcode).map_or(CHAIN, |(_, level)| level),
        Form::Leaf(_) => CHAIN,
    }
}
