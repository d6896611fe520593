// Expressions, all of a function in two lists.
use crate::code::{OperandMeaning, sign_of};
use crate::fault::{Attempt, NOT_FOUND};
use pex_values::{CALL_METHOD, CALL_PARENT, CALL_STATIC, PROPGET};
use std::alloc::Global;

/// What an expression is: a name or a literal, or what an opcode gives, with references to the names of a script and of a function
/// or a property, or to that of its type. And and Or have the opcodes of their jumps.
#[derive(Clone, Copy, PartialEq, Eq)]
pub(crate) enum Form {
    Leaf(OperandMeaning),
    Apply(u8, (u16, u16)),
}

/// An expression, with the number of its type and its inputs among those of the function.
#[derive(Clone, Copy)]
pub(crate) struct ExpressionNode {
    pub form: Form,
    pub kind: usize,
    first: usize,
    end: usize,
    /// The first and the last of its instructions, where it has any.
    pub code: Option<(usize, usize)>,
    /// Whether it comes to an act, in which another stack may change variables.
    pub comes_to_act: bool,
}

impl ExpressionNode {
    /// Whether an act may change it: a variable of the script, or the name of the state.
    pub(crate) fn varies(self) -> bool {
        matches!(
            self.form,
            Form::Leaf(OperandMeaning::Variable(_) | OperandMeaning::StateText)
        )
    }

    // Whether it is a name or a literal for which no code stands.
    fn is_bare(self) -> bool {
        self.code.is_none() && matches!(self.form, Form::Leaf(_))
    }
}

/// An expression that is an operand of another, or of an assignment. Those of a call stand in the order of writing.
#[derive(Clone, Copy)]
pub(crate) struct Input {
    pub node: usize,
    pub operand: OperandMeaning,
    /// The place of its parameter, where it is an argument.
    pub place: usize,
    /// Whether it is read here and by an assignment that also computes with what is read.
    pub is_shared: bool,
    /// Arguments with code are written by the place of its end, the others behind them.
    pub order: usize,
}

/// The expressions of a function, each behind its inputs.
#[derive(Drop)]
pub(crate) struct Trees {
    nodes: Vec<ExpressionNode>,
    inputs: Vec<Input>,
}

impl Trees {
    /// No expressions.
    pub(crate) fn new(alloc: Global) -> Trees {
        Trees {
            nodes: Vec::new(alloc),
            inputs: Vec::new(alloc),
        }
    }

    /// How many expressions and inputs there are.
    pub(crate) fn size(&self) -> usize {
        self.nodes.len().saturating_add(self.inputs.len())
    }

    /// The expression of this number, or `NotFound`.
    pub(crate) fn node(&self, number: usize) -> Attempt<ExpressionNode> {
        self.nodes.get(number).copied().ok_or(NOT_FOUND)
    }

    /// The inputs of an expression of these. `NotFound` comes where it has inputs that aren't there.
    pub(crate) fn inputs(&self, node: ExpressionNode) -> Attempt<&[Input]> {
        self.inputs.get(node.first..node.end).ok_or(NOT_FOUND)
    }

    /// Adds an expression, which has this code beside that of its inputs, before which it may begin. Gives its number, or `NotFound`
    /// where an input is no expression of these. The code of what is shared isn't its own.
    pub(crate) fn add(
        &mut self,
        form: Form,
        kind: usize,
        inputs: &[Input],
        mut code: Option<(usize, usize)>,
    ) -> Attempt<usize> {
        let first = self.inputs.len();
        let mut comes_to_act = matches!(
            form,
            Form::Apply(PROPGET | CALL_METHOD | CALL_PARENT | CALL_STATIC, _)
        );
        for input in inputs {
            let node = self.node(input.node)?;
            if !input.is_shared {
                comes_to_act = comes_to_act || node.comes_to_act;
                let (begin, _) = node.code.unwrap_or((usize::MAX, 0));
                code = code.map(|(start, last)| (start.min(begin), last));
            }
            self.inputs.push(*input)?;
        }
        let number = self.nodes.len();
        self.nodes.push(ExpressionNode {
            form,
            kind,
            first,
            end: self.inputs.len(),
            code,
            comes_to_act,
        })?;
        Ok(number)
    }

    /// The opcode and the right side of a value with which an assignment also computes: an operation on numbers, or one that joins
    /// texts, whose left side is the target.
    pub(crate) fn change(&self, value: usize, target: usize) -> Attempt<Option<(u8, usize)>> {
        let node = self.node(value)?;
        let (Form::Apply(opcode, _), [left, right]) = (node.form, self.inputs(node)?) else {
            return Ok(None);
        };
        let (old, target) = (self.node(left.node)?, self.node(target)?);
        let mut inputs = self.inputs(old)?.iter().zip(self.inputs(target)?);
        let is_old = matches!(sign_of(opcode), Some((_, 3..)))
            && old.form == target.form
            && old.kind == node.kind
            && old.is_bare() == target.is_bare()
            && inputs.all(|(input, wanted)| self.is_same(input.node, wanted.node));
        Ok(is_old.then_some((opcode, right.node)))
    }

    // Whether two expressions are one, or the same name or literal.
    fn is_same(&self, number: usize, other: usize) -> bool {
        match (self.nodes.get(number), self.nodes.get(other)) {
            _ if number == other => true,
            (Some(node), Some(same)) => {
                node.form == same.form && node.is_bare() && same.is_bare()
            }
            _ => false,
        }
    }
}
