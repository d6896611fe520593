// How large functions and scripts are: the nodes of their trees, their parameters and their locals.
ghost use Rattle.std.specs.Prelude.{◌≡◌, ◌+◌, ◌<◌, ◌≤◌, ◌^◌, Some, None, false, IsTrue};
ghost use Rattle.type_rules.specs.Faults.{least_line};

use crate::statements::BLOCK_LIMIT;
use core_tree::{Core, CoreFunction, CoreLine, CoreStatement};

/// The most nodes, parameters and locals of a function.
const FUNCTION_LIMIT: u32 = 4_000;

/// The most of a script's functions together.
const SCRIPT_LIMIT: u32 = 200_000;

/// The sizes of a script's functions.
#[derive(Clone, Copy, PartialEq, Eq)]
pub(crate) struct Sizes {
    total: u32,
    // The least line of a function that is too large.
    too_large: Option<u16>,
}

impl Sizes {
    pub(crate) fn none() -> Sizes
        ensures { result ≡ record { total = 0; too_large = None } }
    {
        Sizes {
            total: 0,
            too_large: None,
        }
    }

    /// Notes a function of this line and size.
    pub(crate) fn note(&mut self, line: u16, size: u32)
        ensures total { self.old.total + size < 2 ^ 32 → self.new.total ≡ self.old.total + size }
        ensures large { 4000 < size → self.new.too_large ≡ Some (least_line self.old.too_large line) }
        ensures small { size ≤ 4000 → self.new.too_large ≡ self.old.too_large }
    {
        self.total = self.total.saturating_add(size);
        if size > FUNCTION_LIMIT {
            self.too_large = lesser_line(self.too_large, line);
        }
    }

    /// The least line at which the script is too large: that of a function, or that of the script,
    /// where its functions are too large together or what else it needs is.
    pub(crate) fn too_large(&self, script_line: u16, is_else_too_large: bool) -> Option<u16>
        ensures large { 200000 < self.now.total → result ≡ Some (least_line self.now.too_large script_line) }
        ensures other { IsTrue is_else_too_large → result ≡ Some (least_line self.now.too_large script_line) }
        ensures small { self.now.total ≤ 200000 → is_else_too_large ≡ false → result ≡ self.now.too_large }
    {
        if self.total > SCRIPT_LIMIT || is_else_too_large {
            lesser_line(self.too_large, script_line)
        } else {
            self.too_large
        }
    }
}

fn lesser_line(found: Option<u16>, line: u16) -> Option<u16>
    ensures { result ≡ Some (least_line found line) }
{
    match found {
        Some(earlier) if earlier < line => Some(earlier),
        _ => Some(line),
    }
}

/// How many nodes, parameters and locals a function has, at most 2^32 - 1 of them counted.
pub(crate) fn function_size(function: &CoreFunction) -> u32 {
    let slots = usize::saturating_add(function.parameters.len(), function.locals.len());
    let slots = u32::try_from(slots).unwrap_or(u32::MAX);
    slots.saturating_add(block_size(function.body.as_slice(), BLOCK_LIMIT))
}

// The size of a block. Statements never pass the limit of blocks.
#[cycle(lines)]
fn block_size(lines: &[CoreLine], depth: u8) -> u32 {
    let Some(inner) = depth.checked_sub(1) else {
        return u32::MAX;
    };
    let mut size: u32 = 0;
    for line in lines {
        size = size.saturating_add(statement_size(&line.form, inner));
    }
    size
}

#[cycle(lines)]
fn statement_size(statement: &CoreStatement, depth: u8) -> u32 {
    let parts = match statement {
        CoreStatement::SetLocal(_, value) | CoreStatement::SetField(_, value) => size_of(value),
        CoreStatement::SetState(value) | CoreStatement::Plain(value) => size_of(value),
        CoreStatement::Return(Some(value)) => size_of(value),
        CoreStatement::Return(None) => 0,
        CoreStatement::SetProp(of, _, right) | CoreStatement::ChangeProp(of, _, _, _, right) => {
            size_of(of).saturating_add(size_of(right))
        }
        CoreStatement::SetElement(array, index, right)
        | CoreStatement::ChangeElement(array, index, _, _, right) => {
            sum_of(size_of(array), size_of(index), size_of(right))
        }
        CoreStatement::If(tests, otherwise) => {
            let tests = branches_size(tests.as_slice(), depth);
            tests.saturating_add(block_size(otherwise.as_slice(), depth))
        }
        CoreStatement::While(test, body, _) => {
            size_of(test).saturating_add(block_size(body.as_slice(), depth))
        }
    };
    parts.saturating_add(1)
}

#[cycle(lines)]
fn branches_size(branches: &[(u16, Core, Vec<CoreLine>)], depth: u8) -> u32 {
    let mut size: u32 = 0;
    for (_, test, body) in branches {
        size = sum_of(size, size_of(test), block_size(body.as_slice(), depth));
    }
    size
}

// An expression's nodes.
#[cycle(nodes)]
fn size_of(core: &Core) -> u32 {
    let parts = match core {
        Core::Lit(_) | Core::Local(_) | Core::Field(_) => 0,
        Core::SelfValue | Core::StateText | Core::NewArray(_, _) => 0,
        Core::Neg(of) | Core::Not(of) | Core::Length(of) => size_of(of),
        Core::Cast(_, of) | Core::PropGet { of, .. } => size_of(of),
        Core::Join(left, right)
        | Core::Equal(left, right)
        | Core::And(left, right)
        | Core::Or(left, right)
        | Core::Arith(_, left, right)
        | Core::Order(_, left, right)
        | Core::Element(left, right, _) => size_of(left).saturating_add(size_of(right)),
        Core::Find(array, value, start) | Core::FindBack(array, value, start) => {
            sum_of(size_of(array), size_of(value), size_of(start))
        }
        Core::CallMethod { of, arguments, .. } => {
            size_of(of).saturating_add(sizes_of(arguments.as_slice()))
        }
        Core::CallParent { arguments, .. }
        | Core::CallGlobal { arguments, .. }
        | Core::CallNative { arguments, .. } => sizes_of(arguments.as_slice()),
    };
    parts.saturating_add(1)
}

#[cycle(nodes)]
fn sizes_of(expressions: &[Core]) -> u32 {
    let mut size: u32 = 0;
    for expression in expressions {
        size = size.saturating_add(size_of(expression));
    }
    size
}

fn sum_of(first: u32, second: u32, third: u32) -> u32 {
    first.saturating_add(second).saturating_add(third)
}
