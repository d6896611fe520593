// The things of a script that have a name and a line.
ghost use Rattle.std.specs.Prelude.{◌≡◌, ℕ};

use crate::set::SourceFile;
use papy_base::{Made, Name, NameTable, Named};
use script_parser::{Function, Property, State, Variable};
use std::alloc::Global;

/// A thing with a name of its own that a line of a script declares.
pub(crate) trait Declared: Named {
    ghost line_of: { Self → ℕ };

    fn line(&self) -> u16
        ensures { result ≡ line_of self.now };
}

impl Declared for Variable {
    ghost line_of = { λ variable. variable.line };

    fn line(&self) -> u16 {
        self.line
    }
}

impl Declared for Property {
    ghost line_of = { λ property. property.line };

    fn line(&self) -> u16 {
        self.line
    }
}

impl Declared for Function {
    ghost line_of = { λ function. function.line };

    fn line(&self) -> u16 {
        self.line
    }
}

impl Declared for State {
    ghost line_of = { λ state. state.line };

    fn line(&self) -> u16 {
        self.line
    }
}

impl Named for SourceFile {
    ghost name_of = { λ file. file.script.name };

    fn name(&self) -> &Name {
        &self.script.name
    }
}

/// Notes the lines of these things in the table.
pub(crate) fn note_lines<T: Declared>(
    alloc: Global,
    lines: &mut NameTable,
    items: &[T],
) -> Made<()> {
    for item in items {
        lines.note(alloc, item.name(), usize::from(item.line()))?;
    }
    Ok(())
}
