// A script while it is judged.
ghost use Rattle.std.specs.Prelude.{◌≡◌, [], IfNone, IfSome, IsSome};
ghost use Rattle.core_tree.specs.InRange.{ResultInRange};
ghost use Rattle.expression_rules.specs.Rules.{rule_number};
ghost use Rattle.papy_base.specs.Earliest.{IsFirst};
ghost use Rattle.type_rules.specs.Ranges.{KeepsScript, functions_of, set_of};
ghost use Rattle.type_scope.specs.Types.{type_named};

use crate::elaboration::ScriptFaults;
use crate::sizes::Sizes;
use core_tree::CoreType;
use expression_rules::{Scope, ScriptNotes, TypeRule};
use line_parser::TypeName;
use std::mem;
use type_scope::{Catalog, Layout};

/// A script while it is judged: what its names mean, and what was found so far.
#[derive(Drop)]
pub(crate) struct ScriptRules<'a> {
    pub(crate) catalog: &'a Catalog<'a>,
    pub(crate) layout: &'a Layout<'a>,
    /// The script's number in the set.
    pub(crate) number: u16,
    notes: ScriptNotes,
    sizes: Sizes,
}

impl<'a> ScriptRules<'a> {
    pub(crate) fn new(
        catalog: &'a Catalog<'a>,
        layout: &'a Layout<'a>,
        number: u16,
    ) -> ScriptRules<'a>
        ensures catalog { result.catalog ≡ catalog.entry }
        ensures layout { result.layout ≡ layout.entry }
        ensures number { result.number ≡ number }
    {
        ScriptRules {
            catalog,
            layout,
            number,
            notes: ScriptNotes::new(catalog.alloc),
            sizes: Sizes::none(),
        }
    }

    /// Notes that a rule is broken at this line.
    pub(crate) fn fault(&mut self, line: u16, rule: TypeRule)
        ensures kept { KeepsScript self.old self.new }
        ensures noted { IsSome self.new.notes.first.found }
        ensures least { IfSome self.new.notes.first.found (IsFirst rule_number self.old.notes.first.found line rule) }
    {
        self.notes.note(line, rule);
    }

    /// The type that is written so at this line. A name of no type breaks K2.
    pub(crate) fn kind_at(&mut self, line: u16, name: &TypeName) -> Option<CoreType>
        ensures found { result ≡ type_named (set_of self.old) name.now }
        ensures kept { KeepsScript self.old self.new }
        ensures in_range { ResultInRange (functions_of self.old) result }
        ensures noted { IfNone result (IsSome self.new.notes.first.found) }
    {
        let kind = self.catalog.type_of(name);
        if kind.is_none() {
            self.fault(line, TypeRule::UnknownType);
        }
        kind
    }

    /// The scope of a function of this line. It holds what was noted so far until it is closed.
    pub(crate) fn open_scope(&mut self, is_global: bool, line: u16) -> Scope<'a>
        ensures kept { KeepsScript self.old self.new }
        ensures catalog { result.catalog ≡ self.old.catalog }
        ensures layout { result.layout ≡ self.old.layout }
        ensures script { result.script ≡ self.old.number }
        ensures locals { result.locals.kinds.items ≡ [] }
        ensures notes { result.notes ≡ self.old.notes }
    {
        let notes = mem::replace(&mut self.notes, ScriptNotes::new(self.catalog.alloc));
        Scope::new(
            self.catalog,
            self.layout,
            self.number,
            is_global,
            line,
            notes,
        )
    }

    /// Takes back what was noted, with a function's line and size.
    pub(crate) fn close_scope(&mut self, notes: ScriptNotes, line: u16, size: u32)
        ensures kept { KeepsScript self.old self.new }
        ensures notes { self.new.notes ≡ notes }
    {
        self.notes = notes;
        self.note_size(line, size);
    }

    /// Notes a function's line and size.
    pub(crate) fn note_size(&mut self, line: u16, size: u32)
        ensures kept { KeepsScript self.old self.new }
        ensures notes { self.new.notes ≡ self.old.notes }
    {
        self.sizes.note(line, size);
    }

    /// What was found of the script, which begins at this line.
    pub(crate) fn faults(&self, script_line: u16) -> ScriptFaults {
        ScriptFaults {
            broken: self.notes.first(),
            too_large: self
                .sizes
                .too_large(script_line, self.notes.writes_too_much()),
        }
    }
}
