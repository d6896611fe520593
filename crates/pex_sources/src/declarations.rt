// The text of a script: its heading, imports, variables, properties, functions and states.
use crate::blocks::Blocks;
use crate::code::FunctionCode;
use crate::compiled_scripts::{CompiledScript, CompiledScripts, NONE};
use crate::expressions::Speaker;
use crate::fault::{Attempt, NOT_FOUND, check};
use crate::page::Page;
use papy_base::Text;
use pex_values::{
    CALL_STATIC, Datum, Instruction, PexFunction, PexProperty, PexState, PexVariable, RETURN,
};
use std::collections::HashSet;

/// The bits of a function.
const GLOBAL: u8 = 1;

const NATIVE: u8 = 2;

/// The most bytes and lines of a script.
const BYTE_LIMIT: usize = 1 << 20;

const LINE_LIMIT: usize = 65_535;

// The script that is written.
#[derive(Clone, Copy)]
struct Author<'a> {
    set: &'a CompiledScripts<'a>,
    script: &'a CompiledScript<'a>,
}

/// The text of the script of this number, without indentation where it would be too long with it. `NotFound` comes where there is
/// no such script, or where it has what no compiler writes.
pub(crate) fn script_text(set: &CompiledScripts<'_>, number: usize) -> Attempt<Text> {
    let script = set.script(number)?;
    let author = Author { set, script };
    let mut page = Page::new(set.alloc, true);
    author.put_script(&mut page)?;
    let lines = page.bytes.iter().filter(|byte| **byte == b'\n').count();
    if page.bytes.len() > BYTE_LIMIT || lines > LINE_LIMIT {
        page = Page::new(set.alloc, false);
        author.put_script(&mut page)?;
    }
    Ok(Text::try_from_bytes(set.alloc, &page.bytes)?)
}

impl<'a> Author<'a> {
    fn put_script(self, page: &mut Page) -> Attempt<()> {
        let (script, object) = (self.script, self.script.object);
        page.begin(&[b"ScriptName ", script.text(object.name)])?;
        if self.has_parent() {
            page.put(&[b" Extends ", script.text(object.parent)])?;
        }
        page.end_heading(script, object.flags, object.doc)?;
        self.put_imports(page)?;
        page.blank()?;
        self.put_fields(page)?;
        for (place, state) in object.states.iter().enumerate() {
            self.put_state(page, state, place == 0)?;
        }
        Ok(())
    }

    fn has_parent(self) -> bool {
        !self.script.text(self.script.object.parent).is_empty()
    }

    // A line for each import: scripts whose Global functions it calls, and whose names mean something else there.
    fn put_imports(self, page: &mut Page) -> Attempt<()> {
        let object = self.script.object;
        let (properties, states) = (object.properties.iter(), object.states.iter());
        let accessors = properties.flat_map(|of| of.read.iter().chain(of.write.iter()));
        let members = states.flat_map(|state| state.functions.iter());
        let functions = accessors.chain(members.map(|(_, function)| function));
        let mut written = HashSet::new(page.alloc);
        for instruction in functions.flat_map(|function| function.code.iter()) {
            if let Some(import) = self.import_of(instruction)
                && written.insert(self.script.number(import))?
            {
                page.line(&[b"Import ", self.script.text(import)])?;
            }
        }
        Ok(())
    }

    // The script that an instruction asks for.
    fn import_of(self, instruction: &Instruction) -> Option<u16> {
        match (instruction.opcode, instruction.fixed.as_slice()) {
            (CALL_STATIC, [Datum::Word(import), Datum::Word(name), ..]) => {
                let (set, script) = (self.set, self.script);
                let own = set.find_function(script.name(), script.number(*name));
                let is_hidden = set.hides(script, script.number(*import));
                (is_hidden && own.is_none()).then_some(*import)
            }
            _ => None,
        }
    }

    // Variables and properties: each variable before the first Auto property whose variable stands behind it.
    fn put_fields(self, page: &mut Page) -> Attempt<()> {
        let mut written = 0usize;
        for property in &self.script.object.properties {
            if let Some(name) = property.variable {
                let place = self.variable_place(name)?;
                self.put_variables(page, written, place)?;
                written = written.max(place);
            }
            self.put_property(page, property)?;
        }
        self.put_variables(page, written, self.script.object.variables.len())
    }

    fn variable_place(self, name: u16) -> Attempt<usize> {
        let place = self.set.variable(self.script, self.script.number(name));
        place.ok_or(NOT_FOUND)
    }

    // The variables from one place up to another, but for those of Auto properties.
    fn put_variables(self, page: &mut Page, from: usize, to: usize) -> Attempt<()> {
        let script = self.script;
        for place in from..to {
            let variable = script.variable(place)?;
            let (kind, name) = (script.text(variable.kind), script.text(variable.name));
            let number = script.number(variable.name);
            if self.set.property(script, number).is_none() {
                page.begin(&[kind, b" ", name])?;
                self.put_initial(page, variable)?;
                page.put_flags(variable.flags)?;
                page.end()?;
            }
        }
        Ok(())
    }

    // The value with which a variable begins, unless it is that of its type.
    fn put_initial(self, page: &mut Page, variable: &PexVariable) -> Attempt<()> {
        match variable.value {
            Datum::NoneValue | Datum::Int(0) | Datum::Bool(0) => Ok(()),
            Datum::Quoted(text) if self.script.text(text).is_empty() => Ok(()),
            value => self.put_value(page, value),
        }
    }

    fn put_value(self, page: &mut Page, value: Datum) -> Attempt<()> {
        page.put(&[b" = "])?;
        page.put_literal(self.script, value)
    }

    fn put_property(self, page: &mut Page, property: &'a PexProperty) -> Attempt<()> {
        let script = self.script;
        let (kind, name) = (script.text(property.kind), script.text(property.name));
        page.begin(&[kind, b" Property ", name])?;
        let constant = self.constant(property);
        if let Some(name) = property.variable {
            self.put_initial(page, script.variable(self.variable_place(name)?)?)?;
            page.put(&[b" Auto"])?;
        } else if let Some(value) = constant {
            self.put_value(page, value)?;
            page.put(&[b" AutoReadOnly"])?;
        }
        page.end_heading(script, property.flags, property.doc)?;
        if property.variable.is_some() || constant.is_some() {
            return Ok(());
        }
        page.indent();
        if let Some(function) = &property.read {
            self.put_function(page, b"Get", function)?;
        }
        if let Some(function) = &property.write {
            self.put_function(page, b"Set", function)?;
        }
        page.outdent();
        page.line(&[b"EndProperty"])
    }

    // What a property gives that is only read, where it is a constant.
    fn constant(self, property: &PexProperty) -> Option<Datum> {
        let read = property.read.as_ref()?;
        match read.code.as_slice() {
            [only] if only.opcode == RETURN && property.write.is_none() && self.is_bare(read) => {
                let value = only.fixed.first().copied();
                value.filter(|value| !matches!(value, Datum::Word(_)))
            }
            _ => None,
        }
    }

    // Whether a function has neither documentation nor flags, and is neither Global nor Native.
    fn is_bare(self, function: &PexFunction) -> bool {
        self.script.text(function.doc).is_empty() && function.flags == 0 && function.bits == 0
    }

    fn put_state(self, page: &mut Page, state: &'a PexState, is_first: bool) -> Attempt<()> {
        let name = self.script.text(state.name);
        if name.is_empty() {
            check(is_first)?;
            return self.put_functions(page, state, self.written_count(state));
        }
        let is_auto = name == self.script.text(self.script.object.auto_state);
        page.blank()?;
        page.line(&[if is_auto { b"Auto " } else { b"" }, b"State ", name])?;
        page.indent();
        self.put_functions(page, state, state.functions.len())?;
        page.outdent();
        page.line(&[b"EndState"])
    }

    // The first functions of a state, so many.
    fn put_functions(self, page: &mut Page, state: &'a PexState, count: usize) -> Attempt<()> {
        for (name, function) in state.functions.iter().take(count) {
            self.put_function(page, self.script.text(*name), function)?;
        }
        Ok(())
    }

    // How many functions of the empty state stand before those that a compiler adds.
    fn written_count(self, state: &PexState) -> usize {
        if self.has_parent() {
            return state.functions.len();
        }
        let mut functions = state.functions.iter();
        let last = functions.rposition(|(name, function)| !self.is_generated(*name, function));
        last.map_or(0, |last| last.saturating_add(1))
    }

    // Whether a compiler adds this member to a script without parent.
    fn is_generated(self, name: u16, function: &PexFunction) -> bool {
        match self.script.text(name) {
            b"GotoState" | b"GetState" => true,
            b"OnBeginState" | b"OnEndState" => {
                function.code.is_empty() && function.locals.is_empty() && self.is_bare(function)
            }
            _ => false,
        }
    }

    fn put_function(self, page: &mut Page, name: &[u8], function: &'a PexFunction) -> Attempt<()> {
        let (begin, end): (&[u8], &[u8]) = if self.is_event(name, function) {
            (b"Event ", b"EndEvent")
        } else {
            (b"Function ", b"EndFunction")
        };
        page.blank()?;
        page.begin(&[])?;
        if self.has_result(function) {
            page.put(&[self.script.text(function.result), b" "])?;
        }
        page.put(&[begin, name, b"("])?;
        self.put_parameters(page, function)?;
        page.put(&[b")"])?;
        page.put_bits(u32::from(function.bits), [b" Global", b" Native"])?;
        page.end_heading(self.script, function.flags, function.doc)?;
        if function.bits & NATIVE != 0 {
            return Ok(());
        }
        page.indent();
        let mut code = FunctionCode::new(self.set, self.script, function);
        code.fill()?;
        put_code(page, &code)?;
        page.outdent();
        page.line(&[end])
    }

    fn has_result(self, function: &PexFunction) -> bool {
        self.script.number(function.result) != NONE
    }

    // Functions without result whose names begin with `On` are events.
    fn is_event(self, name: &[u8], function: &PexFunction) -> bool {
        let begins = matches!(name, [b'O' | b'o', b'N' | b'n', ..]);
        begins && function.bits & GLOBAL == 0 && !self.has_result(function)
    }

    fn put_parameters(self, page: &mut Page, function: &PexFunction) -> Attempt<()> {
        for (place, pair) in function.parameters.iter().enumerate() {
            let comma: &[u8] = if place > 0 { b", " } else { b"" };
            page.put(&[comma, self.script.text(pair.1), b" "])?;
            self.set.put_slot(page, (self.script, *pair, place))?;
        }
        Ok(())
    }
}

fn put_code(page: &mut Page, code: &FunctionCode<'_>) -> Attempt<()> {
    let mut blocks = Blocks::new(code, 0);
    blocks.read()?;
    let trees = &blocks.reader.trees;
    Speaker { code, trees }.put_lines(page, &blocks.lines)
}
