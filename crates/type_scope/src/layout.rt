// The variables of a script, those of its Auto properties among them.
ghost use Rattle.std.specs.Prelude.{◌≡◌, ◌<◌, ◌++◌, IfOk, IfSome, OnOk, map, vec_len};
ghost use Rattle.type_scope.specs.Sources.{InOrderOfLine, auto_declarations, declaration, declarations, is_auto, of_variable, source_line};

use crate::COMPARED_LIMIT;
use line_parser::TypeName;
use papy_base::{Made, Name, NameTable};
use script_parser::{Property, PropertyForm, Script, Variable};
use std::alloc::Global;

/// What declares a variable: a line of its own, or an Auto property, with its place among the
/// script's properties.
#[derive(Clone, Copy)]
pub enum Source<'a> {
    Declared(&'a Variable),
    Auto(&'a Property, usize),
}

impl<'a> Source<'a> {
    // The name of the variable's type.
    fn kind(&self) -> &'a TypeName {
        match *self {
            Source::Declared(variable) => &variable.kind,
            Source::Auto(property, _) => &property.kind,
        }
    }

    // Whether a line of its own declares the variable, and by this name.
    fn declares(&self, name: &Name) -> bool {
        matches!(*self, Source::Declared(variable) if variable.name.same(name))
    }

    fn line(&self) -> u16
        ensures { result ≡ source_line self.now }
    {
        match *self {
            Source::Declared(variable) => variable.line,
            Source::Auto(property, _) => property.line,
        }
    }
}

/// The variables of a script in order of their lines.
#[derive(Drop)]
pub struct Layout<'a> {
    /// What declares each variable.
    pub sources: Vec<Source<'a>>,
    // The variable of each property that is Auto.
    autos: Vec<Option<u16>>,
    // The number of each declared variable, by its name.
    declared: NameTable,
}

impl<'a> Layout<'a> {
    /// The variables of this script.
    pub fn new(alloc: Global, script: &'a Script) -> Made<Layout<'a>>
        ensures { IfOk result (λ layout. InOrderOfLine (declarations script.now) (map declaration layout.sources.items)) }
    {
        let sources = sources_of(alloc, script)?;
        let mut autos = vec![in alloc; None; script.properties.len()]?;
        let mut declared = NameTable::new(alloc);
        for (number, source) in sources.iter().enumerate() {
            match *source {
                Source::Declared(variable) => declared.note(alloc, &variable.name, number)?,
                Source::Auto(_, place) => {
                    if place < autos.len() {
                        autos[place] = u16::try_from(number).ok();
                    }
                }
            }
        }
        Ok(Layout {
            sources,
            autos,
            declared,
        })
    }

    /// The number of the declared variable of this name, with the name of its type.
    pub fn find(&self, name: &Name) -> Option<(u16, &'a TypeName)>
        ensures { IfSome result (λ v. v.0 < vec_len self.now.sources) }
    {
        let number = if self.sources.len() > COMPARED_LIMIT {
            self.declared.find(name)?
        } else {
            let mut sources = self.sources.iter();
            sources.position(|source| source.declares(name))?
        };
        let source = self.sources.get(number)?;
        Some((u16::try_from(number).ok()?, source.kind()))
    }

    /// The variable of the property at this place, where the property is Auto.
    pub fn auto_variable(&self, place: usize) -> Option<u16>
        ensures { IfSome result (λ n. n < vec_len self.now.sources) }
    {
        match self.autos.get(place) {
            Some(Some(number)) if usize::from(*number) < self.sources.len() => Some(*number),
            _ => None,
        }
    }
}

fn sources_of<'a>(alloc: Global, script: &'a Script) -> Made<Vec<Source<'a>>>
    ensures { IfOk result (λ sources. InOrderOfLine (declarations script.now) (map declaration sources.items)) }
{
    let mut sources = declared_sources(alloc, script.variables.as_slice())?;
    add_auto_sources(&mut sources, script.properties.as_slice())?;
    sources.sort_by_key(|source| source.line())?;
    Ok(sources)
}

fn declared_sources(alloc: Global, variables: &[Variable]) -> Made<Vec<Source<'_>>>
    ensures { IfOk result (λ sources. map declaration sources.items ≡ map of_variable variables.now) }
{
    let mut sources = Vec::with_capacity(alloc, variables.len())?;
    for variable in variables {
        sources.push(Source::Declared(variable))?;
    }
    Ok(sources)
}

fn add_auto_sources<'a>(sources: &mut Vec<Source<'a>>, properties: &'a [Property]) -> Made<()>
    ensures { OnOk result
        (map declaration sources.new.items ≡ map declaration sources.old.items ++ auto_declarations properties.now) }
{
    for (place, property) in properties.iter().enumerate() {
        if is_auto(&property.form) {
            sources.push(Source::Auto(property, place))?;
        }
    }
    Ok(())
}

fn is_auto(form: &PropertyForm) -> bool
    ensures { result ≡ is_auto form.now }
{
    matches!(form, PropertyForm::Auto(_))
}
