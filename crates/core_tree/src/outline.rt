// What a scene is bound against: the members of scripts without their code.

use crate::core_type::CoreType;
use crate::value::Value;
use papy_base::{HasParent, Name, Named};

/// The scripts of a set. Each list of a script is in the order of the file.
#[derive(Drop)]
pub struct Outline {
    pub scripts: Vec<OutlineScript>,
}

/// A script's members.
#[derive(Drop)]
pub struct OutlineScript {
    pub name: Name,
    /// The parent's number in the set.
    pub parent: Option<u16>,
    /// The state in which instances begin, the empty state where there is none.
    pub auto_state: Option<Name>,
    pub variables: Vec<OutlineVariable>,
    /// The Auto properties.
    pub properties: Vec<OutlineProperty>,
    /// The functions of the empty state.
    pub functions: Vec<OutlineFunction>,
}

impl Named for OutlineScript {
    ghost name_of = { λ script. script.name };

    fn name(&self) -> &Name {
        &self.name
    }
}

impl HasParent for OutlineScript {
    ghost parent_number = { λ script. script.parent };

    fn parent(&self) -> Option<usize> {
        Some(usize::from(self.parent?))
    }
}

/// A variable, with its value at the start.
#[derive(Drop)]
pub struct OutlineVariable {
    pub name: Name,
    pub kind: CoreType,
    pub value: Value,
}

/// An Auto property, with the number of its variable among those of its script.
#[derive(Drop)]
pub struct OutlineProperty {
    pub name: Name,
    pub kind: CoreType,
    pub variable: u16,
}

impl Named for OutlineProperty {
    ghost name_of = { λ property. property.name };

    fn name(&self) -> &Name {
        &self.name
    }
}

/// A function of the empty state.
#[derive(Drop)]
pub struct OutlineFunction {
    pub name: Name,
    pub parameters: Vec<CoreType>,
    pub result: Option<CoreType>,
    pub is_global: bool,
    pub is_native: bool,
}

impl Named for OutlineFunction {
    ghost name_of = { λ function. function.name };

    fn name(&self) -> &Name {
        &self.name
    }
}
