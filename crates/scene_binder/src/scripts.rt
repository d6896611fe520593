// The scripts of an outline and their members, by name.
ghost use Rattle.std.specs.Prelude.{IfOk, IfSome, IsTrue, Some, is_none, option_copied, option_map, ◌≡◌};
ghost use Rattle.std.specs.List.{Contains};
ghost use Rattle.papy_base.specs.Case.{SameIgnoringCase, folded};
ghost use Rattle.papy_base.specs.Lineage.{StandsAbove, lineage, stands_below};
ghost use Rattle.papy_base.specs.Table.{IsPlaceTable};
ghost use Rattle.core_tree.specs.Outlines.{parents_of};
ghost use Rattle.scene_binder.specs.Faults.{IsJudgedBy, broken, first_own, function_for, instantiable};
ghost use Rattle.scene_binder.specs.Instances.{IsInstantiable};
ghost use Rattle.scene_binder.specs.Members.{HasFunction, HasFunctionNamed, HasProperty, IsNearestProperty, own_function, own_property, script_named};
ghost use Rattle.scene_binder.specs.Names.{first_of, function_name, property_name};

use core_tree::{Outline, OutlineFunction, OutlineProperty, OutlineScript};
use papy_base::{LIBRARY_COUNT, Made, Name, NameTable, is_below, upward};
use scene_reader::{SceneFault, SceneRule};
use std::alloc::Global;
use std::marker::Model;

/// A script with tables of its members. A name that two members bear means the first.
#[derive(Drop)]
struct ScriptMembers<'a> {
    script: &'a OutlineScript,
    properties: NameTable,
    functions: NameTable,
    ghost named_properties: { IsPlaceTable property_name script.now.properties.items properties },
    ghost named_functions: { IsPlaceTable function_name script.now.functions.items functions },
}

impl<'a> ScriptMembers<'a> {
    /// The members of this script.
    fn new(alloc: Global, script: &'a OutlineScript) -> Made<ScriptMembers<'a>>
        ensures { IfOk result (λ members. members.script.now ≡ script.now) }
    {
        Ok(ScriptMembers {
            script,
            properties: NameTable::of_places(alloc, &script.properties)?,
            functions: NameTable::of_places(alloc, &script.functions)?,
        })
    }

    /// The Auto property of this name.
    fn find_property(&self, name: &Name) -> Option<&'a OutlineProperty>
        ensures there { IfSome result (λ property. Contains self.now.script.now.properties.items property.now) }
        ensures first { option_copied result ≡ first_of property_name self.now.script.now.properties.items (folded name.now) }
    {
        let place = self.properties.find(name)?;
        self.script.properties.as_slice().get(place)
    }

    /// The function of this name in the empty state.
    fn find_function(&self, name: &Name) -> Option<&'a OutlineFunction>
        ensures there { IfSome result (λ function. Contains self.now.script.now.functions.items function.now) }
        ensures named { IfSome result (λ function. SameIgnoringCase (function_name function.now) name.now) }
        ensures first { option_copied result ≡ first_of function_name self.now.script.now.functions.items (folded name.now) }
    {
        let place = self.functions.find(name)?;
        self.script.functions.as_slice().get(place)
    }
}

/// The scripts of an outline. A name that two scripts bear means the first. Contracts see the list of them.
#[derive(Drop)]
pub(crate) struct OutlineScripts<'a> {
    scripts: &'a [OutlineScript],
    members: Vec<ScriptMembers<'a>>,
    numbers: NameTable,
}

impl<'a> Model for OutlineScripts<'a> {
    ghost use Rattle.std.specs.Prelude.{List, map, ◌≡◌};
    ghost use Rattle.core_tree.specs.declared.outline.OutlineScript.{OutlineScript};

    ghost Value = { List OutlineScript };

    ghost view = { λ s. s.scripts.now };

    ghost use Rattle.papy_base.specs.Table.{IsPlaceTable};
    ghost use Rattle.scene_binder.specs.Names.{script_name};

    ghost invariant = { λ s. (map (λ members. members.script.now) s.members.items ≡ s.scripts.now) × IsPlaceTable script_name s.scripts.now s.numbers };
}

impl<'a> OutlineScripts<'a> {
    /// The scripts of this outline.
    pub(crate) fn new(alloc: Global, outline: &'a Outline) -> Made<Self>
        ensures { IfOk result (λ scripts. scripts ≡ outline.now.scripts.items) }
    {
        let scripts = outline.scripts.as_slice();
        let mut members = Vec::with_capacity(alloc, scripts.len())?;
        for script in scripts {
            members.push(ScriptMembers::new(alloc, script)?)?;
        }
        Ok(OutlineScripts {
            scripts,
            members,
            numbers: NameTable::of_places(alloc, scripts)?,
        })
    }

    /// The number of the script of this name. `NoScript` comes where there is none that may have instances.
    pub(crate) fn find_instantiable(&self, alloc: Global, name: &[u8]) -> Result<u16, SceneFault>
        ensures there { IfOk result (IsInstantiable self.now) }
        ensures named { IfOk result (λ n. script_named self.now name.now ≡ Some n) }
        ensures judged { IsJudgedBy (broken SceneRule.NoScript (is_none (instantiable self.now name.now))) result }
    {
        let name = Name::from_bytes(alloc, name)?;
        match self.numbers.find(&name) {
            Some(number) if LIBRARY_COUNT <= number && number < self.scripts.len() => {
                u16::try_from(number).map_err(|_| SceneFault::of(SceneRule::NoScript))
            }
            _ => Err(SceneFault::of(SceneRule::NoScript)),
        }
    }

    /// The nearest Auto property of this name from a script upward, after the number of its script.
    pub(crate) fn find_property(
        &self,
        alloc: Global,
        first: u16,
        name: &[u8],
    ) -> Made<Option<(usize, &'a OutlineProperty)>>
        ensures there { IfOk result (λ found. IfSome found (λ f. StandsAbove (parents_of self.now) first f.0 × HasProperty self.now f.0 f.1.now)) }
        ensures nearest { IfOk result (λ found. IfSome found (λ f. IsNearestProperty self.now name.now first f.0 f.1.now)) }
        ensures first { IfOk result (λ found. option_map (λ f. (f.0, f.1.now)) found ≡ first_own (own_property self.now (folded name.now)) (lineage (parents_of self.now) (Some first))) }
    {
        let name = Name::from_bytes(alloc, name)?;
        for script in upward(self.scripts, usize::from(first)) {
            if let Some(property) = self.own_property(script, &name) {
                return Ok(Some((script, property)));
            }
        }
        Ok(None)
    }

    fn own_property(&self, script: usize, name: &Name) -> Option<&'a OutlineProperty>
        ensures there { IfSome result (λ property. HasProperty self.now script property.now) }
        ensures first { option_copied result ≡ own_property self.now (folded name.now) script }
    {
        self.members.get(script)?.find_property(name)
    }

    /// The nearest function of this name in the empty states from a script upward.
    pub(crate) fn find_function(
        &self,
        alloc: Global,
        first: u16,
        name: &[u8],
    ) -> Made<Option<&'a OutlineFunction>>
        ensures named { IfOk result (λ found. IfSome found (λ f. HasFunctionNamed self.now first name.now f.now)) }
        ensures first { IfOk result (λ found. option_copied found ≡ function_for self.now (Some first) name.now) }
    {
        let name = Name::from_bytes(alloc, name)?;
        for script in upward(self.scripts, usize::from(first)) {
            if let Some(function) = self.own_function(script, &name) {
                return Ok(Some(function));
            }
        }
        Ok(None)
    }

    fn own_function(&self, script: usize, name: &Name) -> Option<&'a OutlineFunction>
        ensures there { IfSome result (λ function. HasFunction self.now script function.now) }
        ensures named { IfSome result (λ function. SameIgnoringCase (function_name function.now) name.now) }
        ensures first { option_copied result ≡ own_function self.now (folded name.now) script }
    {
        self.members.get(script)?.find_function(name)
    }

    /// Whether the second script is the first one or stands above it.
    pub(crate) fn is_child(&self, child: u16, parent: u16) -> bool
        ensures above { IsTrue result → StandsAbove (parents_of self.now) child parent }
        ensures same { result ≡ stands_below (parents_of self.now) child parent }
    {
        is_below(self.scripts, usize::from(child), usize::from(parent))
    }
}
