// A set with its scripts judged, and which of their broken rules is reported.
ghost use Rattle.std.specs.Prelude.{◌≡◌, ◌+◌, ◌<◌, ◌++◌, ◌∷◌, [], ℕ, length, map, slice_index_or, IfErr, IfOk, OnOk};
ghost use Rattle.core_tree.specs.InRange.{InRange, ScriptInRange};
ghost use Rattle.core_tree.specs.Set.{script_of};
ghost use Rattle.script_linker.specs.declared.set.SourceFile.{SourceFile};
ghost use Rattle.type_rules.specs.Faults.{HasFaultBelow, IsFaultBelow, broken_in, earlier, too_large_in};
ghost use Rattle.type_rules.specs.Heads.{core_property_head, core_script_head, core_state_head, property_heads, script_head, state_heads};
ghost use Rattle.type_rules.specs.Members.{MembersInRange};
ghost use Rattle.type_rules.specs.Ranges.{WorkInRange, functions_of, set_of};
ghost use Rattle.type_rules.specs.Variables.{HasVariables, HaveVariables, core_variable_head, variable_head};
ghost use Rattle.type_scope.specs.Sources.{declaration};
ghost use Rattle.type_scope.specs.Types.{signatures};

use crate::fault::TypeFault;
use crate::functions::clone_text;
use crate::members::{auto_state, core_properties, core_states, core_variables};
use crate::work::ScriptRules;
use core_tree::{CoreProperty, CoreScript, CoreSet, CoreState, CoreVariable};
use expression_rules::TypeRule;
use papy_base::{BrokenRule, Made, PRELUDE_COUNT};
use script_linker::ScriptSet;
use script_parser::Script;
use std::alloc::Global;
use std::mem;
use type_scope::{Catalog, Layout};

/// The set with every word resolved, and every conversion and default argument written out.
///
/// `Broken` comes where a rule is broken, with the first one in the order of files, lines and the
/// rules' numbers; K15 only where no other rule is broken in the set.
pub fn elaborate(alloc: Global, set: &ScriptSet) -> std::result::Result<CoreSet, TypeFault>
    ensures in_range { IfOk result InRange }
    ensures heads { IfOk result (λ made. map core_script_head made.scripts.items ≡ map (script_head set.now) set.now) }
    ensures variables { IfOk result (λ made. HaveVariables set.now made.scripts.items) }
    ensures broken { IfErr result (IsFaultBelow (length set.now)) }
{
    let catalog = Catalog::new(alloc, set)?;
    let mut scripts = Vec::new(alloc);
    let mut faults = FirstFaults {
        broken: None,
        too_large: None,
    };
    for number in 0..set.count() {
        let judged = judge_script(&catalog, number)?;
        faults.note(number, judged.faults);
        add_script(&mut scripts, judged.script)?;
    }
    match faults.first() {
        Some(fault) => {
            // A refused set is the last that a program reads: its trees are left to the end of the program.
            mem::forget(scripts);
            Err(fault)
        }
        None => Ok(CoreSet { scripts }),
    }
}

fn add_script(scripts: &mut Vec<CoreScript>, script: CoreScript) -> Made<()>
    ensures { OnOk result (scripts.new.items ≡ scripts.old.items ++ script ∷ []) }
{
    scripts.push(script)?;
    Ok(())
}

// A script, and what was found of it. Where a rule is broken nobody uses the script.
#[derive(Drop)]
struct JudgedScript {
    script: CoreScript,
    faults: ScriptFaults,
}

// The members of a script, each list in its order.
#[derive(Drop)]
struct Members {
    variables: Vec<CoreVariable>,
    properties: Vec<CoreProperty>,
    states: Vec<CoreState>,
}

// The script of this number in its set.
fn judge_script(catalog: &Catalog<'_>, number: u16) -> Made<JudgedScript>
    requires { number < length catalog.now.set.now }
    ensures in_range { IfOk result (λ judged. ScriptInRange (signatures catalog.now.set.now) (script_of judged.script)) }
    ensures head { (file : SourceFile) → IfOk result (λ judged. core_script_head judged.script ≡ script_head catalog.now.set.now (slice_index_or catalog.now.set.now number file)) }
    ensures variables { (file : SourceFile) → IfOk result (λ judged. HasVariables catalog.now.set.now (slice_index_or catalog.now.set.now number file).script judged.script.variables.items) }
{
    let script = catalog.set.script(number);
    let layout = Layout::new(catalog.alloc, script)?;
    let judged = judge_layout(catalog, &layout, number, script);
    let (members, faults) = judged?;
    Ok(JudgedScript {
        script: core_script(catalog, number, members)?,
        faults,
    })
}

fn judge_layout(
    catalog: &Catalog<'_>,
    layout: &Layout<'_>,
    number: u16,
    script: &Script,
) -> Made<(Members, ScriptFaults)>
    ensures variables { IfOk result (λ judged. map core_variable_head judged.0.variables.items ≡ map (variable_head catalog.now.set.now) (map declaration layout.now.sources.items)) }
    ensures properties { IfOk result (λ judged. map core_property_head judged.0.properties.items ≡ property_heads catalog.now.set.now script.now) }
    ensures states { IfOk result (λ judged. map core_state_head judged.0.states.items ≡ state_heads catalog.now.set.now script.now) }
    ensures in_range { number < length catalog.now.set.now → IfOk result (λ judged. MembersInRange (signatures catalog.now.set.now) judged.0) }
{
    judge_members(ScriptRules::new(catalog, layout, number), script)
}

fn judge_members(mut work: ScriptRules<'_>, script: &Script) -> Made<(Members, ScriptFaults)>
    ensures variables { IfOk result (λ judged. map core_variable_head judged.0.variables.items ≡ map (variable_head (set_of work.entry)) (map declaration work.entry.layout.now.sources.items)) }
    ensures properties { IfOk result (λ judged. map core_property_head judged.0.properties.items ≡ property_heads (set_of work.entry) script.now) }
    ensures states { IfOk result (λ judged. map core_state_head judged.0.states.items ≡ state_heads (set_of work.entry) script.now) }
    ensures in_range { WorkInRange work.entry → IfOk result (λ judged. MembersInRange (functions_of work.entry) judged.0) }
{
    let variables = core_variables(&mut work)?;
    let properties = core_properties(&mut work, script.properties.as_slice())?;
    let states = core_states(&mut work, script)?;
    let members = Members {
        variables,
        properties,
        states,
    };
    Ok((members, work.faults(script.line)))
}

fn core_script(catalog: &Catalog<'_>, number: u16, members: Members) -> Made<CoreScript>
    requires { number < length catalog.now.set.now }
    ensures in_range { MembersInRange (signatures catalog.now.set.now) members → IfOk result (λ made. ScriptInRange (signatures catalog.now.set.now) (script_of made)) }
    ensures head { (file : SourceFile) → map core_property_head members.properties.items ≡ property_heads catalog.now.set.now (slice_index_or catalog.now.set.now number file).script →
        map core_state_head members.states.items ≡ state_heads catalog.now.set.now (slice_index_or catalog.now.set.now number file).script →
        IfOk result (λ made. core_script_head made ≡ script_head catalog.now.set.now (slice_index_or catalog.now.set.now number file)) }
    ensures variables { IfOk result (λ made. made.variables ≡ members.variables) }
{
    let alloc = catalog.alloc;
    let script = catalog.set.script(number);
    Ok(CoreScript {
        file: catalog.set.file_name(number).try_clone(alloc)?,
        name: script.name.try_clone(alloc)?,
        parent: catalog.parent_of(number),
        flags: script.flags,
        doc: clone_text(alloc, &script.doc)?,
        auto_state: auto_state(alloc, script.states.as_slice())?,
        variables: members.variables,
        properties: members.properties,
        states: members.states,
    })
}

/// What was found of one script.
#[derive(Clone, Copy, PartialEq, Eq)]
pub(crate) struct ScriptFaults {
    /// Its first broken rule but K15.
    pub(crate) broken: Option<BrokenRule<TypeRule>>,
    /// The first line at which it breaks K15.
    pub(crate) too_large: Option<u16>,
}

// The first broken rules of a set, while its scripts are judged in order.
#[derive(Clone, Copy, PartialEq, Eq)]
struct FirstFaults {
    broken: Option<TypeFault>,
    too_large: Option<TypeFault>,
}

impl FirstFaults {
    // Notes what was found of the next script, which has this number in the set.
    fn note(&mut self, script: u16, faults: ScriptFaults)
        ensures prelude { script < 6 → self.new ≡ self.old }
        ensures broken { (file : ℕ) → script ≡ file + 6 → self.new.broken ≡ earlier self.old.broken (broken_in file faults.broken) }
        ensures too_large { (file : ℕ) → script ≡ file + 6 → self.new.too_large ≡ earlier self.old.too_large (too_large_in file faults.too_large) }
        ensures broken_below { (count : ℕ) → script < count → HasFaultBelow count self.old.broken → HasFaultBelow count self.new.broken }
        ensures too_large_below { (count : ℕ) → script < count → HasFaultBelow count self.old.too_large → HasFaultBelow count self.new.too_large }
    {
        let Some(file) = script.checked_sub(PRELUDE_COUNT as u16) else {
            return;
        };
        let broken = earlier(self.broken, broken_in(file, faults.broken));
        let too_large = earlier(self.too_large, too_large_in(file, faults.too_large));
        self.broken = broken;
        self.too_large = too_large;
    }

    // The fault that is reported: one of K15 only where no other rule is broken.
    fn first(&self) -> Option<TypeFault>
        ensures first { result ≡ earlier self.now.broken self.now.too_large }
        ensures below { (count : ℕ) → HasFaultBelow count self.now.broken → HasFaultBelow count self.now.too_large → HasFaultBelow count result }
    {
        earlier(self.broken, self.too_large)
    }
}

fn earlier(found: Option<TypeFault>, now: Option<TypeFault>) -> Option<TypeFault>
    ensures first { result ≡ earlier found now }
    ensures below { (count : ℕ) → HasFaultBelow count found → HasFaultBelow count now → HasFaultBelow count result }
{
    match found {
        Some(fault) => Some(fault),
        None => now,
    }
}

fn broken_in(file: u16, broken: Option<BrokenRule<TypeRule>>) -> Option<TypeFault>
    ensures broken { result ≡ broken_in file broken }
    ensures below { (count : ℕ) → file + 6 < count → HasFaultBelow count result }
{
    match broken {
        Some(found) => Some(TypeFault::Broken {
            file,
            line: u32::from(found.line),
            rule: found.rule,
        }),
        None => None,
    }
}

fn too_large_in(file: u16, too_large: Option<u16>) -> Option<TypeFault>
    ensures broken { result ≡ too_large_in file too_large }
    ensures below { (count : ℕ) → file + 6 < count → HasFaultBelow count result }
{
    let found = BrokenRule {
        line: too_large?,
        rule: TypeRule::FunctionTooLarge,
    };
    broken_in(file, Some(found))
}
