// The rules of a set: N1 to N5, which speak of scripts, parents and imports, and N6 to N12, which speak of the
// members of scripts whose parents are known.
ghost use Rattle.std.specs.Prelude.{◌≡◌, ◌+◌, ◌-◌, ◌<◌, ◌≤◌, ◌↔◌, ◌⊎◌, ◌++◌, length, map, flat_map, take, drop, codes, All, Contains, IfNone, IfOk, IfSome, IsSome, OnOk, IsTrue, false, slice_index_or};
ghost use Rattle.papy_base.specs.Case.{folded, SameIgnoringCase};
ghost use Rattle.script_linker.specs.Link.{IsResolved};
ghost use Rattle.script_linker.specs.Lookup.{HasFewMembers, HasSmallScript, own_function, parents_of, script_name};
ghost use Rattle.script_linker.specs.Rules.{IsBelow, IsNoParent};
ghost use Rattle.papy_base.specs.Circles.{is_marked};
ghost use Rattle.papy_base.specs.Earliest.{FindsAmong};
ghost use Rattle.papy_base.specs.Lineage.{Nearest};
ghost use Rattle.papy_base.specs.Table.{IsPlaceTable, number_in};
ghost use Rattle.script_linker.specs.declared.set.SourceFile.{SourceFile};
ghost use Rattle.script_parser.specs.Lines.{accessors, function_line, heading_lines, import_line, own_lines, property_line, property_lines, state_lines, variable_line};

use crate::declarations::{Declared, note_lines};
use crate::fault::LinkRule;
use crate::scripts::Scripts;
use crate::set::SourceFile;
use crate::signatures::{has_late_parameter, is_accessor, is_plain_event, is_word, same_signature};
use line_parser::TypeName;
use papy_base::{BrokenRule, Earliest, LIBRARY_COUNT, Made, Name, NameTable, PRELUDE_COUNT};
use script_parser::{Function, Property, PropertyForm, Script, State};
use std::alloc::Global;

/// How many files a set has at most.
const FILE_LIMIT: usize = 256;

/// Places of functions and properties have 16 bits, and are below this.
const MEMBER_LIMIT: usize = 65_536;

/// How many different words, texts and documentation texts a file has at most.
const WORD_LIMIT: u32 = 20_000;

/// The first broken rule of N1 to N5 in the script of this number. `names` has the first script of
/// each name, and `file_names` the first that is none of the prelude's; `circles` says which scripts
/// stand on a circle of parents.
pub(crate) fn script_fault(
    files: &[SourceFile],
    names: &NameTable,
    file_names: &NameTable,
    parents: &[Option<usize>],
    circles: &[bool],
    number: usize,
) -> Option<BrokenRule<LinkRule>>
    requires start { 6 ≤ number }
    requires file { number < length files.now }
    requires parents { length parents.now ≡ length files.now }
    requires circles { length circles.now ≡ length files.now }
    requires names { IsPlaceTable script_name files.now names.now }
    requires file_names { IsPlaceTable script_name (drop 6 files.now) file_names.now }
    requires parents_of { parents.now ≡ parents_of files.now }
    ensures line { IfSome result
        (λ found. (file : SourceFile) → Contains (heading_lines (slice_index_or files.now number file).script) found.line) }
    ensures resolved { IfNone result
        ((file : SourceFile) → IsResolved files.now number (slice_index_or files.now number file).script) }
    ensures rooted { IfNone result (is_marked circles.now number ≡ false) }
{
    let script = &files[number].script;
    let mut first = Earliest { found: None };
    let repeats = is_below(file_names.find(&script.name), number - PRELUDE_COUNT);
    first.note_if(repeats, script.line, LinkRule::DuplicateScript);
    let is_prelude = is_below(names.find(&script.name), PRELUDE_COUNT);
    first.note_if(is_prelude, script.line, LinkRule::PreludeName);
    let lacks_parent = lacks_parent(script, parents[number]);
    first.note_if(lacks_parent, script.line, LinkRule::UnknownParent);
    first.note_if(circles[number], script.line, LinkRule::ExtendsCycle);
    judge_imports(names, script.imports.as_slice(), &mut first);
    first.found
}

fn judge_imports(names: &NameTable, imports: &[(u16, Name)], first: &mut Earliest<LinkRule>)
    ensures among { FindsAmong (map import_line imports.now) first.old first.new }
    ensures known { first.new.found ≡ None → All (λ import. IsSome (number_in names.now (folded import.1))) imports.now }
{
    for import in imports {
        let is_unknown = names.find(&import.1).is_none();
        first.note_if(is_unknown, import.0, LinkRule::UnknownImport);
    }
}

fn is_below(found: Option<usize>, limit: usize) -> bool
    ensures { IsTrue result ↔ IsBelow limit found }
{
    found.is_some_and(|number| number < limit)
}

// N3: whether the script names a parent, and can't have this one: none, or a library.
fn lacks_parent(script: &Script, parent: Option<usize>) -> bool
    ensures { IsTrue result ↔ (IsSome script.now.parent × IsNoParent parent) }
{
    script.parent.is_some() && parent.is_none_or(|number| number < LIBRARY_COUNT)
}

/// The first broken rule of N6 to N12 in the script of this number, whose first `declared` functions
/// are its own, and the rest generated.
pub(crate) fn member_fault(
    alloc: Global,
    scripts: &Scripts,
    number: usize,
    declared: usize,
) -> Made<Option<BrokenRule<LinkRule>>>
    requires start { 6 ≤ number }
    requires script { number < length scripts.now }
    ensures line { IfOk result (λ fault. IfSome fault
        (λ found. (file : SourceFile) → Contains (own_lines declared (slice_index_or scripts.now number file).script) found.line)) }
    ensures few { IfOk result (λ fault. IfNone fault
        ((file : SourceFile) → HasSmallScript (slice_index_or scripts.now number file))) }
{
    let script = &scripts.file(number).script;
    let own = first_functions(script.functions.as_slice(), declared);
    let mut first = Earliest { found: None };
    let passes_limit = passes_limit(number - PRELUDE_COUNT, script);
    first.note_if(passes_limit, script.line, LinkRule::Limit);
    judge_fields(alloc, script, &mut first)?;
    judge_functions(alloc, scripts, number, own, Holder::EmptyState, &mut first)?;
    judge_states(alloc, scripts, number, script.states.as_slice(), &mut first)?;
    let properties = script.properties.as_slice();
    judge_properties(alloc, scripts, number, properties, &mut first)?;
    Ok(found_or_limit(first.found, script))
}

fn first_functions(functions: &[Function], count: usize) -> &[Function]
    ensures { result.now ≡ take count functions.now }
{
    if count < functions.len() {
        &functions[..count]
    } else {
        functions
    }
}

// N12, where the script breaks no other rule: so many functions or properties have too many names, or
// a name twice. No file has them.
fn found_or_limit(
    found: Option<BrokenRule<LinkRule>>,
    script: &Script,
) -> Option<BrokenRule<LinkRule>>
    ensures found { IfSome result (λ one. (found ≡ Some one) ⊎ (one.line ≡ script.now.line)) }
    ensures few { IfNone result (HasFewMembers script.now) }
{
    if found.is_none() && !has_few_members(script) {
        return Some(BrokenRule {
            line: script.line,
            rule: LinkRule::Limit,
        });
    }
    found
}

fn has_few_members(script: &Script) -> bool
    ensures { IsTrue result ↔ HasFewMembers script.now }
{
    script.functions.len() < MEMBER_LIMIT && script.properties.len() < MEMBER_LIMIT
}

/// Where functions stand.
#[derive(Clone, Copy)]
enum Holder<'a> {
    EmptyState,
    /// In a state with a name.
    State,
    /// In a property of this type.
    Property(&'a TypeName),
}

// Functions that stand beside one another.
fn judge_functions(
    alloc: Global,
    scripts: &Scripts,
    number: usize,
    functions: &[Function],
    holder: Holder<'_>,
    first: &mut Earliest<LinkRule>,
) -> Made<()>
    requires { number < length scripts.now }
    ensures { OnOk result (FindsAmong (map function_line functions.now) first.old first.new) }
{
    let mut lines = NameTable::new(alloc);
    note_lines(alloc, &mut lines, functions)?;
    for function in functions {
        let is_taken = repeats(&lines, function) || has_reserved_name(function);
        first.note_if(is_taken, function.line, LinkRule::DuplicateMember);
        let is_late = has_late_parameter(function.heading.parameters.as_slice());
        first.note_if(is_late, function.line, LinkRule::DefaultOrder);
        let is_alone = matches!(holder, Holder::State) && stands_alone(scripts, number, function);
        first.note_if(is_alone, function.line, LinkRule::StateFunctionAlone);
        let differs = differs(scripts, number, function, holder);
        first.note_if(differs, function.line, LinkRule::SignatureDiffers);
    }
    Ok(())
}

// The names of variables and properties, which share one name space.
fn judge_fields(alloc: Global, script: &Script, first: &mut Earliest<LinkRule>) -> Made<()>
    ensures { OnOk result (FindsAmong (map variable_line script.now.variables.items ++ map property_line script.now.properties.items) first.old first.new) }
{
    let mut lines = NameTable::new(alloc);
    note_lines(alloc, &mut lines, script.variables.as_slice())?;
    note_lines(alloc, &mut lines, script.properties.as_slice())?;
    judge_names(&lines, script.variables.as_slice(), first);
    judge_names(&lines, script.properties.as_slice(), first);
    Ok(())
}

fn judge_names<T: Declared>(lines: &NameTable, items: &[T], first: &mut Earliest<LinkRule>)
    ensures { FindsAmong (map T.line_of items.now) first.old first.new }
{
    for item in items {
        first.note_if(repeats(lines, item), item.line(), LinkRule::DuplicateMember);
    }
}

fn judge_states(
    alloc: Global,
    scripts: &Scripts,
    number: usize,
    states: &[State],
    first: &mut Earliest<LinkRule>,
) -> Made<()>
    requires { number < length scripts.now }
    ensures { OnOk result (FindsAmong (flat_map state_lines states.now) first.old first.new) }
{
    let mut lines = NameTable::new(alloc);
    note_lines(alloc, &mut lines, states)?;
    let mut has_auto = false;
    for state in states {
        let repeats = repeats(&lines, state);
        first.note_if(repeats, state.line, LinkRule::DuplicateMember);
        let is_second = has_auto && state.is_auto;
        first.note_if(is_second, state.line, LinkRule::TwoAutoStates);
        has_auto = has_auto || state.is_auto;
        let functions = state.functions.as_slice();
        judge_functions(alloc, scripts, number, functions, Holder::State, first)?;
    }
    Ok(())
}

fn judge_properties(
    alloc: Global,
    scripts: &Scripts,
    number: usize,
    properties: &[Property],
    first: &mut Earliest<LinkRule>,
) -> Made<()>
    requires { number < length scripts.now }
    ensures { OnOk result (FindsAmong (flat_map property_lines properties.now) first.old first.new) }
{
    for property in properties {
        let repeats = repeats_inherited(scripts, number, property);
        first.note_if(repeats, property.line, LinkRule::PropertyInParent);
        judge_form(alloc, scripts, number, property, first)?;
    }
    Ok(())
}

fn judge_form(
    alloc: Global,
    scripts: &Scripts,
    number: usize,
    property: &Property,
    first: &mut Earliest<LinkRule>,
) -> Made<()>
    requires { number < length scripts.now }
    ensures { OnOk result (FindsAmong (map function_line (accessors property.now.form)) first.old first.new) }
{
    let PropertyForm::Full(functions) = &property.form else {
        return Ok(());
    };
    let holder = Holder::Property(&property.kind);
    judge_functions(alloc, scripts, number, functions.as_slice(), holder, first)
}

// N6: whether a thing on an earlier line has the name. `lines` has the least line of each name.
fn repeats<T: Declared>(lines: &NameTable, item: &T) -> bool
    ensures { IsTrue result ↔ IsBelow (T.line_of item.now) (number_in lines.now (folded (T.name_of item.now))) }
{
    is_below(lines.find(item.name()), usize::from(item.line()))
}

// N6: whether a function has the name of one that every script has.
fn has_reserved_name(function: &Function) -> bool
    ensures { IsTrue result
        ↔ (SameIgnoringCase function.now.heading.name (codes "GotoState") ⊎ SameIgnoringCase function.now.heading.name (codes "GetState")) }
{
    is_word(&function.heading.name, b"GotoState") || is_word(&function.heading.name, b"GetState")
}

// N8: whether no empty state has a function of the name of this function of a state.
fn stands_alone(scripts: &Scripts, number: usize, function: &Function) -> bool
    requires { number < length scripts.now }
    ensures { IsTrue result
        ↔ Nearest (parents_of scripts.now) (own_function scripts.now function.now.heading.name) number None }
{
    let found = scripts.nearest_function(number, &function.heading.name);
    found.is_none()
}

// N9: whether this function isn't what its holder asks for: in a state that it is neither Global nor Native, in a
// property that it is a `Get` or `Set`, in the empty state of a script without parent that an event of a state
// change is as every such script has it, and else that it is as the one that it replaces.
fn differs(scripts: &Scripts, number: usize, function: &Function, holder: Holder<'_>) -> bool
    requires { number < length scripts.now }
{
    let heading = &function.heading;
    match holder {
        Holder::EmptyState => match scripts.parent(number) {
            Some(parent) => differs_from_nearest(scripts, parent, function),
            None => is_state_event(function) && !is_plain_event(heading),
        },
        Holder::State => {
            heading.is_global
                || heading.is_native
                || differs_from_nearest(scripts, number, function)
        }
        Holder::Property(kind) => !is_accessor(heading, kind),
    }
}

fn differs_from_nearest(scripts: &Scripts, from: usize, function: &Function) -> bool
    requires { from < length scripts.now }
{
    let Some((script, place)) = scripts.nearest_function(from, &function.heading.name) else {
        return false;
    };
    let replaced = &scripts.file(script).script.functions[place];
    !same_signature(&replaced.heading, &function.heading)
}

fn is_state_event(function: &Function) -> bool {
    is_word(&function.heading.name, b"OnBeginState")
        || is_word(&function.heading.name, b"OnEndState")
}

// N10: whether a parent has a property of this one's name.
fn repeats_inherited(scripts: &Scripts, number: usize, property: &Property) -> bool
    requires { number < length scripts.now }
{
    match scripts.parent(number) {
        Some(parent) => scripts.nearest_property(parent, &property.name).is_some(),
        None => false,
    }
}

// N12: whether the file comes after the last that a set may have, or has too many words.
fn passes_limit(file: usize, script: &Script) -> bool
    ensures { IsTrue result ↔ ((256 ≤ file) ⊎ (20000 < script.now.words)) }
{
    file >= FILE_LIMIT || script.words > WORD_LIMIT
}
