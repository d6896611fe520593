ghost use Rattle.std.specs.Prelude.{◌≡◌, ℕ, ◌+◌, ◌-◌, ◌<◌, ◌≤◌, All, drop, length, map, false, slice_index_or, take, IfOk, IfErr, OnOk, vec_len};
ghost use Rattle.script_linker.specs.declared.fault.LinkFault.TheVariants.{Broken};
ghost use Rattle.script_linker.specs.declared.set.SourceFile.{SourceFile};
ghost use Rattle.script_linker.specs.Generated.{AreStandard, HaveGiven, standard_scripts};
ghost use Rattle.script_linker.specs.Lookup.{HasSmallScript, StartsWithPrelude, parents_of, script_name};
ghost use Rattle.papy_base.specs.Circles.{is_marked};
ghost use Rattle.papy_base.specs.Table.{IsPlaceTable};
ghost use Rattle.script_parser.specs.Lines.{heading_lines};
ghost use Rattle.script_linker.specs.Link.{AreFilesOf, AreResolved, IsFaultOf, IsFaultOn, declared_lines, function_count};

use crate::fault::{LinkFault, LinkRule};
use crate::parents::parent_numbers;
use crate::prelude::{add_generated, prelude_files};
use crate::rules::{member_fault, script_fault};
use crate::scripts::Scripts;
use crate::set::{ScriptSet, SourceFile};
use papy_base::{BrokenRule, Made, NameTable, PRELUDE_COUNT, on_circles};
use std::alloc::Global;

/// The set of these files, of which there are fewer than 65,530.
///
/// `Broken` comes where a rule of a set is broken, with the first one: those of N1 to N5 over all files
/// stand before those of N6 to N12, and each of the two lists is in order of file, line and rule.
pub fn link(alloc: Global, mut files: Vec<SourceFile>) -> Result<ScriptSet, LinkFault>
    requires { vec_len files < 65530 }
    ensures files { IfOk result (AreFilesOf files.items) }
    ensures given { IfOk result (λ set. HaveGiven files.items (drop 6 set)) }
    ensures prelude { IfOk result StartsWithPrelude }
    ensures standard { IfOk result (λ set. AreStandard standard_scripts (take 6 set)) }
    ensures resolved { IfOk result AreResolved }
    ensures broken { IfErr result (IsFaultOf files.items) }
{
    let declared = function_counts(alloc, files.as_slice())?;
    add_generated(alloc, &mut files)?;
    let set = behind_prelude(alloc, files)?;
    link_set(alloc, set, declared.as_slice())
}

fn function_counts(alloc: Global, files: &[SourceFile]) -> Made<Vec<usize>>
    ensures { IfOk result (λ counts. counts.items ≡ map function_count files.now) }
{
    let mut counts = Vec::with_capacity(alloc, files.len())?;
    for file in files {
        counts.push(file.script.functions.len())?;
    }
    Ok(counts)
}

// The prelude's files, and then these.
fn behind_prelude(alloc: Global, mut files: Vec<SourceFile>) -> Made<Vec<SourceFile>>
    ensures start { IfOk result (λ set. StartsWithPrelude set.items) }
    ensures standard { IfOk result (λ set. AreStandard standard_scripts (take 6 set.items)) }
    ensures small { IfOk result (λ set. All HasSmallScript (take 6 set.items)) }
    ensures count { IfOk result (λ set. vec_len set ≡ vec_len files + 6) }
    ensures files { IfOk result (λ set. drop 6 set.items ≡ files.items) }
{
    let mut set = prelude_files(alloc)?;
    set.append(&mut files)?;
    Ok(set)
}

// The set of these files, of whose functions the first ones, as many as `declared` says of each file
// behind the prelude, are their own.
fn link_set(
    alloc: Global,
    files: Vec<SourceFile>,
    declared: &[usize],
) -> Result<ScriptSet, LinkFault>
    requires start { StartsWithPrelude files.items }
    requires small { All HasSmallScript (take 6 files.items) }
    requires count { vec_len files < 65536 }
    requires declared { length declared.now + 6 ≡ vec_len files }
    ensures files { IfOk result (λ set. set ≡ files.items) }
    ensures resolved { IfOk result AreResolved }
    ensures broken { IfErr result (IsFaultOn (declared_lines declared.now) files.items) }
{
    let names = NameTable::of_places(alloc, files.as_slice())?;
    let parents = parent_numbers(alloc, files.as_slice(), &names)?;
    let circles = on_circles(alloc, parents.as_slice())?;
    judge_scripts(alloc, files.as_slice(), &names, &parents, &circles)?;
    let scripts = Scripts::new(alloc, files, parents)?;
    judge_members(alloc, &scripts, declared)?;
    Ok(ScriptSet { scripts })
}

// N1 to N5, in order of file, line and rule.
fn judge_scripts(
    alloc: Global,
    files: &[SourceFile],
    names: &NameTable,
    parents: &[Option<usize>],
    circles: &[bool],
) -> Result<(), LinkFault>
    requires start { 6 ≤ length files.now }
    requires count { length files.now < 65536 }
    requires parents { length parents.now ≡ length files.now }
    requires circles { length circles.now ≡ length files.now }
    requires names { IsPlaceTable script_name files.now names.now }
    requires parents_of { parents.now ≡ parents_of files.now }
    ensures resolved { OnOk result (AreResolved files.now) }
    ensures rooted { OnOk result ((n : ℕ) → 6 ≤ n → n < length files.now → is_marked circles.now n ≡ false) }
    ensures broken { IfErr result (IsFaultOn (λ file. heading_lines) files.now) }
{
    let file_names = NameTable::of_places(alloc, &files[PRELUDE_COUNT..])?;
    for number in PRELUDE_COUNT..files.len() {
        if let Some(found) = script_fault(files, names, &file_names, parents, circles, number) {
            return Err(fault(number, found));
        }
    }
    Ok(())
}

// N6 to N12, in order of file, line and rule. Of each script the first `declared` functions are its
// own, and the rest generated.
fn judge_members(alloc: Global, scripts: &Scripts, declared: &[usize]) -> Result<(), LinkFault>
    requires count { length scripts.now < 65536 }
    requires declared { length declared.now + 6 ≡ length scripts.now }
    ensures few { OnOk result
        ((n : ℕ) (file : SourceFile) → 6 ≤ n → n < length scripts.now → HasSmallScript (slice_index_or scripts.now n file)) }
    ensures broken { IfErr result (IsFaultOn (declared_lines declared.now) scripts.now) }
{
    for number in PRELUDE_COUNT..scripts.count() {
        let own = declared[number - PRELUDE_COUNT];
        if let Some(found) = member_fault(alloc, scripts, number, own)? {
            return Err(fault(number, found));
        }
    }
    Ok(())
}

fn fault(number: usize, found: BrokenRule<LinkRule>) -> LinkFault
    requires file { 6 ≤ number }
    requires count { number < 65536 }
    ensures { result ≡ Broken (number - 6) found.line found.rule }
{
    LinkFault::Broken {
        file: (number - PRELUDE_COUNT) as u16,
        line: u32::from(found.line),
        rule: found.rule,
    }
}
